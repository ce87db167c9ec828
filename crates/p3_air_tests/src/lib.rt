//! Tests of `p3_air`.
#![tactic(auto)]

#[cfg(test)]
mod faults;
#[cfg(test)]
mod systems;
#[cfg(test)]
mod tables;
#[cfg(test)]
mod traces;
