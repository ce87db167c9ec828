//! Tests of the plain forms of a STARK: of its constraint system, a trace and a proof.
#![tactic(auto)]

#[cfg(test)]
mod forms;
#[cfg(test)]
mod given;
#[cfg(test)]
mod traces;
#[cfg(test)]
mod verified;
