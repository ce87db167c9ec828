//! Tests of `p3_fri_hiding_openings`.
#![tactic(auto)]

#[cfg(test)]
mod append;
#[cfg(test)]
mod claims;
#[cfg(test)]
mod numbers;
#[cfg(test)]
mod split;
#[cfg(test)]
mod verify;
