//! Tests of commitments.
#![tactic(auto)]

#[cfg(test)]
mod openings;
#[cfg(test)]
mod refusals;
#[cfg(test)]
mod sha256_mmcs;
#[cfg(test)]
mod trees;
