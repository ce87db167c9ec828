//! Tests of the prover.
#![tactic(auto)]

#[cfg(test)]
mod changes;
#[cfg(test)]
mod heights;
#[cfg(test)]
mod heights_joined;
#[cfg(test)]
mod line;
#[cfg(test)]
mod proofs;
#[cfg(test)]
mod unsolved;
