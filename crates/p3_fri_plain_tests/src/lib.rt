//! Tests of the plain form of proofs.
#![tactic(auto)]

#[cfg(test)]
mod fields;
#[cfg(test)]
mod forms;
#[cfg(test)]
mod line;
#[cfg(test)]
mod refused;
