//! Tests of the verifier, of the proofs' types and of the refusals.
#![tactic(auto)]

#[cfg(test)]
mod answers;
#[cfg(test)]
mod cases;
#[cfg(test)]
mod claims;
#[cfg(test)]
mod commitments;
#[cfg(test)]
mod error;
#[cfg(test)]
mod extra_bits;
#[cfg(test)]
mod honest;
#[cfg(test)]
mod instances;
#[cfg(test)]
mod laws;
#[cfg(test)]
mod lists;
#[cfg(test)]
mod proof;
