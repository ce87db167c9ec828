//! Tests of `p3_uni_stark_transcript` and `p3_uni_stark_verifier`.
#![tactic(auto)]

mod belief;
#[cfg(test)]
mod believing;
#[cfg(test)]
mod made;
#[cfg(test)]
mod numbers;
#[cfg(test)]
mod shown;
#[cfg(test)]
mod transcript;
#[cfg(test)]
mod verifier;
