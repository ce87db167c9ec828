//! Tests of `p3_uni_stark_prover` together with `p3_uni_stark_verifier`, over both schemes.
#![tactic(auto)]

#[cfg(test)]
mod cases;
#[cfg(test)]
mod commits;
#[cfg(test)]
mod forms;
#[cfg(test)]
mod instances;
#[cfg(test)]
mod outcomes;
#[cfg(test)]
mod proving;
#[cfg(test)]
mod schemes;
