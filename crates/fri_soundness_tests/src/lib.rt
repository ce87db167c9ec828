//! Tests of `fri_soundness`, `fri_soundness_error` and `p3_mmcs_binding`.
#![tactic(auto)]

#[cfg(test)]
mod collisions;
#[cfg(test)]
mod curves;
#[cfg(test)]
mod numbers;
