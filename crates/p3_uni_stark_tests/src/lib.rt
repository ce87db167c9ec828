//! Tests of `p3_uni_stark_identity` and `p3_uni_stark_quotient`.
#![tactic(auto)]

#[cfg(test)]
mod identity;
#[cfg(test)]
mod numbers;
#[cfg(test)]
mod quotient;
#[cfg(test)]
mod selectors;
#[cfg(test)]
mod systems;
