//! Tests of `p3_fri_hiding`, at BabyBear, its quartic extension, SHA-256 and ChaCha: what it
//! commits to, what it opens, and both, with the quotient and the random polynomials of a STARK
//! prover.
#![tactic(auto)]

#[cfg(test)]
mod asked;
#[cfg(test)]
mod budgets;
#[cfg(test)]
mod commitments;
#[cfg(test)]
mod committable;
#[cfg(test)]
mod kind;
#[cfg(test)]
mod lists;
#[cfg(test)]
mod masks;
#[cfg(test)]
mod matrices;
#[cfg(test)]
mod openable;
#[cfg(test)]
mod openings;
#[cfg(test)]
mod scheme;
#[cfg(test)]
mod schemes;
#[cfg(test)]
mod tested;
#[cfg(test)]
mod turns;
