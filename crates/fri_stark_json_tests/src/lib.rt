//! Tests of a STARK over JSON texts, by both schemes.
#![tactic(auto)]

#[cfg(test)]
mod answers;
#[cfg(test)]
mod texts;
