//! Tests of what a prover extends and opens, and of the words of quotients.
#![tactic(auto)]

#[cfg(test)]
mod evaluations;
#[cfg(test)]
mod extended;
#[cfg(test)]
mod opened;
#[cfg(test)]
mod requests;
#[cfg(test)]
mod rounds;
#[cfg(test)]
mod words;
