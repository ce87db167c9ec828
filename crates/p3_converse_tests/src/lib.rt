//! Tests of `p3_converse`.
#![tactic(auto)]

#[cfg(test)]
mod lists;
#[cfg(test)]
mod trees;
#[cfg(test)]
mod unfolding;
#[cfg(test)]
mod words;
