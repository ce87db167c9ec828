//! Tests of packed elements and of folds by lanes, and a field without lanes for them; and of
//! SHA-256 of eight messages at once.
#![tactic(auto)]

#[cfg(test)]
mod digests;
#[cfg(test)]
mod folds;
#[cfg(test)]
mod lanes;
pub mod one_lane;
