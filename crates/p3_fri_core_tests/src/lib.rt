//! Tests of the parameters, the folds and the transcripts. Like cases stand in a table, and one
//! function runs each of them, since every function, call and early return is proved too.
#![tactic(auto)]

#[cfg(test)]
mod config;
#[cfg(test)]
mod folding;
#[cfg(test)]
mod laws;
#[cfg(test)]
mod pcs_transcript;
#[cfg(test)]
mod run;
#[cfg(test)]
mod shapes;
#[cfg(test)]
mod texts;
#[cfg(test)]
mod transcript;
