//! Asks the verifier of STARKs, in both schemes, about altered statements and proofs, and compares
//! its answers with those that the program in `tools/relation` worked out by itself. Prints how
//! many changes were made of each STARK, and by each operation.
#![tactic(auto)]

mod answer;
mod statement;

use crate::answer::Schemes;
use alterations::report_on;
use anyhow::Result;

/// The STARKs, each in a file of its own.
const STARKS: [&str; 15] = [
    "bits",
    "one_row",
    "no_constraints",
    "mixed",
    "hidden_mixed",
    "broken_first",
    "broken_hidden_first",
    "broken_last",
    "broken_hidden_last",
    "broken_transition",
    "broken_hidden_transition",
    "broken_all",
    "broken_hidden_all",
    "too_short_one_row",
    "too_short_two_rows",
];

fn main(rt: HostRuntime) -> Result<()> {
    report_on::<Schemes>(&rt, "/stark", &STARKS)
}
