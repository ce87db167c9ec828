//! Asks the verifiers about altered openings, and compares their answers with those that the
//! program in `tools/relation` worked out by itself. Prints how many changes were made of each
//! opening, and by each operation.
#![tactic(auto)]

mod answer;
mod opening;

use crate::answer::Schemes;
use alterations::report_on;
use anyhow::Result;

/// The openings, each in a file of its own.
static OPENINGS: [&str; 15] = [
    "line",
    "constant",
    "square_by_four",
    "two_heights",
    "two_points",
    "two_commitments",
    "empty_commitment",
    "longer_final_polynomial",
    "batch_work",
    "round_work",
    "query_work",
    "three_heights",
    "hiding",
    "hiding_without_preprocessing",
    "all_points_of_the_coset",
];

fn main(rt: HostRuntime) -> Result<()> {
    report_on::<Schemes>(&rt, "/opening", &OPENINGS)
}
