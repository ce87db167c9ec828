//! Holds traces against constraint systems, makes proofs of them and verifies such proofs, over
//! files in JSON.
#![tactic(auto)]

mod command;
mod files;
mod report;

use crate::command::run;
use std::process::ExitCode;

fn main(rt: HostRuntime) -> ExitCode {
    ExitCode::from(run(&rt))
}
