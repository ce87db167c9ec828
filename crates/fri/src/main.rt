//! Commits to matrices, opens them at points and verifies such openings, over files in JSON.
#![tactic(auto)]

mod command;
mod files;

use crate::command::run;
use std::process::ExitCode;

fn main(rt: HostRuntime) -> ExitCode {
    ExitCode::from(run(&rt))
}
