//! Folds words of field elements, as the FRI low-degree test does, and opens committed columns,
//! from the command line.
#![tactic(auto)]

use fri_commands::report_out_of_memory;
pub use fri_commands::run;
use std::io::ErrorKind;
use std::process::ExitCode;
use std::{env, io};

/// The arguments past the program's name.
fn arguments(rt: &HostRuntime) -> io::Result<Vec<String>> {
    Ok(env::args(rt)?.skip(1).collect(rt.alloc())?)
}

fn main(rt: HostRuntime) -> ExitCode {
    let (mut out, mut err) = (rt.stdout(), rt.stderr());
    let status = match arguments(&rt) {
        Ok(args) => run(rt.alloc(), &args, &mut out, &mut err),
        // An argument that isn't text: there is no such command.
        Err(error) if error.kind() == ErrorKind::InvalidData => {
            run(rt.alloc(), &[], &mut out, &mut err)
        }
        Err(_) => report_out_of_memory(&mut err),
    };
    ExitCode::from(status)
}
