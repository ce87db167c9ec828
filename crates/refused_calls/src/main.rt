//! Makes one call of the crates for users, or each, on inputs of its own, and prints in a line what
//! it answers and what it leaves. `tools/refuse-memory` refuses the program's requests for memory
//! in turn, and reads that line.
//!
//! The arguments are what the call belongs to and its name; without any each call is made. The
//! status is 0 where an answer was printed, 3 where memory was refused before the call or after it,
//! 2 where there is no such call, 4 where a write failed, and 5 where inputs can't be used.
#![tactic(auto)]

mod answer;
mod call;
mod converse;
mod forms;
mod matrices;
mod schemes;
mod settings;
mod transcripts;
mod tree;

use crate::answer::{Fault, Name, Result};
use crate::call::{CALLS, Call};
use crate::settings::{Hiding, Plain};
use p3_challenger::fs::{Prover, Verifier};
use p3_field::BabyBear;
use p3_mmcs::Sha256Mmcs;
use std::env;
use std::process::ExitCode;

/// Makes a call and prints what it answers after this name.
fn make(rt: &HostRuntime, name: Name, call: &Call) -> Result<()> {
    match call {
        Call::Plain(call) => schemes::make::<Plain>(rt, name, call),
        Call::Hiding(call) => schemes::make::<Hiding>(rt, name, call),
        Call::Prover(call) => transcripts::begin::<Prover>(rt, name, call),
        Call::Verifier(call) => transcripts::begin::<Verifier>(rt, name, call),
        Call::Tree(call) => tree::make(rt, name, call, &Sha256Mmcs::<BabyBear>::new()),
        Call::FromPlain => forms::tell_from_plain(rt, name),
        Call::Interpolate(call) => converse::interpolate(rt, name, call),
        Call::Unquotient => converse::tell_unquotient(rt, name),
        Call::UnfoldTree => converse::tell_unfold_tree(rt, name),
    }
}

/// Makes the call that the arguments name, or each where there are none.
fn run(rt: &HostRuntime) -> Result<()> {
    let args: Vec<String> = env::args(rt)?.collect(rt.alloc())?;
    let mut is_known = false;
    for (name, call) in &CALLS {
        let is_asked = match args.as_slice() {
            [] | [_] => true,
            [_, subject, own] => (subject.as_str(), own.as_str()) == *name,
            _ => false,
        };
        if is_asked {
            make(rt, *name, call)?;
            is_known = true;
        }
    }
    if is_known { Ok(()) } else { Err(Fault::Name) }
}

fn main(rt: HostRuntime) -> ExitCode {
    match run(&rt) {
        Ok(()) => ExitCode::from(0),
        Err(Fault::Name) => ExitCode::from(2),
        Err(Fault::Memory) => ExitCode::from(3),
        Err(Fault::Output) => ExitCode::from(4),
        Err(Fault::Inputs) => ExitCode::from(5),
    }
}
