//! The commands of the program.

use crate::files::{bytes_of, text_of};
use crate::report::{
    WRITE_FAILED, report, report_failure, report_file, report_out_of_memory, report_unread,
    report_verdict,
};
use fri_stark_json::{
    Accepted, Coset, Failure, HidingScheme, MALFORMED, MadeScheme, PlainScheme, PublicValues,
    Refusal, System, Trace, check, prove, read, seed_of, verify,
};
use p3_field::{BabyBear, BabyBear4};
use p3_fri_folding::FriProverError;
use p3_fri_plain::Plain;
use serde::{Deserialize, Serialize};
use std::io::ErrorKind;
use std::{env, io};

/// What `--help` prints.
const HELP: &str = "fri_stark: a STARK over files.

    fri_stark check AIR TRACE            prints 'satisfied', or 'refused: ' and why
    fri_stark prove AIR TRACE            prints a proof, as one line of JSON
    fri_stark prove --hiding SEED AIR TRACE
                                         of the scheme that hides, with masks from the seed
    fri_stark verify AIR PUBLICS PROOF   prints 'accepted' and what was, or 'refused: ' and why
    fri_stark verify --hiding AIR PUBLICS PROOF
                                         of a proof of the scheme that hides

AIR, TRACE, PUBLICS and PROOF are files in JSON, or - for standard input. AIR has the constraint
system, with its preprocessed and periodic columns and the scheme's parameters: it is the
verifier's own, and with PUBLICS says all that an accepted proof shows. TRACE has the trace with
the public values, and PUBLICS these alone; a TRACE is a PUBLICS too. SEED is a file of 32 bytes
that nobody can guess and that no other proof had. The status is 0, 1 where a trace or a proof is
refused, 2 where a file isn't well formed, 3 for want of memory, and 4 where a write fails.
After a proof of fewer than 80 conjectured bits of soundness a line on standard error says of
how many.
";

/// Asks for the scheme that hides.
const HIDING: &str = "--hiding";

/// Of fewer conjectured bits of soundness a verifier warns.
const FEW_BITS: usize = 80;

/// The text of a file; or writes why there is none, and gives the status.
fn text_in(rt: &HostRuntime, file: &String) -> Result<String, u8> {
    match text_of(rt, file.as_str()) {
        Ok(text) => Ok(text),
        Err(error) => Err(report_unread(rt, file.as_str(), error)),
    }
}

/// The record in a file's text; or writes why there is none, and gives the status.
fn record_in<'de, T: Deserialize<'de>>(
    rt: &HostRuntime,
    file: &String,
    text: &'de str,
) -> Result<T, u8> {
    let record: Result<T, Failure<FriProverError>> = read(rt.alloc(), text);
    match record {
        Ok(record) => Ok(record),
        Err(failure) => Err(report_file(rt, file.as_str(), &failure)),
    }
}

/// The seed in a file; or writes why there is none, and gives the status.
fn seed_in(rt: &HostRuntime, file: &String) -> Result<[u8; 32], u8> {
    let bytes = match bytes_of(rt, file.as_str()) {
        Ok(bytes) => bytes,
        Err(error) => return Err(report_unread(rt, file.as_str(), error)),
    };
    let seed: Result<[u8; 32], Failure<FriProverError>> = seed_of(bytes.as_slice());
    match seed {
        Ok(seed) => Ok(seed),
        Err(failure) => Err(report_file(rt, file.as_str(), &failure)),
    }
}

/// The system in a file; or writes why there is none, and gives the status.
fn system_in(rt: &HostRuntime, air: &String) -> Result<System, u8> {
    let text = text_in(rt, air)?;
    record_in(rt, air, text.as_str())
}

/// The trace in a file; or writes why there is none, and gives the status.
fn trace_in(rt: &HostRuntime, trace: &String) -> Result<Trace, u8> {
    let text = text_in(rt, trace)?;
    record_in(rt, trace, text.as_str())
}

/// The public values in a file; or writes why there are none, and gives the status.
fn public_values_in(rt: &HostRuntime, publics: &String) -> Result<PublicValues, u8> {
    let text = text_in(rt, publics)?;
    record_in(rt, publics, text.as_str())
}

/// Holds a trace against a system.
fn run_check(rt: &HostRuntime, air: &String, trace: &String) -> Result<u8, u8> {
    let system = system_in(rt, air)?;
    let trace = trace_in(rt, trace)?;
    match check(rt.alloc(), &system, &trace) {
        Ok(()) => Ok(report(&mut rt.stdout(), "satisfied\n", 0)),
        Err(error) => {
            let failure: Failure<FriProverError> = Failure::Trace(error);
            Err(report_verdict(rt, &failure))
        },
    }
}

/// Prints a proof that the trace satisfies the system, or why there is none.
fn print_proof<P: MadeScheme<BabyBear, BabyBear4, Coset>>(
    rt: &HostRuntime,
    system: &System,
    trace: &Trace,
    seed: [u8; 32],
) -> u8
where
    P::ProverError: Refusal,
    P::Proof: Plain<Value = P::Proof>,
    <P::Proof as Plain>::Form: Serialize,
{
    let mut line = match prove::<P>(rt.alloc(), system, trace, seed) {
        Ok(line) => line,
        Err(failure) => return report_failure(rt, &failure),
    };
    match line.push_str("\n") {
        Ok(()) => report(&mut rt.stdout(), line.as_str(), 0),
        Err(_) => report_out_of_memory(rt),
    }
}

/// Proves that a trace satisfies a system, in the scheme that hides if there is a file with a seed.
fn run_prove(
    rt: &HostRuntime,
    seed: Option<&String>,
    air: &String,
    trace: &String,
) -> Result<u8, u8> {
    let system = system_in(rt, air)?;
    let trace = trace_in(rt, trace)?;
    match seed {
        // the plain scheme draws nothing
        None => Ok(print_proof::<PlainScheme>(rt, &system, &trace, [0; 32])),
        Some(file) => {
            let seed = seed_in(rt, file)?;
            Ok(print_proof::<HidingScheme>(rt, &system, &trace, seed))
        },
    }
}

/// Prints what was accepted.
fn print_accepted(rt: &HostRuntime, accepted: Accepted) -> u8 {
    let (log_height, bits) = (accepted.log_height, accepted.soundness_bits);
    if bits < FEW_BITS {
        // the answer doesn't hang on it: its last line has the number
        let _ = eprintln!(rt; "fri_stark: {bits} conjectured bits of soundness, below {FEW_BITS}");
    }
    match println!(rt; "accepted\nlog_height {log_height}\nconjectured soundness bits {bits}") {
        Ok(()) => 0,
        Err(_) => WRITE_FAILED,
    }
}

/// Prints what is accepted of a file's proof, or why it is refused.
fn print_verdict<'de, P: MadeScheme<BabyBear, BabyBear4, Coset>>(
    rt: &HostRuntime,
    system: &System,
    publics: &PublicValues,
    proof: &String,
    text: &'de str,
) -> u8
where
    P::ProverError: Refusal,
    P::Proof: Plain<Value = P::Proof>,
    <P::Proof as Plain>::Form: Deserialize<'de>,
{
    match verify::<P>(rt.alloc(), system, publics, text) {
        Ok(accepted) => print_accepted(rt, accepted),
        Err(failure) if failure.is_of_form() => report_file(rt, proof.as_str(), &failure),
        Err(failure) => report_verdict(rt, &failure),
    }
}

/// Verifies a proof, of the scheme that hides if `hides` says so.
fn run_verify(
    rt: &HostRuntime,
    hides: bool,
    air: &String,
    publics: &String,
    proof: &String,
) -> Result<u8, u8> {
    let system = system_in(rt, air)?;
    let publics = public_values_in(rt, publics)?;
    let text = text_in(rt, proof)?;
    if hides {
        return Ok(print_verdict::<HidingScheme>(rt, &system, &publics, proof, text.as_str()));
    }
    Ok(print_verdict::<PlainScheme>(rt, &system, &publics, proof, text.as_str()))
}

/// Does what the command's arguments ask for, and gives the status.
fn run_command(rt: &HostRuntime, name: &str, args: &[String]) -> Result<u8, u8> {
    match (name, args) {
        ("check", [air, trace]) => run_check(rt, air, trace),
        ("prove", [air, trace]) => run_prove(rt, None, air, trace),
        ("prove", [flag, seed, air, trace]) if flag.as_str() == HIDING => {
            run_prove(rt, Some(seed), air, trace)
        },
        ("verify", [air, publics, proof]) => run_verify(rt, false, air, publics, proof),
        ("verify", [flag, air, publics, proof]) if flag.as_str() == HIDING => {
            run_verify(rt, true, air, publics, proof)
        },
        ("--help", []) => Ok(report(&mut rt.stdout(), HELP, 0)),
        _ => Err(report(&mut rt.stderr(), HELP, MALFORMED)),
    }
}

/// The arguments past the program's name.
fn arguments(rt: &HostRuntime) -> io::Result<Vec<String>> {
    Ok(env::args(rt)?.skip(1).collect(rt.alloc())?)
}

/// Does what the program's arguments ask for, and gives the exit status.
pub fn run(rt: &HostRuntime) -> u8 {
    let args = match arguments(rt) {
        Ok(args) => args,
        Err(error) if error.kind() == ErrorKind::InvalidData => {
            return report(&mut rt.stderr(), HELP, MALFORMED);
        },
        Err(_) => return report_out_of_memory(rt),
    };
    let Some((name, args)) = args.split_first() else {
        return report(&mut rt.stderr(), HELP, MALFORMED);
    };
    match run_command(rt, name.as_str(), args) {
        Ok(status) | Err(status) => status,
    }
}
