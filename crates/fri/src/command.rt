//! The commands of the program.

use crate::files::text_of;
use fri_json::{Command, OUT_OF_MEMORY, WRITE_FAILED, answer, read_expected};
use std::io::{ErrorKind, Write};
use std::{env, io};

/// The status where the arguments or a file aren't good.
const BAD_ARGUMENTS: u8 = 2;

/// What `--help` prints.
const HELP: &str = "fri: the FRI polynomial commitment scheme over files.

    fri commit FILE..    prints the commitments of a request, one a line
    fri open FILE..      prints a request's values with their proof, as one line of JSON
    fri verify FILE..    prints 'accepted' and what was, or 'refused: ' and why
    fri verify --expect EXPECTED FILE..
                         and refuses what isn't the expected statement

FILE is a file in JSON, or - for standard input. Files are taken in turn, up to the
first that isn't answered. The status is 0, 1 where a file is refused, 2 where it isn't
well formed, 3 for want of memory, and 4 where a write fails. Before a commitment to 2^24
extended values or more, a line on standard error says to how many; and after a proof of
fewer than 80 conjectured bits of soundness one says of how many.

A request has a context, which is any bytes in hex that the proof is bound to, parameters,
and matrices by commitment, each on a domain of 2^log_size points, row by row, with the
points to open it at. A number is an element of the \"field\": \"BabyBear\" where none is
named, \"KoalaBear\" or \"Goldilocks\". Four are one of its extension, of Goldilocks two.
The column 1, 3 opened at 5:

    {\"context\": \"\",
     \"parameters\": {\"log_blowup\": 1, \"log_final_poly_len\": 0, \"max_log_arity\": 1,
       \"num_queries\": 2, \"batch_proof_of_work_bits\": 0,
       \"commit_proof_of_work_bits\": 0, \"query_proof_of_work_bits\": 0},
     \"commitments\": [{\"matrices\": [{\"domain\": {\"shift\": 1, \"log_size\": 1},
       \"width\": 1, \"values\": [1, 3], \"points\": [[5, 0, 0, 0]]}]}]}

    fri open column.json | fri verify -

'fri verify' takes the field, context, parameters, commitments, domains and points that the
file names: whoever relies on 'accepted' compares what is printed below it, the field where
it isn't BabyBear, with what was expected, or has EXPECTED: a statement without its proof,
and if need be without values.
";

/// What comes before the name of what is expected.
const EXPECT: &str = "--expect";

/// Writes the text whole, and gives `status`, or `WRITE_FAILED` where that fails.
fn report<W: Write>(to: &mut W, text: &str, status: u8) -> u8 {
    if to.write_all(text.as_bytes()).is_err() || to.flush().is_err() {
        return WRITE_FAILED;
    }
    status
}

/// Writes that a file can't be read, and gives the status.
fn report_unread(rt: &HostRuntime, file: &str, error: io::Error) -> u8 {
    let status = match error.kind() {
        ErrorKind::OutOfMemory => OUT_OF_MEMORY,
        _ => BAD_ARGUMENTS,
    };
    match eprintln!(rt; "fri: {file}: cannot be read: {error}") {
        Ok(()) => status,
        Err(_) => WRITE_FAILED,
    }
}

/// Answers one file.
fn run_file(rt: &HostRuntime, command: Command<'_>, file: &str) -> u8 {
    let text = match text_of(rt, file) {
        Ok(text) => text,
        Err(error) => return report_unread(rt, file, error),
    };
    let mut out = rt.stdout();
    let status = answer(
        rt.alloc(),
        command,
        file,
        text.as_str(),
        &mut out,
        &mut rt.stderr(),
    );
    match out.flush() {
        Ok(()) => status,
        Err(_) => WRITE_FAILED,
    }
}

/// Answers the files in turn, up to the first that isn't answered.
fn run_files(rt: &HostRuntime, command: Command<'_>, files: &[String]) -> u8 {
    for file in files {
        let status = run_file(rt, command, file.as_str());
        if status != 0 {
            return status;
        }
    }
    0
}

/// Verifies the files, and compares each with the expected statement of a file.
fn verify_expected(rt: &HostRuntime, expected: &str, files: &[String]) -> u8 {
    let text = match text_of(rt, expected) {
        Ok(text) => text,
        Err(error) => return report_unread(rt, expected, error),
    };
    match read_expected(rt.alloc(), expected, text.as_str(), &mut rt.stderr()) {
        Ok(expected) => run_files(rt, Command::VerifyExpected(&expected), files),
        Err(status) => status,
    }
}

/// Whether an argument names a file: a flag doesn't.
fn is_file(name: &str) -> bool {
    name == "-" || !name.starts_with('-')
}

/// Whether the arguments name some files, and nothing else.
fn are_files(args: &[String]) -> bool {
    for file in args {
        if !is_file(file.as_str()) {
            return false;
        }
    }
    !args.is_empty()
}

/// Does what the command's arguments ask for, and gives the status.
fn run_command(rt: &HostRuntime, command: Command<'_>, args: &[String]) -> u8 {
    if are_files(args) {
        return run_files(rt, command, args);
    }
    match (command, args) {
        (Command::Verify, [flag, expected, files @ ..])
            if flag.as_str() == EXPECT && is_file(expected.as_str()) && are_files(files) => {
            verify_expected(rt, expected.as_str(), files)
        },
        _ => report(&mut rt.stderr(), HELP, BAD_ARGUMENTS),
    }
}

/// The arguments past the program's name.
fn arguments(rt: &HostRuntime) -> io::Result<Vec<String>> {
    Ok(env::args(rt)?.skip(1).collect(rt.alloc())?)
}

/// Does what the arguments ask for, and gives the status.
fn run_arguments(rt: &HostRuntime, args: &[String]) -> u8 {
    let Some((name, args)) = args.split_first() else {
        return report(&mut rt.stderr(), HELP, BAD_ARGUMENTS);
    };
    if name.as_str() == "--help" {
        return report(&mut rt.stdout(), HELP, 0);
    }
    match Command::named(name.as_str()) {
        Some(command) => run_command(rt, command, args),
        None => report(&mut rt.stderr(), HELP, BAD_ARGUMENTS),
    }
}

/// Does what the program's arguments ask for, and gives the exit status.
pub fn run(rt: &HostRuntime) -> u8 {
    match arguments(rt) {
        Ok(args) => run_arguments(rt, &args),
        Err(error) if error.kind() == ErrorKind::InvalidData => {
            report(&mut rt.stderr(), HELP, BAD_ARGUMENTS)
        },
        Err(_) => report(&mut rt.stderr(), "fri: out of memory\n", OUT_OF_MEMORY),
    }
}
