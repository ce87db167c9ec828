//! The commands of the program `fri`, each over one text.

use crate::difference::first_difference;
use crate::expected::Expected;
use crate::opening::open_request;
use crate::records::Accepted;
use crate::request::{Asked, commit_request, request_of};
use crate::statement::accept;
use crate::summary::accepted_lines;
use crate::{Failure, REFUSED, expected_of};
use fri_requests::Request;
use std::alloc::Global;
use std::io::Write;

/// The status where a write failed.
pub const WRITE_FAILED: u8 = 4;

/// From so many values of extended matrices on a commitment takes about a second or more.
const MANY_VALUES: usize = 1 << 24;

/// Of fewer conjectured bits of soundness a verifier warns.
const FEW_BITS: usize = 80;

/// What is done with a text.
#[derive(Clone, Copy)]
pub enum Command<'a> {
    Commit,
    Open,
    Verify,
    /// And compares what was accepted with what was expected.
    VerifyExpected(&'a Expected),
}

impl Command<'_> {
    /// The command of this name.
    pub fn named(name: &str) -> Option<Command<'static>> {
        match name {
            "commit" => Some(Command::Commit),
            "open" => Some(Command::Open),
            "verify" => Some(Command::Verify),
            _ => None,
        }
    }
}

/// The number of values of a request's matrices.
fn count_of(request: &Request) -> usize {
    let mut count = 0usize;
    for batch in &request.commitments {
        for matrix in &batch.matrices {
            count = count.saturating_add(matrix.values.len());
        }
    }
    count
}

/// Says what is about to be committed to, where that takes a while. A progress that can't be
/// written is passed over: no answer hangs on it.
fn report_progress<W: Write>(err: &mut W, file: &str, asked: &Asked) {
    let count = count_of(&asked.request);
    let log_blowup = asked.request.parameters.log_blowup;
    if log_blowup <= asked.field.two_adicity()
        && count.saturating_mul(1 << log_blowup) >= MANY_VALUES
    {
        let _ = writeln!(
            err,
            "fri: {file}: committing to {count} values, extended 2^{log_blowup} times"
        );
    }
}

/// What is printed of an accepted statement, and a warning where its parameters promise little. As
/// of a progress, the answer doesn't hang on it: its last line has the number.
fn verified_lines<W: Write>(
    alloc: Global,
    file: &str,
    accepted: &Accepted,
    err: &mut W,
) -> Result<String, Failure> {
    let lines = accepted_lines(alloc, accepted)?;
    let bits = accepted.parameters.conjectured_soundness_bits();
    if bits < FEW_BITS {
        let _ = writeln!(
            err,
            "fri: {file}: {bits} conjectured bits of soundness, below {FEW_BITS}"
        );
    }
    Ok(lines)
}

/// What `commit` prints for a text: a commitment on each line.
fn commit_lines<W: Write>(
    alloc: Global,
    file: &str,
    text: &str,
    err: &mut W,
) -> Result<String, Failure> {
    let asked = request_of(alloc, text)?;
    report_progress(err, file, &asked);
    let mut lines = String::new(alloc);
    for commitment in &commit_request(alloc, &asked)? {
        writeln!(lines, "{commitment}")?;
    }
    Ok(lines)
}

/// What `open` prints for a text.
fn open_line<W: Write>(
    alloc: Global,
    file: &str,
    text: &str,
    err: &mut W,
) -> Result<String, Failure> {
    let asked = request_of(alloc, text)?;
    report_progress(err, file, &asked);
    let mut line = open_request(alloc, &asked)?;
    line.push_str("\n")?;
    Ok(line)
}

/// What is accepted of a text, where it is the expected one.
fn accept_expected(alloc: Global, text: &str, expected: &Expected) -> Result<Accepted, Failure> {
    let accepted = accept(alloc, text)?;
    match first_difference(&accepted, expected) {
        Some(difference) => Err(Failure::Unexpected(difference)),
        None => Ok(accepted),
    }
}

/// What a command prints for a text.
fn lines<W: Write>(
    alloc: Global,
    command: Command<'_>,
    file: &str,
    text: &str,
    err: &mut W,
) -> Result<String, Failure> {
    let accepted = match command {
        Command::Commit => return commit_lines(alloc, file, text, err),
        Command::Open => return open_line(alloc, file, text, err),
        Command::Verify => accept(alloc, text)?,
        Command::VerifyExpected(expected) => accept_expected(alloc, text, expected)?,
    };
    verified_lines(alloc, file, &accepted, err)
}

/// Writes why a file has no answer. A refused statement's verdict is what `verify` is asked for,
/// and goes to the output.
fn report_failure<W: Write, E: Write>(
    file: &str,
    failure: &Failure,
    out: &mut W,
    err: &mut E,
) -> u8 {
    let status = failure.status();
    let written = match failure {
        Failure::Statement(error) if status == REFUSED => writeln!(out, "refused: {error}"),
        Failure::Unexpected(difference) => writeln!(out, "refused: {difference}"),
        _ if status == REFUSED => writeln!(err, "fri: {file}: refused: {failure}"),
        _ => writeln!(err, "fri: {file}: {failure}"),
    };
    match written {
        Ok(()) => status,
        Err(_) => WRITE_FAILED,
    }
}

/// Writes to `out` what a command prints for the text of the file of this name, or to `err` why it
/// prints nothing, and gives the status.
pub fn answer<W: Write, E: Write>(
    alloc: Global,
    command: Command<'_>,
    file: &str,
    text: &str,
    out: &mut W,
    err: &mut E,
) -> u8 {
    match lines(alloc, command, file, text, err) {
        Ok(lines) => match out.write_all(lines.as_bytes()) {
            Ok(()) => 0,
            Err(_) => WRITE_FAILED,
        },
        Err(failure) => report_failure(file, &failure, out, err),
    }
}

/// The expected statement in the text of the file of this name; or writes to `err` why it is none,
/// and gives the status.
pub fn read_expected<E: Write>(
    alloc: Global,
    file: &str,
    text: &str,
    err: &mut E,
) -> Result<Expected, u8> {
    match expected_of(alloc, text) {
        Ok(expected) => Ok(expected),
        Err(failure) => {
            let status = failure.status();
            match writeln!(err, "fri: {file}: {failure}") {
                Ok(()) => Err(status),
                Err(_) => Err(WRITE_FAILED),
            }
        },
    }
}
