//! What is written beside answers.

use fri_stark_json::{Failure, MALFORMED, OUT_OF_MEMORY, REFUSED, Refusal};
use std::io;
use std::io::{ErrorKind, Write};

/// The status where a write failed.
pub const WRITE_FAILED: u8 = 4;

/// Writes the text whole, and gives `status`, or `WRITE_FAILED` where that fails.
pub fn report<W: Write>(to: &mut W, text: &str, status: u8) -> u8 {
    if to.write_all(text.as_bytes()).is_err() || to.flush().is_err() {
        return WRITE_FAILED;
    }
    status
}

/// Writes that memory was refused, and gives the status.
pub fn report_out_of_memory(rt: &HostRuntime) -> u8 {
    report(
        &mut rt.stderr(),
        "fri_stark: OutOfMemory: out of memory\n",
        OUT_OF_MEMORY,
    )
}

/// Writes that a file can't be read, and gives the status.
pub fn report_unread(rt: &HostRuntime, file: &str, error: io::Error) -> u8 {
    let status = match error.kind() {
        ErrorKind::OutOfMemory => OUT_OF_MEMORY,
        _ => MALFORMED,
    };
    match eprintln!(rt; "fri_stark: {file}: cannot be read: {error}") {
        Ok(()) => status,
        Err(_) => WRITE_FAILED,
    }
}

/// Writes why a file has no record, and gives the status.
pub fn report_file<E: Refusal>(rt: &HostRuntime, file: &str, failure: &Failure<E>) -> u8 {
    match eprintln!(rt; "fri_stark: {file}: {failure}") {
        Ok(()) => failure.status(),
        Err(_) => WRITE_FAILED,
    }
}

/// Writes why there is no answer, and gives the status.
pub fn report_failure<E: Refusal>(rt: &HostRuntime, failure: &Failure<E>) -> u8 {
    let status = failure.status();
    let written = if status == REFUSED {
        eprintln!(rt; "fri_stark: refused: {failure}")
    } else {
        eprintln!(rt; "fri_stark: {failure}")
    };
    match written {
        Ok(()) => status,
        Err(_) => WRITE_FAILED,
    }
}

/// The same, of a command that is asked for a verdict: a refusal goes to the output.
pub fn report_verdict<E: Refusal>(rt: &HostRuntime, failure: &Failure<E>) -> u8 {
    if failure.status() != REFUSED {
        return report_failure(rt, failure);
    }
    match println!(rt; "refused: {failure}") {
        Ok(()) => REFUSED,
        Err(_) => WRITE_FAILED,
    }
}
