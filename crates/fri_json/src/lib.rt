//! Requests, answers and statements as JSON texts, of the plain scheme and of the one that hides,
//! over the field that they name.
#![tactic(auto)]

mod command;
mod difference;
mod expected;
mod fault;
mod field;
mod opening;
mod prime_field;
mod records;
mod request;
mod statement;
mod summary;

pub use crate::command::{Command, WRITE_FAILED, answer, read_expected};
pub use crate::difference::{Difference, Part};
pub use crate::expected::Expected;
use crate::expected::test_expected;
pub use crate::fault::JsonFault;
use crate::fault::read;
use crate::opening::open_request;
pub use crate::prime_field::FieldName;
use crate::records::Accepted;
use crate::request::{commit_request, request_of};
use crate::statement::accept;
use fri_requests::{RequestError, VerifyError};
use p3_fri_folding::FriProverError;
use p3_fri_masks::HidingFriProverError;
use std::alloc::{AllocError, AllocFailed, Global};
use std::error::Error;
use std::fmt;

/// The status of what is well formed and refused.
pub const REFUSED: u8 = 1;

/// The status of what isn't well formed.
pub const MALFORMED: u8 = 2;

/// The status of want of memory.
pub const OUT_OF_MEMORY: u8 = 3;

/// Why a text has no answer.
#[derive(Debug, Drop)]
pub enum Failure {
    /// It isn't JSON, or not of such a record.
    Json(JsonFault),
    /// The request isn't opened.
    Request(RequestError<FriProverError>),
    /// The request isn't opened by the scheme that hides.
    HidingRequest(RequestError<HidingFriProverError>),
    /// The statement isn't accepted.
    Statement(VerifyError),
    /// The statement is accepted, and isn't the expected one.
    Unexpected(Difference),
    /// Memory was refused.
    OutOfMemory,
}

impl Failure {
    /// 1 where good texts are refused, 2 where they aren't good, 3 for want of memory.
    pub fn status(&self) -> u8 {
        match self {
            Failure::Request(RequestError::Refused(_)) => REFUSED,
            Failure::HidingRequest(RequestError::Refused(_)) => REFUSED,
            Failure::Statement(VerifyError::Refused(_)) => REFUSED,
            Failure::Unexpected(_) => REFUSED,
            Failure::Request(RequestError::OutOfMemory) => OUT_OF_MEMORY,
            Failure::HidingRequest(RequestError::OutOfMemory) => OUT_OF_MEMORY,
            Failure::Statement(VerifyError::OutOfMemory) => OUT_OF_MEMORY,
            Failure::OutOfMemory => OUT_OF_MEMORY,
            _ => MALFORMED,
        }
    }
}

impl fmt::Display for Failure {
    fn fmt<W: fmt::Write>(&self, f: &mut fmt::Formatter<W>) -> fmt::Result {
        match self {
            Failure::Json(fault) => write!(f, "{fault}"),
            Failure::Request(error) => write!(f, "{error}"),
            Failure::HidingRequest(error) => write!(f, "{error}"),
            Failure::Statement(error) => write!(f, "{error}"),
            Failure::Unexpected(difference) => write!(f, "{difference}"),
            Failure::OutOfMemory => f.write_str("OutOfMemory: out of memory"),
        }
    }
}

impl Error for Failure {}

impl<T: Drop> From<AllocFailed<T>> for Failure {
    fn from(_error: AllocFailed<T>) -> Failure {
        Failure::OutOfMemory
    }
}

impl From<AllocError> for Failure {
    fn from(_error: AllocError) -> Failure {
        Failure::OutOfMemory
    }
}

/// The commitments of the request in this JSON text, each in hex.
pub fn commit(alloc: Global, text: &str) -> Result<Vec<String>, Failure> {
    commit_request(alloc, &request_of(alloc, text)?)
}

/// The answer to the request in this JSON text, in JSON.
pub fn open(alloc: Global, text: &str) -> Result<String, Failure> {
    open_request(alloc, &request_of(alloc, text)?)
}

/// The expected statement in this JSON text.
fn expected_of(alloc: Global, text: &str) -> Result<Expected, Failure> {
    let expected: Expected = read(alloc, text)?;
    match test_expected(&expected) {
        Ok(()) => Ok(expected),
        Err(misfit) => Err(Failure::Statement(VerifyError::Malformed(misfit))),
    }
}

/// Verifies the statement in this JSON text, and answers what the challenger draws next.
pub fn verify(alloc: Global, text: &str) -> Result<Vec<u64>, Failure> {
    let Accepted {
        field: _,
        context: _,
        parameters: _,
        hiding: _,
        claims: _,
        next_challenge,
    } = accept(alloc, text)?;
    Ok(next_challenge)
}
