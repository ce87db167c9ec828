//! Why bytes have no answer.

ghost use Rattle.std.specs.Prelude.{◌≤◌};

use crate::fault::{ReadError, WriteError};
use fri_requests::{RequestError, VerifyError};
use p3_fri_folding::FriProverError;
use p3_fri_masks::HidingFriProverError;
use std::alloc::{AllocError, AllocFailed};
use std::error::Error;
use std::fmt;

/// The status of what is answered.
pub const ANSWERED: u8 = 0;

/// The status of what is well formed and refused.
pub const REFUSED: u8 = 1;

/// The status of what isn't well formed.
pub const MALFORMED: u8 = 2;

/// The status of want of memory.
pub const OUT_OF_MEMORY: u8 = 3;

/// Why bytes have no answer.
#[derive(Debug, Drop)]
pub enum Failure {
    /// From this offset on there are fewer bytes than have to come.
    BytesMissing { at: usize },
    /// Bytes from this offset on follow what is whole.
    BytesLeft { at: usize },
    /// What comes of it has no flat form, as a number of more bits than its bytes hold, an element
    /// of the extension that hasn't as many numbers as its degree, or a commitment that isn't the
    /// hex text of 32 bytes. No answer of `fri_requests` has any of these.
    NoForm,
    /// The index of a preprocessed commitment is past the last commitment of the request.
    NoCommitment { index: usize },
    /// The request isn't opened.
    Request(RequestError<FriProverError>),
    /// The request isn't opened by the scheme that hides.
    HidingRequest(RequestError<HidingFriProverError>),
    /// The statement isn't accepted.
    Statement(VerifyError),
    /// Memory was refused.
    OutOfMemory,
}

impl Failure {
    /// 1 where well-formed bytes are refused, 2 where they aren't well formed, 3 for want of
    /// memory.
    pub fn status(&self) -> u8
        ensures { 1 ≤ result × result ≤ 3 }
    {
        match self {
            Failure::Request(RequestError::Refused(_)) => REFUSED,
            Failure::HidingRequest(RequestError::Refused(_)) => REFUSED,
            Failure::Statement(VerifyError::Refused(_)) => REFUSED,
            Failure::Request(RequestError::OutOfMemory) => OUT_OF_MEMORY,
            Failure::HidingRequest(RequestError::OutOfMemory) => OUT_OF_MEMORY,
            Failure::Statement(VerifyError::OutOfMemory) => OUT_OF_MEMORY,
            Failure::OutOfMemory => OUT_OF_MEMORY,
            _ => MALFORMED,
        }
    }

    /// The failure of reading bytes, so many in all.
    pub(crate) fn of_reading(error: ReadError, length: usize) -> Failure {
        match error {
            ReadError::Missing { left } => Failure::BytesMissing {
                at: length.saturating_sub(left),
            },
            ReadError::OutOfMemory => Failure::OutOfMemory,
        }
    }
}

impl fmt::Display for Failure {
    fn fmt<W: fmt::Write>(&self, f: &mut fmt::Formatter<W>) -> fmt::Result {
        match self {
            Failure::BytesMissing { at } => {
                write!(
                    f,
                    "BytesMissing {{ at: {at} }}: fewer bytes are left than have to come"
                )
            },
            Failure::BytesLeft { at } => {
                write!(f, "BytesLeft {{ at: {at} }}: bytes follow what is whole")
            },
            Failure::NoForm => f.write_str("NoForm: the answer has no flat form"),
            Failure::NoCommitment { index } => {
                write!(
                    f,
                    "NoCommitment {{ index: {index} }}: no commitment of the request has the index"
                )
            },
            Failure::Request(error) => write!(f, "{error}"),
            // by the same words as in the plain scheme
            Failure::HidingRequest(RequestError::Refused(HidingFriProverError::Fri(error))) => {
                write!(f, "{error:?}: {error}")
            },
            Failure::HidingRequest(error) => write!(f, "{error}"),
            Failure::Statement(error) => write!(f, "{error}"),
            Failure::OutOfMemory => f.write_str("OutOfMemory: out of memory"),
        }
    }
}

impl Error for Failure {}

impl<T: Drop> From<AllocFailed<T>> for Failure {
    fn from(_error: AllocFailed<T>) -> Failure {
        Failure::OutOfMemory
    }
}

impl From<AllocError> for Failure {
    fn from(_error: AllocError) -> Failure {
        Failure::OutOfMemory
    }
}

impl From<RequestError<FriProverError>> for Failure {
    fn from(error: RequestError<FriProverError>) -> Failure {
        Failure::Request(error)
    }
}

impl From<WriteError> for Failure {
    fn from(error: WriteError) -> Failure {
        match error {
            WriteError::NoForm => Failure::NoForm,
            WriteError::OutOfMemory => Failure::OutOfMemory,
        }
    }
}
