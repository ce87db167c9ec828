//! Why texts have no answer.

ghost use Rattle.std.specs.Prelude.{◌≤◌};

use fri_stark_json::{MALFORMED, OUT_OF_MEMORY, REFUSED, Refusal};
use serde::Deserialize;
use serde_json::Category;
use std::alloc::{AllocError, Global};
use std::fmt;

/// Why texts have no answer, in words that begin with a name.
#[derive(Debug, Drop)]
pub enum Failure {
    /// They are good, and refused.
    Refused(String),
    /// One of them isn't good.
    Malformed(String),
    /// Memory was refused.
    OutOfMemory,
}

impl Failure {
    /// 1 where good texts are refused, 2 where one isn't good, 3 for want of memory.
    pub fn status(&self) -> u8
        ensures { 1 ≤ result × result ≤ 3 }
    {
        match self {
            Failure::Refused(_) => REFUSED,
            Failure::Malformed(_) => MALFORMED,
            Failure::OutOfMemory => OUT_OF_MEMORY,
        }
    }

    /// The failure of records, in words.
    pub(crate) fn of_records<E: Refusal>(
        alloc: Global,
        failure: &fri_stark_json::Failure<E>,
    ) -> Failure {
        let status = failure.status();
        if status == OUT_OF_MEMORY {
            return Failure::OutOfMemory;
        }
        match format!(in alloc; "{failure}") {
            Ok(text) if status == REFUSED => Failure::Refused(text),
            Ok(text) => Failure::Malformed(text),
            Err(_) => Failure::OutOfMemory,
        }
    }

    /// The failure of a text, which is of the named record.
    fn of_text(alloc: Global, name: &str, error: &serde_json::Error) -> Failure {
        if error.classify() == Category::Memory {
            return Failure::OutOfMemory;
        }
        match format!(in alloc; "Json: {name}, {error}") {
            Ok(text) => Failure::Malformed(text),
            Err(_) => Failure::OutOfMemory,
        }
    }
}

/// The text alone.
impl fmt::Display for Failure {
    fn fmt<W: fmt::Write>(&self, f: &mut fmt::Formatter<W>) -> fmt::Result {
        match self {
            Failure::Refused(text) | Failure::Malformed(text) => f.write_str(text.as_str()),
            Failure::OutOfMemory => f.write_str("OutOfMemory: out of memory"),
        }
    }
}

impl From<AllocError> for Failure {
    fn from(_error: AllocError) -> Failure {
        Failure::OutOfMemory
    }
}

/// The record in a text in JSON, by its name in what is refused.
pub(crate) fn read<'de, T: Deserialize<'de>>(
    alloc: Global,
    name: &str,
    text: &'de [u8],
) -> Result<T, Failure> {
    match serde_json::from_slice(alloc, text) {
        Ok(record) => Ok(record),
        Err(error) => Err(Failure::of_text(alloc, name, &error)),
    }
}
