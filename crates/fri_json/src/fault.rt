//! Why a text isn't JSON of a record, and where.

use crate::Failure;
use crate::field::{field_at, place_of, scalar_at};
use serde::Deserialize;
use serde_json::Category;
use std::alloc::Global;
use std::fmt;

/// A fault of a JSON text.
#[derive(Debug, Drop)]
pub struct JsonFault {
    /// The field that has it, as `commitments[1].matrices[0].values[3]`; empty if the whole has it.
    pub field: String,
    /// The number or the word that stands there; empty if something else does.
    pub found: String,
    pub error: serde_json::Error,
}

impl JsonFault {
    /// The failure of this fault, which may be want of memory.
    pub(crate) fn failure(self) -> Failure {
        match self.error.classify() {
            Category::Memory => Failure::OutOfMemory,
            _ => Failure::Json(self),
        }
    }
}

impl fmt::Display for JsonFault {
    fn fmt<W: fmt::Write>(&self, f: &mut fmt::Formatter<W>) -> fmt::Result {
        f.write_str("Json: ")?;
        for part in [&self.field, &self.found] {
            if !part.is_empty() {
                write!(f, "{part}: ")?;
            }
        }
        write!(f, "{}", self.error)
    }
}

/// What a JSON text says.
pub(crate) fn read<'de, T: Deserialize<'de>>(alloc: Global, text: &'de str) -> Result<T, Failure> {
    let error = match serde_json::from_str(alloc, text) {
        Ok(value) => return Ok(value),
        Err(error) => error,
    };
    let place = place_of(text, error.line(), error.column());
    let fault = JsonFault {
        field: field_at(alloc, text, place)?,
        found: String::from_str(alloc, scalar_at(text, place))?,
        error,
    };
    Err(fault.failure())
}
