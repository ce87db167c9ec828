//! Why a table of periodic columns is refused.

ghost use Rattle.std.specs.Prelude.{◌≡◌};
ghost use Rattle.p3_periodic.specs.declared.error.PeriodicError.TheVariants.{OutOfMemory};

use std::alloc::AllocError;
use thiserror::Error;

/// Why a table of periodic columns is refused: by its first column that is malformed.
#[derive(Clone, Copy, Debug, PartialEq, Eq, Error)]
pub enum PeriodicError {
    /// The column's length isn't a power of two.
    #[error("periodic column {column} has length {length}, which is not a power of two")]
    NotPowerOfTwo {
        column: usize,
        length: usize,
    },
    /// The column's length, a power of two, doesn't divide the number of rows.
    #[error("periodic column {column} has length {length}, which does not divide the trace height \
         {trace_height}")]
    DoesNotDivide {
        column: usize,
        length: usize,
        trace_height: usize,
    },
    /// Memory was refused.
    #[error("out of memory")]
    OutOfMemory,
}

impl From<AllocError> for PeriodicError {
    ghost from_gives = { λ _ e. e ≡ OutOfMemory };

    fn from(_error: AllocError) -> PeriodicError {
        PeriodicError::OutOfMemory
    }
}
