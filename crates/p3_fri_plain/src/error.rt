//! Why a plain form is refused.

ghost use Rattle.std.specs.Prelude.{◌≡◌};
ghost use Rattle.p3_fri_plain.specs.declared.error.PlainProofError.TheVariants.{OutOfMemory};

use std::alloc::{AllocError, AllocFailed};
use thiserror::Error;

/// Why a plain form is refused.
#[derive(Clone, Copy, Debug, PartialEq, Eq, Error)]
pub enum PlainProofError {
    /// A number that stands for an element, or for one of its coefficients, isn't below the order.
    #[error("a number is not below the field's order")]
    ElementOutOfRange,
    /// An element of the extension isn't given by one number for each coefficient.
    #[error("an element of the extension is not given by one number for each coefficient")]
    ElementLength,
    /// A digest hasn't 32 bytes.
    #[error("a digest does not have 32 bytes")]
    DigestLength,
    /// Memory was refused.
    #[error("out of memory")]
    OutOfMemory,
}

impl From<AllocError> for PlainProofError {
    ghost from_gives = { λ _ e. e ≡ OutOfMemory };

    fn from(_error: AllocError) -> PlainProofError {
        PlainProofError::OutOfMemory
    }
}

impl<T: Drop> From<AllocFailed<T>> for PlainProofError {
    ghost from_gives = { λ _ e. e ≡ OutOfMemory };

    fn from(_error: AllocFailed<T>) -> PlainProofError {
        PlainProofError::OutOfMemory
    }
}
