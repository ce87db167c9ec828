//! Why bytes aren't of the flat form, or values have none.

ghost use Rattle.std.specs.Prelude.{◌≡◌};
ghost use Rattle.fri_flat.specs.declared.fault.ReadError.TheVariants as read;
ghost use Rattle.fri_flat.specs.declared.fault.WriteError.TheVariants as write;

use std::alloc::{AllocError, AllocFailed};

/// Why nothing is read.
#[derive(Clone, Copy)]
pub(crate) enum ReadError {
    /// Fewer bytes are left than have to come: so many.
    Missing { left: usize },
    OutOfMemory,
}

/// Why nothing is written.
#[derive(Clone, Copy)]
pub(crate) enum WriteError {
    /// There is no flat form.
    NoForm,
    OutOfMemory,
}

impl<T: Drop> From<AllocFailed<T>> for ReadError {
    ghost from_gives = { λ _ e. e ≡ read.OutOfMemory };

    fn from(_error: AllocFailed<T>) -> ReadError {
        ReadError::OutOfMemory
    }
}

impl From<AllocError> for ReadError {
    ghost from_gives = { λ _ e. e ≡ read.OutOfMemory };

    fn from(_error: AllocError) -> ReadError {
        ReadError::OutOfMemory
    }
}

impl From<AllocError> for WriteError {
    ghost from_gives = { λ _ e. e ≡ write.OutOfMemory };

    fn from(_error: AllocError) -> WriteError {
        WriteError::OutOfMemory
    }
}
