//! Why a STARK's columns weren't shown to be opened.

ghost use Rattle.std.specs.Prelude.{◌≡◌};
ghost use Rattle.p3_stark_columns.specs.declared.error.StarkError.TheVariants.{OutOfMemory};

use p3_pcs::OpenAndVerifyError;
use std::alloc::AllocError;

/// Why a STARK's columns weren't shown to be opened.
#[derive(Debug, Drop)]
pub enum StarkError<ProverError, Error> {
    /// A commitment was refused.
    Commit(ProverError),
    /// The opening or its proof was refused, or memory to its claims.
    Open(OpenAndVerifyError<ProverError, Error>),
    /// Memory was refused to a list of domains, points or requests.
    OutOfMemory,
}

impl<ProverError, Error> From<AllocError> for StarkError<ProverError, Error> {
    ghost from_gives = { λ _ e. e ≡ OutOfMemory };

    fn from(_: AllocError) -> Self {
        StarkError::OutOfMemory
    }
}
