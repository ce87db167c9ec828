//! Why there is no commitment to preprocessed columns, no proof, or no acceptance.

ghost use Rattle.std.specs.Prelude.{◌≡◌};
ghost use Rattle.p3_uni_stark_system.specs.declared.error.PreprocessingError.TheVariants as fault;

use p3_air::TraceError;
use p3_air_plain::{ElementError, PlainAirError};
use p3_uni_stark_phases::ProvingError;
use p3_uni_stark_statement::PlainVerificationError;
use std::alloc::AllocError;
use std::fmt::Debug;
use thiserror::Error;

/// Why preprocessed columns aren't committed to, by a scheme that refuses for a reason of the type
/// `PcsError`.
#[derive(Debug, Drop, Error)]
#[error_bound(PcsError: Debug)]
pub enum PreprocessingError<PcsError> {
    /// A row hasn't as many entries as there are preprocessed columns.
    #[error("preprocessed: a row does not have preprocessed_width entries")]
    Width,
    /// The number of rows is no power of two, or has no room in the field with the blowup.
    #[error("preprocessed: the number of rows is no power of two with room in the field")]
    Height,
    /// A number is no element's.
    #[error("{0}")]
    Element(ElementError),
    /// The scheme refuses.
    #[error("preprocessed: the commitment is refused: {0:?}")]
    Refused(PcsError),
    /// Memory was refused.
    #[error("out of memory")]
    OutOfMemory,
}

impl<PcsError> From<AllocError> for PreprocessingError<PcsError> {
    ghost from_gives = { λ _ e. e ≡ fault.OutOfMemory };

    fn from(_error: AllocError) -> Self {
        PreprocessingError::OutOfMemory
    }
}

/// Why a trace isn't proved to satisfy a system.
#[derive(Debug, Drop, Error)]
#[error_bound(PcsError: Debug)]
pub enum SystemProvingError<PcsError> {
    /// The form is no constraint system's.
    #[error("{0}")]
    Air(PlainAirError),
    /// A number is no element's.
    #[error("{0}")]
    Element(ElementError),
    /// The trace doesn't satisfy the system.
    #[error("{0}")]
    Trace(TraceError),
    /// The trace has no column to commit to.
    #[error("air.layout.width: the trace has no columns")]
    NoColumns,
    /// The number of rows is no power of two, or has no room in the field.
    #[error("trace: {height} rows are no power of two with room in the field")]
    TraceHeight { height: usize },
    /// The preprocessed columns aren't committed to.
    #[error("{0}")]
    Preprocessing(PreprocessingError<PcsError>),
    /// There is no proof.
    #[error("{0}")]
    Proving(ProvingError<PcsError>),
    /// Memory was refused.
    #[error("out of memory")]
    OutOfMemory,
}

/// Why a proof isn't accepted of a system.
#[derive(Debug, Drop, Error)]
#[error_bound(PcsError: Debug, OpeningError: Debug)]
pub enum SystemVerificationError<PcsError, OpeningError> {
    /// The preprocessed columns aren't committed to.
    #[error("{0}")]
    Preprocessing(PreprocessingError<PcsError>),
    /// The system's numbers are none, or the proof is refused.
    #[error("{0}")]
    Proof(PlainVerificationError<OpeningError>),
}
