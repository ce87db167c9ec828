//! Why a proof isn't accepted of a statement by its numbers.

use p3_air_plain::{ElementError, PlainAirError};
use p3_uni_stark_verifier::VerificationError;
use std::fmt::Debug;
use thiserror::Error;

/// Why a proof isn't accepted of a statement by its numbers: these are none, or the proof is
/// refused, by a scheme that refuses an opening for a reason of the type `OpeningError`.
#[derive(Debug, Drop, Error)]
#[error_bound(OpeningError: Debug)]
pub enum PlainVerificationError<OpeningError> {
    /// The form is no constraint system's.
    #[error("{0}")]
    Air(PlainAirError),
    /// A number is no element's.
    #[error("{0}")]
    Element(ElementError),
    /// The proof is refused.
    #[error("{0}")]
    Refused(VerificationError<OpeningError>),
}
