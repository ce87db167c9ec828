//! Why a proof is refused.

use p3_air::AirError;
use p3_periodic::PeriodicError;
use std::fmt::Debug;
use thiserror::Error;

/// Why a proof is refused, by a scheme that refuses an opening for a reason of the type
/// `OpeningError`.
#[derive(Debug, Drop, Error)]
#[error_bound(OpeningError: Debug)]
pub enum VerificationError<OpeningError> {
    /// The constraint system is malformed.
    #[error("the constraint system is malformed: {0}")]
    InvalidAir(AirError),
    /// A node's degree is `2^63` or more.
    #[error("the degree of a node is too large")]
    DegreeTooLarge,
    /// The statement hasn't as many public values as the constraint system speaks of.
    #[error("not as many public values as the constraint system speaks of")]
    InvalidPublicValues,
    /// The statement hasn't as many periodic columns as the constraint system speaks of.
    #[error("not as many periodic columns as the constraint system speaks of")]
    InvalidPeriodicCount,
    /// There is a key of preprocessed columns where there are none, or none where there are.
    #[error("the key of preprocessed columns does not match the constraint system")]
    InvalidPreprocessed,
    /// The height is too large, or not that of the preprocessed columns, or a list of opened values
    /// hasn't its length.
    #[error("the proof does not have the shape that the constraint system asks for")]
    InvalidProofShape,
    /// There are random polynomials where the scheme doesn't hide, or none where it does.
    #[error("random polynomials do not match whether the scheme hides")]
    RandomizationError,
    /// The point is one of the trace's domain.
    #[error("the point lies in the domain of the trace")]
    PointOnTraceDomain,
    /// A periodic column doesn't repeat along the trace.
    #[error("{0}")]
    InvalidPeriodicColumns(PeriodicError),
    /// The opening is refused.
    #[error("the opening is refused: {0:?}")]
    InvalidOpeningArgument(OpeningError),
    /// The constraints' sum isn't the quotient times the vanishing polynomial.
    #[error("the constraints do not agree with the quotient at the point")]
    OodEvaluationMismatch,
    /// Memory was refused.
    #[error("out of memory")]
    OutOfMemory,
}
