//! Why there is no proof.

ghost use Rattle.std.specs.Prelude.{◌≡◌};
ghost use Rattle.p3_uni_stark_phases.specs.declared.error.ProvingError.TheVariants as refusal;

use p3_periodic::PeriodicError;
use std::alloc::AllocError;
use std::fmt::Debug;
use thiserror::Error;

/// Why there is no proof, over a scheme that refuses for a reason of the type `PcsError`.
#[derive(Debug, Drop, Error)]
#[error_bound(PcsError: Debug)]
pub enum ProvingError<PcsError> {
    /// A node's degree is `2^63` or more.
    #[error("the degree of a node is too large")]
    DegreeTooLarge,
    /// The field's `GENERATOR` doesn't lead off the trace's domain: its power by the greatest
    /// two-adic order is one.
    #[error("the field's generator does not lead off the domain of the trace")]
    InvalidGenerator,
    /// A periodic column doesn't repeat along the trace.
    #[error("{0}")]
    InvalidPeriodicColumns(PeriodicError),
    /// The commitment to the trace is refused.
    #[error("the commitment to the trace is refused: {0:?}")]
    Trace(PcsError),
    /// The values of committed columns are refused.
    #[error("the values of committed columns are refused: {0:?}")]
    Evaluation(PcsError),
    /// The commitment to the quotient's chunks is refused.
    #[error("the commitment to the quotient is refused: {0:?}")]
    Quotient(PcsError),
    /// The commitment to random polynomials is refused.
    #[error("the commitment to random polynomials is refused: {0:?}")]
    Randomization(PcsError),
    /// The point that was drawn is one of the trace's domain.
    #[error("the point lies in the domain of the trace")]
    PointOnTraceDomain,
    /// The opening is refused.
    #[error("the opening is refused: {0:?}")]
    Opening(PcsError),
    /// Memory was refused.
    #[error("out of memory")]
    OutOfMemory,
}

impl<PcsError> From<AllocError> for ProvingError<PcsError> {
    ghost from_gives = { λ _ e. e ≡ refusal.OutOfMemory };

    fn from(_error: AllocError) -> Self {
        ProvingError::OutOfMemory
    }
}
