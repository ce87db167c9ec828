//! Why a verifier refuses along the transcript.

ghost use Rattle.std.specs.Prelude.{◌≡◌};
ghost use Rattle.p3_fri_pcs_transcript.specs.declared.pcs_transcript.failure.PcsTranscriptFailure.TheVariants.{
  OutOfMemory,
};

use std::alloc::AllocError;
use thiserror::Error;

/// A step of the transcript that the proof or its claims failed.
#[derive(Clone, Copy, Debug, PartialEq, Eq, Error)]
pub enum PcsTranscriptFailure {
    /// A claim doesn't have as many values as described at its place. `opening` is that place in
    /// the order of commitments, matrices and points, and `expected` is 0 where none is described.
    #[error("opening {opening} has {got} claimed values for {expected}")]
    ClaimedEvaluationCount {
        opening: usize,
        expected: usize,
        got: usize,
    },
    /// The witness of the proof of work doesn't pass.
    #[error("the witness of the opening-batching phase does not pass at {bits} bits")]
    PowWitness {
        bits: usize,
    },
    /// There is no witness for the proof of work.
    #[error("the proof of work of the opening-batching phase, of {bits} bits, has no witness")]
    MissingPowWitness {
        bits: usize,
    },
    /// Memory was refused.
    #[error("out of memory")]
    OutOfMemory,
}

impl From<AllocError> for PcsTranscriptFailure {
    ghost from_gives = { λ _ e. e ≡ OutOfMemory };

    fn from(_error: AllocError) -> PcsTranscriptFailure {
        PcsTranscriptFailure::OutOfMemory
    }
}
