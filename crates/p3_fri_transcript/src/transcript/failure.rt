//! Why a verifier refuses along the transcript.

ghost use Rattle.std.specs.Prelude.{◌≡◌};
ghost use Rattle.p3_fri_transcript.specs.declared.transcript.failure.TranscriptFailure.TheVariants.{
  OutOfMemory,
};

use p3_fri_folding::PowPhase;
use std::alloc::AllocError;
use thiserror::Error;

/// A step of a low-degree test's transcript that the proof failed.
#[derive(Clone, Copy, Debug, PartialEq, Eq, Error)]
pub enum TranscriptFailure {
    /// The witness of a proof of work doesn't pass.
    #[error("the witness of the {0} phase does not pass")]
    PowWitness(PowPhase),
    /// There is no witness for a proof of work.
    #[error("the proof of work of the {0} phase has no witness")]
    MissingPowWitness(PowPhase),
    /// The final polynomial doesn't have as many coefficients as described.
    #[error("the final polynomial has {got} coefficients for {expected}")]
    FinalPolyLen { expected: usize, got: usize },
    /// There aren't as many commitments as rounds.
    #[error("there are {got} commitments for {expected} rounds")]
    CommitRoundCount { expected: usize, got: usize },
    /// There aren't as many witnesses as rounds.
    #[error("there are {got} witnesses for {expected} rounds")]
    CommitPowWitnessCount { expected: usize, got: usize },
    /// Memory was refused.
    #[error("out of memory")]
    OutOfMemory,
}

impl From<AllocError> for TranscriptFailure {
    ghost from_gives = { λ _ e. e ≡ OutOfMemory };

    fn from(_error: AllocError) -> TranscriptFailure {
        TranscriptFailure::OutOfMemory
    }
}
