//! Why a prover refuses.

ghost use Rattle.std.specs.Prelude.{◌≡◌};
ghost use Rattle.p3_fri_folding.specs.declared.error.FriProverError.TheVariants.{OutOfMemory};

use crate::pow_phase::PowPhase;
use std::alloc::AllocError;
use thiserror::Error;

/// Why a prover refuses. Heights are logarithms.
#[derive(Clone, Copy, Debug, PartialEq, Eq, Error)]
pub enum FriProverError {
    /// A polynomial is sent in full only if every input is taller than its word.
    #[error("the input's log height {log_input_height} is not above the final log height \
         {log_final_height}")]
    InputHeightTooSmall {
        log_input_height: usize,
        log_final_height: usize,
    },
    /// The log blowup and the log length of the final polynomial have no sum.
    #[error("the final log height is past the greatest number")]
    FinalHeightOverflow,
    /// Memory was refused.
    #[error("out of memory")]
    OutOfMemory,
    /// No element passes the proof of work.
    #[error("no element passes the proof of work of the {phase} phase")]
    NoPowWitness {
        phase: PowPhase,
    },
    /// A point of evaluation lies in the coset that the matrix is committed on.
    #[error("point {point} of matrix {matrix} in round {round} lies in the evaluation domain")]
    PointInEvaluationDomain {
        round: usize,
        matrix: usize,
        point: usize,
    },
}

impl From<AllocError> for FriProverError {
    ghost from_gives = { λ _ e. e ≡ OutOfMemory };

    fn from(_error: AllocError) -> FriProverError {
        FriProverError::OutOfMemory
    }
}
