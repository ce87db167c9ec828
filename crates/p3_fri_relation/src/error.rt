//! Why a verifier refuses.

ghost use Rattle.std.specs.Prelude.{◌≡◌};
ghost use Rattle.p3_fri_relation.specs.Failures.{of_transcript, of_pcs_transcript};
ghost use Rattle.p3_fri_relation.specs.declared.error.FriError.TheVariants.{OutOfMemory};

use p3_fri_folding::PowPhase;
use p3_fri_pcs_transcript::pcs_transcript::PcsTranscriptFailure;
use p3_fri_transcript::transcript::TranscriptFailure;
use std::alloc::AllocError;
use std::error::Error;
use std::fmt;

/// What a query meets: log heights, and the quotient sum of each.
pub type FriOpenings<F> = Vec<(usize, F)>;

/// Why a verifier refuses, of a test whose folded words are committed to by a scheme with the
/// errors `CommitMmcsErr`, and whose inputs by one with the errors `InputErr`. Each variant names a
/// fault that stands in the input: `expected` and `required` are what is asked for, `got` what is
/// found, positions count from 0.
#[derive(Debug, Drop)]
pub enum FriError<CommitMmcsErr, InputErr> {
    /// There isn't one set of openings for each round.
    CommitPhaseOpeningsCountMismatch {
        expected: usize,
        got: usize,
    },
    /// There isn't one commitment for each round.
    CommitRoundCountMismatch {
        expected: usize,
        got: usize,
    },
    /// A round doesn't open one row of siblings for each query.
    CommitPhaseQueryCountMismatch {
        round: usize,
        expected: usize,
        got: usize,
    },
    /// A commitment doesn't open one set of rows for each index.
    InputOpeningsQueryCountMismatch {
        batch: usize,
        expected: usize,
        got: usize,
    },
    /// There isn't one witness for each round.
    CommitPowWitnessCountMismatch {
        expected: usize,
        got: usize,
    },
    /// An opening doesn't claim as many values as described.
    ClaimedEvaluationCountMismatch {
        opening: usize,
        expected: usize,
        got: usize,
    },
    /// The final polynomial doesn't have the length that the parameters fix.
    FinalPolyLengthMismatch {
        expected: usize,
        got: usize,
    },
    /// Without queries any final polynomial would do.
    ZeroQueries,
    /// Without matrices there is nothing that a proof could be of.
    NoCommittedMatrices,
    /// A cap that the verifier can't fold by; this one folds by each.
    UnsupportedFoldingCap {
        max_log_arity: usize,
    },
    /// With a cap of zero no round would fold.
    ZeroFoldingArity,
    /// Without a blowup every word is of low degree.
    ZeroBlowup,
    /// A query has no quotient sum at all.
    MissingInitialReducedOpening {
        expected: usize,
    },
    /// A query's first quotient sum isn't at the greatest log height.
    InitialReducedOpeningHeightMismatch {
        expected: usize,
        got: usize,
    },
    /// A claimed matrix would stand on a coset that the field doesn't have.
    GlobalMaxHeightTooLarge {
        log_global_max_height: usize,
        two_adicity: usize,
    },
    /// A row of siblings isn't one value shorter than the round's arity.
    SiblingValuesLengthMismatch {
        round: usize,
        expected: usize,
        got: usize,
    },
    /// The rounds don't end at the final height.
    FinalFoldHeightMismatch {
        expected: usize,
        got: usize,
    },
    /// A log arity isn't from 1 to 63.
    FoldScheduleArityOutOfRange {
        round: usize,
        log_arity: usize,
    },
    /// The log arities together are more than the distance to the final height.
    FoldScheduleTooLong {
        total_log_reduction: usize,
        log_global_max_height: usize,
        log_final_height: usize,
    },
    /// A quotient sum is at a log height that no round reaches.
    UnconsumedReducedOpenings {
        next_log_height: usize,
        remaining: usize,
    },
    /// There isn't one opening for each commitment.
    InputProofBatchCountMismatch {
        expected: usize,
        got: usize,
    },
    /// A set of rows doesn't have one for each matrix.
    BatchOpenedValuesCountMismatch {
        batch: usize,
        expected: usize,
        got: usize,
    },
    /// A matrix is claimed at no point, so that its width isn't claimed.
    MatrixWithoutOpeningPoints {
        batch: usize,
        matrix: usize,
    },
    /// As many values aren't claimed at a point as the matrix has columns.
    PointEvaluationCountMismatch {
        batch: usize,
        matrix: usize,
        point: usize,
        expected: usize,
        got: usize,
    },
    /// The random values aren't those of as many commitments as are claimed.
    HidingRandomOpeningRoundCountMismatch {
        expected: usize,
        got: usize,
    },
    /// The random values of a commitment aren't those of as many matrices.
    HidingRandomOpeningMatrixCountMismatch {
        round: usize,
        expected: usize,
        got: usize,
    },
    /// The random values of a matrix aren't those at as many points.
    HidingRandomOpeningPointCountMismatch {
        round: usize,
        matrix: usize,
        expected: usize,
        got: usize,
    },
    /// There aren't as many random values at a point as random columns.
    HidingRandomOpeningValueCountMismatch {
        round: usize,
        matrix: usize,
        point: usize,
        expected: usize,
        got: usize,
    },
    /// The index of the preprocessed commitment is that of none.
    HidingPreprocessedCommitmentOutOfBounds {
        index: usize,
        num_rounds: usize,
    },
    /// There are fewer random columns than the extension has dimensions.
    InsufficientHidingRandomCodewords {
        required: usize,
        got: usize,
    },
    /// The mask of a matrix is too short for what is opened of it.
    HidingBudgetExceeded {
        round: usize,
        matrix: usize,
        mask_height: usize,
        num_queries: usize,
        num_opening_points: usize,
        extension_degree: usize,
    },
    /// The rows of a round aren't those of its commitment.
    CommitPhaseMmcsError(CommitMmcsErr),
    /// The rows of a batch aren't those of its commitment.
    InputError(InputErr),
    /// A query doesn't end at the final polynomial's value, or a quotient sum of constants isn't
    /// zero.
    FinalPolyMismatch,
    /// The witness of a proof of work doesn't pass, or is missing.
    InvalidPowWitness(PowPhase),
    /// The witness of a proof of work of no bits isn't zero.
    NonCanonicalPowWitness {
        phase: PowPhase,
    },
    /// A claimed point is the point that a query reads, so that its quotient has no value.
    OpeningPointMatchesQueryPoint {
        batch: usize,
        matrix: usize,
        point: usize,
    },
    /// Memory was refused.
    OutOfMemory,
}

impl<CommitMmcsErr: fmt::Debug + Drop, InputErr: fmt::Debug + Drop> Error
    for FriError<CommitMmcsErr, InputErr> {}

impl<CommitMmcsErr, InputErr> From<AllocError> for FriError<CommitMmcsErr, InputErr> {
    ghost from_gives = { λ _ e. e ≡ OutOfMemory };

    fn from(_error: AllocError) -> Self {
        FriError::OutOfMemory
    }
}

impl<CommitMmcsErr, InputErr> From<TranscriptFailure> for FriError<CommitMmcsErr, InputErr> {
    ghost from_gives = { λ failure e. e ≡ of_transcript failure };

    fn from(failure: TranscriptFailure) -> Self {
        match failure {
            TranscriptFailure::PowWitness(phase) | TranscriptFailure::MissingPowWitness(phase) => {
                FriError::InvalidPowWitness(phase)
            },
            TranscriptFailure::FinalPolyLen { expected, got } => {
                FriError::FinalPolyLengthMismatch { expected, got }
            },
            TranscriptFailure::CommitRoundCount { expected, got } => {
                FriError::CommitRoundCountMismatch { expected, got }
            },
            TranscriptFailure::CommitPowWitnessCount { expected, got } => {
                FriError::CommitPowWitnessCountMismatch { expected, got }
            },
            TranscriptFailure::OutOfMemory => FriError::OutOfMemory,
        }
    }
}

impl<CommitMmcsErr, InputErr> From<PcsTranscriptFailure> for FriError<CommitMmcsErr, InputErr> {
    ghost from_gives = { λ failure e. e ≡ of_pcs_transcript failure };

    fn from(failure: PcsTranscriptFailure) -> Self {
        match failure {
            PcsTranscriptFailure::PowWitness { .. }
            | PcsTranscriptFailure::MissingPowWitness { .. } => {
                FriError::InvalidPowWitness(PowPhase::Batch)
            },
            PcsTranscriptFailure::ClaimedEvaluationCount {
                opening,
                expected,
                got,
            } => {
                FriError::ClaimedEvaluationCountMismatch {
                    opening,
                    expected,
                    got,
                }
            },
            PcsTranscriptFailure::OutOfMemory => FriError::OutOfMemory,
        }
    }
}
