//! What the verifier's error says as text.

use crate::error::FriError;
use std::fmt;

/// The texts by families, each of which leaves other variants to the next: one `match` of all takes
/// three times as long to prove.
impl<CommitMmcsErr: fmt::Debug, InputErr: fmt::Debug> FriError<CommitMmcsErr, InputErr> {
    /// Prints what the rounds don't have as many of as described.
    fn fmt_rounds<W: fmt::Write>(&self, f: &mut fmt::Formatter<W>) -> fmt::Result {
        match self {
            FriError::CommitPhaseOpeningsCountMismatch { expected, got } => write!(
                f,
                "{got} sets of openings for {expected} rounds"
            ),
            FriError::CommitRoundCountMismatch { expected, got } => write!(
                f,
                "{got} commitments for {expected} rounds"
            ),
            FriError::CommitPhaseQueryCountMismatch {
                round,
                expected,
                got,
            } => write!(
                f,
                "round {round} opens {got} rows of siblings for {expected}"
            ),
            FriError::CommitPowWitnessCountMismatch { expected, got } => write!(
                f,
                "{got} witnesses for {expected} rounds"
            ),
            FriError::FinalPolyLengthMismatch { expected, got } => write!(
                f,
                "the final polynomial has {got} coefficients for {expected}"
            ),
            FriError::SiblingValuesLengthMismatch {
                round,
                expected,
                got,
            } => write!(
                f,
                "a row of round {round} has {got} siblings for {expected}"
            ),
            _ => self.fmt_inputs(f),
        }
    }

    /// Prints what the inputs don't have as described.
    fn fmt_inputs<W: fmt::Write>(&self, f: &mut fmt::Formatter<W>) -> fmt::Result {
        match self {
            FriError::InputOpeningsQueryCountMismatch {
                batch,
                expected,
                got,
            } => write!(
                f,
                "batch {batch} opens {got} sets of rows for {expected} indices"
            ),
            FriError::ClaimedEvaluationCountMismatch {
                opening,
                expected,
                got,
            } => write!(f, "opening {opening} claims {got} values for {expected}"),
            FriError::InputProofBatchCountMismatch { expected, got } => write!(
                f,
                "{got} openings for {expected} commitments"
            ),
            FriError::BatchOpenedValuesCountMismatch {
                batch,
                expected,
                got,
            } => write!(
                f,
                "a set of batch {batch} has {got} rows for {expected} matrices"
            ),
            _ => self.fmt_points(f),
        }
    }

    /// Prints points at which matrices can't be claimed, or not with these values.
    fn fmt_points<W: fmt::Write>(&self, f: &mut fmt::Formatter<W>) -> fmt::Result {
        match self {
            FriError::MatrixWithoutOpeningPoints { batch, matrix } => write!(
                f,
                "matrix {matrix} of batch {batch} is claimed at no point"
            ),
            FriError::PointEvaluationCountMismatch {
                batch,
                matrix,
                point,
                expected,
                got,
            } => write!(
                f,
                "{got} values for {expected}: batch {batch}, matrix {matrix}, point {point}"
            ),
            FriError::OpeningPointMatchesQueryPoint {
                batch,
                matrix,
                point,
            } => write!(
                f,
                "point {point} of matrix {matrix} of batch {batch} is a queried point"
            ),
            _ => self.fmt_folds(f),
        }
    }

    /// Prints heights that folds can't begin at.
    fn fmt_folds<W: fmt::Write>(&self, f: &mut fmt::Formatter<W>) -> fmt::Result {
        match self {
            FriError::UnsupportedFoldingCap { max_log_arity } => write!(
                f,
                "the folding cap 2^{max_log_arity} is not supported"
            ),
            FriError::MissingInitialReducedOpening { expected } => write!(
                f,
                "no reduced opening at the log height {expected}"
            ),
            FriError::InitialReducedOpeningHeightMismatch { expected, got } => write!(
                f,
                "the first reduced opening is at the log height {got}, not at {expected}"
            ),
            FriError::GlobalMaxHeightTooLarge {
                log_global_max_height,
                two_adicity,
            } => write!(
                f,
                "the log height {log_global_max_height} is above the two-adicity {two_adicity}"
            ),
            _ => self.fmt_schedule(f),
        }
    }

    /// Prints what a schedule of folds can't have, and where it doesn't end.
    fn fmt_schedule<W: fmt::Write>(&self, f: &mut fmt::Formatter<W>) -> fmt::Result {
        match self {
            FriError::FinalFoldHeightMismatch { expected, got } => write!(
                f,
                "the rounds end at the log height {got}, not at {expected}"
            ),
            FriError::FoldScheduleArityOutOfRange { round, log_arity } => write!(
                f,
                "the log arity {log_arity} of round {round} is out of range"
            ),
            FriError::FoldScheduleTooLong {
                total_log_reduction,
                log_global_max_height,
                log_final_height,
            } => write!(
                f,
                "{total_log_reduction} below {log_global_max_height} is past {log_final_height}"
            ),
            FriError::UnconsumedReducedOpenings {
                next_log_height,
                remaining,
            } => write!(
                f,
                "no round reaches {next_log_height}: {remaining} reduced openings are left"
            ),
            _ => self.fmt_random_values(f),
        }
    }

    /// Prints what the random values of a scheme that hides don't have as described.
    fn fmt_random_values<W: fmt::Write>(&self, f: &mut fmt::Formatter<W>) -> fmt::Result {
        match self {
            FriError::HidingRandomOpeningRoundCountMismatch { expected, got } => write!(
                f,
                "random values of {got} commitments for {expected}"
            ),
            FriError::HidingRandomOpeningMatrixCountMismatch {
                round,
                expected,
                got,
            } => write!(
                f,
                "random values of {got} matrices for {expected}: round {round}"
            ),
            FriError::HidingRandomOpeningPointCountMismatch {
                round,
                matrix,
                expected,
                got,
            } => write!(
                f,
                "random values at {got} points for {expected}: round {round}, matrix {matrix}"
            ),
            FriError::HidingRandomOpeningValueCountMismatch {
                round,
                matrix,
                point,
                expected,
                got,
            } => write!(
                f,
                "{got} random values for {expected}: round {round}, matrix {matrix}, point {point}"
            ),
            _ => self.fmt_masks(f),
        }
    }

    /// Prints what else is refused of a scheme that hides.
    fn fmt_masks<W: fmt::Write>(&self, f: &mut fmt::Formatter<W>) -> fmt::Result {
        match self {
            FriError::HidingPreprocessedCommitmentOutOfBounds { index, num_rounds } => write!(
                f,
                "no commitment {index} of {num_rounds}"
            ),
            FriError::InsufficientHidingRandomCodewords { required, got } => write!(
                f,
                "{got} random codewords, of {required} that are required"
            ),
            FriError::HidingBudgetExceeded {
                round,
                matrix,
                mask_height,
                num_queries,
                num_opening_points,
                extension_degree,
            } => {
                write!(
                    f,
                    "{mask_height} mask values of matrix {matrix}, round {round}, are too few"
                )?;
                write!(
                    f,
                    " for {num_queries} queries and {num_opening_points} points"
                )?;
                write!(f, " over an extension of degree {extension_degree}")
            },
            _ => self.fmt_none(),
        }
    }

    /// Names each variant, so that one without a text above isn't compiled unseen.
    fn fmt_none(&self) -> fmt::Result {
        match self {
            FriError::CommitPhaseOpeningsCountMismatch { .. }
            | FriError::CommitRoundCountMismatch { .. }
            | FriError::CommitPhaseQueryCountMismatch { .. }
            | FriError::InputOpeningsQueryCountMismatch { .. }
            | FriError::CommitPowWitnessCountMismatch { .. }
            | FriError::ClaimedEvaluationCountMismatch { .. }
            | FriError::FinalPolyLengthMismatch { .. }
            | FriError::ZeroQueries
            | FriError::NoCommittedMatrices
            | FriError::UnsupportedFoldingCap { .. }
            | FriError::ZeroFoldingArity
            | FriError::ZeroBlowup
            | FriError::MissingInitialReducedOpening { .. }
            | FriError::InitialReducedOpeningHeightMismatch { .. }
            | FriError::GlobalMaxHeightTooLarge { .. }
            | FriError::SiblingValuesLengthMismatch { .. }
            | FriError::FinalFoldHeightMismatch { .. }
            | FriError::FoldScheduleArityOutOfRange { .. }
            | FriError::FoldScheduleTooLong { .. }
            | FriError::UnconsumedReducedOpenings { .. }
            | FriError::InputProofBatchCountMismatch { .. }
            | FriError::BatchOpenedValuesCountMismatch { .. }
            | FriError::MatrixWithoutOpeningPoints { .. }
            | FriError::PointEvaluationCountMismatch { .. }
            | FriError::CommitPhaseMmcsError(_)
            | FriError::InputError(_)
            | FriError::FinalPolyMismatch
            | FriError::InvalidPowWitness(_)
            | FriError::NonCanonicalPowWitness { .. }
            | FriError::OpeningPointMatchesQueryPoint { .. }
            | FriError::HidingRandomOpeningRoundCountMismatch { .. }
            | FriError::HidingRandomOpeningMatrixCountMismatch { .. }
            | FriError::HidingRandomOpeningPointCountMismatch { .. }
            | FriError::HidingRandomOpeningValueCountMismatch { .. }
            | FriError::HidingPreprocessedCommitmentOutOfBounds { .. }
            | FriError::InsufficientHidingRandomCodewords { .. }
            | FriError::HidingBudgetExceeded { .. }
            | FriError::OutOfMemory => Ok(()),
        }
    }
}

impl<CommitMmcsErr: fmt::Debug, InputErr: fmt::Debug> fmt::Display
    for FriError<CommitMmcsErr, InputErr> {
    fn fmt<W: fmt::Write>(&self, f: &mut fmt::Formatter<W>) -> fmt::Result {
        match self {
            FriError::ZeroQueries => f.write_str("no queries"),
            FriError::NoCommittedMatrices => f.write_str("no committed matrices"),
            FriError::ZeroFoldingArity => f.write_str("the folding cap is 2^0"),
            FriError::ZeroBlowup => f.write_str("the log blowup is 0"),
            FriError::CommitPhaseMmcsError(error) => write!(f, "the rows of a round: {error:?}"),
            FriError::InputError(error) => write!(f, "the rows of a batch: {error:?}"),
            FriError::FinalPolyMismatch => f.write_str(
                "a query does not end at the final polynomial",
            ),
            FriError::InvalidPowWitness(phase) => write!(
                f,
                "the witness of the {phase} phase does not pass"
            ),
            FriError::NonCanonicalPowWitness { phase } => write!(
                f,
                "the witness of the {phase} phase, of no bits, is not zero"
            ),
            FriError::OutOfMemory => f.write_str("out of memory"),
            _ => self.fmt_rounds(f),
        }
    }
}
