//! What an opening shows.

use p3_fri_openings::{OpeningRound, PointDenominators};
use p3_fri_prover::prover::ProverDataWithOpeningPoints;
use p3_mmcs::OpenedValues;

/// What is opened, round by round, with the values that are shown and what their proof is made of.
#[derive(Drop)]
pub(crate) struct OpenedRounds<'a, 'v, F, EF, D> {
    /// The matrices of each round, with their points.
    pub rounds: &'a [OpeningRound<'a, F, EF>],
    /// The values at the points, by round, matrix, point and column.
    pub values: &'v OpenedValues<EF>,
    /// The inverse differences of all points.
    pub denominators: &'v [PointDenominators<EF>],
    /// The data of each round, which holds its matrices.
    pub data: &'a [ProverDataWithOpeningPoints<'a, EF, D>],
}
