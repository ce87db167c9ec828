//! What is to be opened.

use p3_matrix::RowMajorMatrix;

/// The matrices under a commitment, in their order, and for each the points at which it is to be
/// opened.
#[derive(Drop)]
pub struct OpeningRound<'a, F, EF> {
    pub matrices: &'a [RowMajorMatrix<F>],
    pub points: &'a [Vec<EF>],
}
