//! The greatest height of matrices.

ghost use Rattle.std.specs.Prelude.{◌≡◌};
ghost use Rattle.p3_mmcs.specs.Batch.{max_height, dimensions_of};

use p3_matrix::RowMajorMatrix;

/// The greatest height of these matrices, 1 where there is none.
#[tactic(auto, using(crate::proofs::Heights::max_height_of_take))]
pub(super) fn greatest_height_of<T: Copy>(matrices: &[RowMajorMatrix<T>]) -> usize
    ensures { result ≡ max_height (dimensions_of matrices.now) }
{
    let mut greatest: usize = 1;
    for matrix in matrices {
        greatest = greatest.max(matrix.height());
    }
    greatest
}
