//! Matrices without their last columns.

ghost use Rattle.std.specs.Prelude.{◌≡◌, ◌<◌, ◌-◌, map, take, IfOk};
ghost use Rattle.p3_matrix.specs.Matrix.{rows, matrix_width};

use p3_matrix::RowMajorMatrix;
use std::alloc::{AllocError, Global};

/// The matrix without its last `count` columns. It has more.
pub fn without_last_cols<T: Copy>(
    alloc: Global,
    matrix: RowMajorMatrix<T>,
    count: usize,
) -> Result<RowMajorMatrix<T>, AllocError>
    requires more { count < matrix_width matrix }
    ensures rows { IfOk result (λ kept. rows kept
        ≡ map (λ row. take (matrix_width matrix - count) row) (rows matrix)) }
    ensures width { IfOk result (λ kept. matrix_width kept ≡ matrix_width matrix - count) }
{
    let kept = matrix.width() - count;
    let mut values = Vec::new(alloc);
    for index in 0..matrix.height() {
        let (first, _) = matrix.row(index).split_at(kept);
        values.extend_from_slice(first)?;
    }
    Ok(RowMajorMatrix::new(values, kept))
}
