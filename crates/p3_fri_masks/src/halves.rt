//! Rows that are cut in the middle.

ghost use Rattle.std.specs.Prelude.{◌≡◌, ◌<◌, ◌+◌};
ghost use Rattle.p3_matrix.specs.Matrix.{rows, matrix_width};
ghost use Rattle.p3_fri_masks.specs.Halves.{halved_rows};

use p3_matrix::RowMajorMatrix;

/// The matrix with each row cut into two of `width` values, the second below the first. No value is
/// moved.
pub(crate) fn halve_rows<T: Copy>(matrix: RowMajorMatrix<T>, width: usize) -> RowMajorMatrix<T>
    requires has_columns { 0 < width }
    requires twice { matrix_width matrix ≡ width + width }
    ensures rows { rows result ≡ halved_rows width (rows matrix) }
    ensures width { matrix_width result ≡ width }
{
    RowMajorMatrix::new(matrix.into_values(), width)
}
