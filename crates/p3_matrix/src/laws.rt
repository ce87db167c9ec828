//! What holds of every matrix, as a call that does nothing and whose contract is a theorem.

ghost use Rattle.std.specs.Prelude.{◌≡◌, All, length};
ghost use Rattle.p3_matrix.specs.Matrix.{rows, matrix_width};

use crate::dense::RowMajorMatrix;

/// The rows of a matrix have one width, its own.
pub fn rows_law<T>(matrix: &RowMajorMatrix<T>)
    ensures { All (λ row. length row ≡ matrix_width matrix.now) (rows matrix.now) }
{}
