//! Matrices of rows.

ghost use Rattle.std.specs.Prelude.{◌≡◌, ◌<◌, ◌↔◌, All, IsTrue, IfOk, length};
ghost use Rattle.algebra.specs.Nested.{lists};
ghost use Rattle.p3_matrix.specs.Matrix.{rows as matrix_rows, matrix_width};

use p3_matrix::RowMajorMatrix;
use std::alloc::{AllocError, Global};

/// Whether each row has this width.
pub fn have_width<T>(rows: &[Vec<T>], width: usize) -> bool
    ensures { IsTrue result ↔ All (λ row. length row ≡ width) (lists rows.now) }
{
    for i in 0..rows.len() {
        if rows[i].len() != width {
            return false;
        }
    }
    true
}

/// The matrix of these rows, of this width.
pub fn matrix_of_rows<T: Copy>(
    alloc: Global,
    rows: &[Vec<T>],
    width: usize,
) -> Result<RowMajorMatrix<T>, AllocError>
    requires some { 0 < width }
    requires widths { All (λ row. length row ≡ width) (lists rows.now) }
    ensures rows { IfOk result (λ matrix. matrix_rows matrix ≡ lists rows.now) }
    ensures width { IfOk result (λ matrix. matrix_width matrix ≡ width) }
{
    let mut values = Vec::new(alloc);
    for row in rows {
        values.extend_from_slice(row.as_slice())?;
    }
    Ok(RowMajorMatrix::new(values, width))
}
