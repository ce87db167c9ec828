//! What is timed: matrices of given sizes.

ghost use Rattle.std.specs.Prelude.{◌≡◌, ◌<◌, ◌^◌, IfOk, OnOk, length};
ghost use Rattle.p3_matrix.specs.Matrix.{rows, matrix_width};

use crate::watch::{Fault, Result};
use p3_field::{BabyBear, Field, PrimeField64};
use p3_matrix::RowMajorMatrix;
use std::alloc::Global;

/// The matrix of these rows, if they are `2^log_height` of `width` values.
pub fn rows_of<T: Copy>(
    values: Vec<T>,
    width: usize,
    log_height: usize,
) -> Result<RowMajorMatrix<T>>
    ensures width { IfOk result (λ matrix. matrix_width matrix ≡ width) }
    ensures height { IfOk result (λ matrix. length (rows matrix) ≡ 2 ^ log_height) }
{
    if width == 0 || log_height > 63 || values.len() % width != 0 {
        return Err(Fault::Sizes);
    }
    let matrix = RowMajorMatrix::new(values, width);
    if matrix.height() != 1 << log_height {
        return Err(Fault::Sizes);
    }
    Ok(matrix)
}

/// A matrix of `2^log_height` rows, if it is one that the modes take. Each entry below the first
/// row is the square of that above it, times that beside it, plus the one beside that.
pub fn matrix_of(alloc: Global, log_height: usize, width: usize) -> Result<RowMajorMatrix<BabyBear>>
    ensures low { OnOk result (log_height < 25) }
    ensures width { IfOk result (λ matrix. matrix_width matrix ≡ width) }
    ensures height { IfOk result (λ matrix. length (rows matrix) ≡ 2 ^ log_height) }
{
    if width == 0 || log_height > 24 {
        return Err(Fault::Sizes);
    }
    let Some(count) = width.checked_mul(1 << log_height) else {
        return Err(Fault::Sizes);
    };
    let mut values = vec![in alloc; BabyBear::ZERO; count]?;
    let entries = values.as_mut_slice();
    for index in 0..entries.len() {
        entries[index] = if index < width {
            BabyBear::from_u64(index as u64 + 1)
        } else {
            let column = index % width;
            let row = index - column - width;
            let here = entries[row + column];
            let beside = (column + 1) % width;
            here * here * entries[row + beside] + entries[row + (beside + 1) % width]
        };
    }
    rows_of(values, width, log_height)
}
