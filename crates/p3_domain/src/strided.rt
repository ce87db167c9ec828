//! Rows of a matrix, every so many.

ghost use Rattle.std.specs.Prelude.{◌≡◌, ◌<◌, ◌≤◌, ◌+◌, ◌*◌, ◌/◌, IfOk, All, length, map};
ghost use Rattle.algebra.specs.Polynomial.{tabulate};
ghost use Rattle.p3_matrix.specs.Matrix.{rows, matrix_width};
ghost use Rattle.p3_domain.specs.Domains.{strided_rows};

use p3_matrix::RowMajorMatrix;
use std::alloc::{AllocError, Global};

/// The place of the row at `index` of every `step`-th from the one at `start` on, among so many.
fn place_of(start: usize, step: usize, index: usize, height: usize) -> usize
    requires start { start < step }
    requires within { (index + 1) * step ≤ height }
    ensures place { result ≡ start + index * step }
    ensures within { result < height }
{
    let first = index * step;
    start + first
}

/// Every `step`-th row from the one at `start` on, where `step` divides their number.
fn every_row<T: Copy>(
    alloc: Global,
    matrix: &RowMajorMatrix<T>,
    start: usize,
    step: usize,
) -> Result<RowMajorMatrix<T>, AllocError>
    requires start { start < step }
    requires divides { length (rows matrix.now) / step * step ≡ length (rows matrix.now) }
    ensures rows { IfOk result (λ chosen. rows chosen
        ≡ strided_rows step (length (rows matrix.now) / step) (rows matrix.now) start) }
    ensures width { IfOk result (λ chosen. matrix_width chosen ≡ matrix_width matrix.now) }
{
    let width = matrix.width();
    let height = matrix.height();
    let count = height / step;
    let Some(len) = count.checked_mul(width) else {
        return Err(AllocError);
    };
    let mut values = Vec::with_capacity(alloc, len)?;
    for index in 0..count {
        let place = place_of(start, step, index, height);
        let row = matrix.row(place);
        values.extend_from_slice(row)?;
    }
    Ok(RowMajorMatrix::new(values, width))
}

/// The rows by their index modulo `num_chunks`, which divides their number.
pub(crate) fn split_rows<T: Copy>(
    alloc: Global,
    num_chunks: usize,
    matrix: &RowMajorMatrix<T>,
) -> Result<Vec<RowMajorMatrix<T>>, AllocError>
    requires some { 0 < num_chunks }
    requires divides { length (rows matrix.now) / num_chunks * num_chunks
        ≡ length (rows matrix.now) }
    ensures rows { IfOk result (λ chunks. map rows chunks.items ≡ tabulate num_chunks
        (strided_rows num_chunks (length (rows matrix.now) / num_chunks) (rows matrix.now))) }
    ensures widths { IfOk result (λ chunks.
        All (λ w. w ≡ matrix_width matrix.now) (map matrix_width chunks.items)) }
{
    let mut chunks = Vec::with_capacity(alloc, num_chunks)?;
    for chunk in 0..num_chunks {
        let rows = every_row(alloc, matrix, chunk, num_chunks)?;
        chunks.push(rows)?;
    }
    Ok(chunks)
}
