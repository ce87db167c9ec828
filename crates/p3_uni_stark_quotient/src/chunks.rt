//! The chunks of a quotient's values.

ghost use Rattle.std.specs.Prelude.{◌≡◌, ◌<◌, ◌≤◌, ◌+◌, ◌*◌, ◌^◌, ◌++◌, ℕ, IfOk, OnOk, length};
ghost use Rattle.std.specs.Prelude.{map, slice_index_or};
ghost use Rattle.algebra.specs.Polynomial.{tabulate};
ghost use Rattle.p3_matrix.specs.Matrix.{rows, matrix_width};
ghost use Rattle.p3_uni_stark_quotient.specs.Chunked.{chunk_rows};

use p3_field_core::{ExtensionField, Field};
use p3_matrix::RowMajorMatrix;
use std::alloc::{AllocError, Global};

/// Appends the element's coefficients.
fn push_coefficients<F: Field, EF: ExtensionField<F>>(
    coefficients: &mut Vec<F>,
    value: EF,
) -> Result<(), AllocError>
    ensures { OnOk result (coefficients.new.items
        ≡ coefficients.old.items ++ EF.coefficients value) }
{
    for index in 0..EF::DIMENSION {
        coefficients.push(value.coefficient(index))?;
    }
    Ok(())
}

/// The place, among the values on the whole coset, of a chunk's value at this row.
fn place_of(log_size: usize, log_num_chunks: usize, chunk: usize, row: usize) -> usize
    requires sizes { log_size + log_num_chunks < 64 }
    requires chunk { chunk < 2 ^ log_num_chunks }
    requires row { row < 2 ^ log_size }
    ensures place { result ≡ chunk + row * 2 ^ log_num_chunks }
    ensures within { result < 2 ^ (log_size + log_num_chunks) }
{
    let step = 1usize << log_num_chunks;
    let start = row * step;
    chunk + start
}

/// The coefficients of every `2^log_num_chunks`-th value, from the one at `chunk` on, a row to a
/// value.
fn quotient_chunk<F: Field, EF: ExtensionField<F>>(
    alloc: Global,
    values: &[EF],
    log_size: usize,
    log_num_chunks: usize,
    chunk: usize,
) -> Result<RowMajorMatrix<F>, AllocError>
    requires sizes { log_size + log_num_chunks < 64 }
    requires count { length values.now ≡ 2 ^ (log_size + log_num_chunks) }
    requires chunk { chunk < 2 ^ log_num_chunks }
    ensures rows { IfOk result (λ matrix. rows matrix
        ≡ chunk_rows EF.coefficients EF.ops.zero log_size log_num_chunks values.now chunk) }
    ensures width { IfOk result (λ matrix. matrix_width matrix ≡ EF.DIMENSION) }
{
    let num_rows = 1usize << log_size;
    let Some(len) = num_rows.checked_mul(EF::DIMENSION) else {
        return Err(AllocError);
    };
    let mut coefficients = Vec::with_capacity(alloc, len)?;
    for row in 0..num_rows {
        let place = place_of(log_size, log_num_chunks, chunk, row);
        push_coefficients(&mut coefficients, values[place])?;
    }
    Ok(RowMajorMatrix::new(coefficients, EF::DIMENSION))
}

/// The chunks of the quotient's values on a coset of `2^(log_size + log_num_chunks)` points, in
/// natural order: chunk `i` has the values at the points of the coset at `i` into which that is
/// split, each as the row of its coefficients.
pub fn quotient_chunks<F: Field, EF: ExtensionField<F>>(
    alloc: Global,
    values: &[EF],
    log_size: usize,
    log_num_chunks: usize,
) -> Result<Vec<RowMajorMatrix<F>>, AllocError>
    requires sizes { log_size + log_num_chunks < 64 }
    requires count { length values.now ≡ 2 ^ (log_size + log_num_chunks) }
    ensures rows { IfOk result (λ chunks. map rows chunks.items ≡ tabulate (2 ^ log_num_chunks)
        (chunk_rows EF.coefficients EF.ops.zero log_size log_num_chunks values.now)) }
{
    let num_chunks = 1usize << log_num_chunks;
    let mut chunks = Vec::with_capacity(alloc, num_chunks)?;
    for chunk in 0..num_chunks {
        let matrix = quotient_chunk(alloc, values, log_size, log_num_chunks, chunk)?;
        chunks.push(matrix)?;
    }
    Ok(chunks)
}
