//! Matrices with further columns on the right: random ones, and zeros.

ghost use Rattle.std.specs.Prelude.{◌≡◌, ◌<◌, ◌≤◌, ◌+◌, ◌*◌, ◌++◌, [], length, IfOk, IfErr};
ghost use Rattle.std.specs.Prelude.{OnOk, OnErr, vec_len, vec_capacity};
ghost use Rattle.p3_matrix.specs.Matrix.{rows, matrix_width};
ghost use Rattle.p3_matrix.specs.Words.{past, randoms};
ghost use Rattle.p3_matrix.specs.Columns.{rows_with_random_columns, rows_with_zero_columns};

use crate::dense::RowMajorMatrix;
use p3_field_core::field::Field;
use p3_field_core::sample_field::SampleField;
use rand_core::Rng;
use std::alloc::{AllocError, Global};

impl<T: SampleField> RowMajorMatrix<T> {
    /// The matrix with `count` random columns on the right. Each random value is the element of the
    /// generator's next word, row by row, from left to right. Memory is asked for before the first
    /// word is drawn.
    pub fn with_random_cols<R: Rng>(
        &self,
        alloc: Global,
        count: usize,
        rng: &mut R,
    ) -> Result<RowMajorMatrix<T>, AllocError>
        ensures rows { IfOk result (λ wider. rows wider
            ≡ rows_with_random_columns T.from_word count (rows self.now) (R.stream rng.old)) }
        ensures width { IfOk result (λ wider. matrix_width wider ≡ matrix_width self.now + count) }
        ensures past { IfOk result (λ _. R.stream rng.new
            ≡ past (length (rows self.now) * count) (R.stream rng.old)) }
        ensures refused { IfErr result (λ _. rng.new ≡ rng.old) }
    {
        let height = self.height();
        let Some(width) = self.width().checked_add(count) else {
            return Err(AllocError);
        };
        let mut values = room_for_rows(alloc, height, width)?;
        for index in 0..height {
            values.extend_from_slice(self.row(index))?;
            push_random(&mut values, count, rng)?;
        }
        Ok(RowMajorMatrix::new(values, width))
    }
}

impl<T: Field> RowMajorMatrix<T> {
    /// The matrix with `count` columns of zeros on the right.
    pub fn with_zero_cols(
        &self,
        alloc: Global,
        count: usize,
    ) -> Result<RowMajorMatrix<T>, AllocError>
        ensures rows { IfOk result (λ wider. rows wider
            ≡ rows_with_zero_columns T.ops.zero count (rows self.now)) }
        ensures width { IfOk result (λ wider. matrix_width wider ≡ matrix_width self.now + count) }
    {
        let height = self.height();
        let Some(width) = self.width().checked_add(count) else {
            return Err(AllocError);
        };
        let mut padded = room_for_rows(alloc, height, width)?;
        for index in 0..height {
            padded.extend_from_slice(self.row(index))?;
            padded.resize(padded.len() + count, T::ZERO)?;
        }
        Ok(RowMajorMatrix::new(padded, width))
    }
}

/// An empty list with room for so many rows.
fn room_for_rows<T>(alloc: Global, height: usize, width: usize) -> Result<Vec<T>, AllocError>
    ensures empty { IfOk result (λ values. values.items ≡ []) }
    ensures room { IfOk result (λ values. height * width ≤ vec_capacity values) }
{
    let Some(size) = height.checked_mul(width) else {
        return Err(AllocError);
    };
    Vec::with_capacity(alloc, size)
}

/// Adds `count` random values, each of the generator's next word. It fails only where there is no
/// room for them.
fn push_random<T: SampleField, R: Rng>(
    values: &mut Vec<T>,
    count: usize,
    rng: &mut R,
) -> Result<(), AllocError>
    ensures values { OnOk result (values.new.items
        ≡ values.old.items ++ randoms T.from_word count (R.stream rng.old)) }
    ensures past { OnOk result (R.stream rng.new ≡ past count (R.stream rng.old)) }
    ensures len { OnOk result (vec_len values.new ≡ vec_len values.old + count) }
    ensures capacity { vec_capacity values.old ≤ vec_capacity values.new }
    ensures full { OnErr result (vec_capacity values.old < vec_len values.old + count) }
{
    for _ in 0..count {
        let word = rng.next_u64();
        values.push(T::from_word(word))?;
    }
    Ok(())
}
