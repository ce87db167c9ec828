//! Random values of a generator's next words.

ghost use Rattle.std.specs.Prelude.{◌≡◌, ◌<◌, ◌*◌, IfOk};
ghost use Rattle.algebra.specs.Nested.{lists};
ghost use Rattle.p3_matrix.specs.Matrix.{rows, matrix_width};
ghost use Rattle.p3_matrix.specs.Words.{past, randoms};
ghost use Rattle.p3_fri_masks.specs.Draws.{random_rows};

use p3_field_core::SampleField;
use p3_matrix::RowMajorMatrix;
use rand_core::Rng;
use std::alloc::{AllocError, Global};

/// `count` random values, each of the generator's next word.
pub fn random_values<T: SampleField, R: Rng>(
    alloc: Global,
    count: usize,
    rng: &mut R,
) -> Result<Vec<T>, AllocError>
    ensures values { IfOk result (λ values.
        values.items ≡ randoms T.from_word count (R.stream rng.old)) }
    ensures past { IfOk result (λ _. R.stream rng.new ≡ past count (R.stream rng.old)) }
{
    let mut values = Vec::with_capacity(alloc, count)?;
    for _ in 0..count {
        let word = rng.next_u64();
        values.push(T::from_word(word))?;
    }
    Ok(values)
}

/// `count` rows of `width` random values, one row after another.
pub fn random_rows<T: SampleField, R: Rng>(
    alloc: Global,
    count: usize,
    width: usize,
    rng: &mut R,
) -> Result<Vec<Vec<T>>, AllocError>
    ensures rows { IfOk result (λ rows.
        lists rows.items ≡ random_rows T.from_word count width (R.stream rng.old)) }
    ensures past { IfOk result (λ _.
        R.stream rng.new ≡ past (count * width) (R.stream rng.old)) }
{
    let mut rows = Vec::with_capacity(alloc, count)?;
    for _ in 0..count {
        rows.push(random_values(alloc, width, rng)?)?;
    }
    Ok(rows)
}

/// The matrix of `height` random rows of `width` values. There is at least one column.
pub fn random_matrix<T: SampleField, R: Rng>(
    alloc: Global,
    height: usize,
    width: usize,
    rng: &mut R,
) -> Result<RowMajorMatrix<T>, AllocError>
    requires has_columns { 0 < width }
    ensures rows { IfOk result (λ matrix.
        rows matrix ≡ random_rows T.from_word height width (R.stream rng.old)) }
    ensures width { IfOk result (λ matrix. matrix_width matrix ≡ width) }
    ensures past { IfOk result (λ _.
        R.stream rng.new ≡ past (height * width) (R.stream rng.old)) }
{
    let Some(size) = height.checked_mul(width) else {
        return Err(AllocError);
    };
    let values = random_values(alloc, size, rng)?;
    Ok(RowMajorMatrix::new(values, width))
}
