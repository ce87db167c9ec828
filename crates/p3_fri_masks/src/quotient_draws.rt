//! Random columns for the chunks of a quotient.

ghost use Rattle.std.specs.Prelude.{◌≡◌, ◌+◌, IfOk, map};
ghost use Rattle.p3_matrix.specs.Matrix.{rows, matrix_width};
ghost use Rattle.p3_fri_masks.specs.QuotientDraws.{chunks_with_random_columns, past_columns};

use p3_field_core::{SampleField, TwoAdicField, TwoAdicMultiplicativeCoset};
use p3_matrix::RowMajorMatrix;
use rand_core::Rng;
use std::alloc::{AllocError, Global};

/// The chunks with `count` random columns on the right, one chunk after another.
pub fn chunks_with_random_cols<F: TwoAdicField + SampleField, R: Rng>(
    alloc: Global,
    chunks: &[(TwoAdicMultiplicativeCoset<F>, RowMajorMatrix<F>)],
    count: usize,
    rng: &mut R,
) -> Result<Vec<RowMajorMatrix<F>>, AllocError>
    ensures rows { IfOk result (λ wider. map rows wider.items
        ≡ chunks_with_random_columns F.from_word count (map (λ e. rows e.1) chunks.now)
        (R.stream rng.old)) }
    ensures widths { IfOk result (λ wider. map matrix_width wider.items
        ≡ map (λ e. matrix_width e.1 + count) chunks.now) }
    ensures past { IfOk result (λ _. R.stream rng.new
        ≡ past_columns count (map (λ e. rows e.1) chunks.now) (R.stream rng.old)) }
{
    let mut wider = Vec::with_capacity(alloc, chunks.len())?;
    for chunk in chunks {
        wider.push(chunk.1.with_random_cols(alloc, count, rng)?)?;
    }
    Ok(wider)
}
