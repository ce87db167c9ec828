//! Matrices masked by random values.

ghost use Rattle.std.specs.Prelude.{◌≡◌, All, IsOk, IfOk, IfErr, MatchResult};
ghost use Rattle.std.specs.List.{Any};
ghost use Rattle.p3_matrix.specs.Words.{past};
ghost use Rattle.p3_fri_masks.specs.Masked.{IsMasked, AreMasked, mask_words, mask_words_of_all};
ghost use Rattle.p3_fri_masks.specs.Masked.{IsTooWide};

use crate::halves::halve_rows;
use p3_field_core::{SampleField, TwoAdicField, TwoAdicMultiplicativeCoset};
use p3_matrix::RowMajorMatrix;
use rand_core::Rng;
use std::alloc::{AllocError, Global};

/// The matrix of twice the height and of `num_random_codewords` columns more: row `2 * i` is row
/// `i` followed by random values, and row `2 * i + 1` is random. The random values are the elements
/// of the generator's next words, row by row, from left to right. Where memory is refused none is
/// drawn. The masks follow section 4.2 of <https://eprint.iacr.org/2024/1037>.
pub fn mask<F: SampleField, R: Rng>(
    alloc: Global,
    matrix: &RowMajorMatrix<F>,
    num_random_codewords: usize,
    rng: &mut R,
) -> Result<RowMajorMatrix<F>, AllocError>
    ensures masked { IfOk result (IsMasked F.from_word num_random_codewords matrix.now
        (R.stream rng.old)) }
    ensures past { IfOk result (λ _. R.stream rng.new
        ≡ past (mask_words F.from_word num_random_codewords matrix.now) (R.stream rng.old)) }
    ensures refused { IfErr result (λ _. rng.new ≡ rng.old) }
{
    let Some(width) = matrix.width().checked_add(num_random_codewords) else {
        return Err(AllocError);
    };
    let Some(drawn) = width.checked_add(num_random_codewords) else {
        return Err(AllocError);
    };
    // The random values of two rows follow one row of the matrix.
    let wider = matrix.with_random_cols(alloc, drawn, rng)?;
    Ok(halve_rows(wider, width))
}

/// Whether each of these matrices can be masked: with the random values between them no two of its
/// rows are longer than the greatest `usize`.
fn check_widths<F: TwoAdicField>(
    num_random_codewords: usize,
    evaluations: &[(TwoAdicMultiplicativeCoset<F>, RowMajorMatrix<F>)],
) -> Result<(), AllocError>
    ensures { MatchResult result
        (λ _. All (λ e. ¬ IsTooWide num_random_codewords e.1) evaluations.now)
        (λ _. Any (λ e. IsTooWide num_random_codewords e.1) evaluations.now) }
{
    for evaluation in evaluations {
        let Some(width) = evaluation.1.width().checked_add(num_random_codewords) else {
            return Err(AllocError);
        };
        let Some(_drawn) = width.checked_add(num_random_codewords) else {
            return Err(AllocError);
        };
    }
    Ok(())
}

/// Each of these matrices masked, in order, beside its domain. The domain of a matrix has twice as
/// many points as the matrix has rows, so that the masked matrix holds values on all of it. Nothing
/// is drawn where one of them is too wide.
pub fn mask_each<F: SampleField + TwoAdicField, R: Rng>(
    alloc: Global,
    evaluations: Vec<(TwoAdicMultiplicativeCoset<F>, RowMajorMatrix<F>)>,
    num_random_codewords: usize,
    rng: &mut R,
) -> Result<Vec<(TwoAdicMultiplicativeCoset<F>, RowMajorMatrix<F>)>, AllocError>
    ensures masked { IfOk result (λ masked. AreMasked F.from_word num_random_codewords
        evaluations.items (R.stream rng.old) masked.items) }
    ensures past { IfOk result (λ _. R.stream rng.new
        ≡ past (mask_words_of_all F.from_word num_random_codewords evaluations.items)
        (R.stream rng.old)) }
    ensures narrow { IsOk result
        → All (λ e. ¬ IsTooWide num_random_codewords e.1) evaluations.items }
    ensures too_wide { Any (λ e. IsTooWide num_random_codewords e.1) evaluations.items
        → rng.new ≡ rng.old }
{
    check_widths(num_random_codewords, &evaluations)?;
    let mut masked = Vec::with_capacity(alloc, evaluations.len())?;
    for (domain, matrix) in evaluations {
        masked.push((domain, mask(alloc, &matrix, num_random_codewords, rng)?))?;
    }
    Ok(masked)
}
