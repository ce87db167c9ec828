//! The masks of a quotient's chunks.

ghost use Rattle.std.specs.Prelude.{◌≡◌, ◌<◌, ◌-◌, ◌*◌, All, IfOk, length, map};
ghost use Rattle.std.specs.Prelude.{slice_index_or};
ghost use Rattle.algebra.specs.Lists.{add_lists};
ghost use Rattle.algebra.specs.Nested.{lists};
ghost use Rattle.p3_matrix.specs.Words.{past};
ghost use Rattle.p3_fri_masks.specs.Draws.{random_rows};
ghost use Rattle.p3_fri_masks.specs.QuotientMasks.{AreDisjoint, balancing_mask};
ghost use Rattle.p3_fri_masks.specs.QuotientMasks.{quotient_masks};

use crate::factors::mask_factors;
use crate::random_rows;
use p3_field_core::{Field, SampleField, TwoAdicField, TwoAdicMultiplicativeCoset};
use p3_matrix::RowMajorMatrix;
use rand_core::Rng;
use std::alloc::{AllocError, Global};

/// Adds to each value the factor times the one beside it.
pub(crate) fn add_scaled<F: Field>(values: &mut [F], factor: F, others: &[F])
    requires { length values.old ≡ length others.now }
    ensures { values.new ≡ add_lists F.ops values.old
        (map (λ a. F.ops.mul factor a) others.now) }
{
    let prepared = factor.prepare();
    for i in 0..values.len() {
        values[i] = values[i] + others[i].times(prepared);
    }
}

/// Minus the sum of these masks, of `size` coefficients each, times their factors.
fn balancing_mask<F: Field>(
    alloc: Global,
    size: usize,
    factors: &[F],
    masks: &[Vec<F>],
) -> Result<Vec<F>, AllocError>
    requires count { length factors.now ≡ length masks.now }
    requires sizes { All (λ mask. length mask.items ≡ size) masks.now }
    ensures { IfOk result (λ mask. mask.items
        ≡ balancing_mask F.ops (length factors.now) size factors.now (lists masks.now)) }
{
    let mut mask = Vec::new(alloc);
    mask.resize(size, F::ZERO)?;
    for i in 0..factors.len() {
        add_scaled(&mut mask, -factors[i], &masks[i]);
    }
    Ok(mask)
}

/// The masks of these chunks, of `size` coefficients each. All but the last are random, one mask
/// after another, and the last is minus the sum of the others, each times its factor. There is a
/// chunk, and the cosets are disjoint and have one size.
pub fn quotient_masks<F: TwoAdicField + SampleField, R: Rng>(
    alloc: Global,
    chunks: &[(TwoAdicMultiplicativeCoset<F>, RowMajorMatrix<F>)],
    size: usize,
    rng: &mut R,
) -> Result<Vec<Vec<F>>, AllocError>
    requires some { 0 < length chunks.now }
    requires disjoint { AreDisjoint F.ops (map (λ e. e.0.log_size) chunks.now)
        (map (λ e. e.0.shift) chunks.now) }
    ensures masks { IfOk result (λ masks. lists masks.items
        ≡ quotient_masks F.ops (length chunks.now - 1)
        (slice_index_or (map (λ e. e.0.log_size) chunks.now) 0 0) size
        (map (λ e. e.0.shift) chunks.now)
        (random_rows F.from_word (length chunks.now - 1) size (R.stream rng.old))) }
    ensures past { IfOk result (λ _. R.stream rng.new
        ≡ past ((length chunks.now - 1) * size) (R.stream rng.old)) }
{
    let mut masks = random_rows(alloc, chunks.len() - 1, size, rng)?;
    let factors = mask_factors(alloc, chunks)?;
    let last = balancing_mask(alloc, size, &factors, &masks)?;
    masks.push(last)?;
    Ok(masks)
}
