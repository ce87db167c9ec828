//! The selectors of a trace's rows, at each point of a coset.

ghost use Rattle.std.specs.Prelude.{◌≡◌, ◌≢◌, ◌<◌, ◌≤◌, ◌^◌, ℕ, All, IfOk, length, map, vec_len};
ghost use Rattle.std.specs.Prelude.{slice_index_or, IsTrue, ◌↔◌};
ghost use Rattle.std.specs.Bool.{OnTrue};
ghost use Rattle.algebra.specs.Field.{sub, pow};
ghost use Rattle.p3_field_core.specs.Coset.{coset_point};
ghost use Rattle.p3_uni_stark_identity.specs.Selectors.{AreSelectorsAt};
ghost use Rattle.p3_uni_stark_identity.specs.Laws.{IsOffSubgroup};

use p3_field_core::{
    Field, TwoAdicField, TwoAdicMultiplicativeCoset, batch_multiplicative_inverse, shifted_powers,
};
use p3_uni_stark_identity::LagrangeSelectors;
use std::alloc::{AllocError, Global};

/// Whether the coset's shift, to the power of the greatest two-adic order, isn't one. Then the
/// coset meets no subgroup whose order is a power of two.
pub fn is_off_subgroups<F: TwoAdicField>(coset: TwoAdicMultiplicativeCoset<F>) -> bool
    ensures power { IsTrue result ↔ (pow F.ops coset.shift (2 ^ F.TWO_ADICITY) ≢ F.ops.one) }
    ensures off { OnTrue result ((k : ℕ) → k ≤ F.TWO_ADICITY
        → IsOffSubgroup F.ops (F.root coset.log_size) coset.shift k) }
{
    let power = coset.shift.exp_power_of_2(F::TWO_ADICITY);
    let difference = power - F::ONE;
    if difference.is_zero() {
        return false;
    }
    true
}

/// Each value minus the same element.
fn differences<F: Field>(alloc: Global, values: &[F], subtrahend: F) -> Result<Vec<F>, AllocError>
    ensures { IfOk result (λ differences.
        differences.items ≡ map (λ x. sub F.ops x subtrahend) values.now) }
{
    let mut differences = Vec::with_capacity(alloc, values.len())?;
    for value in values {
        differences.push(*value - subtrahend)?;
    }
    Ok(differences)
}

/// Each value minus the same element, and the inverses of these differences, by one inversion.
fn inverted_differences<F: Field>(
    alloc: Global,
    values: &[F],
    subtrahend: F,
) -> Result<(Vec<F>, Vec<F>), AllocError>
    requires others { All (λ x. sub F.ops x subtrahend ≢ F.ops.zero) values.now }
    ensures differences { IfOk result (λ pair.
        pair.0.items ≡ map (λ x. sub F.ops x subtrahend) values.now) }
    ensures inverses { IfOk result (λ pair.
        pair.1.items ≡ map F.ops.inv (map (λ x. sub F.ops x subtrahend) values.now)) }
{
    let found = differences(alloc, values, subtrahend)?;
    let entries = found.as_slice();
    let inverses = batch_multiplicative_inverse(alloc, entries)?;
    Ok((found, inverses))
}

/// The selectors at the point of this index, by what is known of all points.
fn selectors_at_index<F: Field>(
    vanishing: &[F],
    inv_vanishing: &[F],
    inv_first: &[F],
    from_last: &[F],
    inv_last: &[F],
    index: usize,
) -> LagrangeSelectors<F>
    requires vanishing { index < length vanishing.now }
    requires inv_vanishing { index < length inv_vanishing.now }
    requires inv_first { index < length inv_first.now }
    requires from_last { index < length from_last.now }
    requires inv_last { index < length inv_last.now }
    ensures first { result.is_first_row ≡ F.ops.mul (slice_index_or vanishing.now index F.ops.zero)
        (slice_index_or inv_first.now index F.ops.zero) }
    ensures last { result.is_last_row ≡ F.ops.mul (slice_index_or vanishing.now index F.ops.zero)
        (slice_index_or inv_last.now index F.ops.zero) }
    ensures transition { result.is_transition ≡ slice_index_or from_last.now index F.ops.zero }
    ensures inverse { result.inv_vanishing ≡ slice_index_or inv_vanishing.now index F.ops.zero }
{
    LagrangeSelectors {
        is_first_row: vanishing[index] * inv_first[index],
        is_last_row: vanishing[index] * inv_last[index],
        is_transition: from_last[index],
        inv_vanishing: inv_vanishing[index],
    }
}

/// The selectors of the subgroup of `2^log_size` points at each point of a coset that doesn't meet
/// it, in natural order. They take three inversions in all.
pub fn selectors_on_coset<F: TwoAdicField>(
    alloc: Global,
    log_size: usize,
    coset: TwoAdicMultiplicativeCoset<F>,
) -> Result<Vec<LagrangeSelectors<F>>, AllocError>
    requires within_two_adicity { log_size ≤ F.TWO_ADICITY }
    requires off { IsOffSubgroup F.ops (F.root coset.log_size) coset.shift log_size }
    ensures len { IfOk result (λ selectors. vec_len selectors ≡ 2 ^ coset.log_size) }
    ensures selectors { IfOk result (λ selectors. (i : ℕ) (d : LagrangeSelectors F)
        → i < 2 ^ coset.log_size → AreSelectorsAt F.ops (F.root log_size) (2 ^ log_size)
        (coset_point F.ops (F.root coset.log_size) coset.shift i)
        (slice_index_or selectors.items i d)) }
{
    let last_point = F::two_adic_generator(log_size).inverse();
    let generator = F::two_adic_generator(coset.log_size);
    let count = coset.size();
    let shift_power = coset.shift.exp_power_of_2(log_size);
    let step_power = generator.exp_power_of_2(log_size);
    let all_points = shifted_powers(alloc, coset.shift, generator, count)?;
    let points = all_points.as_slice();
    let all_powers = shifted_powers(alloc, shift_power, step_power, count)?;
    let powers = all_powers.as_slice();
    let (all_vanishing, all_inv_vanishing) = inverted_differences(alloc, powers, F::ONE)?;
    let (_from_first, all_inv_first) = inverted_differences(alloc, points, F::ONE)?;
    let (all_from_last, all_inv_last) = inverted_differences(alloc, points, last_point)?;
    let vanishing = all_vanishing.as_slice();
    let inv_vanishing = all_inv_vanishing.as_slice();
    let inv_first = all_inv_first.as_slice();
    let from_last = all_from_last.as_slice();
    let inv_last = all_inv_last.as_slice();
    let mut selectors = Vec::with_capacity(alloc, count)?;
    for i in 0..count {
        let here = selectors_at_index(vanishing, inv_vanishing, inv_first, from_last, inv_last, i);
        selectors.push(here)?;
    }
    Ok(selectors)
}
