//! Transforms of rows that lie one after another, over any extension of the field that has the
//! roots of unity.

ghost use Rattle.std.specs.Prelude.{◌≡◌, ◌<◌, ◌≤◌, ◌-◌, ◌*◌, ◌^◌, ℕ, vec_len, IfOk};
ghost use Rattle.algebra.specs.Field.{pow};
ghost use Rattle.algebra.specs.Polynomial.{val};
ghost use Rattle.algebra.specs.Interpolation.{interpolant};
ghost use Rattle.p3_dft.specs.Evaluations.{subgroup_points};
ghost use Rattle.p3_dft.specs.Strided.{strided, HoldsValues};

use crate::layers::next_layers;
use crate::scaling::{inverse_of_size, powers, scale_rows};
use p3_field_core::{ExtensionField, Field, TwoAdicField};
use std::alloc::{AllocError, Global};

/// From coefficients to the values at the powers of `root`, column by column, layer after layer
/// with one table of twiddles.
pub(crate) fn transform<F: Field, EF: ExtensionField<F>>(
    alloc: Global,
    values: Vec<EF>,
    width: usize,
    log_height: usize,
    root: F,
) -> Result<Vec<EF>, AllocError>
    requires log_height { log_height < 64 }
    requires size { vec_len values ≡ 2 ^ log_height * width }
    requires half_turn { 0 < log_height
        → pow F.ops root (2 ^ (log_height - 1)) ≡ F.ops.neg F.ops.one }
    ensures len { IfOk result (λ transformed. vec_len transformed ≡ vec_len values) }
    ensures values { IfOk result (λ transformed.
        HoldsValues EF.ops (EF.lift root) width (2 ^ log_height) values.items transformed.items) }
{
    let twiddles = powers(alloc, root, (1 << log_height) / 2)?;
    let mut spare = vec![in alloc; EF::ZERO; values.len()]?;
    let mut current = values;
    let mut done = 0;
    while done < log_height {
        done = next_layers(&current, &mut spare, &twiddles, width, log_height, done);
        std::mem::swap(&mut current, &mut spare);
    }
    Ok(current)
}

/// From the values at the powers of the root of unity to the coefficients, coefficient `i` times
/// `ratio^i`.
pub(crate) fn interpolate<F: TwoAdicField, EF: ExtensionField<F>>(
    alloc: Global,
    values: Vec<EF>,
    width: usize,
    log_height: usize,
    ratio: F,
) -> Result<Vec<EF>, AllocError>
    requires within_two_adicity { log_height ≤ F.TWO_ADICITY }
    requires size { vec_len values ≡ 2 ^ log_height * width }
    ensures len { IfOk result (λ coefficients. vec_len coefficients ≡ vec_len values) }
    ensures coefficients { IfOk result (λ coefficients. (j : ℕ) (x : EF) → j < width
        → val EF.ops (strided EF.ops width (2 ^ log_height) coefficients.items j) x
        ≡ val EF.ops (interpolant EF.ops
        (subgroup_points EF.ops (EF.lift (F.root log_height)) log_height)
        (strided EF.ops width (2 ^ log_height) values.items j))
        (EF.ops.mul (EF.lift ratio) x)) }
{
    let root = F::two_adic_generator(log_height).inverse();
    let mut coefficients = transform(alloc, values, width, log_height, root)?;
    scale_rows(
        &mut coefficients,
        width,
        1 << log_height,
        inverse_of_size(log_height),
        ratio,
    );
    Ok(coefficients)
}
