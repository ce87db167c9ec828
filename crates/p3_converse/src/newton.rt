//! Interpolation in place by Newton's form, which divides by differences of the points alone: these
//! are inverted once, however many lists of values follow.

ghost use Rattle.std.specs.Prelude.{◌≡◌, ◌*◌, ◌≤◌, List, [], ◌∷◌, length, map, IfOk, OnOk};
ghost use Rattle.algebra.specs.Interpolation.{AreDistinct, interpolant, plus_multiple};
ghost use Rattle.p3_converse.specs.Positions.{part, concatenated};
ghost use Rattle.p3_converse.specs.Newton.{difference_product, weights_of, newton_val, expanded};

use p3_field_core::{Field, batch_multiplicative_inverse};
use std::alloc::{AllocError, Global};

/// For each point, the inverse of the product of its differences from the points before it, by one
/// inversion. The products stand in `scratch` meanwhile, which is empty before and after.
pub fn newton_weights<F: Field>(
    alloc: Global,
    points: &[F],
    scratch: &mut Vec<F>,
) -> Result<Vec<F>, AllocError>
    requires distinct { AreDistinct points.now }
    requires scratch { scratch.old.items ≡ [] }
    ensures weights { IfOk result (λ weights. weights.items ≡ weights_of F.ops points.now) }
    ensures scratch { OnOk result (scratch.new.items ≡ []) }
{
    for t in 0..points.len() {
        scratch.push(product_of_differences(points[t], &points[..t]))?;
    }
    let weights = batch_multiplicative_inverse(alloc, scratch)?;
    scratch.clear();
    Ok(weights)
}

/// The product of the differences of `point` from the others.
fn product_of_differences<F: Field>(point: F, others: &[F]) -> F
    ensures { result ≡ difference_product F.ops point others.now }
{
    let mut product = F::ONE;
    for other in others {
        product = product * (point - *other);
    }
    product
}

/// Turns each of the `count` lists of values at the points, which stand one after another, into the
/// coefficients of the one polynomial that has them, as many.
pub fn interpolate_each<F: Field>(points: &[F], weights: &[F], count: usize, values: &mut [F])
    requires distinct { AreDistinct points.now }
    requires weights { weights.now ≡ weights_of F.ops points.now }
    requires count { length values.old ≡ count * length points.now }
    ensures { values.new ≡ concatenated count
        (λ m. interpolant F.ops points.now (part values.old m (length points.now))) }
{
    let len = points.len();
    for m in 0..count {
        let start = m * len;
        interpolate(points, weights, &mut values[start..start + len]);
    }
}

/// Turns values at the points into the coefficients of the one polynomial that has them, as many.
fn interpolate<F: Field>(points: &[F], weights: &[F], values: &mut [F])
    requires distinct { AreDistinct points.now }
    requires weights { weights.now ≡ weights_of F.ops points.now }
    requires count { length values.old ≡ length points.now }
    ensures { values.new ≡ interpolant F.ops points.now values.old }
{
    to_newton_form(points, weights, values);
    to_coefficients(points, values);
}

/// Turns values at the points into coefficients of Newton's form: each is what the form so far
/// lacks at its point, divided by the product of that point's differences from the points before.
fn to_newton_form<F: Field>(points: &[F], weights: &[F], values: &mut [F])
    requires distinct { AreDistinct points.now }
    requires weights { weights.now ≡ weights_of F.ops points.now }
    requires count { length values.old ≡ length points.now }
    ensures { map (λ x. newton_val F.ops points.now values.new x) points.now ≡ values.old }
{
    for t in 1..values.len() {
        let so_far = newton_value(points, &values[..t], points[t]);
        values[t] = (values[t] - so_far) * weights[t];
    }
}

/// The value at `x` of the polynomial with these coefficients of Newton's form, by Horner's rule.
fn newton_value<F: Field>(points: &[F], coefficients: &[F], x: F) -> F
    requires count { length coefficients.now ≤ length points.now }
    ensures { result ≡ newton_val F.ops points.now coefficients.now x }
{
    let mut value = F::ZERO;
    for s in (0..coefficients.len()).rev() {
        value = coefficients[s] + (x - points[s]) * value;
    }
    value
}

/// Turns coefficients of Newton's form into those of the powers of `X`.
fn to_coefficients<F: Field>(points: &[F], coefficients: &mut [F])
    requires count { length coefficients.old ≡ length points.now }
    ensures { coefficients.new ≡ expanded F.ops points.now coefficients.old }
{
    for s in (0..coefficients.len()).rev() {
        add_multiple(points[s], &mut coefficients[s..]);
    }
}

/// Turns the number `y` and, behind it, the coefficients of a polynomial `q` into those of
/// `y + (X - root) * q`.
pub fn add_multiple<F: Field>(root: F, coefficients: &mut [F])
    ensures { (y : F) (q : List F) → coefficients.old ≡ y ∷ q
        → coefficients.new ≡ plus_multiple F.ops root y q }
{
    for j in 1..coefficients.len() {
        coefficients[j - 1] = coefficients[j - 1] - root * coefficients[j];
    }
}
