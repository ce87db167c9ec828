//! The value of the final polynomial at the point of an index.

ghost use Rattle.std.specs.Prelude.{◌≡◌, ◌≤◌, ◌↔◌, IsTrue};
ghost use Rattle.algebra.specs.Polynomial.{val};
ghost use Rattle.algebra.specs.TwoAdic.{pt};

use p3_field_core::{ExtensionField, Field, TwoAdicField, reverse_bits_len};

/// The polynomial's value at a point, by Horner's rule.
fn evaluate<F: Field>(coefficients: &[F], point: F) -> F
    ensures { result ≡ val F.ops coefficients.now point }
{
    let mut value = F::ZERO;
    for k in (0..coefficients.len()).rev() {
        value = coefficients[k] + point * value;
    }
    value
}

/// Whether the value is the final polynomial's at the point of that index in the domain of
/// `2^log_height` points, which are in bit-reversed order.
#[tactic(auto, unfolding(algebra::specs::TwoAdic::pt))]
pub(crate) fn ends_at_final<F: TwoAdicField, EF: ExtensionField<F>>(
    value: EF,
    final_poly: &[EF],
    index: usize,
    log_height: usize,
) -> bool
    requires within_two_adicity { log_height ≤ F.TWO_ADICITY }
    ensures { IsTrue result
        ↔ (value ≡ val EF.ops final_poly.now (EF.lift (pt F.ops F.root index log_height))) }
{
    let exponent = reverse_bits_len(index, log_height);
    let point = F::two_adic_generator(log_height).exp_u64(exponent as u64);
    value == evaluate(final_poly, EF::from_base(point))
}
