//! What selects rows of a trace, at a point.

ghost use Rattle.std.specs.Prelude.{◌≡◌, ◌≢◌, ◌≤◌, ◌^◌, ◌↔◌, IsTrue};
ghost use Rattle.stark_algebra.specs.Selectors.{zerofier};
ghost use Rattle.p3_uni_stark_identity.specs.Selectors.{AreSelectorsAt};

use p3_field_core::{ExtensionField, Field, TwoAdicField};

/// The values at a point of what selects rows of a trace, and the inverse of the value of the
/// polynomial that vanishes on its domain.
#[derive(Clone, Copy, Debug)]
pub struct LagrangeSelectors<EF> {
    /// Of a polynomial that is zero at each point of the domain but the first.
    pub is_first_row: EF,
    /// Of one that is zero at each point but the last.
    pub is_last_row: EF,
    /// Of one that is zero at the last point alone.
    pub is_transition: EF,
    /// The inverse of the vanishing polynomial's value.
    pub inv_vanishing: EF,
}

/// Whether the polynomial that vanishes on the subgroup of `2^log_size` points is zero at the
/// point: exactly at the points of that subgroup.
pub fn is_on_domain<EF: Field>(log_size: usize, point: EF) -> bool
    ensures { IsTrue result ↔ (zerofier EF.ops (2 ^ log_size) point ≡ EF.ops.zero) }
{
    let vanishing = point.exp_power_of_2(log_size) - EF::ONE;
    vanishing.is_zero()
}

/// The selectors of the subgroup of `2^log_size` points, at a point that isn't one of them
/// (`selectors_at_point` of the crate `p3-commit`).
pub fn selectors_at_point<F: TwoAdicField, EF: ExtensionField<F>>(
    log_size: usize,
    point: EF,
) -> LagrangeSelectors<EF>
    requires within_two_adicity { log_size ≤ F.TWO_ADICITY }
    requires off { zerofier EF.ops (2 ^ log_size) point ≢ EF.ops.zero }
    ensures { AreSelectorsAt EF.ops (EF.lift (F.root log_size)) (2 ^ log_size) point result }
{
    let generator = EF::from_base(F::two_adic_generator(log_size));
    let vanishing = point.exp_power_of_2(log_size) - EF::ONE;
    let last_point = generator.inverse();
    let from_first = point - EF::ONE;
    let from_last = point - last_point;
    LagrangeSelectors {
        is_first_row: vanishing * from_first.inverse(),
        is_last_row: vanishing * from_last.inverse(),
        is_transition: from_last,
        inv_vanishing: vanishing.inverse(),
    }
}
