//! Constraints' values, put together by powers of a challenge.

ghost use Rattle.std.specs.Prelude.{◌≡◌, ◌<◌, All, length};
ghost use Rattle.p3_uni_stark_identity.specs.Folding.{selected_by, folded_by};

use crate::selectors::LagrangeSelectors;
use p3_air::{Constraint, Rows};
use p3_field_core::Field;

/// A value on these rows, times their selector.
pub fn select<EF: Field>(rows: Rows, value: EF, selectors: &LagrangeSelectors<EF>) -> EF
    ensures { result ≡ selected_by EF.ops selectors.now rows value }
{
    match rows {
        Rows::All => value,
        Rows::First => selectors.is_first_row * value,
        Rows::Last => selectors.is_last_row * value,
        Rows::Transition => selectors.is_transition * value,
    }
}

/// The values of the constraints' nodes, each times its selector, by powers of `alpha`, the last
/// one times one: as the crate `p3-uni-stark` has it, each constraint is added to `alpha` times the
/// sum of those before it.
pub fn fold_constraints<EF: Field>(
    constraints: &[Constraint],
    values: &[EF],
    selectors: &LagrangeSelectors<EF>,
    alpha: EF,
) -> EF
    requires nodes { All (λ c. c.node < length values.now) constraints.now }
    ensures { result ≡ folded_by EF.ops selectors.now values.now constraints.now alpha }
{
    let mut sum = EF::ZERO;
    for constraint in constraints {
        sum = sum * alpha + select(constraint.rows, values[constraint.node], selectors);
    }
    sum
}
