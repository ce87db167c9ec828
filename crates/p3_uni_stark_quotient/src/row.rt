//! The quotient's value at one point.

ghost use Rattle.std.specs.Prelude.{◌≡◌, ◌≢◌, ◌<◌, ℕ, All, IfOk, OnOk, length, map, reverse};
ghost use Rattle.std.specs.Prelude.{slice_index_or};
ghost use Rattle.algebra.specs.Field.{pow};
ghost use Rattle.algebra.specs.Polynomial.{tabulate};
ghost use Rattle.stark_algebra.specs.Selectors.{zerofier};
ghost use Rattle.p3_air.specs.WellFormed.{IsWellFormed};
ghost use Rattle.p3_air.specs.Shapes.{entries_of, HasWidths};
ghost use Rattle.p3_uni_stark_identity.specs.Selectors.{AreSelectorsAt};
ghost use Rattle.p3_uni_stark_identity.specs.Folding.{selected_by};
ghost use Rattle.p3_uni_stark_quotient.specs.Quotient.{quotient_on_row};

use p3_air::{Air, Constraint, Window};
use p3_field_core::{ExtensionField, Field};
use p3_uni_stark_identity::{LagrangeSelectors, select};
use std::alloc::AllocError;

/// The constraints' values, each times its selector, in the place of what `selected` held.
fn select_all<F: Field>(
    constraints: &[Constraint],
    values: &[F],
    selectors: &LagrangeSelectors<F>,
    selected: &mut Vec<F>,
) -> Result<(), AllocError>
    requires nodes { All (λ c. c.node < length values.now) constraints.now }
    ensures { OnOk result (selected.new.items ≡ map (λ c. selected_by F.ops selectors.now c.rows
        (slice_index_or values.now c.node F.ops.zero)) constraints.now) }
{
    selected.clear();
    for constraint in constraints {
        let value = select(constraint.rows, values[constraint.node], selectors);
        selected.push(value)?;
    }
    Ok(())
}

/// The quotient's value where constraints see this window. The constraints are given in reverse,
/// beside the powers of a challenge from one on; the vectors are for the values of nodes and of
/// selected constraints. Nothing grows once they have had room for one row.
pub(crate) fn quotient_at_row<F: Field, EF: ExtensionField<F>>(
    air: &Air<F>,
    reversed: &[Constraint],
    powers: &[EF],
    window: &Window<'_, F, F>,
    selectors: &LagrangeSelectors<F>,
    nodes: &mut Vec<F>,
    selected: &mut Vec<F>,
) -> Result<EF, AllocError>
    requires well_formed { IsWellFormed air.now }
    requires widths { HasWidths air.now.layout (entries_of window.now) }
    requires reversed { reversed.now ≡ reverse air.now.constraints.items }
    requires powers { length powers.now ≡ length reversed.now }
    ensures { (g x : F) (n : ℕ) (alpha : EF)
        → powers.now ≡ tabulate (length reversed.now) (λ i. pow EF.ops alpha i)
        → AreSelectorsAt F.ops g n x selectors.now → zerofier F.ops n x ≢ F.ops.zero
        → g ≢ F.ops.zero → zerofier F.ops n F.ops.one ≡ F.ops.zero
        → zerofier F.ops n (F.ops.inv g) ≡ F.ops.zero
        → IfOk result (λ value. value
        ≡ quotient_on_row F.ops EF.ops EF.lift air.now g n alpha (entries_of window.now) x) }
{
    air.evaluate_into(window, nodes)?;
    let values = nodes.as_slice();
    select_all(reversed, values, selectors, selected)?;
    let row = selected.as_slice();
    let sum = EF::dot_row(powers, row);
    let value = sum.scale(selectors.inv_vanishing);
    Ok(value)
}
