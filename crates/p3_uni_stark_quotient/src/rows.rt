//! The quotient's values at all points, row after row.

ghost use Rattle.std.specs.Prelude.{◌≡◌, ◌≤◌, ℕ, OnOk, length};
ghost use Rattle.algebra.specs.Polynomial.{tabulate};
ghost use Rattle.p3_uni_stark_quotient.specs.Prepared.{IsReady, IsPreparedFor, quotient_at};

use crate::columns::{CosetColumns, window_at};
use crate::row::quotient_at_row;
use p3_air::{Air, Constraint};
use p3_field_core::{ExtensionField, Field};
use p3_uni_stark_identity::LagrangeSelectors;
use std::alloc::{AllocError, Global};

/// What the quotient's values at all points come of.
#[derive(Clone, Copy)]
pub(crate) struct Prepared<'a, F, EF> {
    pub air: &'a Air<F>,
    pub columns: CosetColumns<'a, F>,
    /// The constraints, the last one first.
    pub reversed: &'a [Constraint],
    /// The powers of the challenge from one on, one beside each constraint.
    pub powers: &'a [EF],
    /// The selectors of each point.
    pub selectors: &'a [LagrangeSelectors<F>],
    /// How many points lead from a row of the trace to the next.
    pub step: usize,
}

/// Appends the values at the rows from `first` on, row after row. Nothing grows within a row but
/// the first.
pub(crate) fn push_rows<F: Field, EF: ExtensionField<F>>(
    alloc: Global,
    prepared: &Prepared<'_, F, EF>,
    first: usize,
    values: &mut Vec<EF>,
) -> Result<(), AllocError>
    requires ready { IsReady prepared.now }
    requires first { first ≤ length prepared.now.selectors.now }
    ensures { (g : F) (n : ℕ) (alpha : EF) (x : ℕ → F)
        → IsPreparedFor F.ops EF.ops prepared.now g n alpha x
        → values.old.items ≡ tabulate first
        (quotient_at F.ops EF.ops prepared.now g n alpha x EF.lift)
        → OnOk result (values.new.items ≡ tabulate (length prepared.now.selectors.now)
        (quotient_at F.ops EF.ops prepared.now g n alpha x EF.lift)) }
{
    let mut nodes = Vec::new(alloc);
    let mut selected = Vec::new(alloc);
    for row in first..prepared.selectors.len() {
        let window = window_at(&prepared.columns, row, prepared.step);
        let selectors = prepared.selectors[row];
        let value = quotient_at_row(
            prepared.air,
            prepared.reversed,
            prepared.powers,
            &window,
            &selectors,
            &mut nodes,
            &mut selected,
        )?;
        values.push(value)?;
    }
    Ok(())
}
