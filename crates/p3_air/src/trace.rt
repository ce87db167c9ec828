//! Traces, held against constraint systems.

ghost use Rattle.std.specs.Prelude.{◌≡◌, ◌<◌, ◌%◌, ◌↔◌, All, IsTrue, OnOk, MatchBool};
ghost use Rattle.std.specs.Prelude.{MatchOption, MatchResult, length, slice_index_or};
ghost use Rattle.algebra.specs.Nested.{lists};
ghost use Rattle.p3_air.specs.WellFormed.{IsWellFormed};
ghost use Rattle.p3_air.specs.Satisfied.{HasShape, IsAmong, row_at, periodic_at};
ghost use Rattle.p3_air.specs.Satisfied.{HoldsOn, FailsOn, node_values, HoldAtRow, IsSatisfied};
ghost use Rattle.p3_air.specs.Shapes.{assigned, IsFirstFailing, RowFault, TraceFault};

use crate::air::{Air, Constraint, Rows};
use crate::assignment::Assignment;
use crate::error::TraceError;
use crate::evaluation::Window;
use crate::shape::check_shape;
use p3_field_core::Field;
use std::alloc::{AllocError, Global};

/// Whether row `row` of `height` is one of those.
fn is_among(rows: Rows, row: usize, height: usize) -> bool
    requires { row < height }
    ensures { IsTrue result ↔ IsAmong height row rows }
{
    match rows {
        Rows::All => true,
        Rows::First => row == 0,
        Rows::Last => row + 1 == height,
        Rows::Transition => row + 1 < height,
    }
}

/// Whether this row is one of the constraint's, and its node isn't zero there.
fn fails<F: Field>(constraint: Constraint, values: &[F], row: usize, height: usize) -> bool
    requires row { row < height }
    requires node { constraint.node < length values.now }
    ensures { MatchBool result (FailsOn F.ops height row values.now constraint)
        (HoldsOn F.ops height row values.now constraint) }
{
    is_among(constraint.rows, row, height) && !values[constraint.node].is_zero()
}

/// The number of the first constraint that fails at this row, if there is one.
fn first_failing<F: Field>(
    constraints: &[Constraint],
    values: &[F],
    row: usize,
    height: usize,
) -> Option<usize>
    requires row { row < height }
    requires nodes { All (λ c. c.node < length values.now) constraints.now }
    ensures { MatchOption result (All (HoldsOn F.ops height row values.now) constraints.now)
        (IsFirstFailing F.ops height row values.now constraints.now) }
{
    for i in 0..constraints.len() {
        let constraint = constraints[i];
        if fails(constraint, values, row, height) {
            return Some(i);
        }
    }
    None
}

/// The row at this place, empty past the last.
fn row_or_empty<F>(rows: &[Vec<F>], place: usize) -> &[F]
    ensures { result.now ≡ row_at (lists rows.now) place }
{
    match rows.get(place) {
        Some(row) => row.as_slice(),
        None => &[],
    }
}

/// The value of a periodic column at this row.
fn periodic_value<F: Field>(column: &[F], row: usize) -> F
    requires { 0 < length column.now }
    ensures { result ≡ slice_index_or column.now (row % length column.now) F.ops.zero }
{
    column[row % column.len()]
}

/// The values of the periodic columns at this row, in the place of what `values` held.
fn periodic_into<F: Field>(
    columns: &[Vec<F>],
    row: usize,
    values: &mut Vec<F>,
) -> Result<(), AllocError>
    requires periods { All (λ column. 0 < length column) (lists columns.now) }
    ensures { OnOk result (values.new.items ≡ periodic_at F.ops (lists columns.now) row) }
{
    values.clear();
    for i in 0..columns.len() {
        let column = columns[i].as_slice();
        let value = periodic_value(column, row);
        values.push(value)?;
    }
    Ok(())
}

/// The values of all nodes at this row, in the place of what `values` held. The other vector is for
/// those of the periodic columns.
fn node_values_into<F: Field>(
    air: &Air<F>,
    given: &Assignment<'_, F>,
    row: usize,
    periodic: &mut Vec<F>,
    values: &mut Vec<F>,
) -> Result<(), AllocError>
    requires well_formed { IsWellFormed air.now }
    requires shape { HasShape air.now.layout (assigned given.now) }
    requires row { row < length given.now.trace.now }
    ensures { OnOk result (values.new.items
        ≡ node_values F.ops air.now (assigned given.now) row) }
{
    let after = (row + 1) % given.trace.len();
    periodic_into(given.periodic, row, periodic)?;
    let window = Window {
        local: row_or_empty(given.trace, row),
        next: row_or_empty(given.trace, after),
        preprocessed: row_or_empty(given.preprocessed, row),
        preprocessed_next: row_or_empty(given.preprocessed, after),
        public_values: given.public_values,
        periodic: periodic.as_slice(),
    };
    air.evaluate_into(&window, values)
}

/// Whether the constraints hold at this row; otherwise the first that doesn't. The vectors are for
/// the values of periodic columns and of nodes.
fn check_row<F: Field>(
    air: &Air<F>,
    given: &Assignment<'_, F>,
    row: usize,
    periodic: &mut Vec<F>,
    values: &mut Vec<F>,
) -> Result<(), TraceError>
    requires well_formed { IsWellFormed air.now }
    requires shape { HasShape air.now.layout (assigned given.now) }
    requires row { row < length given.now.trace.now }
    ensures { MatchResult result (λ _. HoldAtRow F.ops air.now (assigned given.now) row)
        (RowFault F.ops air.now (assigned given.now) row) }
{
    if let Err(AllocError) = node_values_into(air, given, row, periodic, values) {
        return Err(TraceError::OutOfMemory);
    }
    let constraints = air.constraints.as_slice();
    let node_values = values.as_slice();
    match first_failing(constraints, node_values, row, given.trace.len()) {
        Some(constraint) => Err(TraceError::Unsatisfied { row, constraint }),
        None => Ok(()),
    }
}

impl<F: Field> Air<F> {
    /// Whether the trace satisfies the constraints: its sizes and those of what goes with it are
    /// the layout's, and each constraint is zero on its rows. Otherwise why the sizes are refused,
    /// or the first row on which a constraint doesn't hold, and there the first such constraint.
    pub fn check_trace(&self, alloc: Global, given: &Assignment<'_, F>) -> Result<(), TraceError>
        requires well_formed { IsWellFormed self.now }
        ensures { MatchResult result
            (λ _. IsSatisfied F.ops self.now (assigned given.now))
            (TraceFault F.ops self.now (assigned given.now)) }
    {
        if let Err(fault) = check_shape(&self.layout, given) {
            return Err(fault);
        }
        let mut periodic = Vec::new(alloc);
        let mut values = Vec::new(alloc);
        for row in 0..given.trace.len() {
            if let Err(fault) = check_row(self, given, row, &mut periodic, &mut values) {
                return Err(fault);
            }
        }
        Ok(())
    }
}
