//! Columns packed to lanes: what constraints see at the points of several rows at once.

ghost use Rattle.std.specs.Prelude.{◌≡◌, ◌<◌, ◌≤◌, ◌+◌, ◌%◌, ◌^◌, ℕ, [], All, OnOk, length};
ghost use Rattle.std.specs.Prelude.{slice_index_or};
ghost use Rattle.p3_air.specs.Shapes.{entries_of, HasWidths};
ghost use Rattle.p3_uni_stark_quotient.specs.Given.{rows_if_any, on_coset, entries_on, FitsCoset};
ghost use Rattle.p3_uni_stark_quotient.specs.Lanes.{in_lane, lane_entries, packed_entries};

use crate::columns::{CosetColumns, height_of, row_or_empty};
use p3_air::{AirLayout, Window};
use p3_field_core::{Field, PackedField};
use p3_matrix::RowMajorMatrix;
use std::alloc::{AllocError, Global};

/// The entries of several rows, packed column by column, a lane to each row.
#[derive(Drop)]
pub(crate) struct PackedColumns<'a, F, P> {
    rows: Vec<&'a [F]>,
    /// Rows of the trace.
    pub local: Vec<P>,
    /// The next row after each of them.
    pub next: Vec<P>,
    /// Rows of the preprocessed columns.
    pub preprocessed: Vec<P>,
    /// The next row after each of them.
    pub preprocessed_next: Vec<P>,
    /// Rows of the periodic columns.
    pub periodic: Vec<P>,
}

/// The entries of several rows in one column, a lane to each row.
fn pack_column<F: Field, P: PackedField<F>>(rows: &[&[F]], column: usize) -> P
    requires count { length rows.now ≡ P.WIDTH }
    requires column { All (λ row. column < length row.now) rows.now }
    ensures { (l : ℕ) (x : F) (row : _) → l < P.WIDTH → P.lane result l
        ≡ slice_index_or (slice_index_or rows.now l row).now column x }
{
    let mut packed = P::broadcast(F::ZERO);
    for lane in 0..P::WIDTH {
        let row = rows[lane];
        packed = packed.with_lane(lane, row[column]);
    }
    packed
}

/// The entries of several rows of so many columns, in the place of what `packed` held.
fn pack_columns<F: Field, P: PackedField<F>>(
    rows: &[&[F]],
    width: usize,
    packed: &mut Vec<P>,
) -> Result<(), AllocError>
    requires count { length rows.now ≡ P.WIDTH }
    requires width { All (λ row. length row.now ≡ width) rows.now }
    ensures { (l : ℕ) (row : _) → l < P.WIDTH → OnOk result
        (in_lane P.lane l packed.new.items ≡ (slice_index_or rows.now l row).now) }
{
    packed.clear();
    for column in 0..width {
        packed.push(pack_column(rows, column))?;
    }
    Ok(())
}

/// As many rows of a matrix as there are lanes, from `start` on, in place of what `packed` held.
/// They have so many columns, and after `period` rows the first comes again.
fn pack_rows<'a, F: Field, P: PackedField<F>>(
    matrix: Option<&'a RowMajorMatrix<F>>,
    width: usize,
    start: usize,
    period: usize,
    rows: &mut Vec<&'a [F]>,
    packed: &mut Vec<P>,
) -> Result<(), AllocError>
    requires end { start + P.WIDTH ≤ 2 ^ 64 }
    requires period { 0 < period }
    requires width { (l : ℕ) → l < P.WIDTH → length
        (slice_index_or (rows_if_any matrix) ((start + l) % period) []) ≡ width }
    ensures { (l : ℕ) → l < P.WIDTH → OnOk result (in_lane P.lane l packed.new.items
        ≡ slice_index_or (rows_if_any matrix.entry) ((start + l) % period) []) }
{
    rows.clear();
    for lane in 0..P::WIDTH {
        rows.push(row_or_empty(matrix, (start + lane) % period))?;
    }
    pack_columns(rows.as_slice(), width, packed)?;
    Ok(())
}

impl<'a, F: Field, P: PackedField<F>> PackedColumns<'a, F, P> {
    /// Room for the entries.
    pub(crate) fn new(alloc: Global) -> Self {
        PackedColumns {
            rows: Vec::new(alloc),
            local: Vec::new(alloc),
            next: Vec::new(alloc),
            preprocessed: Vec::new(alloc),
            preprocessed_next: Vec::new(alloc),
            periodic: Vec::new(alloc),
        }
    }

    /// Packs what constraints see at the points of the rows from `first` on, in the place of what
    /// was there. The next row of the trace is `step` points further.
    pub(crate) fn fill(
        &mut self,
        layout: &AirLayout,
        columns: &CosetColumns<'a, F>,
        first: usize,
        step: usize,
    ) -> Result<(), AllocError>
        requires rows { first + P.WIDTH ≤ length (on_coset columns.now).trace }
        requires step { step ≤ length (on_coset columns.now).trace }
        requires room { length (on_coset columns.now).trace ≤ 2 ^ 63 }
        requires fits { FitsCoset layout.now (length (on_coset columns.now).trace)
            (on_coset columns.now) }
        ensures widths { OnOk result (HasWidths layout.now
            (packed_entries self.new columns.now.public_values.now)) }
        ensures entries { (l : ℕ) → l < P.WIDTH → OnOk result (lane_entries P.lane l
            (packed_entries self.new columns.now.public_values.now)
            ≡ entries_on (on_coset columns.now) step (first + l)) }
    {
        let size = columns.trace.height();
        let next = first + step;
        let rows = &mut self.rows;
        let trace = Some(columns.trace);
        let width = layout.width;
        pack_rows(trace, width, first, size, rows, &mut self.local)?;
        pack_rows(trace, width, next, size, rows, &mut self.next)?;
        let fixed = columns.preprocessed;
        let width = layout.preprocessed_width;
        pack_rows(fixed, width, first, size, rows, &mut self.preprocessed)?;
        pack_rows(fixed, width, next, size, rows, &mut self.preprocessed_next)?;
        let periodic = columns.periodic;
        let period = height_of(periodic).max(1);
        let width = layout.num_periodic_columns;
        pack_rows(periodic, width, first, period, rows, &mut self.periodic)?;
        Ok(())
    }

    /// What constraints see in all lanes.
    pub(crate) fn window<'b>(&'b self, public_values: &'b [F]) -> Window<'b, F, P>
        ensures { entries_of result ≡ packed_entries self.now public_values.now }
    {
        Window {
            local: self.local.as_slice(),
            next: self.next.as_slice(),
            preprocessed: self.preprocessed.as_slice(),
            preprocessed_next: self.preprocessed_next.as_slice(),
            public_values,
            periodic: self.periodic.as_slice(),
        }
    }
}
