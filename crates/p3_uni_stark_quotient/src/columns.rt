//! What a prover knows of its columns on a coset.

ghost use Rattle.std.specs.Prelude.{◌≡◌, ◌<◌, ◌≤◌, ◌+◌, ◌%◌, [], length, slice_index_or};
ghost use Rattle.p3_matrix.specs.Matrix.{rows};
ghost use Rattle.p3_air.specs.Shapes.{entries_of};
ghost use Rattle.std.specs.Prelude.{All};
ghost use Rattle.std.specs.Bool.{OnTrue};
ghost use Rattle.p3_uni_stark_quotient.specs.Given.{rows_if_any, on_coset, entries_on, FitsCoset};

use p3_air::{AirLayout, Window};
use p3_matrix::RowMajorMatrix;
use p3_matrix::laws::rows_law;

/// Columns by their values at the points of a coset, in natural order, a row to a point.
#[derive(Clone, Copy, Debug)]
pub struct CosetColumns<'a, F> {
    /// The trace.
    pub trace: &'a RowMajorMatrix<F>,
    /// The preprocessed columns, if there are any.
    pub preprocessed: Option<&'a RowMajorMatrix<F>>,
    /// The periodic columns, if there are any: as many rows as there are before they repeat.
    pub periodic: Option<&'a RowMajorMatrix<F>>,
    /// The public values.
    pub public_values: &'a [F],
}

/// The row at this index, empty past the last.
pub(crate) fn row_or_empty<'a, F: Copy>(
    matrix: Option<&'a RowMajorMatrix<F>>,
    index: usize,
) -> &'a [F]
    ensures { result.now ≡ slice_index_or (rows_if_any matrix.entry) index [] }
{
    match matrix {
        Some(matrix) if index < matrix.height() => matrix.row(index),
        _ => &[],
    }
}

/// The number of rows, 0 where there is no matrix.
pub(crate) fn height_of<F: Copy>(matrix: Option<&RowMajorMatrix<F>>) -> usize
    ensures { result ≡ length (rows_if_any matrix.entry) }
{
    match matrix {
        Some(matrix) => matrix.height(),
        None => 0,
    }
}

/// Whether a matrix, if there is one, has so many columns.
fn has_width<F: Copy>(matrix: Option<&RowMajorMatrix<F>>, width: usize) -> bool
    ensures { OnTrue result (All (λ row. length row ≡ width) (rows_if_any matrix.entry)) }
{
    match matrix {
        Some(matrix) => {
            rows_law(matrix);
            matrix.width() == width
        },
        None => true,
    }
}

impl<'a, F: Copy> CosetColumns<'a, F> {
    /// Whether there is a row at each of `size` points, and rows have the layout's widths.
    pub fn fits(&self, layout: &AirLayout, size: usize) -> bool
        ensures { OnTrue result (FitsCoset layout.now size (on_coset self.now)) }
    {
        let height = self.trace.height();
        let preprocessed_height = height_of(self.preprocessed);
        let periodic_height = height_of(self.periodic);
        if height != size || !has_width(Some(self.trace), layout.width) {
            return false;
        }
        if layout.preprocessed_width != 0 && preprocessed_height != size {
            return false;
        }
        if layout.num_periodic_columns != 0 && periodic_height == 0 {
            return false;
        }
        if !has_width(self.preprocessed, layout.preprocessed_width) {
            return false;
        }
        if !has_width(self.periodic, layout.num_periodic_columns) {
            return false;
        }
        self.public_values.len() == layout.num_public_values
    }
}

/// The row `step` rows further, of so many, after the last of which comes the first.
#[tactic(auto, using(crate::proofs::Entries::row_inside, crate::proofs::Entries::row_wrapped))]
fn row_after(row: usize, step: usize, height: usize) -> usize
    requires row { row < height }
    requires step { step ≤ height }
    ensures { result ≡ (row + step) % height }
{
    let left = height - row;
    if step < left { row + step } else { step - left }
}

/// The row of a list of so many that is gone through again and again.
fn periodic_row(row: usize, height: usize) -> usize
    ensures { 0 < height → result ≡ row % height }
{
    if height == 0 { 0 } else { row % height }
}

/// What constraints see at the point of this row, where the next row of the trace is `step` points
/// further.
pub(crate) fn window_at<'a, F: Copy>(
    columns: &CosetColumns<'a, F>,
    row: usize,
    step: usize,
) -> Window<'a, F, F>
    requires row { row < length (rows columns.now.trace.now) }
    requires step { step ≤ length (rows columns.now.trace.now) }
    ensures { entries_of result ≡ entries_on (on_coset columns.now) step row }
{
    let height = columns.trace.height();
    let after = row_after(row, step, height);
    let periods = height_of(columns.periodic);
    let period_row = periodic_row(row, periods);
    let local = columns.trace.row(row);
    let next = columns.trace.row(after);
    let preprocessed = row_or_empty(columns.preprocessed, row);
    let preprocessed_next = row_or_empty(columns.preprocessed, after);
    let periodic = row_or_empty(columns.periodic, period_row);
    Window {
        local,
        next,
        preprocessed,
        preprocessed_next,
        public_values: columns.public_values,
        periodic,
    }
}
