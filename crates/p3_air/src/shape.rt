//! The test whether what a constraint system is held against has its shape.

ghost use Rattle.std.specs.Prelude.{◌≡◌, ◌<◌, All, MatchOption, MatchResult, length};
ghost use Rattle.algebra.specs.Nested.{lists};
ghost use Rattle.p3_air.specs.Satisfied.{HasShape, HaveRows, HaveCounts, row_at};
ghost use Rattle.p3_air.specs.Shapes.{assigned, IsFirstMisfit, IsFirstEmpty, ShapeFault};
ghost use Rattle.p3_air.specs.Shapes.{RowsFault, CountsFault};

use crate::air::AirLayout;
use crate::assignment::Assignment;
use crate::error::TraceError;

/// The number of the first row that hasn't `width` entries, if there is one.
fn first_misfit<F>(rows: &[Vec<F>], width: usize) -> Option<usize>
    ensures { MatchOption result (All (λ row. length row ≡ width) (lists rows.now))
        (λ place. IsFirstMisfit width (lists rows.now) place
        (length (row_at (lists rows.now) place))) }
{
    for i in 0..rows.len() {
        if rows[i].len() != width {
            return Some(i);
        }
    }
    None
}

/// The number of the first column that is empty, if there is one.
fn first_empty<F>(columns: &[Vec<F>]) -> Option<usize>
    ensures { MatchOption result (All (λ column. 0 < length column) (lists columns.now))
        (IsFirstEmpty (lists columns.now)) }
{
    for i in 0..columns.len() {
        if columns[i].len() == 0 {
            return Some(i);
        }
    }
    None
}

/// Whether there is a row, and each has as many entries as there are columns, and with preprocessed
/// columns there are as many of their rows.
fn check_rows<F>(
    layout: &AirLayout,
    trace: &[Vec<F>],
    preprocessed: &[Vec<F>],
) -> Result<(), TraceError>
    ensures { MatchResult result (λ _. HaveRows layout.now (lists trace.now)
        (lists preprocessed.now))
        (RowsFault layout.now (lists trace.now) (lists preprocessed.now)) }
{
    if trace.is_empty() {
        return Err(TraceError::NoRows);
    }
    if let Some(row) = first_misfit(trace, layout.width) {
        return Err(TraceError::Width {
            row,
            entries: trace[row].len(),
            width: layout.width,
        });
    }
    if layout.preprocessed_width != 0 && preprocessed.len() != trace.len() {
        return Err(TraceError::PreprocessedHeight {
            rows: preprocessed.len(),
            height: trace.len(),
        });
    }
    if let Some(row) = first_misfit(preprocessed, layout.preprocessed_width) {
        return Err(TraceError::PreprocessedWidth {
            row,
            entries: preprocessed[row].len(),
            width: layout.preprocessed_width,
        });
    }
    Ok(())
}

/// Whether there are as many public values and periodic columns as the constraints speak of, and
/// none of these is empty.
fn check_counts<F>(
    layout: &AirLayout,
    public_values: &[F],
    periodic: &[Vec<F>],
) -> Result<(), TraceError>
    ensures { MatchResult result (λ _. HaveCounts layout.now public_values.now
        (lists periodic.now))
        (CountsFault layout.now public_values.now (lists periodic.now)) }
{
    if public_values.len() != layout.num_public_values {
        return Err(TraceError::PublicValues {
            found: public_values.len(),
            expected: layout.num_public_values,
        });
    }
    if periodic.len() != layout.num_periodic_columns {
        return Err(TraceError::PeriodicColumns {
            found: periodic.len(),
            expected: layout.num_periodic_columns,
        });
    }
    if let Some(column) = first_empty(periodic) {
        return Err(TraceError::EmptyPeriodicColumn { column });
    }
    Ok(())
}

/// Whether what is given has the sizes that the layout tells; otherwise why not.
pub(crate) fn check_shape<F>(
    layout: &AirLayout,
    given: &Assignment<'_, F>,
) -> Result<(), TraceError>
    ensures { MatchResult result (λ _. HasShape layout.now (assigned given.now))
        (ShapeFault layout.now (assigned given.now)) }
{
    if let Err(fault) = check_rows(layout, given.trace, given.preprocessed) {
        return Err(fault);
    }
    check_counts(layout, given.public_values, given.periodic)
}
