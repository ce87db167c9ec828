//! Tables of periodic columns.

ghost use Rattle.std.specs.Prelude.{◌≡◌, ◌<◌, [], All, IfOk, MatchOption, MatchResult, length};
ghost use Rattle.p3_periodic.specs.Columns.{IsPeriod, PeriodFault, HasPeriod, FirstFault};
ghost use Rattle.p3_periodic.specs.Columns.{greatest_period};

use crate::error::PeriodicError;

/// Columns of which each repeats along a trace: its length is a power of two and divides the number
/// of rows.
#[derive(Debug, Drop)]
pub struct PeriodicColumns<'a, T> {
    table: &'a [Vec<T>],
}

/// Whether a column of this length repeats along a trace of that height.
fn check_period(column: usize, length: usize, trace_height: usize) -> Result<(), PeriodicError>
    ensures { MatchResult result (λ _. IsPeriod trace_height length)
        (PeriodFault trace_height column length) }
{
    if !length.is_power_of_two() {
        return Err(PeriodicError::NotPowerOfTwo { column, length });
    }
    if trace_height % length != 0 {
        return Err(PeriodicError::DoesNotDivide {
            column,
            length,
            trace_height,
        });
    }
    Ok(())
}

/// Whether each column repeats along a trace of that height; otherwise why the first that doesn't
/// is refused.
fn check_periods<T>(table: &[Vec<T>], trace_height: usize) -> Result<(), PeriodicError>
    ensures { MatchResult result (λ _. All (HasPeriod trace_height) table.now)
        (FirstFault trace_height table.now) }
{
    for i in 0..table.len() {
        if let Err(fault) = check_period(i, table[i].len(), trace_height) {
            return Err(fault);
        }
    }
    Ok(())
}

/// The greatest length of a column, 0 where there is none.
fn greatest_length<T>(table: &[Vec<T>]) -> usize
    ensures { result ≡ greatest_period table.now }
{
    let mut greatest = 0;
    for k in (0..table.len()).rev() {
        greatest = table[k].len().max(greatest);
    }
    greatest
}

#[tactic(auto, unfolding(crate::specs::Views::columns_of))]
impl<'a, T> PeriodicColumns<'a, T> {
    ghost use Rattle.p3_periodic.specs.Views.{columns_of};

    /// The columns of this table, along a trace of `trace_len` rows. Refused by the first column
    /// whose length isn't a power of two or doesn't divide that number.
    pub fn new(table: &'a [Vec<T>], trace_len: usize) -> Result<Self, PeriodicError>
        ensures exactly { MatchResult result (λ _. All (HasPeriod trace_len) table.now)
            (FirstFault trace_len table.now) }
        ensures columns { IfOk result (λ columns. columns_of columns ≡ table.now) }
    {
        if let Err(fault) = check_periods(table, trace_len) {
            return Err(fault);
        }
        Ok(PeriodicColumns { table })
    }

    /// The greatest length of a column, or `None` where there is no column.
    pub fn max_period(&self) -> Option<usize>
        ensures { MatchOption result (columns_of self.now ≡ [])
            (λ period. (0 < length (columns_of self.now))
            × (period ≡ greatest_period (columns_of self.now))) }
    {
        if self.table.is_empty() {
            return None;
        }
        Some(greatest_length(self.table))
    }

    /// The number of columns.
    pub fn len(&self) -> usize
        ensures { result ≡ length (columns_of self.now) }
    {
        self.table.len()
    }

    /// The columns.
    pub fn as_slice(&self) -> &'a [Vec<T>]
        ensures { result.now ≡ columns_of self.now }
    {
        self.table
    }
}
