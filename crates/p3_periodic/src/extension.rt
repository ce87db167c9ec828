//! Tables of periodic columns on two-adic domains.

ghost use Rattle.std.specs.Prelude.{◌≡◌, ◌<◌, ◌≤◌, ◌+◌, ◌-◌, ◌*◌, ◌/◌, ◌^◌, ℕ};
ghost use Rattle.std.specs.Prelude.{All, IfOk, MatchResult, OnOk, length, vec_len};
ghost use Rattle.algebra.specs.Nested.{lists};
ghost use Rattle.p3_field_core.specs.Coset.{coset_point};
ghost use Rattle.p3_periodic.specs.Batches.{column_at};
ghost use Rattle.p3_periodic.specs.Columns.{HasPeriod, Refuses};
ghost use Rattle.p3_periodic.specs.Tables.{AreTabulated, MeetColumns, table_entry};
ghost use Rattle.p3_periodic.specs.Values.{IsColumnValue};
ghost use Rattle.p3_periodic.specs.Views.{columns_of, table_rows};
ghost use Rattle.p3_periodic.specs.Writes.{IsMet};

use crate::batch::{extend_columns, places_of_period};
use crate::columns::PeriodicColumns;
use crate::error::PeriodicError;
use crate::powers::shift_to_period;
use crate::table::PeriodicLdeTable;
use crate::writes::write_rows;
use p3_dft::TwoAdicSubgroupDft;
use p3_field_core::{Field, TwoAdicField, TwoAdicMultiplicativeCoset, log2_strict_usize};
use p3_matrix::RowMajorMatrix;
use std::alloc::{AllocError, Global};

/// How many rows columns of one length have to do with: `2^log_rows` those of the trace,
/// `2^log_period` their own, and `height` those of the table.
struct RowCounts {
    log_rows: usize,
    log_period: usize,
    height: usize,
}

/// Writes the values of the columns of `2^log_period` entries, along a trace of `2^log_rows` rows,
/// to a table of `height` rows. If there are any, one transform extends them all: the power of the
/// domain's points that leads to the columns' own domain is a coset of that many times as many
/// points as the domain is larger than the trace, and goes round.
fn write_columns<F: TwoAdicField, Dft: TwoAdicSubgroupDft<F>>(
    alloc: Global,
    dft: &Dft,
    columns: &[Vec<F>],
    lde_domain: &TwoAdicMultiplicativeCoset<F>,
    counts: RowCounts,
    table: &mut [F],
) -> Result<(), AllocError>
    requires period { counts.log_period ≤ counts.log_rows }
    requires larger { counts.log_rows ≤ lde_domain.now.log_size }
    requires table { length table.old ≡ counts.height * length columns.now }
    ensures { OnOk result (MeetColumns F.ops F.root counts.log_rows
        (coset_point F.ops (F.root lde_domain.now.log_size) lde_domain.now.shift)
        (lists columns.now) counts.height (2 ^ counts.log_period) table.old table.new) }
{
    let RowCounts {
        log_rows,
        log_period,
        height,
    } = counts;
    let places = places_of_period(alloc, columns, 1 << log_period)?;
    if places.is_empty() {
        return Ok(());
    }
    let log_blowup = lde_domain.log_size() - log_rows;
    let shift = shift_to_period(lde_domain, log_rows, log_period);
    let values = extend_columns(alloc, dft, columns, &places, log_period, log_blowup, shift)?;
    let period = 1 << (log_period + log_blowup);
    write_rows(table, columns.len(), height, &places, &values, period);
    Ok(())
}

/// The values of all columns whose length is at most `2^log_greatest`, on so many rows that they
/// repeat behind them.
fn table_values<F: TwoAdicField, Dft: TwoAdicSubgroupDft<F>>(
    alloc: Global,
    dft: &Dft,
    columns: &[Vec<F>],
    log_rows: usize,
    lde_domain: &TwoAdicMultiplicativeCoset<F>,
    log_greatest: usize,
) -> Result<Vec<F>, AllocError>
    requires period { log_greatest ≤ log_rows }
    requires larger { log_rows ≤ lde_domain.now.log_size }
    ensures len { IfOk result (λ values. vec_len values
        ≡ 2 ^ (log_greatest + (lde_domain.now.log_size - log_rows)) * length columns.now) }
    ensures entries { IfOk result (λ values. (i j k : ℕ)
        → i < 2 ^ (log_greatest + (lde_domain.now.log_size - log_rows)) → j < length columns.now
        → k ≤ log_greatest → length (column_at (lists columns.now) j) ≡ 2 ^ k
        → IsMet (table_entry F.ops F.root log_rows
        (coset_point F.ops (F.root lde_domain.now.log_size) lde_domain.now.shift)
        (lists columns.now)) values.items (i * length columns.now + j)) }
{
    let height: usize = 1 << (log_greatest + (lde_domain.log_size() - log_rows));
    let Some(size) = height.checked_mul(columns.len()) else {
        return Err(AllocError);
    };
    let mut table = vec![in alloc; F::ZERO; size]?;
    for log_period in 0..log_greatest + 1 {
        let counts = RowCounts {
            log_rows,
            log_period,
            height,
        };
        write_columns(alloc, dft, columns, lde_domain, counts, &mut table)?;
    }
    Ok(table)
}

/// The table of columns that repeat along a trace of `2^log_rows` rows.
fn table_of_columns<F: TwoAdicField, Dft: TwoAdicSubgroupDft<F>>(
    alloc: Global,
    dft: &Dft,
    columns: &PeriodicColumns<'_, F>,
    log_rows: usize,
    lde_domain: &TwoAdicMultiplicativeCoset<F>,
) -> Result<PeriodicLdeTable<F>, AllocError>
    requires periods { All (HasPeriod (2 ^ log_rows)) (columns_of columns.now) }
    requires larger { log_rows ≤ lde_domain.now.log_size }
    ensures { IfOk result (λ table. AreTabulated (columns_of columns.now)
        (2 ^ (lde_domain.now.log_size - log_rows))
        (λ index. IsColumnValue F.ops F.root log_rows
        (coset_point F.ops (F.root lde_domain.now.log_size) lde_domain.now.shift index))
        (table_rows table)) }
{
    let Some(greatest) = columns.max_period() else {
        return Ok(PeriodicLdeTable::empty());
    };
    let width = columns.len();
    let log_greatest = log2_strict_usize(greatest);
    let values = table_values(
        alloc,
        dft,
        columns.as_slice(),
        log_rows,
        lde_domain,
        log_greatest,
    )?;
    Ok(PeriodicLdeTable::new(RowMajorMatrix::new(values, width)))
}

/// The table of the columns' values on `lde_domain`, by the given transform: with `b` the number of
/// its points for each row of the trace, and `P` the greatest length of a column, `P * b` rows. A
/// transform is made for each distinct length. Refused by the first column that doesn't repeat
/// along the trace, before anything grows.
pub fn build_periodic_lde_table_two_adic<F: TwoAdicField, Dft: TwoAdicSubgroupDft<F>>(
    alloc: Global,
    dft: &Dft,
    periodic_table: &[Vec<F>],
    trace_domain: &TwoAdicMultiplicativeCoset<F>,
    lde_domain: &TwoAdicMultiplicativeCoset<F>,
) -> Result<PeriodicLdeTable<F>, PeriodicError>
    requires { trace_domain.now.log_size ≤ lde_domain.now.log_size }
    ensures table { IfOk result (λ table. AreTabulated periodic_table.now
        (2 ^ (lde_domain.now.log_size - trace_domain.now.log_size))
        (λ index. IsColumnValue F.ops F.root trace_domain.now.log_size
        (coset_point F.ops (F.root lde_domain.now.log_size) lde_domain.now.shift index))
        (table_rows table)) }
    ensures exactly { MatchResult result
        (λ _. All (HasPeriod (2 ^ trace_domain.now.log_size)) periodic_table.now)
        (Refuses (2 ^ trace_domain.now.log_size) periodic_table.now) }
{
    let columns = match PeriodicColumns::new(periodic_table, trace_domain.size()) {
        Ok(columns) => columns,
        Err(fault) => return Err(fault),
    };
    let log_rows = trace_domain.log_size();
    match table_of_columns(alloc, dft, &columns, log_rows, lde_domain) {
        Ok(table) => Ok(table),
        Err(AllocError) => Err(PeriodicError::OutOfMemory),
    }
}
