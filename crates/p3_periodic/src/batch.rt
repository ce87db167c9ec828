//! The columns of one period, extended together.

ghost use Rattle.std.specs.Prelude.{◌≡◌, ◌<◌, ◌≤◌, ◌+◌, ◌*◌, ◌^◌, ◌++◌, ℕ, All, IfOk, OnOk};
ghost use Rattle.std.specs.Prelude.{length, map, vec_len, slice_index, slice_index_or};
ghost use Rattle.algebra.specs.Nested.{lists};
ghost use Rattle.algebra.specs.Polynomial.{val};
ghost use Rattle.algebra.specs.Periodic.{column_polynomial};
ghost use Rattle.p3_field_core.specs.Coset.{coset_point};
ghost use Rattle.p3_periodic.specs.Batches.{ArePlaces, column_at, entry_at};

use p3_dft::TwoAdicSubgroupDft;
use p3_field_core::{Field, TwoAdicField};
use p3_matrix::RowMajorMatrix;
use std::alloc::{AllocError, Global};

/// The places of the columns of this length.
pub(crate) fn places_of_period<T>(
    alloc: Global,
    columns: &[Vec<T>],
    period: usize,
) -> Result<Vec<usize>, AllocError>
    ensures { IfOk result (λ places.
        ArePlaces (lists columns.now) (length columns.now) period places.items) }
{
    let mut places = Vec::new(alloc);
    for j in 0..columns.len() {
        if columns[j].len() == period {
            places.push(j)?;
        }
    }
    Ok(places)
}

/// One more row: that of the columns at these places.
fn push_row<F: Field>(
    values: &mut Vec<F>,
    columns: &[Vec<F>],
    places: &[usize],
    row: usize,
) -> Result<(), AllocError>
    requires within { All (λ place. place < length columns.now) places.now }
    requires row { All (λ place. row < length (column_at (lists columns.now) place)) places.now }
    ensures { OnOk result (values.new.items ≡ values.old.items
        ++ map (entry_at F.ops (lists columns.now) row) places.now) }
{
    for c in 0..places.len() {
        values.push(columns[places[c]][row])?;
    }
    Ok(())
}

/// The columns at these places, row after row.
fn rows_of_columns<F: Field>(
    alloc: Global,
    columns: &[Vec<F>],
    places: &[usize],
    height: usize,
) -> Result<Vec<F>, AllocError>
    requires within { All (λ place. place < length columns.now) places.now }
    requires height { All (λ place. length (column_at (lists columns.now) place) ≡ height)
        places.now }
    ensures len { IfOk result (λ values. vec_len values ≡ height * length places.now) }
    ensures entries { IfOk result (λ values. (i c : ℕ) → i < height → c < length places.now
        → slice_index_or values.items (i * length places.now + c) F.ops.zero
        ≡ entry_at F.ops (lists columns.now) i (slice_index places.now c)) }
{
    let Some(size) = height.checked_mul(places.len()) else {
        return Err(AllocError);
    };
    let mut values = Vec::with_capacity(alloc, size)?;
    for row in 0..height {
        push_row(&mut values, columns, places, row)?;
    }
    Ok(values)
}

/// The columns at these places, each of `2^log_period` entries, extended to the coset of `shift`:
/// row after row, the values of their polynomials. All go through one transform.
pub(crate) fn extend_columns<F: TwoAdicField, Dft: TwoAdicSubgroupDft<F>>(
    alloc: Global,
    dft: &Dft,
    columns: &[Vec<F>],
    places: &[usize],
    log_period: usize,
    added_bits: usize,
    shift: F,
) -> Result<Vec<F>, AllocError>
    requires some { 0 < length places.now }
    requires within { All (λ place. place < length columns.now) places.now }
    requires period { All (λ place. length (column_at (lists columns.now) place) ≡ 2 ^ log_period)
        places.now }
    requires within_two_adicity { log_period + added_bits ≤ F.TWO_ADICITY }
    ensures len { IfOk result (λ values.
        vec_len values ≡ 2 ^ (log_period + added_bits) * length places.now) }
    ensures entries { IfOk result (λ values. (i c : ℕ) → i < 2 ^ (log_period + added_bits)
        → c < length places.now
        → slice_index_or values.items (i * length places.now + c) F.ops.zero
        ≡ val F.ops (column_polynomial F.ops F.root log_period
        (column_at (lists columns.now) (slice_index places.now c)))
        (coset_point F.ops (F.root (log_period + added_bits)) shift i)) }
{
    let values = rows_of_columns(alloc, columns, places, 1 << log_period)?;
    let matrix = RowMajorMatrix::new(values, places.len());
    let extended = dft.coset_lde_batch(alloc, matrix, added_bits, shift)?;
    Ok(extended.into_values())
}
