//! Sums of a row's entries, and of columns' entries, each times an element of the extension,
//! against sums one by one.

use p3_field::{BabyBear, BabyBear4, ExtensionField, Field, shifted_powers};
use std::alloc::Global;
use std::process::Abort;

/// Whether the sum of the first entries, each times the value beside it, is the same one by one,
/// for each number of them.
fn sums_agree<F: Field, E: ExtensionField<F>>(values: &[E], row: &[F]) -> bool {
    let mut sum = E::ZERO;
    let mut all_agree = row.len() <= values.len() && E::dot_row(values, &row[..0]) == sum;
    for i in 0..row.len().min(values.len()) {
        sum = sum + values[i].scale(row[i]);
        all_agree = all_agree && E::dot_row(values, &row[..i + 1]) == sum;
    }
    all_agree
}

/// The first entry and coefficient, and by what those after them are multiplied. 2013265920 is the
/// greatest number, whose products' halves carry most.
static ROWS: [(u64, u64); 4] = [(2013265920, 1), (2013265920, 31), (440564289, 5), (0, 1)];

/// The first so many of an element times powers of the other.
fn powers_from<F: Field>(
    rt: &impl Abort,
    alloc: Global,
    first: F,
    step: F,
    count: usize,
) -> Vec<F> {
    shifted_powers(alloc, first, step, count).expect(rt, "memory")
}

/// Of each row of forty entries, in the field and in its extension.
#[test]
fn rows_times_values(rt: HostRuntime) {
    let alloc = rt.alloc();
    for (first, step) in &ROWS {
        let entry = BabyBear::from_u64(*first);
        let row = powers_from(&rt, alloc, entry, BabyBear::from_u64(*step), 40);
        let value = BabyBear4::from_coefficients(&[entry; 4]);
        let values = powers_from(&rt, alloc, value, BabyBear4::from_u64(*step), 43);
        let agree = sums_agree::<BabyBear, BabyBear4>(&values, &row)
            && sums_agree::<BabyBear, BabyBear>(&row, &row);
        assert!(rt; agree, "powers of {step}");
    }
}

/// Adds to each sum the entries of its column times the rows' weights, one by one.
fn add_rows<F: Field, E: ExtensionField<F>>(sums: &mut [E], rows: &[F], weights: &[E]) {
    let width = sums.len();
    if width == 0 {
        return;
    }
    for (place, entry) in rows.iter().enumerate() {
        let (row, column) = (place / width, place % width);
        if row < weights.len() {
            sums[column] = sums[column] + weights[row].scale(*entry);
        }
    }
}

/// Whether the sums of columns gain the same from rows one after another as entry by entry.
fn columns_agree<F: Field, E: ExtensionField<F>>(
    rt: &impl Abort,
    alloc: Global,
    width: usize,
    rows: &[F],
    weights: &[E],
) -> bool {
    let mut sums = powers_from(rt, alloc, E::GENERATOR, E::GENERATOR, width);
    let mut plain = powers_from(rt, alloc, E::GENERATOR, E::GENERATOR, width);
    add_rows(&mut plain, rows, weights);
    assert!(rt; weights.len().checked_mul(sums.len()) == Some(rows.len()));
    E::add_weighted_rows(&mut sums, rows, weights);
    sums == plain
}

/// As many columns, fewer and more than lanes.
static WIDTHS: [usize; 6] = [0, 1, 7, 8, 9, 64];

/// As many rows, fewer and more than are reduced at once.
static HEIGHTS: [usize; 6] = [0, 1, 127, 128, 129, 300];

/// Whether columns of so many rows agree at each width, in the field and in its extension.
fn all_widths_agree(rt: &impl Abort, alloc: Global, height: usize, first: u64, step: u64) -> bool {
    let entry = BabyBear::from_u64(first);
    let weight = BabyBear4::from_coefficients(&[entry; 4]);
    let weights = powers_from(rt, alloc, weight, BabyBear4::from_u64(step), height);
    let step = BabyBear::from_u64(step);
    let scalars = powers_from(rt, alloc, entry, step, height);
    let mut agree = true;
    for width in &WIDTHS {
        let rows = powers_from(rt, alloc, entry, step, height.saturating_mul(*width));
        agree = agree
            && columns_agree::<BabyBear, BabyBear4>(rt, alloc, *width, &rows, &weights)
            && columns_agree::<BabyBear, BabyBear>(rt, alloc, *width, &rows, &scalars);
    }
    agree
}

/// The first entry and weight, and by what those after them are multiplied: the greatest numbers
/// throughout, which carry most, and ones that differ.
static COLUMNS: [(u64, u64); 2] = [(2013265920, 1), (440564289, 5)];

#[test]
fn rows_times_weights(rt: HostRuntime) {
    for (first, step) in &COLUMNS {
        for height in &HEIGHTS {
            let agree = all_widths_agree(&rt, rt.alloc(), *height, *first, *step);
            assert!(rt; agree, "{height} rows from {first}");
        }
    }
}
