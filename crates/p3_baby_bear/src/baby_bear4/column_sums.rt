//! Sums of columns of elements of BabyBear, each row times an element of BabyBear4: eight columns
//! at once by lanes, in which halves of products are added up, and reduced in the end.

ghost use Rattle.std.specs.Prelude.{◌≡◌, ◌≤◌, ◌<◌, ◌+◌, ◌*◌, ◌-◌, ℕ, length, slice_index_or};
ghost use Rattle.std.specs.Simd.Lanes.{Each1};
ghost use Rattle.algebra.specs.Field.{multiple};
ghost use Rattle.algebra.specs.Polynomial.{sum_below};
ghost use Rattle.p3_field_core.specs.RowSums.{column_term};
ghost use Rattle.p3_baby_bear.specs.BabyBear.{baby_bear};
ghost use Rattle.p3_baby_bear.specs.BabyBear4.{baby_bear4, lift4, coefficients4};
ghost use Rattle.p3_baby_bear.specs.Lanes.{lane_of};
ghost use Rattle.p3_baby_bear.specs.Lanes4.{lane4_of};

use super::BabyBear4;
use super::arithmetic::four_products;
use super::lanes::{BabyBear4x8Lanes, add_product, product};
use crate::baby_bear::{BabyBear, BabyBear8Lanes, lanes_of};
use p3_field_core::extension::ExtensionField;
use p3_field_core::field::Field;
use p3_field_core::packing::PackedField;
use p3_lanes::{add_halves, no_halves, reduced_halves};
use std::simd::prelude::*;

/// How many rows are added up before their sums are reduced: so few that the processor's caches
/// keep them while one column after another is added up.
const BLOCK: usize = 128;

/// The coefficient at `index` of each weight, and zeros after these.
fn coefficients_at(weights: &[BabyBear4], index: usize) -> [BabyBear; BLOCK]
    requires few { length weights.now ≤ 128 }
    requires index { index < 4 }
    ensures { (i : ℕ) → i < length weights.now → slice_index_or result i baby_bear.zero
        ≡ slice_index_or (coefficients4 (slice_index_or weights.now i baby_bear4.zero)) index
        baby_bear.zero }
{
    let mut coefficients = [BabyBear::ZERO; BLOCK];
    for i in 0..weights.len() {
        coefficients[i] = weights[i].coefficient(index);
    }
    coefficients
}

/// Eight entries, one to a lane.
fn entries_at(rows: &[BabyBear], start: usize) -> BabyBear8Lanes
    requires { start + 8 ≤ length rows.now }
    ensures { (l : ℕ) → l < 8 →
        lane_of result.numbers l ≡ slice_index_or rows.now (start + l) baby_bear.zero }
{
    lanes_of(
        (
            rows[start],
            rows[start + 1],
            rows[start + 2],
            rows[start + 3],
        ),
        (
            rows[start + 4],
            rows[start + 5],
            rows[start + 6],
            rows[start + 7],
        ),
    )
}

/// The sums of eight columns' entries in four rows from row `i` on, each times its row's factor.
fn four_rows_at(
    factors: &[BabyBear],
    rows: &[BabyBear],
    width: usize,
    column: usize,
    i: usize,
) -> u64x8
    requires columns { column + 8 ≤ width }
    requires rows { (i + 4) * width ≤ length rows.now }
    requires factors { i + 4 ≤ length factors.now }
    ensures value { (l : ℕ) → l < 8 → baby_bear.add (sum_below baby_bear i (column_term baby_bear
        baby_bear (λ x. x) width factors.now rows.now (column + l)))
        (multiple baby_bear (slice_index_or result l 0))
        ≡ sum_below baby_bear (i + 4) (column_term baby_bear
        baby_bear (λ x. x) width factors.now rows.now (column + l)) }
    ensures fits { Each1 (λ n. n < 18446744073709551616) result }
{
    let start = i * width + column;
    let factor = BabyBear8Lanes::broadcast(factors[i]);
    let first = product(factor, entries_at(rows, start));
    let factor = BabyBear8Lanes::broadcast(factors[i + 1]);
    let two = add_product(first, factor, entries_at(rows, start + width));
    let factor = BabyBear8Lanes::broadcast(factors[i + 2]);
    let three = add_product(two, factor, entries_at(rows, start + 2 * width));
    let factor = BabyBear8Lanes::broadcast(factors[i + 3]);
    add_product(three, factor, entries_at(rows, start + 3 * width))
}

/// The sums of eight columns from `column` on, each entry times its row's factor.
fn eight_columns(
    factors: &[BabyBear],
    rows: &[BabyBear],
    width: usize,
    column: usize,
) -> BabyBear8Lanes
    requires few { length factors.now ≤ 128 }
    requires columns { column + 8 ≤ width }
    requires rows { length rows.now ≡ length factors.now * width }
    ensures { (l : ℕ) → l < 8 → lane_of result.numbers l
        ≡ sum_below baby_bear (length factors.now) (column_term baby_bear
        baby_bear (λ x. x) width factors.now rows.now (column + l)) }
{
    let fours = factors.len() / 4;
    let mut sums = no_halves();
    for four in 0..fours {
        sums = add_halves(sums, four_rows_at(factors, rows, width, column, 4 * four));
    }
    for i in 4 * fours..factors.len() {
        let factor = BabyBear8Lanes::broadcast(factors[i]);
        sums = add_halves(sums, product(factor, entries_at(rows, i * width + column)));
    }
    BabyBear8Lanes {
        numbers: reduced_halves(sums),
    }
}

/// The sum of four elements, each times the factor beside it: every coefficient is a sum of four
/// products, which is reduced once.
fn four_scaled(
    values: (BabyBear4, BabyBear4, BabyBear4, BabyBear4),
    factors: (BabyBear, BabyBear, BabyBear, BabyBear),
) -> BabyBear4
    ensures { result ≡ baby_bear4.add (baby_bear4.add (baby_bear4.add
        (baby_bear4.mul values.0 (lift4 factors.0)) (baby_bear4.mul values.1 (lift4 factors.1)))
        (baby_bear4.mul values.2 (lift4 factors.2))) (baby_bear4.mul values.3 (lift4 factors.3)) }
{
    let (a, b, c, d) = values;
    BabyBear4 {
        constant: four_products((a.constant, b.constant, c.constant, d.constant), factors),
        linear: four_products((a.linear, b.linear, c.linear, d.linear), factors),
        quadratic: four_products(
            (a.quadratic, b.quadratic, c.quadratic, d.quadratic),
            factors,
        ),
        cubic: four_products((a.cubic, b.cubic, c.cubic, d.cubic), factors),
    }
}

/// The sum of one column, each entry times its row's weight.
fn one_column(weights: &[BabyBear4], rows: &[BabyBear], width: usize, column: usize) -> BabyBear4
    requires column { column < width }
    requires rows { length rows.now ≡ length weights.now * width }
    ensures { result ≡ sum_below baby_bear4 (length weights.now)
        (column_term baby_bear baby_bear4 lift4 width weights.now rows.now column) }
{
    let fours = weights.len() / 4;
    let mut sum = BabyBear4::ZERO;
    for four in 0..fours {
        let i = 4 * four;
        let start = i * width + column;
        let values = (weights[i], weights[i + 1], weights[i + 2], weights[i + 3]);
        let entries = (
            rows[start],
            rows[start + width],
            rows[start + 2 * width],
            rows[start + 3 * width],
        );
        sum = sum + four_scaled(values, entries);
    }
    for i in 4 * fours..weights.len() {
        sum = sum + weights[i].scale(rows[i * width + column]);
    }
    sum
}

/// Adds an element to each of eight sums, from that of `column` on.
fn add_lanes(sums: &mut [BabyBear4], column: usize, gained: BabyBear4x8Lanes)
    requires { column + 8 ≤ length sums.old }
    ensures here { (l : ℕ) (d : BabyBear4) → l < 8 → slice_index_or sums.new (column + l) d
        ≡ baby_bear4.add (slice_index_or sums.old (column + l) d) (lane4_of gained l) }
    ensures before { (j : ℕ) (d : BabyBear4) → j < column →
        slice_index_or sums.new j d ≡ slice_index_or sums.old j d }
    ensures after { (j : ℕ) (d : BabyBear4) → column + 8 ≤ j →
        slice_index_or sums.new j d ≡ slice_index_or sums.old j d }
{
    for l in 0..8 {
        sums[column + l] = sums[column + l] + gained.lane(l);
    }
}

/// Adds to each column's sum its entries in so few rows that they are reduced once.
fn add_block(sums: &mut [BabyBear4], rows: &[BabyBear], weights: &[BabyBear4])
    requires few { length weights.now ≤ 128 }
    requires rows { length rows.now ≡ length weights.now * length sums.old }
    ensures { (j : ℕ) (d : BabyBear4) → j < length sums.old → slice_index_or sums.new j d
        ≡ baby_bear4.add (slice_index_or sums.old j d) (sum_below baby_bear4 (length weights.now)
        (column_term baby_bear baby_bear4 lift4 (length sums.old) weights.now rows.now j)) }
{
    let count = weights.len();
    let constants = coefficients_at(weights, 0);
    let linears = coefficients_at(weights, 1);
    let quadratics = coefficients_at(weights, 2);
    let cubics = coefficients_at(weights, 3);
    let width = sums.len();
    let groups = width / 8;
    for group in 0..groups {
        let column = 8 * group;
        let gained = BabyBear4x8Lanes {
            constant: eight_columns(&constants[..count], rows, width, column),
            linear: eight_columns(&linears[..count], rows, width, column),
            quadratic: eight_columns(&quadratics[..count], rows, width, column),
            cubic: eight_columns(&cubics[..count], rows, width, column),
        };
        add_lanes(sums, column, gained);
    }
    for j in 8 * groups..width {
        sums[j] = sums[j] + one_column(weights, rows, width, j);
    }
}

/// The same of the rows from `start` on, before `end`.
fn add_part(
    sums: &mut [BabyBear4],
    rows: &[BabyBear],
    weights: &[BabyBear4],
    start: usize,
    end: usize,
)
    requires order { start ≤ end }
    requires within { end ≤ length weights.now }
    requires few { end ≤ start + 128 }
    requires rows { length rows.now ≡ length weights.now * length sums.old }
    ensures { (j : ℕ) (d : BabyBear4) → j < length sums.old → slice_index_or sums.new j d
        ≡ baby_bear4.add (slice_index_or sums.old j d) (sum_below baby_bear4 (end - start) (λ i.
        column_term baby_bear baby_bear4 lift4 (length sums.old) weights.now rows.now j
        (start + i))) }
{
    let width = sums.len();
    add_block(
        sums,
        &rows[start * width..end * width],
        &weights[start..end],
    );
}

/// Adds to each column's sum its entries, each times its row's weight.
pub(super) fn add_rows(sums: &mut [BabyBear4], rows: &[BabyBear], weights: &[BabyBear4])
    requires { length rows.now ≡ length weights.now * length sums.old }
    ensures { (j : ℕ) (d : BabyBear4) → j < length sums.old → slice_index_or sums.new j d
        ≡ baby_bear4.add (slice_index_or sums.old j d) (sum_below baby_bear4 (length weights.now)
        (column_term baby_bear baby_bear4 lift4 (length sums.old) weights.now rows.now j)) }
{
    let blocks = weights.len() / BLOCK;
    for block in 0..blocks {
        add_part(sums, rows, weights, BLOCK * block, BLOCK * block + BLOCK);
    }
    add_part(sums, rows, weights, BLOCK * blocks, weights.len());
}
