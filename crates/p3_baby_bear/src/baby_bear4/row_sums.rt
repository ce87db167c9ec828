//! Sums of elements of BabyBear, each times one of BabyBear4, by lanes: halves of products are
//! added up, and reduced in the end.

ghost use Rattle.std.specs.Prelude.{◌≡◌, ◌≤◌, ◌<◌, ◌+◌, ℕ, length};
ghost use Rattle.std.specs.Simd.Lanes.{Each1};
ghost use Rattle.algebra.specs.Polynomial.{sum_below};
ghost use Rattle.p3_field_core.specs.RowSums.{row_term};
ghost use Rattle.p3_lanes.specs.Halves.{totals, AreWithin};
ghost use Rattle.p3_baby_bear.specs.BabyBear.{baby_bear};
ghost use Rattle.p3_baby_bear.specs.BabyBear4.{baby_bear4, lift4};
ghost use Rattle.p3_baby_bear.specs.RowSums.{pair_of};

use super::BabyBear4;
use super::lanes::product;
use crate::baby_bear::{BabyBear, BabyBear8Lanes, lanes_of};
use p3_field_core::extension::ExtensionField;
use p3_field_core::field::Field;
use p3_field_core::packing::PackedField;
use p3_lanes::{HalfSums, add_halves, no_halves, reduced_halves};
use std::simd::prelude::*;

/// How many entries are added up before their sum is reduced.
const PART: usize = 65536;

/// The products of two values' coefficients with the factor of each.
fn two_products(first: BabyBear4, x: BabyBear, second: BabyBear4, y: BabyBear) -> u64x8
    ensures value { pair_of result ≡ baby_bear4.add
        (baby_bear4.mul first (lift4 x)) (baby_bear4.mul second (lift4 y)) }
    ensures small { Each1 (λ n. n ≤ 4053239664633446400) result }
{
    let coefficients = lanes_of(
        (first.constant, first.linear, first.quadratic, first.cubic),
        (
            second.constant,
            second.linear,
            second.quadratic,
            second.cubic,
        ),
    );
    product(coefficients, lanes_of((x, x, x, x), (y, y, y, y)))
}

/// The same of an entry and the one after it, each with the value beside it.
fn two_products_at(values: &[BabyBear4], row: &[BabyBear], i: usize) -> u64x8
    requires row { i + 1 < length row.now }
    requires values { length row.now ≤ length values.now }
    ensures value { pair_of result ≡ baby_bear4.add
        (row_term baby_bear baby_bear4 lift4 values.now row.now i)
        (row_term baby_bear baby_bear4 lift4 values.now row.now (i + 1)) }
    ensures small { Each1 (λ n. n ≤ 4053239664633446400) result }
{
    two_products(values[i], row[i], values[i + 1], row[i + 1])
}

/// The sums of the same four times, of eight entries.
fn eight_products_at(values: &[BabyBear4], row: &[BabyBear], i: usize) -> u64x8
    requires row { i + 8 ≤ length row.now }
    requires values { length row.now ≤ length values.now }
    ensures value { baby_bear4.add (sum_below baby_bear4 i
        (row_term baby_bear baby_bear4 lift4 values.now row.now)) (pair_of result)
        ≡ sum_below baby_bear4 (i + 8) (row_term baby_bear baby_bear4 lift4 values.now row.now) }
    ensures fits { Each1 (λ n. n < 18446744073709551616) result }
{
    let a = two_products_at(values, row, i);
    let b = two_products_at(values, row, i + 2);
    let c = two_products_at(values, row, i + 4);
    let d = two_products_at(values, row, i + 6);
    a.strict_add(b).strict_add(c).strict_add(d)
}

/// The sum of both elements in the lanes.
fn reduced_pair(sums: HalfSums) -> BabyBear4
    requires { AreWithin 4294967296 sums.low sums.high }
    ensures { result ≡ pair_of (totals sums.low sums.high) }
{
    let lanes = BabyBear8Lanes {
        numbers: reduced_halves(sums),
    };
    BabyBear4 {
        constant: lanes.lane(0) + lanes.lane(4),
        linear: lanes.lane(1) + lanes.lane(5),
        quadratic: lanes.lane(2) + lanes.lane(6),
        cubic: lanes.lane(3) + lanes.lane(7),
    }
}

/// The sum of the entries from `start` on, before `end`, each times the value beside it.
fn dot_part(values: &[BabyBear4], row: &[BabyBear], start: usize, end: usize) -> BabyBear4
    requires order { start ≤ end }
    requires row { end ≤ length row.now }
    requires values { length row.now ≤ length values.now }
    requires few { end ≤ start + 65536 }
    ensures { baby_bear4.add (sum_below baby_bear4 start
        (row_term baby_bear baby_bear4 lift4 values.now row.now)) result
        ≡ sum_below baby_bear4 end (row_term baby_bear baby_bear4 lift4 values.now row.now) }
{
    let blocks = (end - start) / 8;
    let mut sums = no_halves();
    for block in 0..blocks {
        sums = add_halves(sums, eight_products_at(values, row, start + 8 * block));
    }
    let mut sum = reduced_pair(sums);
    for i in start + 8 * blocks..end {
        sum = sum + values[i].scale(row[i]);
    }
    sum
}

/// The sum of a row's entries, each times the value beside it.
pub(super) fn dot(values: &[BabyBear4], row: &[BabyBear]) -> BabyBear4
    requires values { length row.now ≤ length values.now }
    ensures { result ≡ sum_below baby_bear4 (length row.now)
        (row_term baby_bear baby_bear4 lift4 values.now row.now) }
{
    let parts = row.len() / PART;
    let mut sum = BabyBear4::ZERO;
    for part in 0..parts {
        sum = sum + dot_part(values, row, PART * part, PART * part + PART);
    }
    sum + dot_part(values, row, PART * parts, row.len())
}
