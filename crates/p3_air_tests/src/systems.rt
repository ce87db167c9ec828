//! Constraint systems.

use p3_air::{Air, AirBuilder, AirLayout};
use p3_field::{BabyBear, Field};
use std::alloc::Global;
use std::process::Abort;

/// Only columns of the trace, so many.
pub(crate) const fn columns(width: usize) -> AirLayout {
    AirLayout {
        width,
        preprocessed_width: 0,
        num_public_values: 0,
        num_periodic_columns: 0,
    }
}

/// Fibonacci numbers: the first row is the first two public values, each next row has the second
/// entry and the sum of both, and the second entry of the last row is the third public value.
pub(crate) fn fibonacci(rt: &impl Abort, alloc: Global) -> Air<BabyBear> {
    let layout = AirLayout {
        width: 2,
        preprocessed_width: 0,
        num_public_values: 3,
        num_periodic_columns: 0,
    };
    let mut builder = AirBuilder::new(alloc, layout);
    let left = builder.local(0).expect(rt, "memory");
    let right = builder.local(1).expect(rt, "memory");
    let first = builder.public(0).expect(rt, "memory");
    let second = builder.public(1).expect(rt, "memory");
    builder
        .when_first_row()
        .assert_eq(left, first)
        .expect(rt, "memory");
    builder
        .when_first_row()
        .assert_eq(right, second)
        .expect(rt, "memory");
    let next_left = builder.next(0).expect(rt, "memory");
    let next_right = builder.next(1).expect(rt, "memory");
    let sum = builder.add(left, right).expect(rt, "memory");
    builder
        .when_transition()
        .assert_eq(next_left, right)
        .expect(rt, "memory");
    builder
        .when_transition()
        .assert_eq(next_right, sum)
        .expect(rt, "memory");
    let last = builder.public(2).expect(rt, "memory");
    builder
        .when_last_row()
        .assert_eq(right, last)
        .expect(rt, "memory");
    builder.build().expect(rt, "malformed")
}

/// Numbers below 8, in column 0, with their binary digits in columns 1, 2 and 3, the lowest first.
pub(crate) fn digits(rt: &impl Abort, alloc: Global) -> Air<BabyBear> {
    let mut builder = AirBuilder::new(alloc, columns(4));
    let number = builder.local(0).expect(rt, "memory");
    let low = builder.local(1).expect(rt, "memory");
    let middle = builder.local(2).expect(rt, "memory");
    let high = builder.local(3).expect(rt, "memory");
    builder.assert_bool(low).expect(rt, "memory");
    builder.assert_bool(middle).expect(rt, "memory");
    builder.assert_bool(high).expect(rt, "memory");
    let two = builder.constant(BabyBear::from_u64(2)).expect(rt, "memory");
    let doubled = builder.mul(two, high).expect(rt, "memory");
    let upper = builder.add(middle, doubled).expect(rt, "memory");
    let shifted = builder.mul(upper, two).expect(rt, "memory");
    let sum = builder.add(low, shifted).expect(rt, "memory");
    builder.assert_eq(number, sum).expect(rt, "memory");
    builder.build().expect(rt, "malformed")
}

/// Entries that a preprocessed column selects: where it is one the entry is 5; and again, of the
/// next row.
pub(crate) fn selected(rt: &impl Abort, alloc: Global) -> Air<BabyBear> {
    let layout = AirLayout {
        width: 1,
        preprocessed_width: 1,
        num_public_values: 0,
        num_periodic_columns: 0,
    };
    let mut builder = AirBuilder::new(alloc, layout);
    let five = builder.constant(BabyBear::from_u64(5)).expect(rt, "memory");
    let entry = builder.local(0).expect(rt, "memory");
    let selector = builder.preprocessed(0).expect(rt, "memory");
    let difference = builder.sub(entry, five).expect(rt, "memory");
    let selected = builder.mul(selector, difference).expect(rt, "memory");
    builder.assert_zero(selected).expect(rt, "memory");
    let next_entry = builder.next(0).expect(rt, "memory");
    let next_selector = builder.preprocessed_next(0).expect(rt, "memory");
    let next_difference = builder.sub(next_entry, five).expect(rt, "memory");
    let next_selected = builder
        .mul(next_selector, next_difference)
        .expect(rt, "memory");
    builder
        .when_transition()
        .assert_zero(next_selected)
        .expect(rt, "memory");
    builder.build().expect(rt, "malformed")
}

/// Entries that are scaled by a periodic column: each next one is this one times the column's; the
/// first is one.
pub(crate) fn scaled(rt: &impl Abort, alloc: Global) -> Air<BabyBear> {
    let layout = AirLayout {
        width: 1,
        preprocessed_width: 0,
        num_public_values: 0,
        num_periodic_columns: 1,
    };
    let mut builder = AirBuilder::new(alloc, layout);
    let entry = builder.local(0).expect(rt, "memory");
    let next = builder.next(0).expect(rt, "memory");
    let factor = builder.periodic(0).expect(rt, "memory");
    let product = builder.mul(entry, factor).expect(rt, "memory");
    builder
        .when_transition()
        .assert_eq(next, product)
        .expect(rt, "memory");
    builder
        .when_first_row()
        .assert_one(entry)
        .expect(rt, "memory");
    builder.build().expect(rt, "malformed")
}

/// Entries with signs that alternate all around: each, the last one too, is the negative of the one
/// after it.
pub(crate) fn alternating(rt: &impl Abort, alloc: Global) -> Air<BabyBear> {
    let mut builder = AirBuilder::new(alloc, columns(1));
    let entry = builder.local(0).expect(rt, "memory");
    let next = builder.next(0).expect(rt, "memory");
    let negative = builder.neg(next).expect(rt, "memory");
    builder.assert_eq(entry, negative).expect(rt, "memory");
    builder.build().expect(rt, "malformed")
}

/// No constraints on one column.
pub(crate) fn unconstrained(rt: &impl Abort, alloc: Global) -> Air<BabyBear> {
    AirBuilder::new(alloc, columns(1))
        .build()
        .expect(rt, "malformed")
}
