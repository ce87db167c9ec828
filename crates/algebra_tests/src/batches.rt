//! A batch of the quotients of two columns at two points, over a coset of eight points.

use crate::values::{FIRST_COLUMN, POINTS, SECOND_COLUMN, element};
use algebra::{batches_law, quotients_law};
use p3_field::{BabyBear, BabyBear4, ExtensionField, Field};

/// The columns' values at `8 + X`, the generator of the extension.
fn claims_at_generator() -> [BabyBear4; 2] {
    [element([779, 257, 28, 1]), element([3277, 1193, 146, 6])]
}

/// The columns' values at 7.
fn claims_at_seven() -> [BabyBear4; 2] {
    [BabyBear4::from_u64(549), BabyBear4::from_u64(2224)]
}

/// The coefficients of the batch by powers of `2 + X^2`: at each point, the first column's quotient
/// and then the second's.
fn batch() -> [BabyBear4; 3] {
    [
        element([25609, 216, 8025, 98]),
        element([3533, 13, 1106, 6]),
        element([472, 0, 148, 0]),
    ]
}

/// The sum of the four quotients at `x`, where the columns have the values `row`, each time by the
/// next power of `alpha`; zero in the place of a quotient by zero.
fn one_by_one(alpha: BabyBear4, row: [BabyBear4; 2], x: BabyBear4) -> BabyBear4 {
    let mut sum = BabyBear4::ZERO;
    let mut power = BabyBear4::ONE;
    let opened = [
        (BabyBear4::GENERATOR, claims_at_generator()),
        (BabyBear4::from_u64(7), claims_at_seven()),
    ];
    for (z, claims) in opened {
        let inverse = (z - x).try_inverse().unwrap_or(BabyBear4::ZERO);
        for column in 0..2 {
            sum = sum + power * (claims[column] - row[column]) * inverse;
            power = power * alpha;
        }
    }
    sum
}

/// The same, where the row and the claims are compressed first.
fn compressed(alpha: BabyBear4, row: [BabyBear4; 2], x: BabyBear4) -> BabyBear4 {
    let compressed_row = row[0] + alpha * row[1];
    let opened = [
        (BabyBear4::ONE, BabyBear4::GENERATOR, claims_at_generator()),
        (alpha.square(), BabyBear4::from_u64(7), claims_at_seven()),
    ];
    let mut sum = BabyBear4::ZERO;
    for (power, z, claims) in opened {
        let compressed_claims = claims[0] + alpha * claims[1];
        let inverse = (z - x).try_inverse().unwrap_or(BabyBear4::ZERO);
        sum = sum + power * (compressed_claims - compressed_row) * inverse;
    }
    sum
}

#[test]
fn quotients_are_the_batch_at_each_point(rt: HostRuntime) {
    assert!(rt; BabyBear4::GENERATOR == element([8, 1, 0, 0]));
    let alpha = element([2, 0, 1, 0]);
    let [constant, linear, quadratic] = batch();
    for index in 0..8 {
        let x = BabyBear4::from_u64(POINTS[index]);
        let row = [
            BabyBear4::from_u64(FIRST_COLUMN[index]),
            BabyBear4::from_u64(SECOND_COLUMN[index]),
        ];
        let value = constant + x * linear + x.square() * quadratic;
        let right = one_by_one(alpha, row, x) == value && compressed(alpha, row, x) == value;
        assert!(rt; right, "point {index}");
    }
    quotients_law::<BabyBear4>();
    batches_law::<BabyBear, BabyBear4>();
}
