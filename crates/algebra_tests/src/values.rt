//! Two polynomials over BabyBear: their values over a coset, and the first's off it by its values.

use crate::laws::value_at_zero_law;
use algebra::{barycentric_law, interpolation_law, roots_law, words_law};
use p3_field::{BabyBear, BabyBear4, ExtensionField, Field, TwoAdicMultiplicativeCoset};
use std::process::Abort;

/// The coset of eight points whose shift is the generator 31, in bit-reversed order.
pub static POINTS: [u64; 8] = [
    31, 2013265890, 1235625957, 777639964, 1044970530, 968295391, 523621251, 1489644670,
];

/// The values there of `3 + X + 4 X^2 + X^3`.
pub static FIRST_COLUMN: [u64; 8] = [
    33669, 2013239946, 1625970829, 387287410, 1137921166, 1294162105, 1924463254, 1683251250,
];

/// The values there of `5 + 9 X + 2 X^2 + 6 X^3`.
pub static SECOND_COLUMN: [u64; 8] = [
    180952, 2013088823, 1383128448, 630133639, 757627193, 1465047410, 176529513, 1627327746,
];

/// The element of these coefficients, that of one first.
pub fn element(coefficients: [u64; 4]) -> BabyBear4 {
    BabyBear4::from_coefficients(&coefficients.map(BabyBear::from_u64))
}

/// The summand at `z`, off the coset, of the barycentric sum below which belongs to the point of
/// this index.
fn summand(rt: &impl Abort, index: usize, z: BabyBear4) -> BabyBear4 {
    let x = BabyBear4::from_u64(*POINTS.get(index).expect(rt, "no such point"));
    let y = BabyBear4::from_u64(*FIRST_COLUMN.get(index).expect(rt, "no such value"));
    x * (z - x).try_inverse().expect(rt, "on the coset") * y
}

/// The barycentric sum at `z`, off the coset, of the first column's values over the coset of
/// `2^log_size` points: 1, 2, 4 or 8.
fn barycentric(rt: &impl Abort, log_size: usize, z: BabyBear4) -> BabyBear4 {
    assert!(rt; log_size <= 3, "a large coset");
    let coset = TwoAdicMultiplicativeCoset::new(BabyBear::GENERATOR, log_size);
    let coset = coset.expect(rt, "no coset");
    let size_inverse = BabyBear4::from_u64(1 << log_size).try_inverse();
    let mut sum = BabyBear4::ZERO;
    for index in 0..1 << log_size {
        sum = sum + summand(rt, index, z);
    }
    coset.vanishing_poly_at_point(z) * size_inverse.expect(rt, "zero") * sum
}

/// Points off the coset, and the values there: at zero, the constant coefficient.
static OFF_COSET: [([u64; 4], [u64; 4]); 3] = [
    ([0, 0, 0, 0], [3, 0, 0, 0]),
    ([7, 0, 0, 0], [549, 0, 0, 0]),
    ([8, 1, 0, 0], [779, 257, 28, 1]),
];

#[test]
fn values_off_a_coset(rt: HostRuntime) {
    for log_size in 2..4 {
        for (point, wanted) in &OFF_COSET {
            let value = barycentric(&rt, log_size, element(*point));
            assert!(rt;
                value == element(*wanted),
                "log size {log_size} at {point:?}"
            );
        }
    }
    // a point of the coset of eight, off that of four
    let value = barycentric(&rt, 2, BabyBear4::from_u64(POINTS[5]));
    assert!(rt; value == BabyBear4::from_u64(FIRST_COLUMN[5]));
    barycentric_law::<BabyBear, BabyBear4>();
    value_at_zero_law::<BabyBear, BabyBear4>();
    interpolation_law::<BabyBear4>();
    roots_law::<BabyBear4>();
    words_law::<BabyBear>();
}
