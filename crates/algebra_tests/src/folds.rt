//! Folds in steps, rounds of folding, a smaller domain and a periodic column, over BabyBear.

ghost use Rattle.std.specs.Prelude.{◌<◌, ◌≤◌};

use crate::values::FIRST_COLUMN;
use algebra::{folds_law, periodic_law, reduction_law, rounds_law};
use p3_field::{BabyBear, Field, TwoAdicField, reverse_bits_len};

/// The point of this index, in bit-reversed order, of the domain of `2^log_size` points.
fn point(index: usize, log_size: usize) -> BabyBear
    requires { log_size ≤ 27 }
{
    let power = reverse_bits_len(index, log_size);
    BabyBear::two_adic_generator(log_size).exp_u64(power as u64)
}

/// The fold at `beta` of the values `left` and `right` at `s` and `-s`; zero where `s` is zero.
fn fold_pair(s: BabyBear, beta: BabyBear, left: BabyBear, right: BabyBear) -> BabyBear {
    let inverse = s.try_inverse().unwrap_or(BabyBear::ZERO);
    (left + right).halve() + (left - right).halve() * inverse * beta
}

/// The value at `x` of `constant + linear * X`.
fn line(constant: u64, linear: u64, x: BabyBear) -> BabyBear {
    BabyBear::from_u64(constant) + BabyBear::from_u64(linear) * x
}

/// The value at `x` of `3 + X + 4 X^2 + X^3`.
fn cubic(x: BabyBear) -> BabyBear {
    line(3, 1, x) + line(4, 1, x) * x.square()
}

/// The fold at 7 of row `index`, of two values of `X^5` over the domain of 64 points.
fn fold_of_two(index: usize) -> BabyBear
    requires { index < 32 }
{
    let left = point(2 * index, 6);
    let right = point(2 * index + 1, 6);
    fold_pair(
        left,
        BabyBear::from_u64(7),
        left.exp_u64(5),
        right.exp_u64(5),
    )
}

/// That of row `index` of four such values: of its pairs, folded, at 49.
fn fold_of_four(index: usize) -> BabyBear
    requires { index < 16 }
{
    let left = fold_of_two(2 * index);
    let right = fold_of_two(2 * index + 1);
    fold_pair(point(2 * index, 5), BabyBear::from_u64(49), left, right)
}

#[test]
fn folds_in_steps(rt: HostRuntime) {
    // of the blocks of four coefficients 0 and X the second has the value 7 at 7
    for index in 0..16 {
        let wanted = BabyBear::from_u64(7) * point(index, 4);
        assert!(rt; fold_of_four(index) == wanted, "row {index}");
    }
    folds_law::<BabyBear>();
}

/// The row of the cubic over eight points, folded by two at 5, with `2 + 7 X` over four points
/// rolled in.
fn fold_with_input(row: usize) -> BabyBear
    requires { row < 4 }
{
    let s = point(2 * row, 3);
    let folded = fold_pair(
        s,
        BabyBear::from_u64(5),
        cubic(s),
        cubic(point(2 * row + 1, 3)),
    );
    folded + BabyBear::from_u64(25) * line(2, 7, point(row, 2))
}

#[test]
fn a_chain_ends_at_the_final_polynomial(rt: HostRuntime) {
    // the blocks' values 8 and 9, and 25 times 2 and 7
    for row in 0..4 {
        let wanted = line(58, 184, point(row, 2));
        assert!(rt; fold_with_input(row) == wanted, "row {row}");
    }
    rounds_law::<BabyBear>();
}

/// Whether the cubic modulo `X^2 - 31^2` has its value at `x`, which is this number's.
fn remainder_has_value(x: BabyBear, number: u64) -> bool {
    let value = cubic(x);
    line(3847, 962, x) == value && value == BabyBear::from_u64(number)
}

#[test]
fn a_remainder_has_the_values_on_a_coset(rt: HostRuntime) {
    // on the coset of 31 and -31
    let shift = BabyBear::GENERATOR;
    assert!(rt; remainder_has_value(shift, FIRST_COLUMN[0]));
    assert!(rt; remainder_has_value(-shift, FIRST_COLUMN[1]));
    reduction_law::<BabyBear>();
}

/// The values in turn, on sixteen points of shift 31, of the column 1, 3 over eight rows.
static REPEATED: [u64; 4] = [2012342402, 21214579, 923523, 1992051346];

#[test]
fn a_periodic_column_repeats(rt: HostRuntime) {
    // the column is 2 - X at 1 and -1, so that it has at x the value 2 - x^4
    let root = BabyBear::two_adic_generator(4);
    for index in 0..16 {
        let x = BabyBear::GENERATOR * root.exp_u64(index as u64);
        let value = BabyBear::from_u64(2) - x.exp_power_of_2(2);
        assert!(rt;
            value == BabyBear::from_u64(REPEATED[index % 4]),
            "point {index}"
        );
    }
    periodic_law::<BabyBear>();
}
