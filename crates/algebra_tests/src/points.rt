//! The test of a point against a coset, and cosets that are apart.

ghost use Rattle.std.specs.Prelude.{◌<◌};

use crate::values::POINTS;
use algebra::{cosets_law, point_test_law};
use p3_field::{BabyBear, BabyBear4, ExtensionField, Field, TwoAdicMultiplicativeCoset};
use std::process::Abort;

/// Whether the `2^log_size`-th power of `z` is that of the shift 31.
fn has_power_of_shift(log_size: usize, z: BabyBear4) -> bool {
    let power = BabyBear::GENERATOR.exp_power_of_2(log_size);
    z.exp_power_of_2(log_size) == BabyBear4::from_base(power)
}

/// Whether the test fails at zero, one and the generator, and no difference from `x` is zero there.
fn fails_and_differs(x: BabyBear4) -> bool {
    let mut right = true;
    for z in [BabyBear4::ZERO, BabyBear4::ONE, BabyBear4::GENERATOR] {
        right = right && !has_power_of_shift(3, z) && !(z - x).is_zero();
    }
    right
}

#[test]
fn tests_points(rt: HostRuntime) {
    // each is one of the coset of eight, and one of that of four where its index is below 4
    for index in 0..8 {
        let x = BabyBear4::from_u64(POINTS[index]);
        let in_eight = has_power_of_shift(3, x);
        let in_four = has_power_of_shift(2, x);
        let right = in_eight && in_four == (index < 4) && fails_and_differs(x);
        assert!(rt; right, "point {index}");
    }
    point_test_law::<BabyBear, BabyBear4>();
}

/// The values of the vanishing polynomial of the coset of four points of shift 31 at this point of
/// it and at that of the coset of shift 62.
fn vanishing_values(rt: &impl Abort, index: usize) -> (BabyBear, BabyBear)
    requires { index < 4 }
{
    let first = TwoAdicMultiplicativeCoset::new(BabyBear::GENERATOR, 2);
    let first = first.expect(rt, "no coset");
    let second = TwoAdicMultiplicativeCoset::new(BabyBear::GENERATOR.double(), 2);
    let second = second.expect(rt, "no coset");
    (
        first.vanishing_poly_at_point(first.element(index)),
        first.vanishing_poly_at_point(second.element(index)),
    )
}

#[test]
fn vanishes_on_one_coset_alone(rt: HostRuntime) {
    // (62 / 31)^4 - 1
    let off_coset = BabyBear::from_u64(15);
    for index in 0..4 {
        let values = vanishing_values(&rt, index);
        assert!(rt; values == (BabyBear::ZERO, off_coset), "point {index}");
    }
    cosets_law::<BabyBear>();
}
