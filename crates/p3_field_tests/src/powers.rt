//! Lists of powers, the points of a coset and quotients by powers of two.

use p3_field::laws::distinct_points_law;
use p3_field::powers::powers;
use p3_field::{
    BabyBear, BabyBear4, Field, PrimeField64, TwoAdicMultiplicativeCoset, bit_reversed_powers,
    shifted_powers,
};
use std::alloc::Global;
use std::process::Abort;

/// Whether the elements are those of these numbers.
fn are_numbers<F: Field>(elements: &[F], numbers: &[u64]) -> bool {
    let mut right = elements.len() == numbers.len();
    for (element, number) in elements.iter().zip(numbers) {
        right = right && *element == F::from_u64(*number);
    }
    right
}

/// Whether the lists of four powers of 5, from 3 on, in natural and in bit-reversed order, and from
/// 1 on, are right.
fn are_powers_of_five<F: Field>(rt: &impl Abort, alloc: Global) -> bool {
    let three = F::from_u64(3);
    let five = F::from_u64(5);
    let natural = shifted_powers(alloc, three, five, 4).expect(rt, "memory");
    let reversed = bit_reversed_powers(alloc, three, five, 2).expect(rt, "memory");
    let from_one = powers(alloc, five, 4).expect(rt, "memory");
    are_numbers(&natural, &[3, 15, 75, 375])
        && are_numbers(&reversed, &[3, 75, 15, 375])
        && are_numbers(&from_one, &[1, 5, 25, 125])
}

#[test]
fn powers_of_five(rt: HostRuntime) {
    assert!(rt; are_powers_of_five::<BabyBear>(&rt, rt.alloc()));
    assert!(rt; are_powers_of_five::<BabyBear4>(&rt, rt.alloc()));
}

#[test]
fn points_of_a_coset(rt: HostRuntime) {
    let coset = TwoAdicMultiplicativeCoset::new(BabyBear::GENERATOR, 2);
    let coset = coset.expect(&rt, "a coset of four points");
    // 1728404513 is a root of unity of order 4
    let wanted = [31, 2013265890, 1235625957, 777639964];
    let points = coset.bit_reversed_points(rt.alloc()).expect(&rt, "memory");
    assert!(rt; are_numbers(&points, &wanted));
    distinct_points_law::<BabyBear>();
}

#[test]
fn quotients_by_powers_of_two(rt: HostRuntime) {
    // 2^27 times 15 is -1
    let right = BabyBear::ONE.div_2exp_u64(27).as_canonical_u64() == 2013265906
        && BabyBear::ONE.div_2exp_u64(0) == BabyBear::ONE
        && BabyBear4::from_u64(40).div_2exp_u64(3) == BabyBear4::from_u64(5);
    assert!(rt; right);
}
