//! Cosets of BabyBear.

use p3_field::coset::coset_law;
use p3_field::{BabyBear, Field, PrimeField64, TwoAdicMultiplicativeCoset};
use p3_test_fields::first_wrong;

/// Shifts and logarithms of sizes, and whether there is such a coset.
static SIZES: [(u64, usize, bool); 3] = [(0, 3, false), (1, 28, false), (1, 27, true)];

#[test]
fn refuses_shift_zero_and_large_sizes(rt: HostRuntime) {
    for (shift, log_size, wanted) in &SIZES {
        let coset = TwoAdicMultiplicativeCoset::new(BabyBear::from_u64(*shift), *log_size);
        assert!(rt; coset.is_some() == *wanted, "2^{log_size} of shift {shift}");
    }
}

/// What the calls of the coset of four points of shift 31 give.
static FOUR_POINTS: [(&str, u64); 7] = [
    ("size", 4),
    ("log size", 2),
    ("shift", 31),
    ("first point", 31),
    ("point 2", 2013265890),
    ("point 4", 31),
    // (62 / 31)^4 - 1
    ("vanishing polynomial at 62", 15),
];

#[test]
fn holds_four_points(rt: HostRuntime) {
    let shift = BabyBear::GENERATOR;
    let coset = TwoAdicMultiplicativeCoset::new(shift, 2).expect(&rt, "a coset of four points");
    let found = [
        coset.size() as u64,
        coset.log_size() as u64,
        coset.shift().as_canonical_u64(),
        coset.first_point().as_canonical_u64(),
        coset.element(2).as_canonical_u64(),
        coset.element(4).as_canonical_u64(),
        coset
            .vanishing_poly_at_point(shift.double())
            .as_canonical_u64(),
    ];
    let wrong = first_wrong(&found, &FOUR_POINTS);
    assert!(rt; wrong.is_none(), "{wrong:?}");
    let mut vanishes = true;
    for index in 0..4 {
        let value = coset.vanishing_poly_at_point(coset.element(index));
        vanishes = vanishes && value.is_zero();
    }
    assert!(rt; vanishes);
    coset_law(&coset);
}
