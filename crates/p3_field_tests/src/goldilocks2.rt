//! Worked values of the extension.

use crate::extension::{
    ExtensionCases, Numbers, first_wrong_value, polynomial, sums_are, wrong_call,
};
use p3_field_core::Field;
use p3_goldilocks::goldilocks2::laws::goldilocks2_law;
use p3_goldilocks::{Goldilocks, Goldilocks2};
use p3_test_fields::{comes_back, extension_values};

static CASES: ExtensionCases = ExtensionCases {
    products: &[
        ("X * X", [&[0, 1], &[0, 1], &[7, 0]]),
        ("1, 2 by 3, 4", [&[1, 2], &[3, 4], &[59, 10]]),
        // each coefficient is the order less one
        (
            "the greatest coefficients, squared",
            [
                &[18446744069414584320; 2],
                &[18446744069414584320; 2],
                &[8, 2],
            ],
        ),
        (
            "two drawn by lot",
            [
                &[13230930150802383351, 14744776734875033370],
                &[515614718768037781, 8234985305048546873],
                &[12464328503238128026, 7476860819818295768],
            ],
        ),
    ],
    inverses: &[
        ("one over X", [&[0, 1], &[0, 2635249152773512046]]),
        (
            "1, 2",
            [&[1, 2], &[4782489203181558898, 8881765663051466525]],
        ),
        (
            "one drawn by lot",
            [
                &[13230930150802383351, 14744776734875033370],
                &[8834294927848066069, 2309119121357913314],
            ],
        ),
    ],
    factors: &[1753635133440165772],
    scaled: [&[1, 2], &[7, 14]],
    generator: &[18081566051660590251, 16121475356294670766],
    bits: 128,
    // 18446744069414584318, and 72623859790382856 with the bytes 8 down to 1
    bytes: (
        &[18446744069414584318, 72623859790382856],
        &[
            0xfe, 0xff, 0xff, 0xff, 0xfe, 0xff, 0xff, 0xff, 8, 7, 6, 5, 4, 3, 2, 1,
        ],
    ),
};

/// Coefficients of what the calls give at `1 + 2 X`, and at 7 in the base field.
static VALUES: [(&str, Numbers); 10] = [
    ("plus 2", &[3, 2]),
    ("minus 3", &[18446744069414584319, 2]),
    (
        "the negative",
        &[18446744069414584320, 18446744069414584319],
    ),
    ("doubled", &[2, 4]),
    ("halved", &[9223372034707292161, 1]),
    ("squared", &[29, 4]),
    ("to the power 3", &[85, 62]),
    ("to the power 2^1", &[29, 4]),
    ("scaled by 7", &[7, 14]),
    ("7 lifted", &[7, 0]),
];

#[test]
fn calls_of_the_extension(rt: HostRuntime) {
    let element = polynomial::<Goldilocks, Goldilocks2>(&[1, 2]);
    let found = extension_values::<Goldilocks, Goldilocks2>(element, Goldilocks::from_u64(7));
    let wrong = first_wrong_value::<Goldilocks, Goldilocks2>(&found, &VALUES);
    let wrong = wrong.or(wrong_call::<Goldilocks, Goldilocks2>(&CASES));
    assert!(rt; wrong.is_none(), "{wrong:?}");
    let values = [Goldilocks::ONE, Goldilocks::TWO];
    assert!(rt;
        comes_back::<Goldilocks, Goldilocks2>(&values)
            && !comes_back::<Goldilocks, Goldilocks2>(&values[..1])
    );
    goldilocks2_law();
}

#[test]
fn sums_of_rows_and_columns(rt: HostRuntime) {
    let values = [
        polynomial::<Goldilocks, Goldilocks2>(&[1, 2]),
        polynomial::<Goldilocks, Goldilocks2>(&[5, 6]),
    ];
    let row = [Goldilocks::from_u64(3), -Goldilocks::ONE];
    let mut sums = [Goldilocks2::ONE];
    let right = sums_are::<Goldilocks, Goldilocks2>(
        &values,
        &row,
        &mut sums,
        &[18446744069414584319, 0],
        &[18446744069414584320, 0],
    );
    assert!(rt; right);
}
