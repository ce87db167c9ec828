//! Worked values of the extension.

use crate::extension::{
    ExtensionCases, Numbers, first_wrong_value, polynomial, sums_are, wrong_call,
};
use p3_field_core::Field;
use p3_koala_bear::koala_bear4::laws::koala_bear4_law;
use p3_koala_bear::{KoalaBear, KoalaBear4};
use p3_test_fields::{comes_back, extension_values};

static CASES: ExtensionCases = ExtensionCases {
    products: &[
        ("X^3 * X", [&[0, 0, 0, 1], &[0, 1, 0, 0], &[3, 0, 0, 0]]),
        ("X * X", [&[0, 1, 0, 0], &[0, 1, 0, 0], &[0, 0, 1, 0]]),
        (
            "1, 2, 3, 4 by 5, 6, 7, 8",
            [&[1, 2, 3, 4], &[5, 6, 7, 8], &[188, 172, 130, 60]],
        ),
        // each coefficient is the order less one
        (
            "the greatest coefficients, squared",
            [&[2130706432; 4], &[2130706432; 4], &[10, 8, 6, 4]],
        ),
        (
            "two drawn by lot",
            [
                &[358492940, 609477650, 845202045, 509460181],
                &[2045913465, 2024698800, 575618162, 1985273192],
                &[2004883652, 1192661354, 180164398, 1544231755],
            ],
        ),
    ],
    inverses: &[
        ("one over X", [&[0, 1, 0, 0], &[0, 0, 0, 710235478]]),
        (
            "1, 2, 3, 4",
            [&[1, 2, 3, 4], &[476435702, 408373459, 502227710, 126094261]],
        ),
        (
            "one drawn by lot",
            [
                &[358492940, 609477650, 845202045, 509460181],
                &[1300213507, 1365709072, 1483094325, 1203659998],
            ],
        ),
    ],
    factors: &[1791270792],
    scaled: [&[1, 2, 3, 4], &[7, 14, 21, 28]],
    generator: &[2, 1, 0, 0],
    bits: 124,
    // 2130706430, and 16909060 with the bytes 4, 3, 2, 1
    bytes: (
        &[2130706430, 1, 256, 16909060],
        &[0xfe, 0xff, 0xff, 0x7e, 1, 0, 0, 0, 0, 1, 0, 0, 4, 3, 2, 1],
    ),
};

/// Coefficients of what the calls give at `1 + 2 X + 3 X^2 + 4 X^3`, and at 7 in the base field.
static VALUES: [(&str, Numbers); 10] = [
    ("plus 2", &[3, 2, 3, 4]),
    ("minus 3", &[2130706431, 2, 3, 4]),
    (
        "the negative",
        &[2130706432, 2130706431, 2130706430, 2130706429],
    ),
    ("doubled", &[2, 4, 6, 8]),
    ("halved", &[1065353217, 1, 1065353218, 2]),
    ("squared", &[76, 76, 58, 20]),
    ("to the power 3", &[1630, 1104, 678, 668]),
    ("to the power 2^1", &[76, 76, 58, 20]),
    ("scaled by 7", &[7, 14, 21, 28]),
    ("7 lifted", &[7, 0, 0, 0]),
];

#[test]
fn calls_of_the_extension(rt: HostRuntime) {
    let element = polynomial::<KoalaBear, KoalaBear4>(&[1, 2, 3, 4]);
    let found = extension_values::<KoalaBear, KoalaBear4>(element, KoalaBear::from_u64(7));
    let wrong = first_wrong_value::<KoalaBear, KoalaBear4>(&found, &VALUES);
    let wrong = wrong.or(wrong_call::<KoalaBear, KoalaBear4>(&CASES));
    assert!(rt; wrong.is_none(), "{wrong:?}");
    let values = [
        KoalaBear::ONE,
        KoalaBear::TWO,
        KoalaBear::from_u64(3),
        KoalaBear::from_u64(4),
    ];
    assert!(rt;
        comes_back::<KoalaBear, KoalaBear4>(&values)
            && !comes_back::<KoalaBear, KoalaBear4>(&values[..3])
    );
    koala_bear4_law();
}

#[test]
fn sums_of_rows_and_columns(rt: HostRuntime) {
    let values = [
        polynomial::<KoalaBear, KoalaBear4>(&[1, 2, 3, 4]),
        polynomial::<KoalaBear, KoalaBear4>(&[5, 6, 7, 8]),
    ];
    let row = [KoalaBear::from_u64(3), -KoalaBear::ONE];
    let mut sums = [KoalaBear4::ONE];
    let right = sums_are::<KoalaBear, KoalaBear4>(
        &values,
        &row,
        &mut sums,
        &[2130706431, 0, 2, 4],
        &[2130706432, 0, 2, 4],
    );
    assert!(rt; right);
}
