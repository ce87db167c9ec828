//! Worked values of the extension.

use crate::extension::{ExtensionCases, Numbers, first_wrong_value, polynomial, wrong_call};
use p3_field::baby_bear4::laws::baby_bear4_law;
use p3_field::{BabyBear, BabyBear4, Field};
use p3_test_fields::{comes_back, extension_values};

static CASES: ExtensionCases = ExtensionCases {
    products: &[
        ("X^3 * X", [&[0, 0, 0, 1], &[0, 1, 0, 0], &[11, 0, 0, 0]]),
        ("X * X", [&[0, 1, 0, 0], &[0, 1, 0, 0], &[0, 0, 1, 0]]),
        (
            "1, 2, 3, 4 by 5, 6, 7, 8",
            [&[1, 2, 3, 4], &[5, 6, 7, 8], &[676, 588, 386, 60]],
        ),
        // each coefficient is the order less one
        (
            "the greatest coefficients, squared",
            [&[2013265920; 4], &[2013265920; 4], &[34, 24, 14, 4]],
        ),
    ],
    inverses: &[
        // that is X^3 / 11
        ("one over X", [&[0, 1, 0, 0], &[0, 0, 0, 549072524]]),
    ],
    factors: &[0, 1, 2013265920, 440564289],
    scaled: [&[1, 2, 3, 4], &[7, 14, 21, 28]],
    generator: &[8, 1, 0, 0],
    bits: 124,
    // 2013265918, and 16909060 with the bytes 4, 3, 2, 1
    bytes: (
        &[2013265918, 1, 256, 16909060],
        &[0xfe, 0xff, 0xff, 0x77, 1, 0, 0, 0, 0, 1, 0, 0, 4, 3, 2, 1],
    ),
};

/// Coefficients of what the calls give at `1 + 2 X + 3 X^2 + 4 X^3`, and at 7 in the base field.
static VALUES: [(&str, Numbers); 10] = [
    ("plus 2", &[3, 2, 3, 4]),
    ("minus 3", &[2013265919, 2, 3, 4]),
    (
        "the negative",
        &[2013265920, 2013265919, 2013265918, 2013265917],
    ),
    ("doubled", &[2, 4, 6, 8]),
    ("halved", &[1006632961, 1, 1006632962, 2]),
    ("squared", &[276, 268, 186, 20]),
    ("to the power 3", &[18646, 9664, 2430, 2300]),
    ("to the power 2^1", &[276, 268, 186, 20]),
    ("scaled by 7", &[7, 14, 21, 28]),
    ("7 lifted", &[7, 0, 0, 0]),
];

#[test]
fn calls_of_the_extension(rt: HostRuntime) {
    let element = polynomial::<BabyBear, BabyBear4>(&[1, 2, 3, 4]);
    let found = extension_values::<BabyBear, BabyBear4>(element, BabyBear::from_u64(7));
    let wrong = first_wrong_value::<BabyBear, BabyBear4>(&found, &VALUES);
    let wrong = wrong.or(wrong_call::<BabyBear, BabyBear4>(&CASES));
    assert!(rt; wrong.is_none(), "{wrong:?}");
    let values = [
        BabyBear::ONE,
        BabyBear::TWO,
        BabyBear::from_u64(3),
        BabyBear::from_u64(4),
    ];
    assert!(rt;
        comes_back::<BabyBear, BabyBear4>(&values)
            && !comes_back::<BabyBear, BabyBear4>(&values[..3])
    );
    baby_bear4_law();
}
