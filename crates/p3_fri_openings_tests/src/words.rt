//! The words of polynomials' columns. The matrices and the words were computed by a plain program
//! from the definitions.

use crate::opened::{Case, Coefficients, Expected, Form, Round, is_met};

/// The values of `3 + X + 4X^2 + X^3` and `5 + 9X + 2X^2 + 6X^3` on the coset of 8 points.
const WIDE: [u64; 16] = [
    33669,
    180952,
    2_013_239_946,
    2_013_088_823,
    1_625_970_829,
    1_383_128_448,
    387_287_410,
    630_133_639,
    1_137_921_166,
    757_627_193,
    1_294_162_105,
    1_465_047_410,
    1_924_463_254,
    176_529_513,
    1_683_251_250,
    1_627_327_746,
];

/// The values of `2 + 7X + X^2 + 8X^3` there.
const NARROW: [u64; 8] = [
    239_508,
    2_013_028_339,
    1_705_840_839,
    307_423_164,
    395_683_805,
    1_722_286_456,
    388_874_599,
    1_519_686_990,
];

/// The values of `5 + 3X` on the coset of 4 points.
const LOW: [u64; 4] = [98, 2_013_265_833, 1_693_611_955, 319_653_976];

const FIRST_POINT: Coefficients = [2, 1, 0, 0];

const SECOND_POINT: Coefficients = [0, 0, 3, 5];

/// The word of the wide matrix, opened at the first point and at the second, and of the narrow one,
/// opened at the second and at the first.
const TALL_WORD: [Coefficients; 8] = [
    [328_169_388, 297_482_865, 1_037_869_480, 1_503_677_858],
    [1_365_255_600, 541_605_198, 169_870_038, 1_061_798_464],
    [21_516_793, 1_308_734_435, 253_991_375, 1_011_114_264],
    [1_421_513_739, 1_342_802_655, 1_460_684_008, 1_018_673_252],
    [637_919_312, 1_048_652_190, 1_583_333_979, 256_664_282],
    [513_471_454, 1_201_352_102, 1_570_562_299, 705_540_824],
    [787_968_545, 870_754_356, 1_900_351_339, 1_626_461_711],
    [1_197_096_209, 369_866_505, 1_894_699_126, 2_006_597_021],
];

/// That of the low one, opened at both.
const LOW_WORD: [Coefficients; 4] = [[24, 3, 0, 6], [24, 3, 0, 6], [24, 3, 0, 6], [24, 3, 0, 6]];

static CASES: [Case; 3] = [
    Case {
        name: "two heights at two points",
        rounds: &[
            Round {
                matrices: &[(&WIDE, Form::Words(2)), (&LOW, Form::Words(1))],
                points: &[&[FIRST_POINT, SECOND_POINT], &[SECOND_POINT, FIRST_POINT]],
            },
            Round {
                matrices: &[(&NARROW, Form::Words(1))],
                points: &[&[SECOND_POINT, FIRST_POINT]],
            },
        ],
        expected: Expected::Words(&[&TALL_WORD, &LOW_WORD]),
    },
    Case {
        name: "constants leave nothing",
        rounds: &[Round {
            matrices: &[(&[9, 4, 9, 4], Form::Words(2))],
            points: &[&[FIRST_POINT]],
        }],
        expected: Expected::Words(&[&[[0, 0, 0, 0], [0, 0, 0, 0]]]),
    },
    Case {
        name: "no rounds have no words",
        rounds: &[],
        expected: Expected::Words(&[]),
    },
];

#[test]
fn words_of_quotients(rt: HostRuntime) {
    for case in &CASES {
        assert!(rt; is_met(&rt, rt.alloc(), case), "{}", case.name);
    }
}
