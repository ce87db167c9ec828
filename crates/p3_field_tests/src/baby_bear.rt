//! Worked values of the prime field. Inverses and roots of unity are those of Python's `pow`.

use crate::prime::{PrimeCases, wrong_call};
use p3_field::laws::{baby_bear_law, two_adic_order_law};
use p3_field::{BabyBear, ExtensionField, Field};

static CASES: PrimeCases = PrimeCases {
    values: &[
        ("5 + 7", 12),
        ("5 - 7", 2013265919),
        ("5 * 7", 35),
        ("-5", 2013265916),
        ("5 doubled", 10),
        ("5 squared", 25),
        ("1 halved", 1006632961),
        ("5 to the power 3", 125),
        ("5 to the power 2^2", 625),
        ("2", 2),
        ("bits", 31),
        ("order", 2013265921),
        ("generator", 31),
    ],
    products: &[(5, 7, 35), (2013265920, 440564289, 1572701632)],
    inverses: &[
        (1, 1),
        (2, 1006632961),
        (3, 1342177281),
        (4, 1509949441),
        (5, 1610612737),
        (6, 1677721601),
        (7, 862828252),
        (8, 1761607681),
        (9, 447392427),
        (10, 1811939329),
    ],
    words: &[
        (0, 0),
        (2_013_265_920, 2_013_265_920),
        (2_013_265_921, 0),
        (2_013_265_928, 7),
        (0x903d_f1a0_ade0_b876, 1_378_443_179),
        (1 << 63, 1_592_717_042),
        (u64::MAX, 1_172_168_162),
    ],
    roots: &[
        (0, 1),
        (1, 2013265920),
        (2, 1728404513),
        (3, 1592366214),
        (27, 440564289),
    ],
    two_adicity: (27, 15),
    factors: &[0, 1, 2013265920, 440564289],
    bytes: &[0xfe, 0xff, 0xff, 0x77],
};

#[test]
fn calls_of_the_field(rt: HostRuntime) {
    let wrong = wrong_call::<BabyBear>(&CASES);
    assert!(rt; wrong.is_none(), "{wrong:?}");
    baby_bear_law();
    two_adic_order_law::<BabyBear>();
}

/// The sum of the base field's 3 scaled by 4 and the element of the one coefficient 5.
fn extension_value<F: Field, E: ExtensionField<F>>(coefficients: &[F]) -> Option<E> {
    if coefficients.len() == E::DIMENSION {
        let lifted = E::from_base(F::from_u64(3)).scale(F::from_u64(4));
        Some(lifted + E::from_coefficients(coefficients))
    } else {
        None
    }
}

#[test]
fn extends_itself(rt: HostRuntime) {
    let five = BabyBear::from_u64(5);
    let value = extension_value::<BabyBear, BabyBear>(&[five]);
    let coefficient = <BabyBear as ExtensionField<BabyBear>>::coefficient(five, 0);
    let dimension = <BabyBear as ExtensionField<BabyBear>>::DIMENSION;
    let seventeen = BabyBear::from_u64(17);
    assert!(rt; value == Some(seventeen) && coefficient == five && dimension == 1);
}
