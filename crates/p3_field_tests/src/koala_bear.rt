//! Worked values of the prime field.

use crate::prime::{PrimeCases, wrong_call};
use p3_field_core::laws::two_adic_order_law;
use p3_koala_bear::KoalaBear;
use p3_koala_bear::koala_bear::laws::koala_bear_law;

static CASES: PrimeCases = PrimeCases {
    values: &[
        ("5 + 7", 12),
        ("5 - 7", 2130706431),
        ("5 * 7", 35),
        ("-5", 2130706428),
        ("5 doubled", 10),
        ("5 squared", 25),
        ("1 halved", 1065353217),
        ("5 to the power 3", 125),
        ("5 to the power 2^2", 625),
        ("2", 2),
        ("bits", 31),
        ("order", 2130706433),
        ("generator", 3),
    ],
    products: &[
        (2130706432, 2130706432, 1),
        (1073741824, 1073741824, 1623162623),
        (2130706431, 1065353216, 1),
        (79223778, 1272482607, 1177690799),
        (561805008, 1755195549, 1471132013),
        (649211859, 1161923595, 1229479762),
        (1799300809, 316009549, 890570769),
    ],
    inverses: &[
        (1, 1),
        (2, 1065353217),
        (3, 710235478),
        (2130706432, 2130706432),
        (1799300809, 1270047372),
        (1161923595, 1428555598),
    ],
    words: &[
        (0, 0),
        (2130706432, 2130706432),
        (2130706433, 0),
        (2130706440, 7),
        (0x903d_f1a0_ade0_b876, 371151467),
        (1 << 63, 201062386),
        (u64::MAX, 402124771),
    ],
    roots: &[
        (0, 1),
        (1, 2130706432),
        (2, 2113994754),
        (3, 1748172362),
        (24, 1791270792),
    ],
    two_adicity: (24, 127),
    factors: &[0, 1, 2130706432, 1791270792],
    bytes: &[0xfe, 0xff, 0xff, 0x7e],
};

#[test]
fn calls_of_the_field(rt: HostRuntime) {
    let wrong = wrong_call::<KoalaBear>(&CASES);
    assert!(rt; wrong.is_none(), "{wrong:?}");
    koala_bear_law();
    two_adic_order_law::<KoalaBear>();
}
