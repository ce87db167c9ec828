//! The roots of unity of BabyBear.

ghost use Rattle.std.specs.Prelude.{◌≡◌};
ghost use Rattle.p3_baby_bear.specs.BabyBear.{root};
ghost use Rattle.p3_baby_bear.specs.BabyBearLaws.{baby_bear_roots, two_adicity_small};

use super::BabyBear;
use super::arithmetic::from_number;
use p3_field_core::field::Field;
use p3_field_core::two_adic::TwoAdicField;

/// `31^15`, a root of unity of order `2^27`.
const GREATEST_ROOT: u32 = 440_564_289;

impl TwoAdicField for BabyBear {
    ghost TWO_ADICITY = { 27 };

    const TWO_ADICITY: usize = 27;

    ghost root = { root };

    fn two_adic_generator(bits: usize) -> BabyBear {
        from_number(GREATEST_ROOT).exp_power_of_2(27 - bits)
    }

    ghost two_adicity_law = { two_adicity_small };

    ghost roots_law = { baby_bear_roots };
}
