//! The roots of unity of KoalaBear.

ghost use Rattle.std.specs.Prelude.{◌≡◌};
ghost use Rattle.p3_koala_bear.specs.KoalaBear.{root};
ghost use Rattle.p3_koala_bear.specs.KoalaBearLaws.{koala_bear_roots, two_adicity_small};

use super::KoalaBear;
use super::arithmetic::from_number;
use p3_field_core::field::Field;
use p3_field_core::two_adic::TwoAdicField;

/// `3^127`, a root of unity of order `2^24`.
const GREATEST_ROOT: u32 = 1_791_270_792;

impl TwoAdicField for KoalaBear {
    ghost TWO_ADICITY = { 24 };

    const TWO_ADICITY: usize = 24;

    ghost root = { root };

    fn two_adic_generator(bits: usize) -> KoalaBear {
        from_number(GREATEST_ROOT).exp_power_of_2(24 - bits)
    }

    ghost two_adicity_law = { two_adicity_small };

    ghost roots_law = { koala_bear_roots };
}
