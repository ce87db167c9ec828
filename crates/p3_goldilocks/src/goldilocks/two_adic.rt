//! The roots of unity of Goldilocks.

ghost use Rattle.std.specs.Prelude.{◌≡◌};
ghost use Rattle.p3_goldilocks.specs.Goldilocks.{root};
ghost use Rattle.p3_goldilocks.specs.GoldilocksLaws.{goldilocks_roots, two_adicity_small};

use super::Goldilocks;
use super::arithmetic::from_number;
use p3_field_core::field::Field;
use p3_field_core::two_adic::TwoAdicField;

/// `7^(2^32 - 1)`, a root of unity of order `2^32`.
const GREATEST_ROOT: u64 = 1_753_635_133_440_165_772;

impl TwoAdicField for Goldilocks {
    ghost TWO_ADICITY = { 32 };

    const TWO_ADICITY: usize = 32;

    ghost root = { root };

    fn two_adic_generator(bits: usize) -> Goldilocks {
        from_number(GREATEST_ROOT).exp_power_of_2(32 - bits)
    }

    ghost two_adicity_law = { two_adicity_small };

    ghost roots_law = { goldilocks_roots };
}
