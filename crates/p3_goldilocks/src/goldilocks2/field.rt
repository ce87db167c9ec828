//! Goldilocks2 is a field.

ghost use Rattle.std.specs.Prelude.{◌≡◌, ◌≢◌};
ghost use Rattle.p3_binomial_extension.specs.Quadratic.{quadratic_norm};
ghost use Rattle.p3_goldilocks.specs.Goldilocks.{goldilocks, element};
ghost use Rattle.p3_goldilocks.specs.Goldilocks2.{goldilocks2, lift2, generator2, quadratic_of};
ghost use Rattle.p3_goldilocks.specs.Goldilocks2Laws.{goldilocks2_laws, eq2_same, zero2_is};
ghost use Rattle.p3_goldilocks.specs.Goldilocks2Laws.{one2_is};
ghost use Rattle.p3_goldilocks.specs.Goldilocks2Laws.{two2_is, generator2_is};

use super::Goldilocks2;
use crate::goldilocks::Goldilocks;
use crate::goldilocks::constants::{GENERATOR_CONSTANT, GENERATOR_LINEAR, ONE, TWO, ZERO};
use p3_field_core::field::Field;

/// The product with the element that has `-X` in the place of `X`, an element of Goldilocks.
fn norm_of(x: Goldilocks2) -> Goldilocks
    ensures { result ≡ quadratic_norm goldilocks (element 7) (quadratic_of x) }
{
    x.constant.square() - Goldilocks::from_u64(7) * x.linear.square()
}

impl Field for Goldilocks2 {
    type Prepared = Goldilocks2;

    ghost ops = { goldilocks2 };

    ghost factor_of = { λ x. x };

    ghost ZERO = { lift2 (element 0) };

    const ZERO: Goldilocks2 = Goldilocks2 {
        constant: ZERO,
        linear: ZERO,
    };

    ghost ONE = { lift2 (element 1) };

    const ONE: Goldilocks2 = Goldilocks2 {
        constant: ONE,
        linear: ZERO,
    };

    ghost TWO = { lift2 (element 2) };

    const TWO: Goldilocks2 = Goldilocks2 {
        constant: TWO,
        linear: ZERO,
    };

    ghost GENERATOR = { generator2 };

    const GENERATOR: Goldilocks2 = Goldilocks2 {
        constant: GENERATOR_CONSTANT,
        linear: GENERATOR_LINEAR,
    };

    ghost BITS = { 128 };

    const BITS: usize = 128;

    fn prepare(self) -> Goldilocks2 {
        self
    }

    fn times(self, factor: Goldilocks2) -> Goldilocks2 {
        self * factor
    }

    #[tactic(auto, unfolding(crate::specs::Goldilocks2::goldilocks2))]
    fn halve(self) -> Goldilocks2 {
        Goldilocks2 {
            constant: self.constant.halve(),
            linear: self.linear.halve(),
        }
    }

    fn from_u64(n: u64) -> Goldilocks2 {
        Goldilocks2 {
            constant: Goldilocks::from_u64(n),
            linear: ZERO,
        }
    }

    #[tactic(auto, unfolding(crate::specs::Goldilocks2::goldilocks2))]
    fn inverse(self) -> Goldilocks2 {
        let scale = norm_of(self).inverse();
        Goldilocks2 {
            constant: self.constant * scale,
            linear: -(self.linear * scale),
        }
    }

    ghost laws = { goldilocks2_laws };

    ghost zero_law = { zero2_is };

    ghost one_law = { one2_is };

    ghost two_law = { two2_is };

    ghost generator_law = { generator2_is };

    ghost eq_law = { eq2_same };

    ghost can_add_law = { λ _ _. tt };

    ghost add_law = { λ a b r h. h };

    ghost can_sub_law = { λ _ _. tt };

    ghost sub_law = { λ a b r h. h };

    ghost can_mul_law = { λ _ _. tt };

    ghost mul_law = { λ a b r h. h };

    ghost can_neg_law = { λ _. tt };

    ghost neg_law = { λ a r h. h };
}
