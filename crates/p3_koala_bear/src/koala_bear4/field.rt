//! KoalaBear4 is a field.

ghost use Rattle.std.specs.Prelude.{◌≡◌, ◌≢◌};
ghost use Rattle.algebra.specs.QuarticExtension.{conjugate, base_norm};
ghost use Rattle.p3_koala_bear.specs.KoalaBear.{koala_bear, element};
ghost use Rattle.p3_koala_bear.specs.KoalaBear4.{koala_bear4, lift4, generator4, quartic_of};
ghost use Rattle.p3_koala_bear.specs.KoalaBear4.{of_quartic};
ghost use Rattle.p3_koala_bear.specs.KoalaBear4Laws.{koala_bear4_laws, eq4_same, zero4_is, one4_is};
ghost use Rattle.p3_koala_bear.specs.KoalaBear4Laws.{two4_is, generator4_is};

use super::KoalaBear4;
use crate::koala_bear::KoalaBear;
use crate::koala_bear::constants::{ONE, TWO, ZERO};
use p3_field_core::field::Field;

/// The element with `-X` in the place of `X`: the product of the two has only even powers of `X`.
fn conjugate_of(x: KoalaBear4) -> KoalaBear4
    ensures { result ≡ of_quartic (conjugate koala_bear (quartic_of x)) }
{
    KoalaBear4 {
        constant: x.constant,
        linear: -x.linear,
        quadratic: x.quadratic,
        cubic: -x.cubic,
    }
}

/// `(n + m X^2) (n - m X^2)`, an element of KoalaBear, for the element `n + m X^2`.
fn even_norm_of(even: KoalaBear4) -> KoalaBear
    ensures { result ≡ base_norm koala_bear (element 3) (quartic_of even) }
{
    even.constant.square() - KoalaBear::from_u64(3) * even.quadratic.square()
}

impl Field for KoalaBear4 {
    type Prepared = KoalaBear4;

    ghost ops = { koala_bear4 };

    ghost factor_of = { λ x. x };

    ghost ZERO = { lift4 (element 0) };

    const ZERO: KoalaBear4 = KoalaBear4 {
        constant: ZERO,
        linear: ZERO,
        quadratic: ZERO,
        cubic: ZERO,
    };

    ghost ONE = { lift4 (element 1) };

    const ONE: KoalaBear4 = KoalaBear4 {
        constant: ONE,
        linear: ZERO,
        quadratic: ZERO,
        cubic: ZERO,
    };

    ghost TWO = { lift4 (element 2) };

    const TWO: KoalaBear4 = KoalaBear4 {
        constant: TWO,
        linear: ZERO,
        quadratic: ZERO,
        cubic: ZERO,
    };

    ghost GENERATOR = { generator4 };

    const GENERATOR: KoalaBear4 = KoalaBear4 {
        constant: TWO,
        linear: ONE,
        quadratic: ZERO,
        cubic: ZERO,
    };

    ghost BITS = { 124 };

    const BITS: usize = 124;

    fn prepare(self) -> KoalaBear4 {
        self
    }

    fn times(self, factor: KoalaBear4) -> KoalaBear4 {
        self * factor
    }

    #[tactic(auto, unfolding(crate::specs::KoalaBear4::koala_bear4))]
    fn halve(self) -> KoalaBear4 {
        KoalaBear4 {
            constant: self.constant.halve(),
            linear: self.linear.halve(),
            quadratic: self.quadratic.halve(),
            cubic: self.cubic.halve(),
        }
    }

    fn from_u64(n: u64) -> KoalaBear4 {
        KoalaBear4 {
            constant: KoalaBear::from_u64(n),
            linear: ZERO,
            quadratic: ZERO,
            cubic: ZERO,
        }
    }

    #[tactic(auto, unfolding(crate::specs::KoalaBear4::koala_bear4))]
    fn inverse(self) -> KoalaBear4 {
        // The conjugate makes the product even, and the conjugate of that, `-X^2` in the place of
        // `X^2`, makes it an element of KoalaBear, the only one that is inverted.
        let conjugate = conjugate_of(self);
        let even = self * conjugate;
        let scale = even_norm_of(even).inverse();
        let cofactor = KoalaBear4 {
            constant: even.constant * scale,
            linear: ZERO,
            quadratic: -(even.quadratic * scale),
            cubic: ZERO,
        };
        conjugate * cofactor
    }

    ghost laws = { koala_bear4_laws };

    ghost zero_law = { zero4_is };

    ghost one_law = { one4_is };

    ghost two_law = { two4_is };

    ghost generator_law = { generator4_is };

    ghost eq_law = { eq4_same };

    ghost can_add_law = { λ _ _. tt };

    ghost add_law = { λ a b r h. h };

    ghost can_sub_law = { λ _ _. tt };

    ghost sub_law = { λ a b r h. h };

    ghost can_mul_law = { λ _ _. tt };

    ghost mul_law = { λ a b r h. h };

    ghost can_neg_law = { λ _. tt };

    ghost neg_law = { λ a r h. h };
}
