//! Products by a factor that is known before: three products of words, and no division.

ghost use Rattle.std.specs.Prelude.{◌≡◌, ◌*◌, ◌/◌};
ghost use Rattle.p3_koala_bear.specs.KoalaBear.{koala_bear};

use super::KoalaBear;
use super::arithmetic::{P, reduced_once};

/// A factor beside the quotient of `2^32` times its number by the order.
#[derive(Clone, Copy, Debug, PartialEq, Eq)]
pub struct KoalaBearFactor {
    factor: KoalaBear,
    quotient: u32,
    ghost rounded_down: { quotient ≡ factor.value * 4294967296 / 2130706433 },
}

impl KoalaBearFactor {
    /// The factor beside its quotient.
    pub(super) fn prepare(factor: KoalaBear) -> KoalaBearFactor
        ensures { result.factor ≡ factor }
    {
        let quotient = u64::from(factor.value) * 4_294_967_296 / u64::from(P);
        KoalaBearFactor {
            factor,
            quotient: quotient as u32,
        }
    }

    /// The product, by V. Shoup's method: the quotient of the product by the order is estimated by
    /// the prepared one, at most one too small, so that less than twice the order is left.
    #[tactic(auto, using(crate::proofs::Factors::estimates))]
    pub(super) fn times(self, x: KoalaBear) -> KoalaBear
        ensures { result ≡ koala_bear.mul x self.factor }
    {
        let estimate = u64::from(x.value) * u64::from(self.quotient) / 4_294_967_296;
        let product = u64::from(x.value) * u64::from(self.factor.value);
        reduced_once((product - estimate * u64::from(P)) as u32)
    }
}
