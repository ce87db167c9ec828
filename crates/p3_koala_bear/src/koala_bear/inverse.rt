//! The multiplicative inverse.

ghost use Rattle.std.specs.Prelude.{◌≡◌, ◌≢◌};
ghost use Rattle.p3_koala_bear.specs.KoalaBear.{koala_bear};

use super::KoalaBear;
use super::arithmetic::{P, from_number};

/// The inverse of an element that isn't zero: since `P = a * (P / a) + P % a`, the inverse of `a`
/// is `-(P / a)` times that of `P % a`, and the remainders fall to 1 because `P` is prime.
pub(super) fn inverse_of(x: KoalaBear) -> KoalaBear
    requires { x ≢ koala_bear.zero }
    ensures { result ≡ koala_bear.inv x }
{
    let mut product = from_number(1);
    let mut divisor = x.value;
    while divisor > 1 {
        product = product * from_number(P - P / divisor);
        divisor = P % divisor;
    }
    product
}
