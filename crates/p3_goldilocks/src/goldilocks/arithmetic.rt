//! Arithmetic modulo 18446744069414584321.

ghost use Rattle.std.specs.Prelude.{◌≡◌, ◌<◌, ◌≤◌, ◌+◌, ◌*◌, ◌%◌};
ghost use Rattle.algebra.specs.Field.{sub};
ghost use Rattle.p3_goldilocks.specs.Goldilocks.{goldilocks, element};

use super::Goldilocks;
use std::ops::{Add, Mul, Neg, Sub};

/// The order of the field.
pub(super) const P: u64 = 18_446_744_069_414_584_321;

/// `2^64` modulo the order, which is `2^32 - 1`.
const WORD: u64 = 4_294_967_295;

/// The element of a canonical number.
pub(super) fn from_number(value: u64) -> Goldilocks
    requires { value < 18446744069414584321 }
    ensures { result ≡ element value }
{
    Goldilocks { value }
}

/// The element of any number of 64 bits.
pub(super) fn reduced_once(number: u64) -> Goldilocks
    ensures { result ≡ element number }
{
    Goldilocks {
        value: if number >= P { number - P } else { number },
    }
}

/// A number that leaves as much as `number - taken`.
fn less_modulo(number: u64, taken: u64) -> u64
    requires { taken < 4294967296 }
    ensures { (result + taken) % 18446744069414584321 ≡ number % 18446744069414584321 }
{
    if number >= taken {
        number - taken
    } else {
        P - taken + number
    }
}

/// A number that leaves as much as `number + added`.
fn more_modulo(number: u64, added: u64) -> u64
    requires { added ≤ 18446744065119617025 }
    ensures { result % 18446744069414584321 ≡ (number + added) % 18446744069414584321 }
{
    // a sum past 64 bits wraps, and has then lost `2^64`
    let sum = number.wrapping_add(added);
    if sum < added { sum + WORD } else { sum }
}

/// The element of a number of 128 bits: `2^64` counts `2^32 - 1`, and `2^96` counts -1, so that
/// one product of 32 bits is left.
pub(crate) fn reduced(number: u128) -> Goldilocks
    ensures { result ≡ element number }
{
    let low = (number % 18_446_744_073_709_551_616) as u64;
    let high = (number >> 64) as u64;
    let middle = high % 4_294_967_296;
    let highest = high / 4_294_967_296;
    reduced_once(more_modulo(less_modulo(low, highest), middle * WORD))
}

impl Add for Goldilocks {
    type Output = Goldilocks;

    ghost add_gives = { λ a b r. r ≡ goldilocks.add a b };

    #[tactic(auto, unfolding(crate::specs::Goldilocks::goldilocks))]
    fn add(self, rhs: Goldilocks) -> Goldilocks {
        // what the first lacks of the order decides whether the sum passes it
        let room = P - rhs.value;
        Goldilocks {
            value: if self.value >= room {
                self.value - room
            } else {
                self.value + rhs.value
            },
        }
    }
}

impl Sub for Goldilocks {
    type Output = Goldilocks;

    ghost sub_gives = { λ a b r. r ≡ sub goldilocks a b };

    #[tactic(auto, unfolding(crate::specs::Goldilocks::goldilocks))]
    fn sub(self, rhs: Goldilocks) -> Goldilocks {
        Goldilocks {
            value: if self.value >= rhs.value {
                self.value - rhs.value
            } else {
                P - rhs.value + self.value
            },
        }
    }
}

impl Mul for Goldilocks {
    type Output = Goldilocks;

    ghost mul_gives = { λ a b r. r ≡ goldilocks.mul a b };

    #[tactic(auto, unfolding(crate::specs::Goldilocks::goldilocks))]
    fn mul(self, rhs: Goldilocks) -> Goldilocks {
        reduced(u128::from(self.value) * u128::from(rhs.value))
    }
}

impl Neg for Goldilocks {
    type Output = Goldilocks;

    ghost neg_gives = { λ a r. r ≡ goldilocks.neg a };

    #[tactic(auto, unfolding(crate::specs::Goldilocks::goldilocks))]
    fn neg(self) -> Goldilocks {
        Goldilocks {
            value: if self.value == 0 { 0 } else { P - self.value },
        }
    }
}
