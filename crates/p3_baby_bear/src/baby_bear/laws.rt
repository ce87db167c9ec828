//! What BabyBear is, as a call that does nothing and whose contract is the theorem.

ghost use Rattle.std.specs.Prelude.{◌≡◌, ◌^◌};
ghost use Rattle.algebra.specs.Field.{pow};
ghost use Rattle.algebra.specs.Primes.{IsPrime};
ghost use Rattle.p3_field_core.specs.Order.{HasOrder};
ghost use Rattle.p3_baby_bear.specs.BabyBear.{baby_bear, element};

/// The order of BabyBear is prime, and the 15th power of its generator 31 is 440564289, of order
/// `2^27`.
pub fn baby_bear_law()
    ensures prime { IsPrime 2013265921 }
    ensures generator_power { pow baby_bear (element 31) 15 ≡ element 440564289 }
    ensures root_order { HasOrder baby_bear (element 440564289) (2 ^ 27) }
{}
