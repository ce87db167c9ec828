//! What KoalaBear is, as a call that does nothing and whose contract is the theorem.

ghost use Rattle.std.specs.Prelude.{◌≡◌, ◌^◌};
ghost use Rattle.algebra.specs.Field.{pow};
ghost use Rattle.algebra.specs.Primes.{IsPrime};
ghost use Rattle.p3_field_core.specs.Order.{HasOrder};
ghost use Rattle.p3_koala_bear.specs.KoalaBear.{koala_bear, element};

/// The order of KoalaBear is prime, and the 127th power of its generator 3 is 1791270792, of order
/// `2^24`.
pub fn koala_bear_law()
    ensures prime { IsPrime 2130706433 }
    ensures generator_power { pow koala_bear (element 3) 127 ≡ element 1791270792 }
    ensures root_order { HasOrder koala_bear (element 1791270792) (2 ^ 24) }
{}
