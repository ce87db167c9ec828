//! What Goldilocks is, as a call that does nothing and whose contract is the theorem.

ghost use Rattle.std.specs.Prelude.{◌≡◌, ◌^◌};
ghost use Rattle.algebra.specs.Field.{pow};
ghost use Rattle.algebra.specs.Primes.{IsPrime};
ghost use Rattle.p3_field_core.specs.Order.{HasOrder};
ghost use Rattle.p3_goldilocks.specs.Goldilocks.{goldilocks, element};

/// The order of Goldilocks is prime, and the power of its generator 7 by `2^32 - 1` is
/// 1753635133440165772, of order `2^32`.
pub fn goldilocks_law()
    ensures prime { IsPrime 18446744069414584321 }
    ensures generator_power { pow goldilocks (element 7) 4294967295
        ≡ element 1753635133440165772 }
    ensures root_order { HasOrder goldilocks (element 1753635133440165772) (2 ^ 32) }
{}
