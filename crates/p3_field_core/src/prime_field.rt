//! Prime fields whose order fits 64 bits.

ghost use Rattle.std.specs.Prelude.{◌≡◌, ◌<◌, ◌≤◌, ◌%◌, ◌-◌, ◌^◌, ℕ};
ghost use Rattle.algebra.specs.Field.{multiple};

use crate::field::Field;

/// A field whose elements are the multiples of one, `from_canonical(n)` for exactly one `n` below
/// the order.
pub trait PrimeField64: Field {
    ghost ORDER_U64: { ℕ };

    /// The number of elements.
    const ORDER_U64: u64;

    ghost canonical: { Self → ℕ };

    /// The number below the order of which this is the multiple of one.
    fn as_canonical_u64(self) -> u64
        ensures { result ≡ canonical self };

    /// The `n`-th multiple of one, for a number below the order.
    fn from_canonical(n: u64) -> Self
        requires below_order { n < ORDER_U64 }
        ensures { result ≡ multiple Self.ops n };

    ghost canonical_below: { (x : Self) → canonical x < ORDER_U64 };

    ghost multiple_canonical: { (x : Self) → multiple Self.ops (canonical x) ≡ x };

    ghost canonical_multiple: { (n : ℕ) → canonical (multiple Self.ops n) ≡ n % ORDER_U64 };

    ghost bits_at_least: { 2 ^ (Self.BITS - 1) ≤ ORDER_U64 };

    ghost bits_at_most: { ORDER_U64 < 2 ^ Self.BITS };
}
