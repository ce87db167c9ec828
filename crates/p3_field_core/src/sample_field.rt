//! Elements that are made of a generator's words.

ghost use Rattle.std.specs.Prelude.{◌≡◌, ◌%◌, ℕ};
ghost use Rattle.algebra.specs.Field.{multiple};

use crate::prime_field::PrimeField64;

/// A prime field of which a random element is a generator's next word, modulo the order.
pub trait SampleField: PrimeField64 {
    ghost from_word: { ℕ → Self };

    /// The element of the word modulo the order.
    fn from_word(word: u64) -> Self
        ensures { result ≡ from_word word }
    {
        Self::from_canonical(word % Self::ORDER_U64)
    }

    ghost from_word_law: { (word : ℕ)
        → from_word word ≡ multiple Self.ops (word % Self.ORDER_U64) };
}
