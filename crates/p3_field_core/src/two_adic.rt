//! Fields with roots of unity whose order is a power of two.

ghost use Rattle.std.specs.Prelude.{◌≡◌, ◌<◌, ◌≤◌, ℕ};
ghost use Rattle.algebra.specs.TwoAdic.{AreRoots};

use crate::field::Field;

/// A field with a root of unity of each order up to `2^TWO_ADICITY`, each the square of the next.
pub trait TwoAdicField: Field {
    ghost TWO_ADICITY: { ℕ };

    /// The greatest logarithm of an order, below 64.
    const TWO_ADICITY: usize;

    ghost root: { ℕ → Self };

    /// The root of unity of order `2^bits`, for `bits` up to the two-adicity.
    fn two_adic_generator(bits: usize) -> Self
        requires within_two_adicity { bits ≤ TWO_ADICITY }
        ensures { result ≡ root bits };

    ghost two_adicity_law: { TWO_ADICITY < 64 };

    ghost roots_law: { AreRoots Self.ops TWO_ADICITY root };
}
