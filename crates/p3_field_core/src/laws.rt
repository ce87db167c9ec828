//! Laws of the fields' traits and of bit-reversed order, as calls that do nothing and whose
//! contracts are theorems.

ghost use Rattle.std.specs.Prelude.{◌≡◌, ◌≢◌, ◌≤◌, ◌^◌, ℕ, List, length};
ghost use Rattle.algebra.specs.Interpolation.{AreDistinct};
ghost use Rattle.p3_field_core.specs.Coset.{coset_points, bit_reversed_points};
ghost use Rattle.p3_field_core.specs.Index.{bit_reversed};
ghost use Rattle.p3_field_core.specs.Order.{HasOrder};

use crate::two_adic::TwoAdicField;

/// The root of unity of each logarithm up to the two-adicity has exactly the order that it is named
/// for.
pub fn two_adic_order_law<F: TwoAdicField>()
    ensures { (k : ℕ) → k ≤ F.TWO_ADICITY → HasOrder F.ops (F.root k) (2 ^ k) }
{}

/// The points of a whole coset are distinct, in natural and in bit-reversed order.
pub fn distinct_points_law<F: TwoAdicField>()
    ensures natural { (k : ℕ) (shift : F) → k ≤ F.TWO_ADICITY → shift ≢ F.ops.zero →
        AreDistinct (coset_points F.ops (F.root k) shift k) }
    ensures reversed { (k : ℕ) (shift : F) → k ≤ F.TWO_ADICITY → shift ≢ F.ops.zero →
        AreDistinct (bit_reversed_points F.ops (F.root k) shift k) }
{}

/// Bit-reversed order twice is the order of before, for `2^k` entries.
pub fn bit_reversal_law<T>()
    ensures { (k : ℕ) (xs : List T) → length xs ≡ 2 ^ k → bit_reversed k (bit_reversed k xs) ≡ xs }
{}
