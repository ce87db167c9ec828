//! Several elements of a field in one value, on which the operations act lane by lane.

ghost use Rattle.std.specs.Prelude.{◌≡◌, ◌≢◌, ◌<◌, ℕ};
ghost use Rattle.std.proofs.Common.{refl};
ghost use Rattle.algebra.specs.Field.{sub};

use crate::extension::ExtensionField;
use crate::field::Field;
use std::ops::{Add, Mul, Neg, Sub};

/// As many elements of the field `F` as `WIDTH` says, one to a lane. Each operation acts on each
/// lane by itself.
pub trait PackedField<F: Field>: Copy
    + Add<Self, Output = Self>
    + Sub<Self, Output = Self>
    + Mul<Self, Output = Self>
    + Neg<Output = Self> {
    ghost WIDTH: { ℕ };

    /// The number of lanes.
    const WIDTH: usize;

    ghost lane: { Self → ℕ → F };

    /// The element in each lane.
    fn broadcast(value: F) -> Self
        ensures { (l : ℕ) → l < WIDTH → lane result l ≡ value };

    /// The same with `value` in one lane.
    fn with_lane(self, index: usize, value: F) -> Self
        requires within_width { index < WIDTH }
        ensures here { lane result index ≡ value }
        ensures elsewhere { (l : ℕ) → l < WIDTH → l ≢ index → lane result l ≡ lane self l };

    /// The element in one lane.
    fn lane(self, index: usize) -> F
        requires within_width { index < WIDTH }
        ensures { result ≡ lane self index };

    /// What `values` gives for each lane's index, in that lane.
    final fn from_fn<C: Fn(usize) -> F>(values: C) -> Self
        requires callable { (l : ℕ) → l < WIDTH → C.pre values l }
        ensures { (l : ℕ) → l < WIDTH → C.post values l (lane result l) }
    {
        let mut packed = Self::broadcast(F::ZERO);
        for lane in 0..Self::WIDTH {
            packed = packed.with_lane(lane, values(lane));
        }
        packed
    }

    ghost width_law: { 0 < WIDTH };

    ghost can_add_law: { (a b : Self) → Self.can_add a b };

    ghost add_law: { (a b r : Self) → Self.add_gives a b r →
        (l : ℕ) → l < WIDTH → lane r l ≡ F.ops.add (lane a l) (lane b l) };

    ghost can_sub_law: { (a b : Self) → Self.can_sub a b };

    ghost sub_law: { (a b r : Self) → Self.sub_gives a b r →
        (l : ℕ) → l < WIDTH → lane r l ≡ sub F.ops (lane a l) (lane b l) };

    ghost can_mul_law: { (a b : Self) → Self.can_mul a b };

    ghost mul_law: { (a b r : Self) → Self.mul_gives a b r →
        (l : ℕ) → l < WIDTH → lane r l ≡ F.ops.mul (lane a l) (lane b l) };

    ghost can_neg_law: { (a : Self) → Self.can_neg a };

    ghost neg_law: { (a r : Self) → Self.neg_gives a r →
        (l : ℕ) → l < WIDTH → lane r l ≡ F.ops.neg (lane a l) };
}

/// A field whose elements are packed.
pub trait PackableField: Field {
    /// Several elements, lane by lane.
    type Packing: PackedField<Self>;
}

/// Packed elements of an extension, which elements of the base field packed to the same width
/// scale.
pub trait PackedExtension<F: Field, EF: ExtensionField<F>, P: PackedField<F>>: PackedField<EF> {
    /// The product with the element of the base field in the same lane.
    fn scale_lanes(self, factors: P) -> Self
        ensures { (l : ℕ) → l < Self.WIDTH → Self.lane result l
            ≡ EF.ops.mul (Self.lane self l) (EF.lift (P.lane factors l)) };

    ghost same_width: { Self.WIDTH ≡ P.WIDTH };
}

/// Every field extends itself, and so does each of its packings.
impl<F: Field, P: PackedField<F>> PackedExtension<F, F, P> for P {
    fn scale_lanes(self, factors: P) -> P {
        self * factors
    }

    ghost same_width = { refl };
}

/// An extension whose elements are packed over a field whose elements are.
pub trait PackableExtension<F: PackableField>: ExtensionField<F> {
    /// Several elements, lane by lane, over as many of the base field.
    type ExtensionPacking: PackedExtension<F, Self, F::Packing>;
}

/// Over itself a field's elements are packed as they are.
impl<F: PackableField> PackableExtension<F> for F {
    type ExtensionPacking = F::Packing;
}
