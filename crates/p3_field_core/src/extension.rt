//! Extensions of a field.

ghost use Rattle.std.specs.Prelude.{◌≡◌, ◌<◌, ◌≤◌, ◌*◌, ℕ, List, [], ◌∷◌, length};
ghost use Rattle.std.specs.Prelude.{slice_index_or, slice_set};
ghost use Rattle.algebra.specs.Field.{IsHomomorphism};
ghost use Rattle.algebra.specs.Polynomial.{sum_below};
ghost use Rattle.algebra.proofs.Lifting.{identity_homomorphism};
ghost use Rattle.p3_field_core.specs.ExtensionLaws.{self_lift, self_length, self_injective};
ghost use Rattle.p3_field_core.specs.ExtensionLaws.{self_of_coefficients, self_basis};
ghost use Rattle.p3_field_core.specs.Basis.{unit_vector};
ghost use Rattle.p3_field_core.specs.RowSums.{row_term, column_term};

use crate::field::Field;

/// A field that is a vector space of finite dimension over the field `F`, which it contains.
pub trait ExtensionField<F: Field>: Field {
    ghost DIMENSION: { ℕ };

    /// The dimension over `F`, and so the number of an element's coefficients.
    const DIMENSION: usize;

    ghost lift: { F → Self };

    ghost coefficients: { Self → List F };

    ghost of_coefficients: { List F → Self };

    /// The element of the base field, as one of the extension.
    fn from_base(base: F) -> Self
        ensures { result ≡ lift base };

    /// The element with these coefficients, that of one first.
    fn from_coefficients(values: &[F]) -> Self
        requires dimension { length values.now ≡ DIMENSION }
        ensures { coefficients result ≡ values.now };

    /// The coefficient at `index`, that of one at 0.
    fn coefficient(self, index: usize) -> F
        requires below_dimension { index < DIMENSION }
        ensures { result ≡ slice_index_or (coefficients self) index F.ops.zero };

    /// The element with `value` in the place of its coefficient at `index`.
    fn with_coefficient(self, index: usize, value: F) -> Self
        requires below_dimension { index < DIMENSION }
        ensures { coefficients result ≡ slice_set (coefficients self) index value };

    /// The element whose coefficient at `index` is one, and whose others are zero.
    fn ith_basis_element(index: usize) -> Self
        requires below_dimension { index < DIMENSION }
        ensures { coefficients result ≡ unit_vector F.ops DIMENSION index }
    {
        Self::ZERO.with_coefficient(index, F::ONE)
    }

    /// The product with an element of the base field.
    fn scale(self, factor: F) -> Self
        ensures { result ≡ Self.ops.mul self (lift factor) };

    /// The product with an element of the base field that was made ready.
    fn scale_prepared(self, factor: F::Prepared) -> Self
        ensures { result ≡ Self.ops.mul self (lift (F.factor_of factor)) };

    /// The sum of a row's entries, each times the value beside it; values past the row's end count
    /// nothing. An extension can add up many products before it reduces a coefficient.
    fn dot_row(values: &[Self], row: &[F]) -> Self
        requires values { length row.now ≤ length values.now }
        ensures { result ≡ sum_below Self.ops (length row.now)
            (row_term F.ops Self.ops lift values.now row.now) }
    {
        let mut sum = Self::ZERO;
        for i in 0..row.len() {
            sum = sum + values[i].scale(row[i]);
        }
        sum
    }

    /// Adds to each column's sum its entries in rows that follow one another, each as long as
    /// `sums`, every entry times the weight of its row. An extension can add up many products
    /// before it reduces a coefficient.
    fn add_weighted_rows(sums: &mut [Self], rows: &[F], weights: &[Self])
        requires rows { length rows.now ≡ length weights.now * length sums.old }
        ensures { (j : ℕ) (d : Self) → j < length sums.old → slice_index_or sums.new j d
            ≡ Self.ops.add (slice_index_or sums.old j d) (sum_below Self.ops (length weights.now)
            (column_term F.ops Self.ops lift (length sums.old) weights.now rows.now j)) }
    {
        let width = sums.len();
        for i in 0..weights.len() {
            let row = &rows[i * width..(i + 1) * width];
            for j in 0..width {
                sums[j] = sums[j] + weights[i].scale(row[j]);
            }
        }
    }

    ghost lift_law: { IsHomomorphism F.ops Self.ops lift };

    ghost coefficient_of_lift: { (x : F) →
        slice_index_or (coefficients (lift x)) 0 F.ops.zero ≡ x };

    ghost dimension_law: { (x : Self) → length (coefficients x) ≡ DIMENSION };

    ghost coefficients_injective: { (x y : Self) → coefficients x ≡ coefficients y → x ≡ y };

    ghost of_coefficients_law: { (xs : List F) → length xs ≡ DIMENSION →
        coefficients (of_coefficients xs) ≡ xs };

    ghost basis_law: { (x : Self) → x ≡ sum_below Self.ops DIMENSION (λ k. Self.ops.mul
        (lift (slice_index_or (coefficients x) k F.ops.zero))
        (of_coefficients (unit_vector F.ops DIMENSION k))) };
}

/// Every field extends itself, with one coefficient.
impl<F: Field> ExtensionField<F> for F {
    ghost DIMENSION = { 1 };

    const DIMENSION: usize = 1;

    ghost lift = { λ x. x };

    ghost coefficients = { λ x. x ∷ [] };

    ghost of_coefficients = { λ xs. slice_index_or xs 0 F.ops.zero };

    fn from_base(base: F) -> F {
        base
    }

    fn from_coefficients(values: &[F]) -> F {
        values[0]
    }

    fn coefficient(self, index: usize) -> F {
        self
    }

    fn with_coefficient(self, index: usize, value: F) -> F {
        value
    }

    fn scale(self, factor: F) -> F {
        self * factor
    }

    fn scale_prepared(self, factor: F::Prepared) -> F {
        self.times(factor)
    }

    ghost lift_law = { identity_homomorphism F.ops };

    ghost coefficient_of_lift = { self_lift };

    ghost dimension_law = { self_length };

    ghost coefficients_injective = { self_injective };

    ghost of_coefficients_law = { self_of_coefficients F.ops.zero };

    ghost basis_law = { self_basis F.ops F.Field.laws };
}
