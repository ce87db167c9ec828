//! A prime field and an extension of it, named once.

ghost use Rattle.fri_statement.specs.Numbers.{PrimeFields};

use p3_field::{ExtensionField, PrimeField64};

/// An extension of a prime field, by the numbers of its elements. Each has the record of both; a
/// contract takes it from here, as `⟦<EF as StatedField<F>>⟧.prime_fields`, and a bound needn't
/// name it.
pub trait StatedField<F: PrimeField64>: ExtensionField<F> {
    ghost prime_fields: { PrimeFields F Self };
}

impl<F: PrimeField64, EF: ExtensionField<F>> StatedField<F> for EF {
    ghost prime_fields = { record {
      base = F.ops;
      order = F.ORDER_U64;
      canonical = F.canonical;
      degree = EF.DIMENSION;
      coefficients = EF.coefficients;
      of_coefficients = EF.of_coefficients;
    } };
}
