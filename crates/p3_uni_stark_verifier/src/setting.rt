//! The fields of a STARK, named once.

ghost use Rattle.p3_field_core.specs.Basis.{unit_vector};
ghost use Rattle.p3_uni_stark_verifier.specs.Setting.{StarkFields};

use p3_field_core::{ExtensionField, Field, PrimeField64, TwoAdicField};

/// An extension of a two-adic prime field. Each has the record of both; a contract takes it from
/// here, as `⟦<EF as StarkField<F>>⟧.fields`, and a bound needn't name it.
pub trait StarkField<F: TwoAdicField + PrimeField64>: ExtensionField<F> {
    /// Both fields.
    ghost fields: { StarkFields F Self };
}

impl<F: TwoAdicField + PrimeField64, EF: ExtensionField<F>> StarkField<F> for EF {
    ghost fields = { record {
      base = F.ops;
      ext = EF.ops;
      lift = EF.lift;
      root = F.root;
      two_adicity = F.TWO_ADICITY;
      generator = F.GENERATOR;
      dimension = EF.DIMENSION;
      basis = λ e. EF.of_coefficients (unit_vector F.ops EF.DIMENSION e);
      canonical = F.canonical;
    } };
}
