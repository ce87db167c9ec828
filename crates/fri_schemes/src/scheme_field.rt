//! The fields that schemes are made over.

ghost use Rattle.fri_statement.specs.Setting.{SchemeFields};

use p3_baby_bear::{BabyBear, BabyBear4};
use p3_challenger_sha256::Sha256Field;
use p3_field_core::{ElementBytes, PackableExtension, PackableField, SampleField, TwoAdicField};
use p3_fri_relation::setting::ChallengeField;
use p3_goldilocks::{Goldilocks, Goldilocks2};
use p3_koala_bear::{KoalaBear, KoalaBear4};

/// A two-adic prime field that a scheme over SHA-256 is made over, with the extension that its
/// challenges are drawn from.
pub trait SchemeField: Sha256Field + TwoAdicField + SampleField + PackableField + ElementBytes {
    /// Where challenges are drawn from, and points are of.
    type Extension: PackableExtension<Self> + ElementBytes;
}

impl SchemeField for BabyBear {
    type Extension = BabyBear4;
}

impl SchemeField for KoalaBear {
    type Extension = KoalaBear4;
}

impl SchemeField for Goldilocks {
    type Extension = Goldilocks2;
}

/// Such a field, with the record of all that a scheme stands on of it and of its extension. Each
/// has it, as `⟦<F as SchemeParts>⟧.fields`, and a bound needn't name it.
pub trait SchemeParts: SchemeField {
    ghost fields: { SchemeFields Self Self.Extension };
}

impl<F: SchemeField> SchemeParts for F {
    ghost fields = { record {
      relation = ⟦<F::Extension as ChallengeField<F>>⟧.fields;
      order = F.ORDER_U64;
      canonical = F.canonical;
      of_coefficients = F.Extension.of_coefficients;
      bytes = ⟦<F as ElementBytes>⟧.bytes;
      extension_bytes = ⟦<F::Extension as ElementBytes>⟧.bytes;
    } };
}
