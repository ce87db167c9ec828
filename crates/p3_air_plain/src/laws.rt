//! The law of plain forms, as a call that does nothing and whose contract is a theorem.

ghost use Rattle.p3_air.specs.declared.air.Air.{Air};
ghost use Rattle.p3_air_plain.specs.declared.forms.PlainAir.{PlainAir};
ghost use Rattle.p3_air_plain.specs.FormLaws.{IsDeterminedAir};

use p3_field_core::PrimeField64;

/// A plain form is that of one constraint system at most: its layout, its nodes and its constraints
/// are determined.
pub fn air_form_law<F: PrimeField64>()
    ensures { (form : PlainAir) (a b : Air F) → IsDeterminedAir F.canonical form a b }
{}
