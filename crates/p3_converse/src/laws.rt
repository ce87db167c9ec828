//! Laws, as calls that do nothing and whose contracts are theorems.

ghost use Rattle.algebra.specs.TwoAdic.{AreRoots};

use p3_field_core::{ExtensionField, TwoAdicField};

/// The roots of unity of a two-adic field, as elements of an extension, are roots of unity there.
/// So what `unfold` promises over every family of roots holds of the rows that the folding
/// strategy folds.
pub fn lifted_roots_law<F: TwoAdicField, EF: ExtensionField<F>>()
    ensures { AreRoots EF.ops F.TWO_ADICITY (λ k. EF.lift (F.root k)) }
{}
