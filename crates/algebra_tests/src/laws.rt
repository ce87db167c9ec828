//! A law, as a call that does nothing and whose contract is a theorem.

ghost use Rattle.algebra_tests.specs.ValueAtZero.{ValuesAtZero};

use p3_field::{ExtensionField, TwoAdicField};

/// Zero lies off every coset, where the barycentric sum of a polynomial's values is the coefficient
/// of one.
pub fn value_at_zero_law<F: TwoAdicField, EF: ExtensionField<F>>()
    ensures { ValuesAtZero F.ops EF.ops EF.lift F.TWO_ADICITY F.root }
{}
