//! What holds of every extension, as a call that does nothing and whose contract is a theorem.

ghost use Rattle.p3_dft.specs.CosetWords.{ExtensionsAreWords};

use p3_field_core::TwoAdicField;

/// What `coset_lde_batch` and then `bit_reverse_rows` give: in each column the coset word, in
/// bit-reversed order, of the one polynomial with as many coefficients as values were given that
/// has these values on the subgroup.
pub fn extensions_are_words_law<F: TwoAdicField>()
    ensures { ExtensionsAreWords F.ops F.root F.TWO_ADICITY }
{}
