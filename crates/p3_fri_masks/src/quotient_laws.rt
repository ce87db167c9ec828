//! What holds of every masked quotient, as a call that does nothing and whose contract is a
//! theorem.

ghost use Rattle.p3_fri_masks.specs.Recombination.{MaskedChunksRecombine};

use p3_field_core::{ExtensionField, TwoAdicField};

/// At each point of an extension, each column of the chunks recombines to what it did before the
/// chunks were masked: whatever the masks of the others, the last one makes up for them.
pub fn masked_quotients_law<F: TwoAdicField, EF: ExtensionField<F>>()
    ensures { MaskedChunksRecombine F.ops EF.ops EF.lift F.TWO_ADICITY F.root }
{}
