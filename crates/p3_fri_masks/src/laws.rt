//! What holds of masked and of padded matrices, as calls that do nothing and whose contracts are
//! theorems.

ghost use Rattle.std.specs.Prelude.{◌<◌, ℕ};
ghost use Rattle.p3_fri_masks.specs.KeptRows.{MaskedRowsByIndex, PaddedRowsByIndex};
ghost use Rattle.p3_fri_masks.specs.KeptValues.{IsHalved};
ghost use Rattle.p3_fri_masks.specs.KeptValues.{MaskedColumnsKeepValues, PaddedColumnsKeepValues};

use p3_field_core::TwoAdicField;

/// Row by row, what a masked and a padded matrix hold.
pub fn rows_by_index_law<T>()
    ensures masked { MaskedRowsByIndex T }
    ensures padded { PaddedRowsByIndex T }
{}

/// The points of a domain at even indices are those of the domain of half the size with the same
/// shift. There the polynomials of a masked or padded matrix have the values of the matrix, and at
/// the other points those of a padded one are zero.
pub fn values_kept_law<F: TwoAdicField>()
    ensures halved { (shift : F) (k : ℕ) → k < F.TWO_ADICITY → IsHalved F.ops F.root shift k }
    ensures masked { MaskedColumnsKeepValues F.ops F.root F.TWO_ADICITY }
    ensures padded { PaddedColumnsKeepValues F.ops F.root F.TWO_ADICITY }
{}
