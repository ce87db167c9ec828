//! Matrices with rows of zeros between their rows. Preprocessing is public, and is committed so.

ghost use Rattle.std.specs.Prelude.{◌≡◌, IfOk};
ghost use Rattle.std.specs.List.{AllZip};
ghost use Rattle.p3_fri_masks.specs.Padded.{IsPadded};

use crate::halves::halve_rows;
use p3_field_core::{Field, TwoAdicField, TwoAdicMultiplicativeCoset};
use p3_matrix::RowMajorMatrix;
use std::alloc::{AllocError, Global};

/// The matrix of twice the height: row `2 * i` is row `i`, and row `2 * i + 1` is zero.
pub fn pad<F: Field>(
    alloc: Global,
    matrix: &RowMajorMatrix<F>,
) -> Result<RowMajorMatrix<F>, AllocError>
    ensures { IfOk result (IsPadded F.ops.zero matrix.now) }
{
    let width = matrix.width();
    let wider = matrix.with_zero_cols(alloc, width)?;
    Ok(halve_rows(wider, width))
}

/// Each of these matrices padded, in order, beside its domain. The domain of a matrix has twice as
/// many points as the matrix has rows.
pub fn pad_each<F: TwoAdicField>(
    alloc: Global,
    evaluations: Vec<(TwoAdicMultiplicativeCoset<F>, RowMajorMatrix<F>)>,
) -> Result<Vec<(TwoAdicMultiplicativeCoset<F>, RowMajorMatrix<F>)>, AllocError>
    ensures { IfOk result (λ padded. AllZip
        (λ p e. (p.0 ≡ e.0) × IsPadded F.ops.zero e.1 p.1) padded.items evaluations.items) }
{
    let mut padded = Vec::with_capacity(alloc, evaluations.len())?;
    for (domain, matrix) in evaluations {
        padded.push((domain, pad(alloc, &matrix)?))?;
    }
    Ok(padded)
}
