//! The words of a masked chunk.

ghost use Rattle.std.specs.Prelude.{◌≡◌, ◌≤◌, ◌+◌, ◌-◌, ◌*◌, ◌^◌, ◌++◌, IfOk, OnOk, length, map};
ghost use Rattle.std.specs.Prelude.{replicate};
ghost use Rattle.algebra.specs.RecombinedQuotients.{masked_chunk};
ghost use Rattle.p3_matrix.specs.Matrix.{rows, matrix_width};
ghost use Rattle.p3_fri_masks.specs.MaskedChunks.{HoldsMaskedChunk};

use crate::masks::add_scaled;
use p3_dft::TwoAdicSubgroupDft;
use p3_field_core::{Field, TwoAdicField, TwoAdicMultiplicativeCoset};
use p3_matrix::RowMajorMatrix;
use std::alloc::{AllocError, Global};

/// Adds to the list the factor times each of the others.
fn push_scaled<F: Field>(values: &mut Vec<F>, factor: F, others: &[F]) -> Result<(), AllocError>
    ensures { OnOk result (values.new.items ≡ values.old.items
        ++ map (λ a. F.ops.mul factor a) others.now) }
{
    let prepared = factor.prepare();
    for other in others {
        values.push(other.times(prepared))?;
    }
    Ok(())
}

/// The coefficients of a chunk's polynomials with its mask, `q + Z t`, row after row, and zeros up
/// to `size`. The domain is the chunk's, and the mask has as many coefficients.
fn masked_coefficients<F: TwoAdicField>(
    coefficients: Vec<F>,
    mask: &[F],
    domain: TwoAdicMultiplicativeCoset<F>,
    size: usize,
) -> Result<Vec<F>, AllocError>
    requires same { length coefficients.items ≡ length mask.now }
    requires room { length mask.now + length mask.now ≤ size }
    ensures { IfOk result (λ masked. masked.items
        ≡ masked_chunk F.ops domain.shift domain.log_size coefficients.items mask.now
        ++ replicate (size - (length mask.now + length mask.now)) F.ops.zero) }
{
    let mut masked = coefficients;
    masked.reserve(size - masked.len())?;
    add_scaled(&mut masked, -F::ONE, mask);
    let factor = domain.shift().inverse().exp_power_of_2(domain.log_size());
    push_scaled(&mut masked, factor, mask)?;
    masked.resize(size, F::ZERO)?;
    Ok(masked)
}

/// The words of a chunk with its mask over the coset of the shift `GENERATOR`, of a size
/// `2^(1 + log_blowup)` times the chunk's, in bit-reversed order. The chunk is as high as its
/// domain, the mask has a coefficient for each of its entries, and the larger coset lies within the
/// two-adicity.
pub fn masked_extension<F: TwoAdicField, Dft: TwoAdicSubgroupDft<F>>(
    dft: &Dft,
    alloc: Global,
    log_blowup: usize,
    domain: TwoAdicMultiplicativeCoset<F>,
    chunk: RowMajorMatrix<F>,
    mask: &[F],
) -> Result<RowMajorMatrix<F>, AllocError>
    requires height { length (rows chunk) ≡ 2 ^ domain.log_size }
    requires mask { length mask.now ≡ 2 ^ domain.log_size * matrix_width chunk }
    requires within { domain.log_size + 1 + log_blowup ≤ F.TWO_ADICITY }
    ensures { IfOk result (HoldsMaskedChunk F.ops F.root domain.log_size F.GENERATOR log_blowup
        domain.shift (matrix_width chunk) (rows chunk) mask.now) }
{
    let width = chunk.width();
    let log_twice = domain.log_size() + 1;
    let log_words = log_twice + log_blowup;
    let Some(size) = width.checked_mul(1 << log_words) else {
        return Err(AllocError);
    };
    let coefficients = dft.coset_idft_batch(alloc, chunk, domain.shift())?;
    let masked = masked_coefficients(coefficients.into_values(), mask, domain, size)?;
    let padded = RowMajorMatrix::new(masked, width);
    let words = dft.coset_dft_batch(alloc, padded, F::GENERATOR)?;
    Ok(words.bit_reverse_rows())
}
