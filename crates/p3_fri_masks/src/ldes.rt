//! The words that a hiding scheme commits to for the chunks of a quotient.

ghost use Rattle.std.specs.Prelude.{◌≡◌, ◌+◌, IfOk, map, slice_index_or};
ghost use Rattle.algebra.specs.Nested.{lists};
ghost use Rattle.p3_matrix.specs.Matrix.{rows, matrix_width};
ghost use Rattle.p3_fri_masks.specs.QuotientDraws.{chunks_with_random_columns};
ghost use Rattle.p3_fri_masks.specs.MaskedChunks.{FitMasks, HoldMaskedChunks};
ghost use Rattle.p3_fri_masks.specs.QuotientLdes.{CanBeMasked, AreMaskedChunks};
ghost use Rattle.p3_fri_masks.specs.QuotientLdes.{masks_drawn, past_masks};

use crate::extension::masked_extension;
use crate::masks::quotient_masks;
use crate::quotient_draws::chunks_with_random_cols;
use p3_dft::TwoAdicSubgroupDft;
use p3_field_core::{SampleField, TwoAdicField, TwoAdicMultiplicativeCoset};
use p3_matrix::RowMajorMatrix;
use rand_core::Rng;
use std::alloc::{AllocError, Global};

/// The chunks with `count` random columns on the right, and their masks, for which the generator's
/// words come after those of the columns.
fn draw_masks<F: TwoAdicField + SampleField, R: Rng>(
    alloc: Global,
    chunks: &[(TwoAdicMultiplicativeCoset<F>, RowMajorMatrix<F>)],
    count: usize,
    rng: &mut R,
) -> Result<(Vec<RowMajorMatrix<F>>, Vec<Vec<F>>), AllocError>
    requires { CanBeMasked F.ops (λ d. d.shift) (λ d. d.log_size) F.TWO_ADICITY 0 chunks.now }
    ensures rows { IfOk result (λ drawn. map rows drawn.0.items ≡ chunks_with_random_columns
        F.from_word count (map (λ e. rows e.1) chunks.now) (R.stream rng.old)) }
    ensures widths { IfOk result (λ drawn. map matrix_width drawn.0.items
        ≡ map (λ e. matrix_width e.1 + count) chunks.now) }
    ensures masks { IfOk result (λ drawn. lists drawn.1.items
        ≡ masks_drawn F.ops (λ d. d.shift) (λ d. d.log_size) F.from_word count chunks.now
        (R.stream rng.old)) }
    ensures past { IfOk result (λ _. R.stream rng.new
        ≡ past_masks (λ d. d.log_size) count chunks.now (R.stream rng.old)) }
{
    let wider = chunks_with_random_cols(alloc, chunks, count, rng)?;
    let Some(size) = wider[0].height().checked_mul(wider[0].width()) else {
        return Err(AllocError);
    };
    let masks = quotient_masks(alloc, chunks, size, rng)?;
    Ok((wider, masks))
}

/// The words of these matrices, each with its mask, on the domains of the chunks.
fn masked_extensions<F: TwoAdicField, Dft: TwoAdicSubgroupDft<F>>(
    dft: &Dft,
    alloc: Global,
    log_blowup: usize,
    chunks: &[(TwoAdicMultiplicativeCoset<F>, RowMajorMatrix<F>)],
    wider: Vec<RowMajorMatrix<F>>,
    masks: &[Vec<F>],
) -> Result<Vec<RowMajorMatrix<F>>, AllocError>
    requires { FitMasks F.TWO_ADICITY log_blowup
        (slice_index_or (map (λ e. e.0.log_size) chunks.now) 0 0)
        (slice_index_or (map matrix_width wider.items) 0 0)
        (map (λ e. e.0.log_size) chunks.now) wider.items (lists masks.now) }
    ensures { IfOk result (λ ldes. HoldMaskedChunks F.ops F.root
        (slice_index_or (map (λ e. e.0.log_size) chunks.now) 0 0) F.GENERATOR log_blowup
        (map (λ e. e.0.shift) chunks.now) (slice_index_or (map matrix_width wider.items) 0 0)
        (map rows wider.items) (lists masks.now) ldes.items) }
{
    let mut ldes = Vec::with_capacity(alloc, wider.len())?;
    for chunk in wider {
        let index = ldes.len();
        let domain = chunks[index].0;
        let words = masked_extension(dft, alloc, log_blowup, domain, chunk, &masks[index])?;
        ldes.push(words)?;
    }
    Ok(ldes)
}

/// The words that are committed to for these chunks of a quotient, each of the values of its
/// columns on the domain beside it. Each chunk gets `num_random_codewords` random columns on the
/// right and a mask, and its words stand over the coset of the shift `GENERATOR` that is
/// `2^(1 + log_blowup)` times as large as its domain, in bit-reversed order. Drawn are the random
/// columns of one chunk after another, row by row, and then the masks of all but the last, row by
/// row.
pub fn quotient_ldes<F: TwoAdicField + SampleField, Dft: TwoAdicSubgroupDft<F>, R: Rng>(
    dft: &Dft,
    alloc: Global,
    log_blowup: usize,
    chunks: Vec<(TwoAdicMultiplicativeCoset<F>, RowMajorMatrix<F>)>,
    num_random_codewords: usize,
    rng: &mut R,
) -> Result<Vec<RowMajorMatrix<F>>, AllocError>
    requires { CanBeMasked F.ops (λ d. d.shift) (λ d. d.log_size) F.TWO_ADICITY log_blowup
        chunks.items }
    ensures ldes { IfOk result (λ ldes. AreMaskedChunks F.ops (λ d. d.shift) (λ d. d.log_size)
        F.from_word num_random_codewords chunks.items (R.stream rng.old) F.root F.GENERATOR
        log_blowup ldes.items) }
    ensures past { IfOk result (λ _. R.stream rng.new
        ≡ past_masks (λ d. d.log_size) num_random_codewords chunks.items (R.stream rng.old)) }
{
    let (wider, masks) = draw_masks(alloc, &chunks, num_random_codewords, rng)?;
    masked_extensions(dft, alloc, log_blowup, &chunks, wider, &masks)
}
