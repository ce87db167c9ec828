//! Low-degree extensions of matrices, and the commitment to them.

ghost use Rattle.std.specs.Prelude.{◌≡◌, All, IfOk};
ghost use Rattle.std.specs.List.{AllZip};
ghost use Rattle.p3_fri_extensions.specs.Extension.{FitsDomain, IsLowDegreeExtension};

use p3_dft::TwoAdicSubgroupDft;
use p3_field_core::{TwoAdicField, TwoAdicMultiplicativeCoset};
use p3_matrix::RowMajorMatrix;
use p3_mmcs::Mmcs;
use std::alloc::{AllocError, Global};

/// For each column of `values` the polynomial with as many coefficients that has these values on
/// the domain, evaluated on the coset of the shift `GENERATOR` of a size `2^log_blowup` times as
/// large, in bit-reversed order. The matrix is as high as the domain is large, and the larger coset
/// lies within the two-adicity.
pub fn extend<F: TwoAdicField, Dft: TwoAdicSubgroupDft<F>>(
    dft: &Dft,
    alloc: Global,
    log_blowup: usize,
    domain: TwoAdicMultiplicativeCoset<F>,
    values: RowMajorMatrix<F>,
) -> Result<RowMajorMatrix<F>, AllocError>
    requires fits { FitsDomain F.TWO_ADICITY log_blowup domain.log_size values }
    ensures { IfOk result (IsLowDegreeExtension F.ops F.root F.GENERATOR log_blowup domain.shift
        domain.log_size values) }
{
    let shift = F::GENERATOR * domain.shift().inverse();
    let extended = dft.coset_lde_batch(alloc, values, log_blowup, shift)?;
    Ok(extended.bit_reverse_rows())
}

/// The extensions of these matrices, each from the domain beside it.
pub fn extend_each<F: TwoAdicField, Dft: TwoAdicSubgroupDft<F>>(
    dft: &Dft,
    alloc: Global,
    log_blowup: usize,
    evaluations: Vec<(TwoAdicMultiplicativeCoset<F>, RowMajorMatrix<F>)>,
) -> Result<Vec<RowMajorMatrix<F>>, AllocError>
    requires fits { All (λ e. FitsDomain F.TWO_ADICITY log_blowup e.0.log_size e.1)
        evaluations.items }
    ensures words { IfOk result (λ words. AllZip (λ matrix e. IsLowDegreeExtension F.ops F.root
        F.GENERATOR log_blowup e.0.shift e.0.log_size e.1 matrix)
        words.items evaluations.items) }
{
    let mut words = Vec::with_capacity(alloc, evaluations.len())?;
    for (domain, values) in evaluations {
        words.push(extend(dft, alloc, log_blowup, domain, values)?)?;
    }
    Ok(words)
}

/// Commits to the extensions of these matrices, each from the domain beside it.
pub fn commit_evaluations<F: TwoAdicField, Dft: TwoAdicSubgroupDft<F>, M: Mmcs<F>>(
    dft: &Dft,
    mmcs: &M,
    alloc: Global,
    log_blowup: usize,
    evaluations: Vec<(TwoAdicMultiplicativeCoset<F>, RowMajorMatrix<F>)>,
) -> Result<(M::Commitment, M::ProverData), AllocError>
    requires fits { All (λ e. FitsDomain F.TWO_ADICITY log_blowup e.0.log_size e.1)
        evaluations.items }
    ensures words { IfOk result (λ pair. AllZip (λ matrix e. IsLowDegreeExtension F.ops F.root
        F.GENERATOR log_blowup e.0.shift e.0.log_size e.1 matrix)
        (M.committed pair.1) evaluations.items) }
    ensures commitment { IfOk result (λ pair. M.commitment_of pair.1 ≡ pair.0) }
{
    let words = extend_each(dft, alloc, log_blowup, evaluations)?;
    mmcs.commit(alloc, words)
}
