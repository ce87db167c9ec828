//! From words over the evaluation coset to values on a domain.

ghost use Rattle.std.specs.Prelude.{◌≡◌, ◌≤◌, ◌<◌, ◌^◌, ◌↔◌, IsTrue, IfOk, length};
ghost use Rattle.std.specs.Int.{IsPowerOfTwo};
ghost use Rattle.p3_matrix.specs.Matrix.{rows};
ghost use Rattle.p3_fri_extensions.specs.Committed.{AreFirstValues, AreCommittedValues};

use crate::fitting::fit_to_domain;
use p3_dft::TwoAdicSubgroupDft;
use p3_field_core::{Field, TwoAdicField, TwoAdicMultiplicativeCoset, log2_strict_usize};
use p3_matrix::RowMajorMatrix;
use std::alloc::{AllocError, Global};

/// Whether two elements are equal.
fn is_same<F: Field>(a: F, b: F) -> bool
    ensures { IsTrue result ↔ (a ≡ b) }
{
    a == b
}

/// The first `2^log_size` rows in natural order: of words, the values on the smaller coset of the
/// same shift.
fn first_values<F: Field>(
    alloc: Global,
    words: &RowMajorMatrix<F>,
    log_size: usize,
) -> Result<RowMajorMatrix<F>, AllocError>
    requires log_size { log_size < 64 }
    requires within { 2 ^ log_size ≤ length (rows words.now) }
    ensures { IfOk result (AreFirstValues log_size words.now) }
{
    let (first, _) = words.split_rows(1 << log_size);
    Ok(first.to_row_major_matrix(alloc)?.bit_reverse_rows())
}

/// The values on `domain`, in natural order, of the polynomials whose words over the coset of the
/// shift `GENERATOR` are the columns of `words`, for words of a degree `2^log_blowup` times below
/// the height; of other words only the matrix's size is told. The height is a power of two within
/// the two-adicity. Rows are copied where the domain is the words' coset or one of its first
/// points; else one inverse transform, of as many rows as the degree, and one on the domain are
/// taken. A domain may be smaller than the degree.
pub fn evaluations_on_domain<F: TwoAdicField, Dft: TwoAdicSubgroupDft<F>>(
    dft: &Dft,
    alloc: Global,
    log_blowup: usize,
    domain: TwoAdicMultiplicativeCoset<F>,
    words: &RowMajorMatrix<F>,
) -> Result<RowMajorMatrix<F>, AllocError>
    requires power_of_two { IsPowerOfTwo (length (rows words.now)) }
    requires within_two_adicity { length (rows words.now) ≤ 2 ^ F.TWO_ADICITY }
    ensures { IfOk result (AreCommittedValues F.ops F.root F.GENERATOR log_blowup domain.shift
        domain.log_size words.now) }
{
    let log_height = log2_strict_usize(words.height());
    if is_same(domain.shift(), F::GENERATOR) && domain.log_size() <= log_height {
        return first_values(alloc, words, domain.log_size());
    }
    let log_degree = log_height.saturating_sub(log_blowup);
    let values = first_values(alloc, words, log_degree)?;
    let coefficients = dft.coset_idft_batch(alloc, values, F::GENERATOR)?;
    let fitted = fit_to_domain(coefficients, domain)?;
    dft.coset_dft_batch(alloc, fitted, domain.shift())
}
