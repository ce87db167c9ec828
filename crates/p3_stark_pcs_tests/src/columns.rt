//! Columns of numbers, and whether matrices are such.

ghost use Rattle.std.specs.Prelude.{◌≡◌, [], ◌∷◌, All, map};
ghost use Rattle.p3_fri_extensions.specs.Extension.{FitsDomain};

use crate::scheme::Domain;
use p3_field::{BabyBear, Field, TwoAdicMultiplicativeCoset};
use p3_matrix::RowMajorMatrix;
use std::alloc::Global;
use std::process::Abort;

/// A list of one value.
pub(crate) fn listed<T>(rt: &impl Abort, alloc: Global, value: T) -> Vec<T>
    ensures { result.items ≡ value ∷ [] }
{
    let mut values = Vec::new(alloc);
    values.push(value).expect(rt, "memory");
    values
}

/// The coset of this shift and of `2^log_size` points.
pub(crate) fn coset(rt: &impl Abort, shift: u64, log_size: usize) -> Domain {
    TwoAdicMultiplicativeCoset::new(BabyBear::from_u64(shift), log_size).expect(rt, "not a domain")
}

/// One column on the coset of this shift.
pub(crate) fn column(
    rt: &impl Abort,
    alloc: Global,
    shift: u64,
    numbers: &[u64],
) -> (Domain, RowMajorMatrix<BabyBear>)
    ensures { FitsDomain 27 1 result.0.log_size result.1 }
{
    let mut values = Vec::new(alloc);
    for number in numbers {
        values
            .push(BabyBear::from_u64(*number))
            .expect(rt, "memory");
    }
    let matrix = RowMajorMatrix::new(values, 1);
    let domain = coset(rt, shift, numbers.len().trailing_zeros() as usize);
    assert!(rt;
        matrix.height() == domain.size() && domain.log_size() <= 8,
        "not a column on its domain"
    );
    (domain, matrix)
}

/// Columns, each on the coset of its shift.
pub(crate) fn columns(
    rt: &impl Abort,
    alloc: Global,
    each: &[(u64, &[u64])],
) -> Vec<(Domain, RowMajorMatrix<BabyBear>)>
    ensures { All (λ e. FitsDomain 27 1 e.0.log_size e.1) result.items }
{
    let mut all = Vec::new(alloc);
    for (shift, numbers) in each {
        all.push(column(rt, alloc, *shift, *numbers))
            .expect(rt, "memory");
    }
    all
}

/// The domains of matrices.
pub(crate) fn domains_of(
    rt: &impl Abort,
    alloc: Global,
    evaluations: &[(Domain, RowMajorMatrix<BabyBear>)],
) -> Vec<Domain>
    ensures { result.items ≡ map (λ e. e.0) evaluations.now }
{
    let mut domains = Vec::new(alloc);
    for evaluation in evaluations {
        domains.push(evaluation.0).expect(rt, "memory");
    }
    domains
}

/// Whether the matrix is one column of these numbers.
pub(crate) fn is_column(matrix: &RowMajorMatrix<BabyBear>, numbers: &[u64]) -> bool {
    for (index, number) in numbers.iter().enumerate() {
        if matrix.get(index, 0) != Some(BabyBear::from_u64(*number)) {
            return false;
        }
    }
    matrix.height() == numbers.len() && matrix.width() == 1
}

/// Whether each of the matrices is.
pub(crate) fn are_columns(matrices: &[RowMajorMatrix<BabyBear>], each: &[&[u64]]) -> bool {
    for (matrix, numbers) in matrices.iter().zip(each) {
        if !is_column(matrix, *numbers) {
            return false;
        }
    }
    matrices.len() == each.len()
}
