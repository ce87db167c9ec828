//! Each call at a concrete type through its bound, and what is asked of outside values.

ghost use Rattle.std.specs.Prelude.{◌≡◌};
ghost use Rattle.p3_mmcs.specs.Batch.{dimensions_of};

use p3_field::{BabyBear, BabyBear4, ExtensionField, Field};
use p3_matrix::{Dimensions, RowMajorMatrix};
use p3_mmcs::{
    GrindingSites, Mmcs, Sha256Mmcs, Sha256MmcsError, have_power_heights, indices_are_below,
    max_height,
};
use std::alloc::Global;
use std::process::Abort;

/// What verification answers.
pub(crate) type Verdict = Result<(), Sha256MmcsError>;

/// The element of this number.
pub(crate) fn element(number: u64) -> BabyBear {
    BabyBear::from_u64(number)
}

/// The dimensions of these matrices.
fn dimensions<T: Copy>(
    rt: &impl Abort,
    alloc: Global,
    matrices: &[RowMajorMatrix<T>],
) -> Vec<Dimensions>
    ensures { result.items ≡ dimensions_of matrices.now }
{
    let mut all = Vec::new(alloc);
    for matrix in matrices {
        all.push(matrix.dimensions()).expect(rt, "memory");
    }
    all
}

/// The opening at these indices, which are below the greatest height.
fn opening_at<T: Copy, M: Mmcs<T>>(
    rt: &impl Abort,
    alloc: Global,
    scheme: &M,
    data: &M::ProverData,
    indices: &[usize],
) -> (Vec<Vec<Vec<T>>>, M::MultiProof) {
    assert!(rt; indices_are_below(indices, scheme.get_max_height(data)));
    let opening = scheme.open_multi_batch(alloc, indices, data);
    opening.expect(rt, "memory")
}

/// The commitment to matrices whose heights are powers of two, with their greatest height and their
/// number, their dimensions, and the opening at these indices.
pub(crate) fn opened<T: Copy, M: Mmcs<T>>(
    rt: &impl Abort,
    alloc: Global,
    scheme: &M,
    matrices: Vec<RowMajorMatrix<T>>,
    indices: &[usize],
) -> (
    (M::Commitment, usize, usize),
    Vec<Dimensions>,
    Vec<Vec<Vec<T>>>,
    M::MultiProof,
) {
    let all = dimensions(rt, alloc, &matrices);
    assert!(rt; have_power_heights(&all));
    let (commitment, data) = scheme.commit(alloc, matrices).expect(rt, "memory");
    let known = (
        commitment,
        scheme.get_max_height(&data),
        scheme.get_matrices(&data).len(),
    );
    let (rows, proof) = opening_at(rt, alloc, scheme, &data, indices);
    (known, all, rows, proof)
}

/// What verification answers. Its conditions hold.
pub(crate) fn verdict_on<T: Copy, M: Mmcs<T>>(
    rt: &impl Abort,
    scheme: &M,
    commitment: &M::Commitment,
    dimensions: &[Dimensions],
    indices: &[usize],
    opened_values: &[Vec<Vec<T>>],
    proof: &M::MultiProof,
) -> Result<(), M::Error> {
    assert!(rt; have_power_heights(dimensions));
    assert!(rt; indices_are_below(indices, max_height(dimensions)));
    scheme.verify_multi_batch(commitment, dimensions, indices, opened_values, proof)
}

/// The commitment to one matrix, and what verification answers on its opening at this index.
fn commit_and_verify<T: Copy, M: Mmcs<T>>(
    rt: &impl Abort,
    alloc: Global,
    scheme: &M,
    matrix: RowMajorMatrix<T>,
    index: usize,
) -> (M::Commitment, Result<(), M::Error>) {
    let all = [matrix.dimensions()];
    assert!(rt; have_power_heights(&all));
    let (commitment, data) = scheme.commit_matrix(alloc, matrix).expect(rt, "memory");
    let (rows, proof) = opening_at(rt, alloc, scheme, &data, &[index]);
    let verdict = verdict_on(rt, scheme, &commitment, &all, &[index], &rows, &proof);
    (commitment, verdict)
}

/// The element with these coefficients.
fn extension_element(coefficients: [u64; 4]) -> BabyBear4 {
    BabyBear4::from_coefficients(&coefficients.map(element))
}

/// The root over two elements of the extension, computed with the hashlib module of Python's
/// standard library from the rules of the format.
static ROOT_OF_EXTENSION: [u8; 32] = [
    0x82, 0x64, 0x05, 0x6d, 0xbf, 0x91, 0xf9, 0xe5, 0x0c, 0xab, 0x4b, 0xca, 0x66, 0x8f, 0x3a, 0xae,
    0x22, 0xcd, 0xd7, 0x7e, 0x6a, 0xcf, 0x2b, 0x7e, 0xbe, 0xac, 0x4e, 0xf6, 0xee, 0x65, 0x62, 0xa1,
];

#[test]
fn commits_to_one_matrix(rt: HostRuntime) {
    let alloc = rt.alloc();
    let values = [[1, 2, 3, 4], [5, 6, 7, 2_013_265_918]].map(extension_element);
    let matrix = RowMajorMatrix::new(values.to_vec(alloc).expect(&rt, "memory"), 1);
    let found = commit_and_verify(&rt, alloc, &Sha256Mmcs::new(), matrix, 1);
    assert!(rt; found == (ROOT_OF_EXTENSION, Ok(())));
}

/// Dimensions of these heights.
fn of_heights(first: usize, second: usize) -> [Dimensions; 2] {
    [first, second].map(|height| Dimensions { width: 1, height })
}

#[test]
fn conditions_of_outside_values(rt: HostRuntime) {
    let four_and_two = of_heights(4, 2);
    let heights = (
        have_power_heights(&[]),
        have_power_heights(&four_and_two),
        have_power_heights(&of_heights(4, 3)),
        have_power_heights(&of_heights(4, 0)),
    );
    assert!(rt; heights == (true, true, false, false));
    assert!(rt; (max_height(&[]), max_height(&four_and_two)) == (1, 4));
    let below = (
        indices_are_below(&[3, 0, 3], 4),
        indices_are_below(&[3, 4, 0], 4),
    );
    assert!(rt; below == (true, false));
    assert!(rt; GrindingSites::NONE.batch_combination == 0);
}
