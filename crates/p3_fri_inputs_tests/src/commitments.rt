//! Commitments and what they open by any scheme, where its conditions hold.

ghost use Rattle.std.specs.Prelude.{◌≡◌};
ghost use Rattle.p3_mmcs.specs.Batch.{dimensions_of};

use p3_matrix::{Dimensions, RowMajorMatrix};
use p3_mmcs::{Mmcs, have_power_heights, indices_are_below};
use std::alloc::Global;
use std::process::Abort;

/// The dimensions of these matrices.
fn dimensions<T: Copy>(
    rt: &impl Abort,
    alloc: Global,
    matrices: &[RowMajorMatrix<T>],
) -> Vec<Dimensions>
    ensures { result.items ≡ dimensions_of matrices.now }
{
    let mut all = Vec::new(alloc);
    for matrix in matrices {
        all.push(matrix.dimensions()).expect(rt, "memory");
    }
    all
}

/// The commitment to matrices, with the rows that it opens at these indices and their proof.
pub(crate) fn commit_and_open<T: Copy, M: Mmcs<T>>(
    rt: &impl Abort,
    alloc: Global,
    scheme: &M,
    matrices: Vec<RowMajorMatrix<T>>,
    indices: &[usize],
) -> (M::Commitment, Vec<Vec<Vec<T>>>, M::MultiProof) {
    let all = dimensions(rt, alloc, matrices.as_slice());
    if !have_power_heights(all.as_slice()) {
        panic!(rt; "heights");
    }
    let (commitment, data) = scheme.commit(alloc, matrices).expect(rt, "memory");
    let greatest = scheme.get_max_height(&data);
    assert!(rt; indices_are_below(indices, greatest), "indices");
    let (rows, proof) = scheme
        .open_multi_batch(alloc, indices, &data)
        .expect(rt, "memory");
    (commitment, rows, proof)
}

/// The matrix of these values, `width` to a row.
pub(crate) fn matrix_of<T: Copy>(
    rt: &impl Abort,
    values: Vec<T>,
    width: usize,
) -> RowMajorMatrix<T> {
    assert!(rt; width > 0 && values.len() % width == 0, "not rows");
    RowMajorMatrix::new(values, width)
}
