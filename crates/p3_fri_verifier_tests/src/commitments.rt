//! Commitments and openings by any scheme, where their conditions hold.

ghost use Rattle.std.specs.Prelude.{◌≡◌};
ghost use Rattle.p3_mmcs.specs.Batch.{dimensions_of};

use p3_matrix::{Dimensions, RowMajorMatrix};
use p3_mmcs::{Mmcs, have_power_heights, indices_are_below};
use std::alloc::Global;
use std::process::Abort;

/// The dimensions of these matrices.
fn dimensions<T: Copy>(
    rt: &impl Abort,
    alloc: Global,
    matrices: &[RowMajorMatrix<T>],
) -> Vec<Dimensions>
    ensures { result.items ≡ dimensions_of matrices.now }
{
    let mut all = Vec::new(alloc);
    for matrix in matrices {
        all.push(matrix.dimensions()).expect(rt, "memory");
    }
    all
}

/// The commitment to matrices.
pub(crate) fn committed<T: Copy, M: Mmcs<T>>(
    rt: &impl Abort,
    alloc: Global,
    scheme: &M,
    matrices: Vec<RowMajorMatrix<T>>,
) -> (M::Commitment, M::ProverData) {
    let all = dimensions(rt, alloc, matrices.as_slice());
    if !have_power_heights(all.as_slice()) {
        panic!(rt; "heights");
    }
    scheme.commit(alloc, matrices).expect(rt, "memory")
}

/// What is opened at these indices.
pub(crate) fn opened<T: Copy, M: Mmcs<T>>(
    rt: &impl Abort,
    alloc: Global,
    scheme: &M,
    data: &M::ProverData,
    indices: &[usize],
) -> (Vec<Vec<Vec<T>>>, M::MultiProof) {
    let greatest = scheme.get_max_height(data);
    assert!(rt; indices_are_below(indices, greatest), "indices");
    scheme
        .open_multi_batch(alloc, indices, data)
        .expect(rt, "memory")
}

/// The matrix of these values, `width` to a row.
pub(crate) fn matrix_of<T: Copy>(
    rt: &impl Abort,
    values: Vec<T>,
    width: usize,
) -> RowMajorMatrix<T> {
    assert!(rt; width > 0 && values.len() % width == 0, "not rows");
    RowMajorMatrix::new(values, width)
}
