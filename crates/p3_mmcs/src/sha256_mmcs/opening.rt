//! What an opening consists of.

ghost use Rattle.std.specs.Prelude.{◌≡◌, ◌<◌, ◌+◌, ◌*◌, ◌^◌, ℕ, List, length, map, All, IfOk};
ghost use Rattle.algebra.specs.Nested.{lists, nested};
ghost use Rattle.p3_mmcs.specs.Batch.{max_height, HavePowerHeights, dimensions_of, opened_rows};
ghost use Rattle.p3_mmcs.specs.Tree.{path_of};
ghost use Rattle.p3_mmcs.specs.Digests.{IsTree};

use super::tree::path;
use p3_field_core::ElementBytes;
use p3_matrix::RowMajorMatrix;
use std::alloc::{AllocError, Global};

/// The row of each matrix that `index` opens. `height` is the greatest height of the matrices.
fn rows_at<T: ElementBytes>(
    alloc: Global,
    matrices: &[RowMajorMatrix<T>],
    height: usize,
    index: usize,
) -> Result<Vec<Vec<T>>, AllocError>
    requires heights { HavePowerHeights (dimensions_of matrices.now) }
    requires greatest { height ≡ max_height (dimensions_of matrices.now) }
    requires below { index < height }
    ensures { IfOk result (λ set. lists set.items ≡ opened_rows matrices.now index) }
{
    let mut set = Vec::with_capacity(alloc, matrices.len())?;
    for matrix in matrices {
        let row = matrix.row(index / (height / matrix.height()));
        set.push(Vec::from_slice(alloc, row)?)?;
    }
    Ok(set)
}

/// The same for each of these indices.
pub(super) fn rows_at_each<T: ElementBytes>(
    alloc: Global,
    matrices: &[RowMajorMatrix<T>],
    height: usize,
    indices: &[usize],
) -> Result<Vec<Vec<Vec<T>>>, AllocError>
    requires heights { HavePowerHeights (dimensions_of matrices.now) }
    requires greatest { height ≡ max_height (dimensions_of matrices.now) }
    requires below { All (λ i. i < height) indices.now }
    ensures { IfOk result (λ sets. nested sets.items ≡ map (opened_rows matrices.now) indices.now) }
{
    let mut sets = Vec::with_capacity(alloc, indices.len())?;
    for index in indices {
        sets.push(rows_at(alloc, matrices, height, *index)?)?;
    }
    Ok(sets)
}

/// The path of each of these indices in a tree of `2^log_height` leaves.
pub(super) fn paths_at_each(
    alloc: Global,
    digests: &[[u8; 32]],
    log_height: usize,
    indices: &[usize],
) -> Result<Vec<Vec<[u8; 32]>>, AllocError>
    requires len { length digests.now + 1 ≡ 2 * 2 ^ log_height }
    requires below { All (λ i. i < 2 ^ log_height) indices.now }
    ensures { IfOk result (λ paths.
        (leaves : ℕ → List ℕ) → IsTree leaves (2 ^ log_height) digests.now →
        lists paths.items ≡ map (path_of leaves log_height) indices.now) }
{
    let mut paths = Vec::with_capacity(alloc, indices.len())?;
    for index in indices {
        paths.push(path(alloc, digests, log_height, *index)?)?;
    }
    Ok(paths)
}
