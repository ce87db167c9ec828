//! The digests of a tree, and the paths through it.

ghost use Rattle.std.specs.Prelude.{◌≡◌, ◌<◌, ◌+◌, ◌*◌, ◌^◌, ℕ, List, [], length, slice_index_or};
ghost use Rattle.std.specs.Prelude.{IfOk};
ghost use Rattle.p3_mmcs.specs.Batch.{max_height, HavePowerHeights, dimensions_of};
ghost use Rattle.algebra.specs.Polynomial.{tabulate};
ghost use Rattle.p3_mmcs.specs.Encoding.{rows_length};
ghost use Rattle.p3_mmcs.specs.Tree.{leaf_at, path_of, sibling_of};
ghost use Rattle.p3_mmcs.specs.Digests.{IsTree};

use super::digests::{
    leaf_digest_at, leaf_digest_through, leaf_digests_of_eight, node_digest, node_digests_of_eight,
};
use super::encoding::leaf_len;
use p3_field_core::ElementBytes;
use p3_matrix::RowMajorMatrix;
use std::alloc::{AllocError, Global};

/// The leaves of the tree over these matrices, one by one.
fn leaves_one_by_one<T: ElementBytes>(
    alloc: Global,
    matrices: &[RowMajorMatrix<T>],
    height: usize,
) -> Result<Vec<[u8; 32]>, AllocError>
    requires heights { HavePowerHeights (dimensions_of matrices.now) }
    requires greatest { height ≡ max_height (dimensions_of matrices.now) }
    ensures { IfOk result (λ digests.
        digests.items ≡ tabulate height (leaf_at T.bytes matrices.now)) }
{
    let mut digests = Vec::with_capacity(alloc, height + (height - 1))?;
    for index in 0..height {
        digests.push(leaf_digest_at(matrices, height, index))?;
    }
    Ok(digests)
}

/// The same, eight at a time where there are as many, by way of a buffer for eight leaves of `len`
/// bytes.
fn leaves_by_eights<T: ElementBytes>(
    alloc: Global,
    matrices: &[RowMajorMatrix<T>],
    height: usize,
    len: usize,
) -> Result<Vec<[u8; 32]>, AllocError>
    requires heights { HavePowerHeights (dimensions_of matrices.now) }
    requires greatest { height ≡ max_height (dimensions_of matrices.now) }
    requires len { len ≡ 1 + rows_length T.LEN (dimensions_of matrices.now) }
    requires fits { 8 * len < 2 ^ 64 }
    ensures { IfOk result (λ digests.
        digests.items ≡ tabulate height (leaf_at T.bytes matrices.now)) }
{
    let mut digests = Vec::with_capacity(alloc, height + (height - 1))?;
    let mut buffer = vec![in alloc; 0u8; 8 * len]?;
    let messages = buffer.as_mut_slice();
    let groups = height / 8;
    for group in 0..groups {
        let eight = leaf_digests_of_eight(messages, len, matrices, height, 8 * group);
        digests.extend_from_slice(eight.as_slice())?;
    }
    let message = &mut messages[..len];
    for index in 8 * groups..height {
        digests.push(leaf_digest_through(message, matrices, height, index))?;
    }
    Ok(digests)
}

/// The leaves of the tree over these matrices, of which `height` is the greatest height, in a
/// vector with room for the whole tree.
fn leaves<T: ElementBytes>(
    alloc: Global,
    matrices: &[RowMajorMatrix<T>],
    height: usize,
) -> Result<Vec<[u8; 32]>, AllocError>
    requires heights { HavePowerHeights (dimensions_of matrices.now) }
    requires greatest { height ≡ max_height (dimensions_of matrices.now) }
    ensures { IfOk result (λ digests.
        digests.items ≡ tabulate height (leaf_at T.bytes matrices.now)) }
{
    match leaf_len(matrices) {
        Some(len) => leaves_by_eights(alloc, matrices, height, len),
        None => leaves_one_by_one(alloc, matrices, height),
    }
}

/// Puts the parents of all neighbours after these leaves, eight at a time while they don't depend
/// on one another.
fn push_parents(digests: &mut Vec<[u8; 32]>, height: usize) -> Result<(), AllocError>
    requires some { 0 < height }
    requires leaves { length digests.old.items ≡ height }
    ensures { IfOk result (λ _.
        IsTree (λ i. slice_index_or digests.old.items i []) height digests.new.items) }
{
    let groups = (height / 8).max(1) - 1;
    for group in 0..groups {
        let eight = node_digests_of_eight(&digests[16 * group..16 * group + 16]);
        digests.extend_from_slice(eight.as_slice())?;
    }
    for pair in 8 * groups..height - 1 {
        let parent = node_digest(&digests[2 * pair], &digests[2 * pair + 1]);
        digests.push(parent)?;
    }
    Ok(())
}

/// The digests of the tree over these matrices, of which `height` is the greatest height: the
/// leaves, then each layer above them, down to the root.
pub(super) fn tree_digests<T: ElementBytes>(
    alloc: Global,
    matrices: &[RowMajorMatrix<T>],
    height: usize,
) -> Result<Vec<[u8; 32]>, AllocError>
    requires heights { HavePowerHeights (dimensions_of matrices.now) }
    requires greatest { height ≡ max_height (dimensions_of matrices.now) }
    ensures { IfOk result (λ digests. IsTree (leaf_at T.bytes matrices.now) height digests.items) }
{
    let mut digests = leaves(alloc, matrices, height)?;
    push_parents(&mut digests, height)?;
    Ok(digests)
}

/// The siblings on the way from the leaf at `index` to the root, of a tree of `2^log_height`
/// leaves.
pub(super) fn path(
    alloc: Global,
    digests: &[[u8; 32]],
    log_height: usize,
    index: usize,
) -> Result<Vec<[u8; 32]>, AllocError>
    requires len { length digests.now + 1 ≡ 2 * 2 ^ log_height }
    requires below { index < 2 ^ log_height }
    ensures { IfOk result (λ path.
        (leaves : ℕ → List ℕ) → IsTree leaves (2 ^ log_height) digests.now →
        path.items ≡ path_of leaves log_height index) }
{
    let height = digests.len() / 2 + 1;
    let mut path = Vec::with_capacity(alloc, log_height)?;
    let mut at = index;
    for _level in 0..log_height {
        path.push(digests[sibling(at)])?;
        at = height + at / 2;
    }
    Ok(path)
}

/// The index of the other child of the same parent.
fn sibling(index: usize) -> usize
    requires not_last { index + 1 < 2 ^ 64 }
    ensures { result ≡ sibling_of index }
{
    if index % 2 == 0 { index + 1 } else { index - 1 }
}
