//! Verification, eight indices at a time and one by one.

ghost use Rattle.std.specs.Prelude.{◌≡◌, ◌<◌, ◌^◌, ◌↔◌, ℕ, List, [], length, IsTrue};
ghost use Rattle.std.specs.Prelude.{slice_index_or, MatchBool, MatchResult};
ghost use Rattle.algebra.specs.Nested.{lists, nested};
ghost use Rattle.p3_mmcs.specs.Batch.{max_height, HasRows, SomeWidthDiffers};
ghost use Rattle.p3_mmcs.specs.Shape.{IsShaped};
ghost use Rattle.p3_mmcs.specs.Tree.{climb, OpensAt, Opens, SomeQuery};
ghost use Rattle.p3_mmcs.specs.Faults.{HasFault};

use super::Sha256MmcsError;
use super::digests::{leaf_digest, node_digest};
use super::eights::{leaves_of_eight, roots_over_eight};
use p3_field_core::ElementBytes;
use p3_matrix::Dimensions;

/// The digest that `digest`, at `index` among its layer, leads to with these siblings from the
/// lowest up.
fn root_over(digest: [u8; 32], index: usize, path: &[[u8; 32]]) -> [u8; 32]
    ensures { result ≡ climb index digest path.now }
{
    let mut top = digest;
    let mut at = index;
    for sibling in path {
        top = if at % 2 == 0 {
            node_digest(&top, sibling)
        } else {
            node_digest(sibling, &top)
        };
        at /= 2;
    }
    top
}

/// Whether two digests are the same.
fn is_same(left: &[u8; 32], right: &[u8; 32]) -> bool
    ensures { IsTrue result ↔ (left.now ≡ right.now) }
{
    left.as_slice() == right.as_slice()
}

/// Whether each row has its matrix's width. There are as many rows as matrices.
fn have_widths<T>(dimensions: &[Dimensions], rows: &[Vec<T>]) -> bool
    requires { length rows.now ≡ length dimensions.now }
    ensures { MatchBool result (HasRows dimensions.now (lists rows.now))
        (SomeWidthDiffers dimensions.now (lists rows.now)) }
{
    for i in 0..dimensions.len() {
        if rows[i].len() != dimensions[i].width {
            return false;
        }
    }
    true
}

/// Whether these rows have the matrices' widths, and the path has as many digests as the tree has
/// layers above its leaves. `2^log_height` is the greatest height.
fn check_shape<T: ElementBytes>(
    dimensions: &[Dimensions],
    log_height: usize,
    rows: &[Vec<T>],
    path: &[[u8; 32]],
) -> Result<(), Sha256MmcsError>
    requires greatest { 2 ^ log_height ≡ max_height dimensions.now }
    ensures { MatchResult result
        (λ _. IsShaped dimensions.now log_height (lists rows.now) path.now)
        (λ fault. (commitment : List ℕ) (index : ℕ) →
        HasFault T.bytes commitment dimensions.now fault index (lists rows.now) path.now) }
{
    if rows.len() != dimensions.len() {
        return Err(Sha256MmcsError::MatrixCount);
    }
    if !have_widths(dimensions, rows) {
        return Err(Sha256MmcsError::RowWidth);
    }
    if path.len() != log_height {
        return Err(Sha256MmcsError::PathLength);
    }
    Ok(())
}

/// Whether these rows and this path at `index` belong to the commitment. `2^log_height` is the
/// greatest height.
fn verify_at<T: ElementBytes>(
    commitment: &[u8; 32],
    dimensions: &[Dimensions],
    log_height: usize,
    index: usize,
    rows: &[Vec<T>],
    path: &[[u8; 32]],
) -> Result<(), Sha256MmcsError>
    requires greatest { 2 ^ log_height ≡ max_height dimensions.now }
    ensures { MatchResult result
        (λ _. OpensAt T.bytes commitment.now dimensions.now index (lists rows.now) path.now)
        (λ fault. HasFault T.bytes commitment.now dimensions.now fault index
        (lists rows.now) path.now) }
{
    if let Err(fault) = check_shape(dimensions, log_height, rows, path) {
        return Err(fault);
    }
    if !is_same(&root_over(leaf_digest(rows), index, path), commitment) {
        return Err(Sha256MmcsError::RootMismatch);
    }
    Ok(())
}

/// Whether the rows and the path at each of these indices belong to the commitment, one by one.
/// There are as many sets of rows and as many paths as indices.
fn verify_one_by_one<T: ElementBytes>(
    commitment: &[u8; 32],
    dimensions: &[Dimensions],
    log_height: usize,
    indices: &[usize],
    opened_values: &[Vec<Vec<T>>],
    paths: &[Vec<[u8; 32]>],
) -> Result<(), Sha256MmcsError>
    requires greatest { 2 ^ log_height ≡ max_height dimensions.now }
    requires sets { length opened_values.now ≡ length indices.now }
    requires paths { length paths.now ≡ length indices.now }
    ensures { MatchResult result
        (λ _. Opens T.bytes commitment.now dimensions.now indices.now (nested opened_values.now)
        (lists paths.now))
        (λ fault. SomeQuery (HasFault T.bytes commitment.now dimensions.now fault) indices.now
        (nested opened_values.now) (lists paths.now)) }
{
    for i in 0..indices.len() {
        let rows = opened_values[i].as_slice();
        let path = paths[i].as_slice();
        if let Err(fault) = verify_at(commitment, dimensions, log_height, indices[i], rows, path) {
            return Err(fault);
        }
    }
    Ok(())
}

/// Whether each of these sets of rows and its path have the right shape.
fn are_shaped<T: ElementBytes>(
    dimensions: &[Dimensions],
    log_height: usize,
    opened_values: &[Vec<Vec<T>>],
    paths: &[Vec<[u8; 32]>],
) -> bool
    requires greatest { 2 ^ log_height ≡ max_height dimensions.now }
    requires paths { length paths.now ≡ length opened_values.now }
    ensures { IsTrue result ↔ ((k : ℕ) → k < length opened_values.now →
        IsShaped dimensions.now log_height (slice_index_or (nested opened_values.now) k [])
        (slice_index_or (lists paths.now) k [])) }
{
    for i in 0..opened_values.len() {
        let rows = opened_values[i].as_slice();
        let path = paths[i].as_slice();
        if check_shape(dimensions, log_height, rows, path).is_err() {
            return false;
        }
    }
    true
}

/// Whether each of these digests is the commitment.
fn are_all(digests: &[[u8; 32]; 8], commitment: &[u8; 32]) -> bool
    ensures { IsTrue result
        ↔ ((k : ℕ) → k < 8 → slice_index_or digests.now k [] ≡ commitment.now) }
{
    for digest in digests {
        if !is_same(digest, commitment) {
            return false;
        }
    }
    true
}

/// Whether the rows and the paths at eight indices belong to the commitment.
fn eight_open<T: ElementBytes>(
    commitment: &[u8; 32],
    dimensions: &[Dimensions],
    log_height: usize,
    indices: &[usize],
    opened_values: &[Vec<Vec<T>>],
    paths: &[Vec<[u8; 32]>],
) -> bool
    requires greatest { 2 ^ log_height ≡ max_height dimensions.now }
    requires indices { length indices.now ≡ 8 }
    requires sets { length opened_values.now ≡ 8 }
    requires paths { length paths.now ≡ 8 }
    ensures { IsTrue result ↔ Opens T.bytes commitment.now dimensions.now indices.now
        (nested opened_values.now) (lists paths.now) }
{
    if !are_shaped(dimensions, log_height, opened_values, paths) {
        return false;
    }
    let leaves = leaves_of_eight(opened_values);
    let roots = roots_over_eight(leaves, indices, paths, log_height);
    are_all(&roots, commitment)
}

/// The same as `verify_one_by_one`: eight indices together, and one by one only where they are
/// fewer or some fault is found.
fn verify_group<T: ElementBytes>(
    commitment: &[u8; 32],
    dimensions: &[Dimensions],
    log_height: usize,
    indices: &[usize],
    opened_values: &[Vec<Vec<T>>],
    paths: &[Vec<[u8; 32]>],
) -> Result<(), Sha256MmcsError>
    requires greatest { 2 ^ log_height ≡ max_height dimensions.now }
    requires sets { length opened_values.now ≡ length indices.now }
    requires paths { length paths.now ≡ length indices.now }
    ensures { MatchResult result
        (λ _. Opens T.bytes commitment.now dimensions.now indices.now (nested opened_values.now)
        (lists paths.now))
        (λ fault. SomeQuery (HasFault T.bytes commitment.now dimensions.now fault) indices.now
        (nested opened_values.now) (lists paths.now)) }
{
    if indices.len() == 8
        && eight_open(
            commitment,
            dimensions,
            log_height,
            indices,
            opened_values,
            paths,
        )
    {
        return Ok(());
    }
    verify_one_by_one(
        commitment,
        dimensions,
        log_height,
        indices,
        opened_values,
        paths,
    )
}

/// Whether the rows and the path at each of these indices belong to the commitment. There are as
/// many sets of rows and as many paths as indices.
pub(super) fn verify_each<T: ElementBytes>(
    commitment: &[u8; 32],
    dimensions: &[Dimensions],
    log_height: usize,
    indices: &[usize],
    opened_values: &[Vec<Vec<T>>],
    paths: &[Vec<[u8; 32]>],
) -> Result<(), Sha256MmcsError>
    requires greatest { 2 ^ log_height ≡ max_height dimensions.now }
    requires sets { length opened_values.now ≡ length indices.now }
    requires paths { length paths.now ≡ length indices.now }
    ensures { MatchResult result
        (λ _. Opens T.bytes commitment.now dimensions.now indices.now (nested opened_values.now)
        (lists paths.now))
        (λ fault. SomeQuery (HasFault T.bytes commitment.now dimensions.now fault) indices.now
        (nested opened_values.now) (lists paths.now)) }
{
    let groups = indices.len().div_ceil(8);
    for group in 0..groups {
        let first = 8 * group;
        let end = first + (indices.len() - first).min(8);
        if let Err(fault) = verify_group(
            commitment,
            dimensions,
            log_height,
            &indices[first..end],
            &opened_values[first..end],
            &paths[first..end],
        ) {
            return Err(fault);
        }
    }
    Ok(())
}
