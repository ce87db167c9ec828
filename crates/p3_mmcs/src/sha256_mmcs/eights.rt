//! Eight leaves at a time, and their ways up to the root.

ghost use Rattle.std.specs.Prelude.{◌≡◌, ◌<◌, ◌/◌, ℕ, [], ◌∷◌, length, slice_index_or};
ghost use Rattle.algebra.specs.Nested.{lists, nested};
ghost use Rattle.p3_mmcs.specs.Siblings.{children_of};
ghost use Rattle.p3_mmcs.specs.Tree.{leaf, climb};

use super::digests::leaf_digest;
use super::encoding::write_node;
use p3_field_core::ElementBytes;
use sha256_lanes::digests_of_eight;

/// The digests of eight sets of rows.
pub(super) fn leaves_of_eight<T: ElementBytes>(opened_values: &[Vec<Vec<T>>]) -> [[u8; 32]; 8]
    requires { length opened_values.now ≡ 8 }
    ensures { (k : ℕ) → k < 8 → slice_index_or result k []
        ≡ leaf T.bytes (slice_index_or (nested opened_values.now) k []) }
{
    let mut leaves = [[0; 32]; 8];
    for lane in 0..8 {
        let rows = opened_values[lane].as_slice();
        leaves[lane] = leaf_digest(rows);
    }
    leaves
}

/// The indices of the parents of those at these indices.
fn halves(indices: [usize; 8]) -> [usize; 8]
    ensures { (k : ℕ) → k < 8 → slice_index_or result k 0 ≡ slice_index_or indices k 0 / 2 }
{
    indices.map(|index| index / 2)
}

/// Writes the node over a digest at `index` among its layer and its sibling.
fn write_parent(out: &mut [u8], digest: &[u8; 32], index: usize, sibling: &[u8; 32])
    requires { length out.old ≡ 65 }
    ensures { out.new ≡ 1 ∷ children_of index digest.now sibling.now }
{
    if index % 2 == 0 {
        write_node(out, digest, sibling);
    } else {
        write_node(out, sibling, digest);
    }
}

/// The parents of eight digests at these indices among their layer, with the siblings that stand at
/// `level` in these paths.
fn parents_of_eight(
    digests: &[[u8; 32]; 8],
    indices: &[usize; 8],
    paths: &[Vec<[u8; 32]>],
    level: usize,
) -> [[u8; 32]; 8]
    requires paths { length paths.now ≡ 8 }
    requires level { (k : ℕ) → k < 8 → level < length (slice_index_or (lists paths.now) k []) }
    ensures { (k : ℕ) → k < 8 → slice_index_or result k []
        ≡ climb (slice_index_or indices.now k 0) (slice_index_or digests.now k [])
        (slice_index_or (slice_index_or (lists paths.now) k []) level [] ∷ []) }
{
    let mut messages = [0; 520];
    for lane in 0..8 {
        let path = paths[lane].as_slice();
        let message = &mut messages[lane * 65..(lane + 1) * 65];
        write_parent(message, &digests[lane], indices[lane], &path[level]);
    }
    digests_of_eight(messages.as_slice(), 65)
}

/// The digests that these eight, at these indices among their layer, lead to with the siblings in
/// these paths of `log_height` digests.
pub(super) fn roots_over_eight(
    digests: [[u8; 32]; 8],
    indices: &[usize],
    paths: &[Vec<[u8; 32]>],
    log_height: usize,
) -> [[u8; 32]; 8]
    requires indices { length indices.now ≡ 8 }
    requires paths { length paths.now ≡ 8 }
    requires levels { (k : ℕ) → k < 8
        → length (slice_index_or (lists paths.now) k []) ≡ log_height }
    ensures { (k : ℕ) → k < 8 → slice_index_or result k []
        ≡ climb (slice_index_or indices.now k 0) (slice_index_or digests k [])
        (slice_index_or (lists paths.now) k []) }
{
    let mut tops = digests;
    let mut places = [0; 8];
    places.copy_from_slice(indices);
    for level in 0..log_height {
        tops = parents_of_eight(&tops, &places, paths, level);
        places = halves(places);
    }
    tops
}
