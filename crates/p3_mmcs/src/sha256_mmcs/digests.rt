//! The digests of the tree.

ghost use Rattle.std.specs.Prelude.{◌≡◌, ◌<◌, ◌≤◌, ◌+◌, ◌*◌, ℕ, [], length, slice_index_or};
ghost use Rattle.algebra.specs.Nested.{lists};
ghost use Rattle.p3_mmcs.specs.Batch.{max_height, HavePowerHeights, dimensions_of};
ghost use Rattle.p3_mmcs.specs.Encoding.{rows_length};
ghost use Rattle.p3_mmcs.specs.Tree.{leaf, leaf_at, node};

use super::buffer::BufferedHasher;
use super::encoding::{LEAF_TAG, write_leaf_at, write_node};
use p3_field_core::ElementBytes;
use p3_matrix::RowMajorMatrix;
use sha2::{Digest, Sha256};
use sha256_lanes::digests_of_eight;

/// The digest of a set of rows.
pub(super) fn leaf_digest<T: ElementBytes>(rows: &[Vec<T>]) -> [u8; 32]
    ensures { result ≡ leaf T.bytes (lists rows.now) }
{
    let mut hasher = BufferedHasher::new();
    hasher.push(LEAF_TAG);
    for row in rows {
        hasher.push_row(row.as_slice());
    }
    hasher.finalize()
}

/// The digest of the rows that `index` opens. `height` is the greatest height of the matrices.
pub(super) fn leaf_digest_at<T: ElementBytes>(
    matrices: &[RowMajorMatrix<T>],
    height: usize,
    index: usize,
) -> [u8; 32]
    requires heights { HavePowerHeights (dimensions_of matrices.now) }
    requires greatest { height ≡ max_height (dimensions_of matrices.now) }
    requires below { index < height }
    ensures { result ≡ leaf_at T.bytes matrices.now index }
{
    let mut hasher = BufferedHasher::new();
    hasher.push(LEAF_TAG);
    for matrix in matrices {
        hasher.push_row(matrix.row(index / (height / matrix.height())));
    }
    hasher.finalize()
}

/// The same by way of `message`, which is as long as a leaf.
pub(super) fn leaf_digest_through<T: ElementBytes>(
    message: &mut [u8],
    matrices: &[RowMajorMatrix<T>],
    height: usize,
    index: usize,
) -> [u8; 32]
    requires heights { HavePowerHeights (dimensions_of matrices.now) }
    requires greatest { height ≡ max_height (dimensions_of matrices.now) }
    requires below { index < height }
    requires len { length message.old ≡ 1 + rows_length T.LEN (dimensions_of matrices.now) }
    ensures { result ≡ leaf_at T.bytes matrices.now index }
{
    write_leaf_at(message, matrices, height, index);
    Sha256::digest(&*message)
}

/// The digests of the rows that `first` and the next seven indices open, by way of `messages`,
/// which is as long as eight leaves of `len` bytes.
pub(super) fn leaf_digests_of_eight<T: ElementBytes>(
    messages: &mut [u8],
    len: usize,
    matrices: &[RowMajorMatrix<T>],
    height: usize,
    first: usize,
) -> [[u8; 32]; 8]
    requires heights { HavePowerHeights (dimensions_of matrices.now) }
    requires greatest { height ≡ max_height (dimensions_of matrices.now) }
    requires below { first + 8 ≤ height }
    requires len { len ≡ 1 + rows_length T.LEN (dimensions_of matrices.now) }
    requires messages { length messages.old ≡ 8 * len }
    ensures { (k : ℕ) → k < 8 →
        slice_index_or result k [] ≡ leaf_at T.bytes matrices.now (first + k) }
{
    for lane in 0..8 {
        let message = &mut messages[lane * len..(lane + 1) * len];
        write_leaf_at(message, matrices, height, first + lane);
    }
    digests_of_eight(messages, len)
}

/// The digest of two neighbours.
pub(super) fn node_digest(left: &[u8; 32], right: &[u8; 32]) -> [u8; 32]
    ensures { result ≡ node left.now right.now }
{
    let mut message = [0; 65];
    write_node(&mut message, left, right);
    Sha256::digest(message.as_slice())
}

/// The digests of eight pairs of neighbours that follow one another.
pub(super) fn node_digests_of_eight(children: &[[u8; 32]]) -> [[u8; 32]; 8]
    requires { length children.now ≡ 16 }
    ensures { (k : ℕ) → k < 8 → slice_index_or result k [] ≡ node
        (slice_index_or children.now (2 * k) []) (slice_index_or children.now (2 * k + 1) []) }
{
    let mut messages = [0; 520];
    for lane in 0..8 {
        let message = &mut messages[lane * 65..(lane + 1) * 65];
        write_node(message, &children[2 * lane], &children[2 * lane + 1]);
    }
    digests_of_eight(messages.as_slice(), 65)
}
