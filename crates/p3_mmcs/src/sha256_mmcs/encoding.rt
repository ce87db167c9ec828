//! The bytes that the tree's digests are of.

ghost use Rattle.std.specs.Prelude.{◌≡◌, ◌<◌, ◌+◌, ◌*◌, ◌^◌, ℕ, List, ◌∷◌, ◌++◌, length, IfSome};
ghost use Rattle.std.specs.List.{flat_map};
ghost use Rattle.p3_mmcs.specs.Batch.{max_height, HavePowerHeights, dimensions_of, opened_rows};
ghost use Rattle.p3_mmcs.specs.Tree.{row_bytes};
ghost use Rattle.p3_mmcs.specs.Encoding.{rows_length};

use p3_field_core::ElementBytes;
use p3_matrix::RowMajorMatrix;

/// What the bytes of a leaf begin with.
pub(super) const LEAF_TAG: u8 = 0;

/// What the bytes of a node begin with.
const NODE_TAG: u8 = 1;

/// How many bytes a leaf over these matrices has, where that many times eight fit a word.
pub(super) fn leaf_len<T: ElementBytes>(matrices: &[RowMajorMatrix<T>]) -> Option<usize>
    ensures length { IfSome result (λ len.
        len ≡ 1 + rows_length T.LEN (dimensions_of matrices.now)) }
    ensures fits { IfSome result (λ len. 8 * len < 2 ^ 64) }
{
    let mut len: usize = 1;
    for matrix in matrices {
        let row = T::LEN.checked_mul(matrix.width())?;
        len = len.checked_add(8)?.checked_add(row)?;
    }
    let _eight = len.checked_mul(8)?;
    Some(len)
}

/// Writes a row: its length in eight bytes, little endian, and the bytes of its elements.
fn write_row<T: ElementBytes>(out: &mut [u8], row: &[T])
    requires { length out.old ≡ 8 + T.LEN * length row.now }
    ensures { out.new ≡ row_bytes T.bytes row.now }
{
    out[..8].copy_from_slice(&(row.len() as u64).to_le_bytes());
    let mut at = 8;
    for element in row {
        element.write_bytes(&mut out[at..at + T::LEN]);
        at += T::LEN;
    }
}

/// Writes the leaf over the rows that `index` opens. `height` is the greatest height of the
/// matrices.
pub(super) fn write_leaf_at<T: ElementBytes>(
    out: &mut [u8],
    matrices: &[RowMajorMatrix<T>],
    height: usize,
    index: usize,
)
    requires heights { HavePowerHeights (dimensions_of matrices.now) }
    requires greatest { height ≡ max_height (dimensions_of matrices.now) }
    requires below { index < height }
    requires len { length out.old ≡ 1 + rows_length T.LEN (dimensions_of matrices.now) }
    ensures { out.new ≡ 0 ∷ flat_map (row_bytes T.bytes) (opened_rows matrices.now index) }
{
    out[0] = LEAF_TAG;
    let mut at = 1;
    for matrix in matrices {
        let row = matrix.row(index / (height / matrix.height()));
        let end = at + (8 + T::LEN * row.len());
        write_row(&mut out[at..end], row);
        at = end;
    }
}

/// Writes the node over two neighbours.
pub(super) fn write_node(out: &mut [u8], left: &[u8; 32], right: &[u8; 32])
    requires { length out.old ≡ 65 }
    ensures { out.new ≡ 1 ∷ left.now ++ right.now }
{
    out[0] = NODE_TAG;
    out[1..33].copy_from_slice(left.as_slice());
    out[33..65].copy_from_slice(right.as_slice());
}
