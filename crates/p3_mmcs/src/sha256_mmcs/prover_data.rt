//! What the committing side keeps.

ghost use Rattle.std.specs.Prelude.{◌≡◌, ◌^◌};
ghost use Rattle.p3_mmcs.specs.Batch.{max_height, HavePowerHeights, dimensions_of};
ghost use Rattle.p3_mmcs.specs.HeightLaws.{heights_prop};
ghost use Rattle.p3_mmcs.specs.Tree.{leaf_at};
ghost use Rattle.p3_mmcs.specs.Digests.{IsTree};

use p3_field_core::ElementBytes;
use p3_matrix::RowMajorMatrix;

/// The committed matrices and the digests of the tree over them.
#[derive(Drop)]
pub struct Sha256ProverData<T: ElementBytes> {
    pub(super) matrices: Vec<RowMajorMatrix<T>>,
    pub(super) log_height: usize,
    pub(super) digests: Vec<[u8; 32]>,
    ghost heights: { HavePowerHeights (dimensions_of matrices.items) } by { heights_prop _ },
    ghost greatest: { max_height (dimensions_of matrices.items) ≡ 2 ^ log_height },
    ghost tree: { IsTree (leaf_at T.bytes matrices.items) (2 ^ log_height) digests.items },
}
