//! The scheme.

ghost use Rattle.std.specs.Prelude.{◌≡◌, ◌≢◌, ◌^◌, ◌↔◌, ◌⊎◌, ℕ, map, length, IsOk, IfOk};
ghost use Rattle.algebra.specs.Nested.{lists, nested};
ghost use Rattle.p3_mmcs.specs.Batch.{AreBelow, HavePowerHeights, SomeWidthDiffers};
ghost use Rattle.p3_mmcs.specs.Batch.{max_height, dimensions_of, opened_rows};
ghost use Rattle.p3_mmcs.specs.ProverData.{matrices_of, root_over, sizes_of};
ghost use Rattle.p3_mmcs.specs.Tree.{leaf, climb, SomeQuery, Opens, leaf_at, root_of, path_of};
ghost use Rattle.p3_mmcs.specs.TreeLaws.{opens_shape};

use super::error::Sha256MmcsError;
use super::heights::greatest_height_of;
use super::opening::{paths_at_each, rows_at_each};
use super::prover_data::Sha256ProverData;
use super::tree::tree_digests;
use super::verification::verify_each;
use crate::conditions::max_height;
use crate::mmcs::Mmcs;
use p3_field_core::{ElementBytes, log2_strict_usize};
use p3_matrix::{Dimensions, RowMajorMatrix};
use std::alloc::{AllocError, Global};
use std::marker::PhantomData;

/// Merkle's tree over SHA-256, for matrices whose elements have bytes. With `2^m` the greatest
/// height, it has `2^m` leaves: leaf `i` is the digest of a byte 0 and then, for each matrix in
/// order, its width in eight bytes, little endian, and the bytes of the row that `i` opens. A node
/// is the digest of a byte 1 and its two children. The commitment is the root, and a proof is one
/// path for each index: the siblings from the leaf up.
#[derive(Clone, Copy, Debug, Default)]
pub struct Sha256Mmcs<T> {
    elements: PhantomData<T>,
}

impl<T> Sha256Mmcs<T> {
    /// The scheme.
    pub fn new() -> Self {
        Sha256Mmcs {
            elements: PhantomData,
        }
    }
}

impl<T: ElementBytes> Mmcs<T> for Sha256Mmcs<T> {
    type Commitment = [u8; 32];

    type ProverData = Sha256ProverData<T>;

    type MultiProof = Vec<Vec<[u8; 32]>>;

    type Error = Sha256MmcsError;

    ghost opens = { λ _ commitment dims indices sets proof.
        Opens T.bytes commitment dims indices sets (lists proof.items) };

    ghost committed = { matrices_of };

    ghost commitment_of = { root_over };

    /// Besides, the commitment is the root of the tree over the matrices' leaves.
    fn commit(
        &self,
        alloc: Global,
        matrices: Vec<RowMajorMatrix<T>>,
    ) -> Result<([u8; 32], Sha256ProverData<T>), AllocError>
        requires heights { HavePowerHeights (dimensions_of matrices.items) }
        ensures matrices { IfOk result (λ pair. matrices_of pair.1 ≡ matrices.items) }
        ensures commitment { IfOk result (λ pair. root_over pair.1 ≡ pair.0) }
        ensures root { IfOk result (λ pair.
            (m : ℕ) → max_height (dimensions_of matrices.items) ≡ 2 ^ m →
            pair.0 ≡ root_of (leaf_at T.bytes matrices.items) m) }
    {
        let height = greatest_height_of(matrices.as_slice());
        let log_height = log2_strict_usize(height);
        let digests = tree_digests(alloc, matrices.as_slice(), height)?;
        let root = digests[digests.len() - 1];
        Ok((
            root,
            Sha256ProverData {
                matrices,
                log_height,
                digests,
            },
        ))
    }

    fn get_max_height(&self, prover_data: &Sha256ProverData<T>) -> usize {
        prover_data.digests.len() / 2 + 1
    }

    fn get_matrices<'a>(&self, prover_data: &'a Sha256ProverData<T>) -> &'a [RowMajorMatrix<T>] {
        prover_data.matrices.as_slice()
    }

    /// Besides, the proof is the paths through the tree.
    fn open_multi_batch(
        &self,
        alloc: Global,
        indices: &[usize],
        prover_data: &Sha256ProverData<T>,
    ) -> Result<(Vec<Vec<Vec<T>>>, Vec<Vec<[u8; 32]>>), AllocError>
        requires below { AreBelow (max_height (sizes_of prover_data.now)) indices.now }
        ensures rows { IfOk result (λ opening.
            nested opening.0.items ≡ map (opened_rows (matrices_of prover_data.now)) indices.now) }
        ensures opens { IfOk result (λ opening.
            Opens T.bytes (root_over prover_data.now) (sizes_of prover_data.now)
            indices.now (nested opening.0.items) (lists opening.1.items)) }
        ensures paths { IfOk result (λ opening.
            (m : ℕ) → max_height (sizes_of prover_data.now) ≡ 2 ^ m →
            lists opening.1.items
            ≡ map (path_of (leaf_at T.bytes (matrices_of prover_data.now)) m) indices.now) }
    {
        let height = self.get_max_height(prover_data);
        let rows = rows_at_each(alloc, prover_data.matrices.as_slice(), height, indices)?;
        let paths = paths_at_each(
            alloc,
            prover_data.digests.as_slice(),
            prover_data.log_height,
            indices,
        )?;
        Ok((rows, paths))
    }

    /// Besides, an error names a fault that stands.
    fn verify_multi_batch(
        &self,
        commitment: &[u8; 32],
        dimensions: &[Dimensions],
        indices: &[usize],
        opened_values: &[Vec<Vec<T>>],
        proof: &Vec<Vec<[u8; 32]>>,
    ) -> Result<(), Sha256MmcsError>
        requires heights { HavePowerHeights dimensions.now }
        requires below { AreBelow (max_height dimensions.now) indices.now }
        ensures opens { IsOk result ↔
            Opens T.bytes commitment.now dimensions.now
            indices.now (nested opened_values.now) (lists proof.now.items) }
        ensures query_count { (result ≡ Err Sha256MmcsError.QueryCount)
            ↔ ((length opened_values.now ≢ length indices.now)
            ⊎ (length proof.now.items ≢ length indices.now)) }
        ensures matrix_count { result ≡ Err Sha256MmcsError.MatrixCount →
            SomeQuery (λ _ set _. length set ≢ length dimensions.now)
            indices.now (nested opened_values.now) (lists proof.now.items) }
        ensures row_width { result ≡ Err Sha256MmcsError.RowWidth →
            SomeQuery (λ _ set _. SomeWidthDiffers dimensions.now set)
            indices.now (nested opened_values.now) (lists proof.now.items) }
        ensures path_length { result ≡ Err Sha256MmcsError.PathLength →
            SomeQuery (λ _ _ path. 2 ^ length path ≢ max_height dimensions.now)
            indices.now (nested opened_values.now) (lists proof.now.items) }
        ensures root_mismatch { result ≡ Err Sha256MmcsError.RootMismatch →
            SomeQuery (λ index set path. climb index (leaf T.bytes set) path ≢ commitment.now)
            indices.now (nested opened_values.now) (lists proof.now.items) }
    {
        if opened_values.len() != indices.len() || proof.len() != indices.len() {
            return Err(Sha256MmcsError::QueryCount);
        }
        let log_height = log2_strict_usize(max_height(dimensions));
        let paths = proof.as_slice();
        verify_each(
            commitment,
            dimensions,
            log_height,
            indices,
            opened_values,
            paths,
        )
    }

    ghost heights_law = { λ d. d.heights };

    ghost shape_law = { λ _ commitment dims indices sets proof opens.
        opens_shape T.bytes commitment dims indices sets (lists proof.items) opens };
}
