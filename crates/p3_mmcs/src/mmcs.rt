//! Commitments to batches of matrices, of which rows are opened by index.

ghost use Rattle.std.specs.Prelude.{◌≡◌, ◌↔◌, ℕ, List, [], ◌∷◌, map, IsOk, IfOk};
ghost use Rattle.algebra.specs.Nested.{nested};
ghost use Rattle.p3_matrix.specs.declared.Dimensions.{Dimensions};
ghost use Rattle.p3_matrix.specs.declared.dense.RowMajorMatrix.{RowMajorMatrix};
ghost use Rattle.p3_mmcs.specs.Batch.{AreBelow, HavePowerHeights, HasShape};
ghost use Rattle.p3_mmcs.specs.Batch.{max_height, dimensions_of, opened_rows};

use p3_matrix::{Dimensions, RowMajorMatrix};
use std::alloc::{AllocError, Global};

/// A mixed matrix commitment scheme: one commitment to a batch of matrices, whose heights are
/// powers of two, and proofs that rows are theirs. An index below the greatest height, which is 1
/// for an empty batch, opens one row of each matrix: in a matrix `2^j` times less high, the row at
/// the index divided by `2^j`, rounded down.
pub trait Mmcs<T: Copy> {
    /// What stands for the batch.
    type Commitment: Copy;

    /// What the committing side keeps, with the matrices.
    type ProverData: Drop;

    /// What shows that rows opened at several indices are those of a commitment.
    type MultiProof: Drop;

    /// Why an opening is refused.
    type Error: Drop;

    ghost opens: { Self → Self.Commitment → List Dimensions → List ℕ → List (List (List T))
        → Self.MultiProof → Type 0 };

    ghost committed: { Self.ProverData → List (RowMajorMatrix T) };

    ghost commitment_of: { Self.ProverData → Self.Commitment };

    /// Commits to a batch of matrices. The data keeps them.
    fn commit(
        &self,
        alloc: Global,
        matrices: Vec<RowMajorMatrix<T>>,
    ) -> Result<(Self::Commitment, Self::ProverData), AllocError>
        requires heights { HavePowerHeights (dimensions_of matrices.items) }
        ensures matrices { IfOk result (λ pair. committed pair.1 ≡ matrices.items) }
        ensures commitment { IfOk result (λ pair. commitment_of pair.1 ≡ pair.0) };

    /// Commits to one matrix.
    final fn commit_matrix(
        &self,
        alloc: Global,
        matrix: RowMajorMatrix<T>,
    ) -> Result<(Self::Commitment, Self::ProverData), AllocError>
        requires height { HavePowerHeights (dimensions_of (matrix ∷ [])) }
        ensures matrices { IfOk result (λ pair. committed pair.1 ≡ matrix ∷ []) }
        ensures commitment { IfOk result (λ pair. commitment_of pair.1 ≡ pair.0) }
    {
        let mut matrices = Vec::new(alloc);
        matrices.push(matrix)?;
        self.commit(alloc, matrices)
    }

    /// The greatest height of the committed matrices, 1 for an empty batch.
    fn get_max_height(&self, prover_data: &Self::ProverData) -> usize
        ensures { result ≡ max_height (dimensions_of (committed prover_data.now)) };

    /// The committed matrices, in their order.
    fn get_matrices<'a>(&self, prover_data: &'a Self::ProverData) -> &'a [RowMajorMatrix<T>]
        ensures { result.now ≡ committed prover_data.now };

    /// For each index the rows that it opens, and a proof that they are the committed ones. The
    /// indices lie below the greatest height.
    fn open_multi_batch(
        &self,
        alloc: Global,
        indices: &[usize],
        prover_data: &Self::ProverData,
    ) -> Result<(Vec<Vec<Vec<T>>>, Self::MultiProof), AllocError>
        requires below { AreBelow (max_height (dimensions_of (committed prover_data.now)))
            indices.now }
        ensures rows { IfOk result (λ opening.
            nested opening.0.items ≡ map (opened_rows (committed prover_data.now)) indices.now) }
        ensures opens { IfOk result (λ opening.
            opens self.now (commitment_of prover_data.now)
            (dimensions_of (committed prover_data.now)) indices.now
            (nested opening.0.items) opening.1) };

    /// Whether the rows opened at these indices are those of the committed matrices, which have
    /// these dimensions: their heights are powers of two, and the indices lie below the greatest,
    /// or are 0 where there is no matrix.
    fn verify_multi_batch(
        &self,
        commitment: &Self::Commitment,
        dimensions: &[Dimensions],
        indices: &[usize],
        opened_values: &[Vec<Vec<T>>],
        proof: &Self::MultiProof,
    ) -> Result<(), Self::Error>
        requires heights { HavePowerHeights dimensions.now }
        requires below { AreBelow (max_height dimensions.now) indices.now }
        ensures opens { IsOk result ↔
            opens self.now commitment.now dimensions.now
            indices.now (nested opened_values.now) proof.now };

    ghost heights_law: { (d : Self.ProverData) → HavePowerHeights (dimensions_of (committed d)) };

    ghost shape_law: { (m : Self) (c : Self.Commitment) (dims : List Dimensions) (indices : List ℕ)
        (sets : List (List (List T))) (proof : Self.MultiProof) →
        opens m c dims indices sets proof → HasShape dims indices sets };
}
