//! A round: it commits to its word, draws a challenge, and folds the word at it.

ghost use Rattle.std.specs.Prelude.{◌≡◌, ◌<◌, ◌≤◌, ◌+◌, ◌^◌, ℕ, List};
ghost use Rattle.std.specs.Prelude.{IfOk, IfErr, OnOk, length, vec_len};
ghost use Rattle.std.specs.Int.{IsPowerOfTwo};
ghost use Rattle.algebra.specs.Nested.{lists};
ghost use Rattle.algebra.specs.Rounds.{after_round};
ghost use Rattle.p3_matrix.specs.Matrix.{rows, matrix_width};
ghost use Rattle.p3_matrix.specs.Rows.{rows_of};
ghost use Rattle.p3_fri_transcript.specs.Turns.{SomeRoundLeft, RoundPlayed};
ghost use Rattle.p3_fri_transcript.specs.Views.{state_of, left_of, shape_of, Kept};
ghost use Rattle.p3_fri_prover.specs.Inputs.{of_length};
ghost use Rattle.p3_fri_prover.specs.Refusals.{RoundRefusal};
ghost use Rattle.p3_fri_prover.specs.Rounds.{CanFold, KeepsWord, IsRound};

use crate::prover::roll_in::{arity_of, roll_in};
use p3_challenger_core::{CanObserve, FieldChallenger, GrindingChallenger, Plays};
use p3_field_core::{ExtensionField, TwoAdicField};
use p3_fri_folding::{FriFoldingStrategy, FriProverError};
use p3_fri_transcript::transcript::ProverTranscript;
use p3_matrix::RowMajorMatrix;
use p3_mmcs::Mmcs;
use std::alloc::{AllocError, Global};

/// A round that was played: its commitment with what opens it, its witness, and the word after it.
#[derive(Drop)]
pub(crate) struct CommittedRound<F, EF: Copy, M: Mmcs<EF>> {
    pub commitment: M::Commitment,
    pub prover_data: M::ProverData,
    pub witness: F,
    pub word: Vec<EF>,
}

/// Commits to the word, in rows of the arity.
fn commit_word<EF: Copy, M: Mmcs<EF>>(
    alloc: Global,
    mmcs: &M,
    log_arity: usize,
    word: Vec<EF>,
) -> Result<(M::Commitment, M::ProverData), AllocError>
    requires below_64 { log_arity < 64 }
    requires power_of_two { (h : ℕ) × (vec_len word ≡ 2 ^ (h + log_arity)) }
    ensures { IfOk result (λ made.
        KeepsWord M.committed M.commitment_of log_arity word.items made.0 made.1) }
{
    let leaves = RowMajorMatrix::new(word, arity_of(log_arity));
    mmcs.commit_matrix(alloc, leaves)
}

/// The word after a round: each row of the committed matrix is folded, and the input of the folded
/// word's length joins.
fn fold_leaves<F: TwoAdicField, EF: ExtensionField<F>, S: FriFoldingStrategy<F, EF>>(
    alloc: Global,
    folding: &S,
    inputs: &[Vec<EF>],
    beta: EF,
    log_arity: usize,
    leaves: &RowMajorMatrix<EF>,
) -> Result<Vec<EF>, AllocError>
    requires positive { 0 < log_arity }
    requires width { matrix_width leaves.now ≡ 2 ^ log_arity }
    requires power_of_two { IsPowerOfTwo (length (rows leaves.now)) }
    requires within_max_height { (h : ℕ) → length (rows leaves.now) ≡ 2 ^ h →
        h + log_arity ≤ S.max_log_height folding.now }
    ensures { IfOk result (λ folded. (h : ℕ) (word : List EF) →
        length word ≡ 2 ^ (h + log_arity) → rows leaves.now ≡ rows_of (2 ^ log_arity) word →
        folded.items ≡ after_round EF.ops (S.row_fold folding.now)
        (λ k. of_length (lists inputs.now) (2 ^ k)) h
        (record { log_arity = log_arity; beta = beta }) word) }
{
    let mut word = folding.fold_matrix(alloc, beta, log_arity, leaves)?;
    roll_in(&mut word, inputs, beta, log_arity);
    Ok(word)
}

/// Plays a round: commits to the word in rows of the round's arity, absorbs the commitment, and
/// folds the word at the challenge that is drawn then.
pub(crate) fn commit_round<
    F: TwoAdicField,
    EF: ExtensionField<F>,
    S: FriFoldingStrategy<F, EF>,
    M: Mmcs<EF>,
    C: FieldChallenger<F> + GrindingChallenger<Witness = F> + CanObserve<M::Commitment>,
>(
    alloc: Global,
    folding: &S,
    mmcs: &M,
    inputs: &[Vec<EF>],
    log_arity: usize,
    word: Vec<EF>,
    transcript: &mut ProverTranscript<'_, C, F, EF>,
) -> Result<CommittedRound<F, EF, M>, FriProverError>
    requires positive { 0 < log_arity }
    requires below_64 { log_arity < 64 }
    requires foldable { CanFold log_arity (S.max_log_height folding.now) (vec_len word) }
    requires some_round_left { SomeRoundLeft EF.DIMENSION (shape_of transcript.old)
        (left_of transcript.old) }
    requires at_most_max { (shape_of transcript.old).commit_pow_bits ≤ C.MAX_SAMPLE_BITS }
    ensures kept { Kept transcript.old transcript.new }
    ensures steps { OnOk result (RoundPlayed EF.DIMENSION (shape_of transcript.old)
        (left_of transcript.old) (left_of transcript.new)) }
    ensures round { IfOk result (λ round. (h : ℕ) → vec_len word ≡ 2 ^ (h + log_arity) →
        IsRound M.committed M.commitment_of ⟦<C as Plays<F, EF, M::Commitment>>⟧.moves
        (shape_of transcript.old).commit_pow_bits F.ops.zero C.solution EF.ops
        (S.row_fold folding.now) (λ k. of_length (lists inputs.now) (2 ^ k)) h log_arity word.items
        (state_of transcript.old) round.commitment round.witness round.prover_data
        round.word.items (state_of transcript.new)) }
    ensures refused { IfErr result (RoundRefusal M.committed M.commitment_of
        ⟦<C as Plays<F, EF, M::Commitment>>⟧.moves (shape_of transcript.old).commit_pow_bits
        log_arity word.items (state_of transcript.old)) }
{
    let (commitment, prover_data) = commit_word(alloc, mmcs, log_arity, word)?;
    let (beta, witness) = match transcript.commit_round(commitment) {
        Ok(drawn) => drawn,
        Err(refusal) => return Err(refusal),
    };
    let leaves = &mmcs.get_matrices(&prover_data)[0];
    let word = fold_leaves(alloc, folding, inputs, beta, log_arity, leaves)?;
    Ok(CommittedRound {
        commitment,
        prover_data,
        witness: witness.unwrap_or(F::ZERO),
        word,
    })
}
