//! All rounds of the commit phase.

ghost use Rattle.std.specs.Prelude.{◌≡◌, ◌<◌, ◌≤◌, ◌+◌, ◌^◌, ◌++◌, ◌∷◌, [], ℕ, All};
ghost use Rattle.std.specs.Prelude.{IfOk, IfErr, OnOk, length, sum, vec_len};
ghost use Rattle.algebra.specs.Nested.{lists};
ghost use Rattle.p3_fri_transcript.specs.Turns.{RoundsLeft};
ghost use Rattle.p3_fri_transcript.specs.Views.{state_of, left_of, shape_of, Kept};
ghost use Rattle.p3_fri_prover.specs.Inputs.{of_length};
ghost use Rattle.p3_fri_prover.specs.Refusals.{RoundsRefusal};
ghost use Rattle.p3_fri_prover.specs.Rounds.{CanFold, AreCommitted};

use crate::prover::commit_phase::{CommittedRound, commit_round};
use p3_challenger_core::{CanObserve, FieldChallenger, GrindingChallenger, Plays};
use p3_field_core::{ExtensionField, TwoAdicField};
use p3_fri_folding::{FriFoldingStrategy, FriProverError};
use p3_fri_transcript::transcript::ProverTranscript;
use p3_mmcs::Mmcs;
use std::alloc::{AllocError, Global};

/// The rounds that were played.
#[derive(Drop)]
pub(crate) struct CommittedRounds<F, EF: Copy, M: Mmcs<EF>> {
    pub commitments: Vec<M::Commitment>,
    pub prover_data: Vec<M::ProverData>,
    pub witnesses: Vec<F>,
}

impl<F: Copy, EF: Copy, M: Mmcs<EF>> CommittedRounds<F, EF, M> {
    /// No round, and room for so many.
    fn with_capacity(alloc: Global, rounds: usize) -> Result<Self, AllocError>
        ensures commitments { IfOk result (λ r. r.commitments.items ≡ []) }
        ensures prover_data { IfOk result (λ r. r.prover_data.items ≡ []) }
        ensures witnesses { IfOk result (λ r. r.witnesses.items ≡ []) }
    {
        Ok(CommittedRounds {
            commitments: Vec::with_capacity(alloc, rounds)?,
            prover_data: Vec::with_capacity(alloc, rounds)?,
            witnesses: Vec::with_capacity(alloc, rounds)?,
        })
    }

    /// Adds a round, and answers the word after it.
    fn push(&mut self, round: CommittedRound<F, EF, M>) -> Result<Vec<EF>, AllocError>
        ensures word { IfOk result (λ word. word ≡ round.word) }
        ensures commitments { OnOk result (self.new.commitments.items
            ≡ self.old.commitments.items ++ round.commitment ∷ []) }
        ensures prover_data { OnOk result (self.new.prover_data.items
            ≡ self.old.prover_data.items ++ round.prover_data ∷ []) }
        ensures witnesses { OnOk result (self.new.witnesses.items
            ≡ self.old.witnesses.items ++ round.witness ∷ []) }
    {
        let CommittedRound {
            commitment,
            prover_data,
            witness,
            word,
        } = round;
        self.commitments.push(commitment)?;
        self.prover_data.push(prover_data)?;
        self.witnesses.push(witness)?;
        Ok(word)
    }
}

/// Plays a round of each of these log arities, from the word on. Answers also the word after the
/// last.
pub(crate) fn commit_rounds<
    F: TwoAdicField,
    EF: ExtensionField<F>,
    S: FriFoldingStrategy<F, EF>,
    M: Mmcs<EF>,
    C: FieldChallenger<F> + GrindingChallenger<Witness = F> + CanObserve<M::Commitment>,
>(
    alloc: Global,
    folding: &S,
    mmcs: &M,
    inputs: &[Vec<EF>],
    log_arities: &[usize],
    word: Vec<EF>,
    transcript: &mut ProverTranscript<'_, C, F, EF>,
) -> Result<(CommittedRounds<F, EF, M>, Vec<EF>), FriProverError>
    requires positive { All (λ a. 0 < a) log_arities.now }
    requires below_64 { All (λ a. a < 64) log_arities.now }
    requires foldable { CanFold (sum log_arities.now) (S.max_log_height folding.now)
        (vec_len word) }
    requires rounds_left { RoundsLeft EF.DIMENSION (shape_of transcript.old)
        (length log_arities.now) (left_of transcript.old) }
    requires at_most_max { (shape_of transcript.old).commit_pow_bits ≤ C.MAX_SAMPLE_BITS }
    ensures kept { Kept transcript.old transcript.new }
    ensures steps { OnOk result (RoundsLeft EF.DIMENSION (shape_of transcript.old) 0
        (left_of transcript.new)) }
    ensures rounds { IfOk result (λ played. (top : ℕ) → vec_len word ≡ 2 ^ top →
        AreCommitted M.committed M.commitment_of ⟦<C as Plays<F, EF, M::Commitment>>⟧.moves
        (shape_of transcript.old).commit_pow_bits F.ops.zero C.solution EF.ops
        (S.row_fold folding.now) (λ k. of_length (lists inputs.now) (2 ^ k)) top word.items
        (state_of transcript.old) log_arities.now played.0.commitments.items
        played.0.witnesses.items played.0.prover_data.items played.1.items
        (state_of transcript.new)) }
    ensures refused { IfErr result (λ e. (top : ℕ) → vec_len word ≡ 2 ^ top →
        RoundsRefusal M.committed M.commitment_of ⟦<C as Plays<F, EF, M::Commitment>>⟧.moves
        (shape_of transcript.old).commit_pow_bits F.ops.zero C.solution EF.ops
        (S.row_fold folding.now) (λ k. of_length (lists inputs.now) (2 ^ k)) top word.items
        (state_of transcript.old) log_arities.now e) }
{
    let mut word = word;
    let mut rounds = CommittedRounds::with_capacity(alloc, log_arities.len())?;
    for log_arity in log_arities {
        let played = commit_round(
            alloc,
            folding,
            mmcs,
            inputs,
            *log_arity,
            word,
            &mut *transcript,
        );
        let round = match played {
            Ok(round) => round,
            Err(refusal) => return Err(refusal),
        };
        word = rounds.push(round)?;
    }
    Ok((rounds, word))
}
