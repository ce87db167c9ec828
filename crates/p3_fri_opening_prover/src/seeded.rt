//! The transcript around the test, once its seed is made.

ghost use Rattle.std.specs.Prelude.{◌≡◌, ◌≢◌, [], All, IfOk, IfErr, map};
ghost use Rattle.std.specs.List.{AllZip};
ghost use Rattle.p3_challenger_fs.specs.Pattern.{turn_of};
ghost use Rattle.p3_challenger_fs.specs.Separator.{seed_bytes, seed_turns};
ghost use Rattle.p3_pcs.specs.Claims.{opened_values};
ghost use Rattle.p3_fri_pcs_transcript.specs.Counts.{counts_of_values};
ghost use Rattle.p3_fri_pcs_transcript.specs.Shapes.{pcs_shape};
ghost use Rattle.p3_fri_pcs_transcript.specs.Steps.{pcs_steps, pcs_stream};
ghost use Rattle.p3_fri_relation.specs.Views.{parameters_of, proof_of};
ghost use Rattle.p3_fri_openings.specs.Rounds.{IsRound};
ghost use Rattle.p3_fri_openings.specs.Refusals.{AreTallEnough};
ghost use Rattle.p3_fri_openings.specs.Denominators.{AreInverses, ArePointsCovered};
ghost use Rattle.p3_fri_batch.specs.Rounds.{HaveValues, opened_of};
ghost use Rattle.p3_fri_opening_prover.specs.Ranges.{IsInRoundsRange};
ghost use Rattle.p3_fri_opening_prover.specs.Opening.{IsOpening, OpeningStops};
ghost use Rattle.p3_fri_opening_prover.specs.Refusals.{LeavesState};

use crate::opened_rounds::OpenedRounds;
use crate::setting::{OpensFri, ProverSetting};
use crate::words::prove_words;
use p3_challenger_core::{CanObserve, FieldChallenger, GrindingChallenger};
use p3_challenger_fs::Seed;
use p3_field_core::{ExtensionField, TwoAdicField};
use p3_fri_folding::{FriFoldingStrategy, FriProverError};
use p3_fri_pcs_transcript::PcsShape;
use p3_fri_pcs_transcript::pcs_transcript::PcsProverTranscript;
use p3_fri_relation::proof::{BatchMultiOpening, FriProof};
use p3_fri_relation::setting::ChallengeField;
use p3_mmcs::Mmcs;
use std::alloc::Global;

/// Plays the transcript of these values, whose shape and seed were made: they are absorbed, the
/// batching challenge is drawn, and the low-degree test of the quotients is made inside it.
pub(crate) fn open_seeded<
    F: TwoAdicField,
    EF: ExtensionField<F>,
    M: Mmcs<EF>,
    InputMmcs: Mmcs<F>,
    S: FriFoldingStrategy<F, EF>,
    C: FieldChallenger<F> + GrindingChallenger<Witness = F> + CanObserve<M::Commitment>,
>(
    alloc: Global,
    setting: &ProverSetting<'_, S, M, InputMmcs>,
    opened: &OpenedRounds<'_, '_, F, EF, InputMmcs::ProverData>,
    challenger: &mut C,
    seed: Seed,
    shape: PcsShape,
) -> Result<FriProof<EF, M, F, Vec<BatchMultiOpening<F, InputMmcs>>>, FriProverError>
    requires in_range { IsInRoundsRange (parameters_of setting.now.params.now) F.TWO_ADICITY
        (S.extra_query_index_bits setting.now.folding.now)
        (S.max_log_height setting.now.folding.now) C.MAX_SAMPLE_BITS }
    requires rounds { All (IsRound F.TWO_ADICITY) opened.now.rounds.now }
    requires tall_enough { let p = parameters_of setting.now.params.now in
        All (λ r. AreTallEnough p r.matrices.now) opened.now.rounds.now }
    requires values { AllZip HaveValues opened.now.rounds.now
        (opened_values opened.now.values.now.items) }
    requires inverses { All (AreInverses ⟦<EF as ChallengeField<F>>⟧.fields)
        opened.now.denominators.now }
    requires covered { All (ArePointsCovered opened.now.denominators.now) opened.now.rounds.now }
    requires some_matrix { opened_of opened.now.rounds.now
        (opened_values opened.now.values.now.items) ≢ [] }
    requires opened { map (λ d. InputMmcs.committed d.prover_data.now) opened.now.data.now
        ≡ map (λ r. r.matrices.now) opened.now.rounds.now }
    requires shape { pcs_shape shape ≡ record {
      counts = counts_of_values opened.now.values.now.items;
      batch_pow_bits = setting.now.params.now.batch_proof_of_work_bits;
    } }
    requires stream { seed_bytes seed ≡ pcs_stream EF.DIMENSION (pcs_shape shape) }
    requires turns { seed_turns seed ≡ map turn_of (pcs_steps EF.DIMENSION (pcs_shape shape)) }
    ensures opening { let r = ⟦<C as OpensFri<F, EF, S, M, InputMmcs>>⟧.parts
        setting.now.folding.now setting.now.params.now setting.now.input_mmcs.now in
        let ys = opened_values opened.now.values.now.items in
        IfOk result (λ proof. IsOpening r (opened_of opened.now.rounds.now ys) ys challenger.old
        (map (λ d. d.prover_data.now) opened.now.data.now) (proof_of proof) challenger.new) }
    ensures stops { let r = ⟦<C as OpensFri<F, EF, S, M, InputMmcs>>⟧.parts
        setting.now.folding.now setting.now.params.now setting.now.input_mmcs.now in
        let ys = opened_values opened.now.values.now.items in
        IfErr result (OpeningStops r (opened_of opened.now.rounds.now ys) ys challenger.old) }
    ensures not_checked { IfErr result (λ e. ¬ LeavesState e) }
{
    let mut transcript = PcsProverTranscript::<C, F, EF>::start(challenger, seed, shape);
    transcript.claimed_openings(opened.values);
    let (alpha, witness) = match transcript.batch_phase() {
        Ok(drawn) => drawn,
        Err(refusal) => {
            transcript.abort();
            return Err(refusal);
        },
    };
    let tested = prove_words(
        alloc,
        setting,
        opened,
        alpha,
        witness.unwrap_or(F::ZERO),
        transcript.begin_delegate(),
    );
    match tested {
        Ok(proof) => {
            transcript.end_delegate();
            transcript.finish();
            Ok(proof)
        },
        Err(refusal) => {
            transcript.abort();
            Err(refusal)
        },
    }
}
