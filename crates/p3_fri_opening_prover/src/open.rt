//! The prover of openings.

ghost use Rattle.std.specs.Prelude.{◌≡◌, ◌≢◌, [], All, IsOk, IfOk, IfErr, map};
ghost use Rattle.p3_pcs.specs.Claims.{opened_values};
ghost use Rattle.p3_pcs.specs.Requests.{AreOpenable, request};
ghost use Rattle.p3_fri_relation.specs.Views.{parameters_of, proof_of};
ghost use Rattle.p3_fri_openings.specs.Opened.{values_asked};
ghost use Rattle.p3_fri_openings.specs.Rounds.{IsRound};
ghost use Rattle.p3_fri_openings.specs.Refusals.{AreTallEnough, ArePointsOff};
ghost use Rattle.p3_fri_batch.specs.Rounds.{opened_of};
ghost use Rattle.p3_fri_opening_prover.specs.Ranges.{IsInRoundsRange, IsInOpeningRange};
ghost use Rattle.p3_fri_opening_prover.specs.Setting.{StandsOnCosets, held};
ghost use Rattle.p3_fri_opening_prover.specs.Opened.{IsOpened};
ghost use Rattle.p3_fri_opening_prover.specs.Opening.{IsOpening, OpeningStops};
ghost use Rattle.p3_fri_opening_prover.specs.Refusals.{PassesChecks, OpenRefusal, LeavesState};

use crate::opened_data::data_of_requests;
use crate::opened_rounds::OpenedRounds;
use crate::prepared::{Prepared, prepare};
use crate::request_checks::checked_rounds;
use crate::seeded::open_seeded;
use crate::setting::{OpensFri, ProverSetting};
use p3_challenger_core::{CanObserve, FieldChallenger, GrindingChallenger};
use p3_field_core::{ExtensionField, TwoAdicField};
use p3_fri_folding::{FriFoldingStrategy, FriParameters, FriProverError};
use p3_fri_openings::OpeningRound;
use p3_fri_prover::prover::ProverDataWithOpeningPoints;
use p3_fri_relation::proof::{BatchMultiOpening, FriProof};
use p3_fri_relation::setting::ChallengeField;
use p3_mmcs::{Mmcs, OpenedValues};
use p3_pcs::OpeningRequest;
use std::alloc::{AllocError, Global};

/// Opens rounds that passed the checks: answers the values of the committed polynomials at the
/// rounds' points, with a proof of them, which is bound to the challenger's state. Of round `i` the
/// datum `opened[i]` holds the matrices. How the rounds came of what a caller was asked for, and
/// which checks it made, is the caller's: each scheme over these matrices opens by this call.
///
/// The matrices stand on cosets of the field and are tall enough, and no point lies in its matrix's
/// coset. There is some matrix. The parameters are as for `open_requests`.
///
/// # Errors
///
/// `NoPowWitness` where no element passes a proof of work that is asked for, and `OutOfMemory` for
/// want of memory. No refusal is one of the checks'.
pub fn open_rounds<
    'a,
    F: TwoAdicField,
    EF: ExtensionField<F>,
    M: Mmcs<EF>,
    InputMmcs: Mmcs<F>,
    S: FriFoldingStrategy<F, EF>,
    C: FieldChallenger<F> + GrindingChallenger<Witness = F> + CanObserve<M::Commitment>,
>(
    alloc: Global,
    folding: &S,
    params: &FriParameters<M>,
    input_mmcs: &InputMmcs,
    rounds: &'a [OpeningRound<'a, F, EF>],
    opened: &'a [ProverDataWithOpeningPoints<'a, EF, InputMmcs::ProverData>],
    challenger: &mut C,
) -> Result<
    (
        OpenedValues<EF>,
        FriProof<EF, M, F, Vec<BatchMultiOpening<F, InputMmcs>>>,
    ),
    FriProverError,
>
    requires in_range { IsInRoundsRange (parameters_of params.now) F.TWO_ADICITY
        (S.extra_query_index_bits folding.now) (S.max_log_height folding.now) C.MAX_SAMPLE_BITS }
    requires rounds { All (IsRound F.TWO_ADICITY) rounds.now }
    requires tall_enough { All (λ r. AreTallEnough (parameters_of params.now) r.matrices.now)
        rounds.now }
    requires off { All (ArePointsOff ⟦<EF as ChallengeField<F>>⟧.fields) rounds.now }
    requires some_matrix { opened_of rounds.now (map (values_asked
        ⟦<EF as ChallengeField<F>>⟧.fields params.now.log_blowup) rounds.now) ≢ [] }
    requires opened { map (λ d. InputMmcs.committed d.prover_data.now) opened.now
        ≡ map (λ r. r.matrices.now) rounds.now }
    ensures values { IfOk result (λ opening. opened_values opening.0.items ≡ map (values_asked
        ⟦<EF as ChallengeField<F>>⟧.fields params.now.log_blowup) rounds.now) }
    ensures opening { let r = ⟦<C as OpensFri<F, EF, S, M, InputMmcs>>⟧.parts folding.now
        params.now input_mmcs.now in
        let ys = map (values_asked r.setting.fields r.parameters.log_blowup) rounds.now in
        IfOk result (λ opening. IsOpening r (opened_of rounds.now ys) ys challenger.old
        (map (λ d. d.prover_data.now) opened.now) (proof_of opening.1) challenger.new) }
    ensures stops { let r = ⟦<C as OpensFri<F, EF, S, M, InputMmcs>>⟧.parts folding.now
        params.now input_mmcs.now in
        let ys = map (values_asked r.setting.fields r.parameters.log_blowup) rounds.now in
        IfErr result (OpeningStops r (opened_of rounds.now ys) ys challenger.old) }
    ensures not_checked { IfErr result (λ e. ¬ LeavesState e) }
{
    let prepared = match prepare(alloc, params, rounds) {
        Ok(prepared) => prepared,
        Err(AllocError) => return Err(FriProverError::OutOfMemory),
    };
    let Prepared {
        denominators,
        values,
        shape,
        seed,
    } = prepared;
    let setting = ProverSetting {
        folding,
        params,
        input_mmcs,
    };
    let shown = OpenedRounds {
        rounds,
        values: &values,
        denominators: &denominators.entries,
        data: opened,
    };
    let proved = open_seeded(alloc, &setting, &shown, challenger, seed, shape);
    match proved {
        Ok(proof) => Ok((values, proof)),
        Err(refusal) => Err(refusal),
    }
}

/// Opens committed data at points: answers the values of the committed polynomials there, with a
/// proof of them, which is bound to the challenger's state. The values are absorbed, a challenge
/// that batches them is drawn, and the low-degree test (FRI, ICALP 2018) of their quotients is made
/// inside that transcript. No request is changed.
///
/// Each datum has a list of points for each of its matrices, which stand on cosets of the field,
/// and there is some matrix. Of honest data, where each matrix has a point, the proof is accepted
/// of the honest claims, on all domains of their sizes (of a domain its log size alone counts), and
/// the challenger is left in the last state of both transcripts.
///
/// Each parameter is positive where it has to be, and the blowup a number. The challenger draws as
/// many bits at once as the two-adicity and the strategy's extra bits together, and as each
/// difficulty. The strategy folds words of each log height up to the two-adicity.
///
/// # Errors
///
/// The heights of all matrices are tested in order, and then all points, before anything is
/// absorbed: `InputHeightTooSmall`, `FinalHeightOverflow` and `PointInEvaluationDomain` leave the
/// challenger as it was. `NoPowWitness` where no element passes a proof of work that is asked for.
/// Want of memory is `OutOfMemory`.
pub fn open_requests<
    F: TwoAdicField,
    EF: ExtensionField<F>,
    M: Mmcs<EF>,
    InputMmcs: Mmcs<F>,
    S: FriFoldingStrategy<F, EF>,
    C: FieldChallenger<F> + GrindingChallenger<Witness = F> + CanObserve<M::Commitment>,
>(
    alloc: Global,
    folding: &S,
    params: &FriParameters<M>,
    input_mmcs: &InputMmcs,
    requests: &[OpeningRequest<'_, InputMmcs::ProverData, EF>],
    challenger: &mut C,
) -> Result<
    (
        OpenedValues<EF>,
        FriProof<EF, M, F, Vec<BatchMultiOpening<F, InputMmcs>>>,
    ),
    FriProverError,
>
    requires in_range { IsInOpeningRange (parameters_of params.now) F.TWO_ADICITY
        (S.extra_query_index_bits folding.now) (S.max_log_height folding.now) C.MAX_SAMPLE_BITS }
    requires openable { let r = ⟦<C as OpensFri<F, EF, S, M, InputMmcs>>⟧.parts folding.now
        params.now input_mmcs.now in
        AreOpenable (StandsOnCosets r) (held r) (map request requests.now) }
    ensures opened { let r = ⟦<C as OpensFri<F, EF, S, M, InputMmcs>>⟧.parts folding.now
        params.now input_mmcs.now in
        IfOk result (λ opening. IsOpened r (map request requests.now) challenger.old
        challenger.new (opened_values opening.0.items) (proof_of opening.1)) }
    ensures checked { let r = ⟦<C as OpensFri<F, EF, S, M, InputMmcs>>⟧.parts folding.now
        params.now input_mmcs.now in
        IsOk result → PassesChecks r.setting.fields r.parameters r.committed
        (map request requests.now) }
    ensures refused { let r = ⟦<C as OpensFri<F, EF, S, M, InputMmcs>>⟧.parts folding.now
        params.now input_mmcs.now in
        IfErr result (OpenRefusal r challenger.old (map request requests.now)) }
    ensures unmoved { IfErr result (λ e. LeavesState e → challenger.new ≡ challenger.old) }
{
    let rounds = match checked_rounds(alloc, params, input_mmcs, requests) {
        Ok(rounds) => rounds,
        Err(refusal) => return Err(refusal),
    };
    let opened = match data_of_requests(alloc, requests) {
        Ok(opened) => opened,
        Err(AllocError) => return Err(FriProverError::OutOfMemory),
    };
    open_rounds(
        alloc, folding, params, input_mmcs, &rounds, &opened, challenger,
    )
}
