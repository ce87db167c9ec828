//! Whether requests may be opened, and the rounds that they come to.

ghost use Rattle.std.specs.Prelude.{◌≡◌, All, IfOk, IfErr, MatchResult, map, length};
ghost use Rattle.p3_pcs.specs.Requests.{AreOpenable, request};
ghost use Rattle.p3_fri_relation.specs.Views.{parameters_of};
ghost use Rattle.p3_fri_openings.specs.Requests.{round_request, matrices_request};
ghost use Rattle.p3_fri_openings.specs.Rounds.{HasCoset, IsRound};
ghost use Rattle.p3_fri_openings.specs.Refusals.{AreTallEnough, ArePointsOff, HasPointsOff};
ghost use Rattle.p3_fri_openings.specs.Held.{held_of};
ghost use Rattle.p3_fri_opening_prover.specs.Refusals.{CheckRefusal, GatherRefusal, PassesChecks};
ghost use Rattle.p3_fri_opening_prover.specs.Refusals.{IsFirstLow, PointsRefusal, asked_of};

use p3_field_core::{ExtensionField, TwoAdicField};
use p3_fri_folding::{FriParameters, FriProverError};
use p3_fri_openings::{OpeningRound, check_round_heights, check_round_points, rounds_of_requests};
use p3_fri_relation::setting::ChallengeField;
use p3_mmcs::Mmcs;
use p3_pcs::OpeningRequest;
use std::alloc::{AllocError, Global};

/// Whether all matrices of the requests' data are tall enough to be opened. Otherwise the refusal
/// is that of the first which isn't, request by request.
fn check_request_heights<F: TwoAdicField, EF: ExtensionField<F>, M, InputMmcs: Mmcs<F>>(
    params: &FriParameters<M>,
    input_mmcs: &InputMmcs,
    requests: &[OpeningRequest<'_, InputMmcs::ProverData, EF>],
) -> Result<(), FriProverError>
    requires cosets { All (λ r. All (HasCoset F.TWO_ADICITY) (InputMmcs.committed r.datum))
        (map request requests.now) }
    ensures { MatchResult result
        (λ _. All (λ r. AreTallEnough (parameters_of params.now) (InputMmcs.committed r.datum))
        (map request requests.now))
        (λ e. IsFirstLow InputMmcs.committed (parameters_of params.now) e
        (map request requests.now)) }
{
    for request in requests {
        let matrices = input_mmcs.get_matrices(request.prover_data);
        if let Err(refusal) = check_round_heights(params, matrices) {
            return Err(refusal);
        }
    }
    Ok(())
}

/// Whether no point of the requests lies in its matrix's evaluation coset. Otherwise the refusal
/// names the first that does, request by request, matrix by matrix.
fn check_request_points<F: TwoAdicField, EF: ExtensionField<F>, InputMmcs: Mmcs<F>>(
    input_mmcs: &InputMmcs,
    requests: &[OpeningRequest<'_, InputMmcs::ProverData, EF>],
) -> Result<(), FriProverError>
    requires cosets { All (λ r. All (HasCoset F.TWO_ADICITY) (InputMmcs.committed r.datum))
        (map request requests.now) }
    requires points { All (λ r. length r.points ≡ length (InputMmcs.committed r.datum))
        (map request requests.now) }
    ensures { let fields = ⟦<EF as ChallengeField<F>>⟧.fields in
        MatchResult result
        (λ _. All (λ r. All (HasPointsOff fields) (asked_of InputMmcs.committed r))
        (map request requests.now))
        (PointsRefusal InputMmcs.committed fields (map request requests.now)) }
{
    for (index, request) in requests.iter().enumerate() {
        let round = OpeningRound {
            matrices: input_mmcs.get_matrices(request.prover_data),
            points: &request.points,
        };
        if let Err(refusal) = check_round_points(index, &round) {
            return Err(refusal);
        }
    }
    Ok(())
}

/// Whether the requests may be opened: the heights of all matrices are tested in order, and then
/// all points. No memory is taken.
fn check_requests<F: TwoAdicField, EF: ExtensionField<F>, M, InputMmcs: Mmcs<F>>(
    params: &FriParameters<M>,
    input_mmcs: &InputMmcs,
    requests: &[OpeningRequest<'_, InputMmcs::ProverData, EF>],
) -> Result<(), FriProverError>
    requires openable { AreOpenable (λ d. All (HasCoset F.TWO_ADICITY) (InputMmcs.committed d))
        (held_of ⟦<EF as ChallengeField<F>>⟧.fields InputMmcs.committed params.now.log_blowup)
        (map request requests.now) }
    ensures { let fields = ⟦<EF as ChallengeField<F>>⟧.fields in
        MatchResult result
        (λ _. PassesChecks fields (parameters_of params.now) InputMmcs.committed
        (map request requests.now))
        (CheckRefusal fields (parameters_of params.now) InputMmcs.committed
        (map request requests.now)) }
{
    match check_request_heights(params, input_mmcs, requests) {
        Ok(()) => check_request_points(input_mmcs, requests),
        Err(refusal) => Err(refusal),
    }
}

/// The matrices of each request's data with its points, if all of them may be opened.
pub(crate) fn checked_rounds<'a, F: TwoAdicField, EF: ExtensionField<F>, M, InputMmcs: Mmcs<F>>(
    alloc: Global,
    params: &FriParameters<M>,
    input_mmcs: &InputMmcs,
    requests: &'a [OpeningRequest<'_, InputMmcs::ProverData, EF>],
) -> Result<Vec<OpeningRound<'a, F, EF>>, FriProverError>
    requires openable { AreOpenable (λ d. All (HasCoset F.TWO_ADICITY) (InputMmcs.committed d))
        (held_of ⟦<EF as ChallengeField<F>>⟧.fields InputMmcs.committed params.now.log_blowup)
        (map request requests.now) }
    ensures rounds { IfOk result (λ rounds. map round_request rounds.items
        ≡ map (matrices_request InputMmcs.committed) requests.now) }
    ensures are_rounds { IfOk result (λ rounds. All (IsRound F.TWO_ADICITY) rounds.items) }
    ensures tall_enough { IfOk result (λ rounds.
        All (λ r. AreTallEnough (parameters_of params.now) r.matrices.now) rounds.items) }
    ensures off { IfOk result (λ rounds.
        All (ArePointsOff ⟦<EF as ChallengeField<F>>⟧.fields) rounds.items) }
    ensures passes { IfOk result (λ rounds. PassesChecks ⟦<EF as ChallengeField<F>>⟧.fields
        (parameters_of params.now) InputMmcs.committed (map request requests.now)) }
    ensures refused { IfErr result (GatherRefusal ⟦<EF as ChallengeField<F>>⟧.fields
        (parameters_of params.now) InputMmcs.committed (map request requests.now)) }
{
    match check_requests(params, input_mmcs, requests) {
        Ok(()) => {},
        Err(refusal) => return Err(refusal),
    }
    match rounds_of_requests(alloc, input_mmcs, requests) {
        Ok(rounds) => Ok(rounds),
        Err(AllocError) => Err(FriProverError::OutOfMemory),
    }
}
