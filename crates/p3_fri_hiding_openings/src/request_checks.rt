//! Whether requests to a scheme that hides may be opened. No memory is taken.

ghost use Rattle.std.specs.Prelude.{◌≡◌, All, MatchResult, map, length};
ghost use Rattle.p3_pcs.specs.Requests.{request};
ghost use Rattle.p3_fri_relation.specs.Views.{parameters_of};
ghost use Rattle.p3_fri_openings.specs.Rounds.{HasCoset, ask, asked_in};
ghost use Rattle.p3_fri_openings.specs.Refusals.{HasPointsOff};
ghost use Rattle.p3_fri_opening_prover.specs.Refusals.{PointsRefusal, asked_of};
ghost use Rattle.p3_fri_hiding_openings.specs.Requests.{inside};
ghost use Rattle.p3_fri_hiding_openings.specs.Opening.{CanHide, MatrixRefusal, RoundRefusal};
ghost use Rattle.p3_fri_hiding_openings.specs.Opening.{AllCanHide};
ghost use Rattle.p3_fri_hiding_openings.specs.Opening.{IsFirstRefused, PassesHidingChecks};
ghost use Rattle.p3_fri_hiding_openings.specs.Opening.{HidingCheckRefusal};

use crate::data::HidingFriPcsProverData;
use p3_field_core::{ExtensionField, TwoAdicField, log2_strict_usize};
use p3_fri_folding::{FriParameters, FriProverError};
use p3_fri_masks::{HidingFriProverError, check_hiding_budget, lde_mask_height};
use p3_fri_openings::{OpeningRound, check_round_points};
use p3_fri_relation::setting::ChallengeField;
use p3_fri_relation::validate_input_height;
use p3_matrix::RowMajorMatrix;
use p3_mmcs::Mmcs;
use p3_pcs::OpeningRequest;

/// Whether a matrix is tall enough to be opened, and its masks hide what is opened at these points.
fn check_matrix<F: TwoAdicField, EF: ExtensionField<F>, M>(
    num_random_codewords: usize,
    params: &FriParameters<M>,
    matrix: &RowMajorMatrix<F>,
    points: &[EF],
) -> Result<(), HidingFriProverError>
    requires coset { HasCoset F.TWO_ADICITY matrix.now }
    ensures { let fields = ⟦<EF as ChallengeField<F>>⟧.fields in
        let p = parameters_of params.now in
        let asked = ask matrix.now points.now in
        MatchResult result (λ _. CanHide fields p num_random_codewords asked)
        (λ e. MatrixRefusal fields p num_random_codewords e asked) }
{
    let height = matrix.height();
    validate_input_height(params, log2_strict_usize(height))?;
    let mask_height = lde_mask_height(height, params.log_blowup);
    check_hiding_budget(
        num_random_codewords,
        params.num_queries,
        EF::DIMENSION,
        mask_height,
        points.len(),
    )
}

/// The same of each matrix of a round, at its points. The refusal is that of the first.
fn check_round<F: TwoAdicField, EF: ExtensionField<F>, M>(
    num_random_codewords: usize,
    params: &FriParameters<M>,
    round: &OpeningRound<'_, F, EF>,
) -> Result<(), HidingFriProverError>
    requires points { length round.now.points.now ≡ length round.now.matrices.now }
    requires cosets { All (HasCoset F.TWO_ADICITY) round.now.matrices.now }
    ensures { let fields = ⟦<EF as ChallengeField<F>>⟧.fields in
        let p = parameters_of params.now in
        MatchResult result (λ _. All (CanHide fields p num_random_codewords) (asked_in round.now))
        (λ e. RoundRefusal fields p num_random_codewords e (asked_in round.now)) }
{
    for matrix in 0..round.matrices.len() {
        let points = round.points[matrix].as_slice();
        check_matrix(
            num_random_codewords,
            params,
            &round.matrices[matrix],
            points,
        )?;
    }
    Ok(())
}

/// The same of each request.
fn check_matrices<F: TwoAdicField, EF: ExtensionField<F>, M, InputMmcs: Mmcs<F>>(
    num_random_codewords: usize,
    params: &FriParameters<M>,
    input_mmcs: &InputMmcs,
    requests: &[OpeningRequest<'_, HidingFriPcsProverData<InputMmcs::ProverData>, EF>],
) -> Result<(), HidingFriProverError>
    requires cosets { All (λ r. All (HasCoset F.TWO_ADICITY) (InputMmcs.committed r.datum))
        (map inside (map request requests.now)) }
    requires points { All (λ r. length r.points ≡ length (InputMmcs.committed r.datum))
        (map inside (map request requests.now)) }
    ensures { let fields = ⟦<EF as ChallengeField<F>>⟧.fields in
        let p = parameters_of params.now in
        let asked = map inside (map request requests.now) in
        MatchResult result
        (λ _. AllCanHide fields p num_random_codewords InputMmcs.committed asked)
        (λ e. IsFirstRefused fields p num_random_codewords InputMmcs.committed e asked) }
{
    for request in requests {
        let round = OpeningRound {
            matrices: input_mmcs.get_matrices(&request.prover_data.inner),
            points: &request.points,
        };
        check_round(num_random_codewords, params, &round)?;
    }
    Ok(())
}

/// Whether no point of the requests lies in its matrix's evaluation coset. Otherwise the refusal
/// names the first that does, request by request, matrix by matrix.
fn check_points<F: TwoAdicField, EF: ExtensionField<F>, InputMmcs: Mmcs<F>>(
    input_mmcs: &InputMmcs,
    requests: &[OpeningRequest<'_, HidingFriPcsProverData<InputMmcs::ProverData>, EF>],
) -> Result<(), FriProverError>
    requires cosets { All (λ r. All (HasCoset F.TWO_ADICITY) (InputMmcs.committed r.datum))
        (map inside (map request requests.now)) }
    requires points { All (λ r. length r.points ≡ length (InputMmcs.committed r.datum))
        (map inside (map request requests.now)) }
    ensures { let fields = ⟦<EF as ChallengeField<F>>⟧.fields in
        let asked = map inside (map request requests.now) in
        MatchResult result
        (λ _. All (λ r. All (HasPointsOff fields) (asked_of InputMmcs.committed r)) asked)
        (PointsRefusal InputMmcs.committed fields asked) }
{
    for (index, request) in requests.iter().enumerate() {
        let round = OpeningRound {
            matrices: input_mmcs.get_matrices(&request.prover_data.inner),
            points: &request.points,
        };
        if let Err(refusal) = check_round_points(index, &round) {
            return Err(refusal);
        }
    }
    Ok(())
}

/// Whether requests may be opened. Matrix by matrix, request by request, the height is tested and
/// then the hiding budget for the matrix's points, and after them all points.
///
/// # Errors
///
/// Of a matrix `InputHeightTooSmall` or `FinalHeightOverflow` in `Fri`, and then
/// `InsufficientRandomCodewords`, `BudgetOverflow` or `HidingBudgetExceeded`; of a point
/// `PointInEvaluationDomain` in `Fri`.
pub(crate) fn check_requests<F: TwoAdicField, EF: ExtensionField<F>, M, InputMmcs: Mmcs<F>>(
    num_random_codewords: usize,
    params: &FriParameters<M>,
    input_mmcs: &InputMmcs,
    requests: &[OpeningRequest<'_, HidingFriPcsProverData<InputMmcs::ProverData>, EF>],
) -> Result<(), HidingFriProverError>
    requires cosets { All (λ r. All (HasCoset F.TWO_ADICITY) (InputMmcs.committed r.datum))
        (map inside (map request requests.now)) }
    requires points { All (λ r. length r.points ≡ length (InputMmcs.committed r.datum))
        (map inside (map request requests.now)) }
    ensures { let fields = ⟦<EF as ChallengeField<F>>⟧.fields in
        let p = parameters_of params.now in
        let asked = map request requests.now in
        MatchResult result
        (λ _. PassesHidingChecks fields p num_random_codewords InputMmcs.committed asked)
        (HidingCheckRefusal fields p num_random_codewords InputMmcs.committed asked) }
{
    check_matrices(num_random_codewords, params, input_mmcs, requests)?;
    check_points(input_mmcs, requests)?;
    Ok(())
}
