//! Whether a prover may open: the heights of the matrices, and the points.

ghost use Rattle.std.specs.Prelude.{◌≡◌, ◌↔◌, ◌≤◌, All, IsTrue, MatchOption};
ghost use Rattle.std.specs.Prelude.{MatchResult};
ghost use Rattle.algebra.specs.Cosets.{IsOnCoset};
ghost use Rattle.p3_fri_relation.specs.Views.{parameters_of};
ghost use Rattle.p3_fri_openings.specs.Rounds.{HasCoset, IsRound};
ghost use Rattle.p3_fri_openings.specs.First.{FirstAt};
ghost use Rattle.p3_fri_openings.specs.Refusals.{AreTallEnough};
ghost use Rattle.p3_fri_openings.specs.Refusals.{RoundHeightRefusal};
ghost use Rattle.p3_fri_openings.specs.Refusals.{IsOn, IsOff, ArePointsOff};
ghost use Rattle.p3_fri_openings.specs.Refusals.{RoundPointRefusal, PointRefusal};

use crate::round::OpeningRound;
use p3_field_core::{ExtensionField, Field, TwoAdicField, log2_strict_usize};
use p3_fri_folding::FriProverError;
use p3_fri_relation::setting::ChallengeField;
use p3_fri_relation::{FriParameters, validate_input_height};
use p3_matrix::RowMajorMatrix;

/// Whether each of these matrices is tall enough to be opened. Otherwise the refusal is that of the
/// first which isn't.
pub fn check_round_heights<M, F: TwoAdicField>(
    params: &FriParameters<M>,
    matrices: &[RowMajorMatrix<F>],
) -> Result<(), FriProverError>
    requires cosets { All (HasCoset F.TWO_ADICITY) matrices.now }
    ensures { MatchResult result
        (λ _. AreTallEnough (parameters_of params.now) matrices.now)
        (λ e. RoundHeightRefusal (parameters_of params.now) e matrices.now) }
{
    for matrix in matrices {
        if let Err(refusal) = validate_input_height(params, log2_strict_usize(matrix.height())) {
            return Err(refusal);
        }
    }
    Ok(())
}

pub(crate) fn are_equal<F: Field>(a: F, b: F) -> bool
    ensures { IsTrue result ↔ (a ≡ b) }
{
    a == b
}

/// Whether the point lies in the evaluation coset of log height `log_height`, the one of the shift
/// `GENERATOR`: exactly there its power to the coset's size is the shift's.
pub fn is_in_evaluation_domain<F: TwoAdicField, EF: ExtensionField<F>>(
    log_height: usize,
    point: EF,
) -> bool
    requires within_two_adicity { log_height ≤ F.TWO_ADICITY }
    ensures { IsTrue result ↔ IsOnCoset F.ops EF.lift F.root F.GENERATOR log_height point }
{
    let shift_power = F::GENERATOR.exp_power_of_2(log_height);
    are_equal(point.exp_power_of_2(log_height), EF::from_base(shift_power))
}

/// The index of the first point that lies in the evaluation coset of this log height.
fn first_in_evaluation_domain<F: TwoAdicField, EF: ExtensionField<F>>(
    log_height: usize,
    points: &[EF],
) -> Option<usize>
    requires within_two_adicity { log_height ≤ F.TWO_ADICITY }
    ensures { let fields = ⟦<EF as ChallengeField<F>>⟧.fields in
        MatchOption result (All (IsOff fields log_height) points.now)
        (FirstAt (IsOff fields log_height) (IsOn fields log_height) points.now) }
{
    for (index, point) in points.iter().enumerate() {
        if is_in_evaluation_domain::<F, EF>(log_height, *point) {
            return Some(index);
        }
    }
    None
}

/// Whether no point of round `index` lies in its matrix's evaluation coset, where the opening would
/// divide by zero. Otherwise the refusal names the first that does, matrix by matrix.
pub fn check_round_points<F: TwoAdicField, EF: ExtensionField<F>>(
    index: usize,
    round: &OpeningRound<'_, F, EF>,
) -> Result<(), FriProverError>
    requires round { IsRound F.TWO_ADICITY round.now }
    ensures { let fields = ⟦<EF as ChallengeField<F>>⟧.fields in
        MatchResult result (λ _. ArePointsOff fields round.now)
        (RoundPointRefusal fields index round.now) }
{
    for matrix in 0..round.matrices.len() {
        let log_height = log2_strict_usize(round.matrices[matrix].height());
        let points = round.points[matrix].as_slice();
        if let Some(point) = first_in_evaluation_domain::<F, EF>(log_height, points) {
            return Err(FriProverError::PointInEvaluationDomain {
                round: index,
                matrix,
                point,
            });
        }
    }
    Ok(())
}

/// Whether no point lies in its matrix's evaluation coset, where the opening would divide by zero.
/// Otherwise the refusal names the first that does, round by round, matrix by matrix. The test
/// takes no memory.
pub fn check_points<F: TwoAdicField, EF: ExtensionField<F>>(
    rounds: &[OpeningRound<'_, F, EF>],
) -> Result<(), FriProverError>
    requires rounds { All (IsRound F.TWO_ADICITY) rounds.now }
    ensures { let fields = ⟦<EF as ChallengeField<F>>⟧.fields in
        MatchResult result (λ _. All (ArePointsOff fields) rounds.now)
        (PointRefusal fields rounds.now) }
{
    for (index, round) in rounds.iter().enumerate() {
        if let Err(refusal) = check_round_points(index, round) {
            return Err(refusal);
        }
    }
    Ok(())
}
