//! The openings of the committed matrices' rows at the queries' positions.

ghost use Rattle.std.specs.Prelude.{◌≡◌, ◌≢◌, ◌⊎◌, ◌<◌, ◌≤◌, ◌+◌, ◌^◌, length, map, All, IfOk};
ghost use Rattle.std.specs.Prelude.{MatchOption, MatchResult};
ghost use Rattle.std.specs.List.{Any, AllZip, zip};
ghost use Rattle.algebra.specs.Nested.{nested};
ghost use Rattle.p3_mmcs.specs.Batch.{AreBelow};
ghost use Rattle.p3_fri_relation.specs.declared.error.FriError.TheVariants.{OutOfMemory};
ghost use Rattle.p3_fri_relation.specs.Faults.{At, InputFault};
ghost use Rattle.p3_fri_relation.specs.Heights.{matrices_of, width, log_height, dimensions};
ghost use Rattle.p3_fri_relation.specs.Heights.{opened_index};
ghost use Rattle.p3_fri_relation.specs.Inputs.{HasPoints, OpensInput};
ghost use Rattle.p3_fri_relation.specs.Views.{claims_of, matrix_claim, inputs_opened};

use crate::checks::{claimed_width, first_uneven, first_without_points};
use crate::heights::greatest_log_height;
use crate::setting::InputSetting;
use p3_field_core::{ExtensionField, Field, TwoAdicField, TwoAdicMultiplicativeCoset};
use p3_fri_relation::error::FriError;
use p3_fri_relation::setting::ChallengeField;
use p3_matrix::Dimensions;
use p3_mmcs::{MatrixOpening, Mmcs};
use std::alloc::{AllocError, Global};

/// The number of rows in the first set that doesn't have `matrices` of them.
fn wrong_count<T>(sets: &[Vec<Vec<T>>], matrices: usize) -> Option<usize>
    ensures { MatchOption result
        (All (λ rows. length rows ≡ matrices) (nested sets.now))
        (λ got. (got ≢ matrices) × Any (λ rows. length rows ≡ got) (nested sets.now)) }
{
    for k in 0..sets.len() {
        let got = sets[k].len();
        if got != matrices {
            return Some(got);
        }
    }
    None
}

/// The dimensions that the claims give the matrices: no width is taken from a proof.
fn claimed_dimensions<F: TwoAdicField, EF: Field>(
    alloc: Global,
    matrices: &[MatrixOpening<EF, TwoAdicMultiplicativeCoset<F>>],
    log_blowup: usize,
) -> Result<Vec<Dimensions>, AllocError>
    requires heights { All (λ m. log_height log_blowup m < 64)
        (map (matrix_claim (λ domain. domain.log_size)) matrices.now) }
    ensures { IfOk result (λ dims. dims.items ≡ map (dimensions log_blowup)
        (map (matrix_claim (λ domain. domain.log_size)) matrices.now)) }
{
    let mut dims = Vec::with_capacity(alloc, matrices.len())?;
    for k in 0..matrices.len() {
        let width = claimed_width(&matrices[k]);
        let height = 1 << (matrices[k].domain.log_size + log_blowup);
        dims.push(Dimensions { width, height })?;
    }
    Ok(dims)
}

/// The index that each position opens of these matrices. Where there is no matrix, the greatest log
/// height is 0, and the shift leaves the index 0.
fn opened_indices<F: TwoAdicField, EF: Field>(
    alloc: Global,
    matrices: &[MatrixOpening<EF, TwoAdicMultiplicativeCoset<F>>],
    log_blowup: usize,
    log_global_max_height: usize,
    indices: &[usize],
) -> Result<Vec<usize>, AllocError>
    requires within_two_adicity { log_global_max_height ≤ F.TWO_ADICITY }
    requires heights { All (λ m. log_height log_blowup m ≤ log_global_max_height)
        (map (matrix_claim (λ domain. domain.log_size)) matrices.now) }
    requires below { AreBelow (2 ^ log_global_max_height) indices.now }
    ensures { IfOk result (λ opened. opened.items ≡ map (opened_index log_blowup
        log_global_max_height (map (matrix_claim (λ domain. domain.log_size)) matrices.now))
        indices.now) }
{
    let shift = log_global_max_height - greatest_log_height(matrices, log_blowup);
    let mut opened = Vec::with_capacity(alloc, indices.len())?;
    for j in 0..indices.len() {
        opened.push(indices[j] >> shift)?;
    }
    Ok(opened)
}

/// Whether the openings of one commitment are those of its matrices: one set of rows for each
/// index, of one row for each matrix, that the scheme takes for the commitment's.
fn verify_commitment<F: TwoAdicField, EF: ExtensionField<F>, InputMmcs: Mmcs<F>, RoundErr>(
    alloc: Global,
    input_mmcs: &InputMmcs,
    setting: &InputSetting<'_, F, EF, InputMmcs>,
    batch: usize,
) -> Result<(), FriError<RoundErr, InputMmcs::Error>>
    requires within_two_adicity { setting.now.log_global_max_height ≤ F.TWO_ADICITY }
    requires heights { let s = setting.now in
        All (λ m. log_height s.log_blowup m ≤ s.log_global_max_height)
        (matrices_of (claims_of (λ domain. domain.log_size) s.claims.now)) }
    requires below { AreBelow (2 ^ setting.now.log_global_max_height) setting.now.indices.now }
    requires count { length setting.now.openings.now ≡ length setting.now.claims.now }
    requires batch { batch < length setting.now.claims.now }
    ensures { let f = ⟦<EF as ChallengeField<F>>⟧.fields in
        let s = setting.now in
        let cs = claims_of (λ domain. domain.log_size) s.claims.now in
        let inputs = inputs_opened s.openings.now in
        let opens = InputMmcs.opens input_mmcs.now in
        MatchResult result
        (λ _. At batch (λ pair. OpensInput opens s.log_blowup s.log_global_max_height
        s.indices.now pair.0 pair.1) (zip cs inputs))
        (λ e. (e ≡ OutOfMemory) ⊎ ((alpha : EF) → InputFault f s.log_blowup alpha
        s.log_global_max_height cs inputs opens s.indices.now e)) }
{
    let claims = setting.claims;
    let openings = setting.openings;
    let indices = setting.indices;
    let claim = &claims[batch];
    let opening = &openings[batch];
    let got = opening.opened_values.len();
    if got != indices.len() {
        return Err(FriError::InputOpeningsQueryCountMismatch {
            batch,
            expected: indices.len(),
            got,
        });
    }
    let expected = claim.matrices.len();
    if let Some(got) = wrong_count(&opening.opened_values, expected) {
        return Err(FriError::BatchOpenedValuesCountMismatch {
            batch,
            expected,
            got,
        });
    }
    let dims = claimed_dimensions(alloc, &claim.matrices, setting.log_blowup)?;
    let opened = opened_indices(
        alloc,
        &claim.matrices,
        setting.log_blowup,
        setting.log_global_max_height,
        indices,
    )?;
    match input_mmcs.verify_multi_batch(
        &claim.commitment,
        &dims,
        &opened,
        &opening.opened_values,
        &opening.opening_proof,
    ) {
        Ok(()) => Ok(()),
        Err(error) => Err(FriError::InputError(error)),
    }
}

/// Whether the openings of all commitments are.
fn verify_commitments<F: TwoAdicField, EF: ExtensionField<F>, InputMmcs: Mmcs<F>, RoundErr>(
    alloc: Global,
    input_mmcs: &InputMmcs,
    setting: &InputSetting<'_, F, EF, InputMmcs>,
) -> Result<(), FriError<RoundErr, InputMmcs::Error>>
    requires within_two_adicity { setting.now.log_global_max_height ≤ F.TWO_ADICITY }
    requires heights { let s = setting.now in
        All (λ m. log_height s.log_blowup m ≤ s.log_global_max_height)
        (matrices_of (claims_of (λ domain. domain.log_size) s.claims.now)) }
    requires below { AreBelow (2 ^ setting.now.log_global_max_height) setting.now.indices.now }
    requires count { length setting.now.openings.now ≡ length setting.now.claims.now }
    ensures { let f = ⟦<EF as ChallengeField<F>>⟧.fields in
        let s = setting.now in
        let cs = claims_of (λ domain. domain.log_size) s.claims.now in
        let inputs = inputs_opened s.openings.now in
        let opens = InputMmcs.opens input_mmcs.now in
        MatchResult result
        (λ _. AllZip (OpensInput opens s.log_blowup s.log_global_max_height s.indices.now)
        cs inputs)
        (λ e. (e ≡ OutOfMemory) ⊎ ((alpha : EF) → InputFault f s.log_blowup alpha
        s.log_global_max_height cs inputs opens s.indices.now e)) }
{
    for batch in 0..setting.claims.len() {
        verify_commitment(alloc, input_mmcs, setting, batch)?;
    }
    Ok(())
}

/// Whether each matrix is claimed at some point and of as many values at each, and there is one
/// opening for each commitment, which the scheme takes for the commitment's.
pub(crate) fn check_openings<F: TwoAdicField, EF: ExtensionField<F>, InputMmcs: Mmcs<F>, RoundErr>(
    alloc: Global,
    input_mmcs: &InputMmcs,
    setting: &InputSetting<'_, F, EF, InputMmcs>,
) -> Result<(), FriError<RoundErr, InputMmcs::Error>>
    requires within_two_adicity { setting.now.log_global_max_height ≤ F.TWO_ADICITY }
    requires heights { let s = setting.now in
        All (λ m. log_height s.log_blowup m ≤ s.log_global_max_height)
        (matrices_of (claims_of (λ domain. domain.log_size) s.claims.now)) }
    requires below { AreBelow (2 ^ setting.now.log_global_max_height) setting.now.indices.now }
    ensures { let f = ⟦<EF as ChallengeField<F>>⟧.fields in
        let s = setting.now in
        let cs = claims_of (λ domain. domain.log_size) s.claims.now in
        let inputs = inputs_opened s.openings.now in
        let opens = InputMmcs.opens input_mmcs.now in
        MatchResult result
        (λ _. (All HasPoints (matrices_of cs))
        × AllZip (OpensInput opens s.log_blowup s.log_global_max_height s.indices.now) cs inputs)
        (λ e. (e ≡ OutOfMemory) ⊎ ((alpha : EF) → InputFault f s.log_blowup alpha
        s.log_global_max_height cs inputs opens s.indices.now e)) }
{
    let claims = setting.claims;
    let openings = setting.openings;
    if openings.len() != claims.len() {
        return Err(FriError::InputProofBatchCountMismatch {
            expected: claims.len(),
            got: openings.len(),
        });
    }
    if let Some((batch, matrix)) = first_without_points(claims) {
        return Err(FriError::MatrixWithoutOpeningPoints { batch, matrix });
    }
    if let Some(found) = first_uneven(claims) {
        return Err(FriError::PointEvaluationCountMismatch {
            batch: found.batch,
            matrix: found.matrix,
            point: found.point,
            expected: found.expected,
            got: found.got,
        });
    }
    verify_commitments(alloc, input_mmcs, setting)
}
