//! The call that opens the inputs.

ghost use Rattle.std.specs.Prelude.{◌≡◌, ◌≢◌, ◌<◌, ◌≤◌, ◌+◌, ◌/◌, ◌^◌, ◌↔◌, ℕ, length, map, All};
ghost use Rattle.std.specs.Prelude.{IsTrue, IsOk, IfOk, IfErr, Err, MatchOption, slice_index};
ghost use Rattle.std.specs.Prelude.{EachIndex, SomeIndex, slice_index_or, vec_len};
ghost use Rattle.std.specs.List.{AllZip, flat_map};
ghost use Rattle.algebra.specs.Nested.{lists};
ghost use Rattle.algebra.specs.Polynomial.{tabulate};
ghost use Rattle.p3_mmcs.specs.Batch.{AreBelow};
ghost use Rattle.p3_fri_relation.specs.declared.error.FriError.TheVariants.{OutOfMemory};
ghost use Rattle.p3_fri_relation.specs.Faults.{InputFault};
ghost use Rattle.p3_fri_relation.specs.Heights.{matrices_of, log_height, has_height, heights_of};
ghost use Rattle.p3_fri_relation.specs.Inputs.{HasPoints, sum_at, sums_at, AreInputsGood};
ghost use Rattle.p3_fri_relation.specs.QuotientSums.{point_read, IsDefinedAt};
ghost use Rattle.p3_fri_relation.specs.Views.{claims_of, inputs_opened};
ghost use Rattle.p3_fri_inputs.specs.Claims.{distances, combined_values, HasRowsAt, IsReadable};

use crate::claims::{combine_claims, greatest_width};
use crate::heights::{falling_heights, has_height};
use crate::opening::check_openings;
use crate::points::inverse_distances;
use crate::setting::InputSetting;
use crate::sums::query_sums;
use p3_field_core::{ExtensionField, Field, TwoAdicField, TwoAdicMultiplicativeCoset};
use p3_fri_relation::error::{FriError, FriOpenings};
use p3_fri_relation::proof::BatchMultiOpening;
use p3_fri_relation::setting::ChallengeField;
use p3_fri_relation::{FriParameters, Ladder};
use p3_mmcs::{CommitmentOpening, Mmcs};
use std::alloc::{AllocError, Global};

/// The sums of these log heights, each beside its log height.
fn list_sums<EF: Field>(
    alloc: Global,
    heights: &[usize],
    sums: &[EF],
) -> Result<FriOpenings<EF>, AllocError>
    requires within { All (λ h. h < length sums.now) heights.now }
    ensures { IfOk result (λ openings. openings.items
        ≡ map (λ h. (h, slice_index_or sums.now h EF.ops.zero)) heights.now) }
{
    let mut openings = Vec::with_capacity(alloc, heights.len())?;
    for k in 0..heights.len() {
        let h = heights[k];
        openings.push((h, sums[h]))?;
    }
    Ok(openings)
}

/// Whether the sum of the constants' log height, if a matrix has it, is zero.
fn is_constant_zero<EF: Field>(has_constants: bool, sums: &[EF], log_blowup: usize) -> bool
    requires within { IsTrue has_constants → log_blowup < length sums.now }
    ensures { IsTrue result ↔ (IsTrue has_constants →
        slice_index_or sums.now log_blowup EF.ops.zero ≡ EF.ops.zero) }
{
    !has_constants || sums[log_blowup].is_zero()
}

/// What one query meets, or `None` if its quotient sum of the constants isn't zero.
fn query_openings<F: TwoAdicField, EF: ExtensionField<F>, InputMmcs: Mmcs<F>>(
    alloc: Global,
    setting: &InputSetting<'_, F, EF, InputMmcs>,
    ladder: &Ladder<EF>,
    query: usize,
    combined: &[Vec<EF>],
    inverses: &[EF],
    heights: &[usize],
) -> Result<Option<FriOpenings<EF>>, AllocError>
    requires within_two_adicity { setting.now.log_global_max_height ≤ F.TWO_ADICITY }
    requires readable { let s = setting.now in All
        (IsReadable s.log_blowup (s.log_global_max_height + 1) (vec_len ladder.now.powers))
        (matrices_of (claims_of (λ domain. domain.log_size) s.claims.now)) }
    requires rows { let s = setting.now in AllZip (HasRowsAt s.log_blowup query)
        (claims_of (λ domain. domain.log_size) s.claims.now) (inputs_opened s.openings.now) }
    requires combined { lists combined.now
        ≡ map (λ c. combined_values EF.ops ladder.now.alpha c.matrices)
        (claims_of (λ domain. domain.log_size) setting.now.claims.now) }
    requires inverses { length inverses.now ≡ length (combined_values EF.ops ladder.now.alpha
        (matrices_of (claims_of (λ domain. domain.log_size) setting.now.claims.now))) }
    requires heights { heights.now ≡ heights_of setting.now.log_blowup
        (matrices_of (claims_of (λ domain. domain.log_size) setting.now.claims.now)) }
    ensures { let f = ⟦<EF as ChallengeField<F>>⟧.fields in
        let s = setting.now in
        let cs = claims_of (λ domain. domain.log_size) s.claims.now in
        let inputs = inputs_opened s.openings.now in
        IfOk result (λ found. (position : ℕ) →
        inverses.now ≡ map EF.ops.inv (distances EF.ops s.log_blowup
        (point_read f s.log_global_max_height position) (matrices_of cs)) →
        MatchOption found
        (IsTrue (has_height s.log_blowup (matrices_of cs) s.log_blowup) × (sum_at f s.log_blowup
        ladder.now.alpha s.log_global_max_height cs inputs query position s.log_blowup
        ≢ EF.ops.zero))
        (λ answer. (answer.items ≡ sums_at f s.log_blowup ladder.now.alpha
        s.log_global_max_height cs inputs query position)
        × (IsTrue (has_height s.log_blowup (matrices_of cs) s.log_blowup) → sum_at f s.log_blowup
        ladder.now.alpha s.log_global_max_height cs inputs query position s.log_blowup
        ≡ EF.ops.zero))) }
{
    let log_blowup = setting.log_blowup;
    let sums = query_sums(alloc, setting, ladder, query, combined, inverses)?;
    let has_constants = has_height(setting.claims, log_blowup, log_blowup);
    if !is_constant_zero(has_constants, &sums, log_blowup) {
        return Ok(None);
    }
    Ok(Some(list_sums(alloc, heights, &sums)?))
}

/// How many of the inverses belong to each index, where there is one.
fn inverses_per_index<EF: Field>(inverses: &[EF], indices: &[usize]) -> usize
    ensures { 0 < length indices.now → result ≡ length inverses.now / length indices.now }
{
    if indices.is_empty() {
        0
    } else {
        inverses.len() / indices.len()
    }
}

/// What each query meets, or `None` if some quotient sum of the constants isn't zero, by what all
/// queries share. `inverses` are those of the claimed points' distances from the points read, query
/// by query.
fn openings_by_query<F: TwoAdicField, EF: ExtensionField<F>, InputMmcs: Mmcs<F>>(
    alloc: Global,
    setting: &InputSetting<'_, F, EF, InputMmcs>,
    ladder: &Ladder<EF>,
    combined: &[Vec<EF>],
    inverses: &[EF],
    heights: &[usize],
) -> Result<Option<Vec<FriOpenings<EF>>>, AllocError>
    requires within_two_adicity { setting.now.log_global_max_height ≤ F.TWO_ADICITY }
    requires readable { let s = setting.now in All
        (IsReadable s.log_blowup (s.log_global_max_height + 1) (vec_len ladder.now.powers))
        (matrices_of (claims_of (λ domain. domain.log_size) s.claims.now)) }
    requires rows { let s = setting.now in
        (j : ℕ) → j < length s.indices.now → AllZip (HasRowsAt s.log_blowup j)
        (claims_of (λ domain. domain.log_size) s.claims.now) (inputs_opened s.openings.now) }
    requires combined { lists combined.now
        ≡ map (λ c. combined_values EF.ops ladder.now.alpha c.matrices)
        (claims_of (λ domain. domain.log_size) setting.now.claims.now) }
    requires inverses { let f = ⟦<EF as ChallengeField<F>>⟧.fields in
        let s = setting.now in
        inverses.now ≡ map EF.ops.inv (flat_map (λ q. distances EF.ops s.log_blowup
        (point_read f s.log_global_max_height q)
        (matrices_of (claims_of (λ domain. domain.log_size) s.claims.now))) s.indices.now) }
    requires heights { heights.now ≡ heights_of setting.now.log_blowup
        (matrices_of (claims_of (λ domain. domain.log_size) setting.now.claims.now)) }
    ensures { let f = ⟦<EF as ChallengeField<F>>⟧.fields in
        let s = setting.now in
        let cs = claims_of (λ domain. domain.log_size) s.claims.now in
        let inputs = inputs_opened s.openings.now in
        let sum = λ (j h : ℕ). sum_at f s.log_blowup ladder.now.alpha s.log_global_max_height
        cs inputs j (slice_index s.indices.now j) h in
        IfOk result (λ found. MatchOption found
        (IsTrue (has_height s.log_blowup (matrices_of cs) s.log_blowup)
        × SomeIndex s.indices.now (λ j. sum j s.log_blowup ≢ EF.ops.zero))
        (λ answers. (lists answers.items ≡ tabulate (length s.indices.now) (λ j. sums_at f
        s.log_blowup ladder.now.alpha s.log_global_max_height cs inputs j
        (slice_index s.indices.now j)))
        × ((j : ℕ) → j < length s.indices.now →
        IsTrue (has_height s.log_blowup (matrices_of cs) s.log_blowup) →
        sum j s.log_blowup ≡ EF.ops.zero))) }
{
    let indices = setting.indices;
    let count = inverses_per_index(inverses, indices);
    let mut answers = Vec::with_capacity(alloc, indices.len())?;
    let mut start = 0;
    for j in 0..indices.len() {
        let end = start + count;
        let found = query_openings(
            alloc,
            setting,
            ladder,
            j,
            combined,
            &inverses[start..end],
            heights,
        )?;
        let Some(answer) = found else {
            return Ok(None);
        };
        answers.push(answer)?;
        start = end;
    }
    Ok(Some(answers))
}

/// What each query meets, or `None` if some quotient sum of the constants isn't zero. `inverses`
/// are those of the claimed points' distances from the points read, query by query.
fn all_openings<F: TwoAdicField, EF: ExtensionField<F>, InputMmcs: Mmcs<F>>(
    alloc: Global,
    setting: &InputSetting<'_, F, EF, InputMmcs>,
    alpha: EF,
    inverses: &[EF],
) -> Result<Option<Vec<FriOpenings<EF>>>, AllocError>
    requires within_two_adicity { setting.now.log_global_max_height ≤ F.TWO_ADICITY }
    requires heights { let s = setting.now in
        All (λ m. log_height s.log_blowup m ≤ s.log_global_max_height)
        (matrices_of (claims_of (λ domain. domain.log_size) s.claims.now)) }
    requires points { All HasPoints
        (matrices_of (claims_of (λ domain. domain.log_size) setting.now.claims.now)) }
    requires rows { let s = setting.now in
        (j : ℕ) → j < length s.indices.now → AllZip (HasRowsAt s.log_blowup j)
        (claims_of (λ domain. domain.log_size) s.claims.now) (inputs_opened s.openings.now) }
    requires inverses { let f = ⟦<EF as ChallengeField<F>>⟧.fields in
        let s = setting.now in
        inverses.now ≡ map EF.ops.inv (flat_map (λ q. distances EF.ops s.log_blowup
        (point_read f s.log_global_max_height q)
        (matrices_of (claims_of (λ domain. domain.log_size) s.claims.now))) s.indices.now) }
    ensures { let f = ⟦<EF as ChallengeField<F>>⟧.fields in
        let s = setting.now in
        let cs = claims_of (λ domain. domain.log_size) s.claims.now in
        let inputs = inputs_opened s.openings.now in
        let sum = λ (j h : ℕ). sum_at f s.log_blowup alpha s.log_global_max_height cs inputs j
        (slice_index s.indices.now j) h in
        IfOk result (λ found. MatchOption found
        (IsTrue (has_height s.log_blowup (matrices_of cs) s.log_blowup)
        × SomeIndex s.indices.now (λ j. sum j s.log_blowup ≢ EF.ops.zero))
        (λ answers. (lists answers.items ≡ tabulate (length s.indices.now) (λ j. sums_at f
        s.log_blowup alpha s.log_global_max_height cs inputs j (slice_index s.indices.now j)))
        × ((j : ℕ) → j < length s.indices.now →
        IsTrue (has_height s.log_blowup (matrices_of cs) s.log_blowup) →
        sum j s.log_blowup ≡ EF.ops.zero))) }
{
    let claims = setting.claims;
    let ladder = Ladder::new(alloc, alpha, greatest_width(claims))?;
    let combined = combine_claims(alloc, &ladder, claims)?;
    let heights = falling_heights(
        alloc,
        claims,
        setting.log_blowup,
        setting.log_global_max_height,
    )?;
    openings_by_query(alloc, setting, &ladder, &combined, inverses, &heights)
}

/// The quotient sums of checked openings, query by query.
fn sum_inputs<F: TwoAdicField, EF: ExtensionField<F>, InputMmcs: Mmcs<F>, A, B>(
    alloc: Global,
    setting: &InputSetting<'_, F, EF, InputMmcs>,
    alpha: EF,
) -> Result<Vec<FriOpenings<EF>>, FriError<A, B>>
    requires within_two_adicity { setting.now.log_global_max_height ≤ F.TWO_ADICITY }
    requires heights { let s = setting.now in
        All (λ m. log_height s.log_blowup m ≤ s.log_global_max_height)
        (matrices_of (claims_of (λ domain. domain.log_size) s.claims.now)) }
    requires points { All HasPoints
        (matrices_of (claims_of (λ domain. domain.log_size) setting.now.claims.now)) }
    requires rows { let s = setting.now in
        (j : ℕ) → j < length s.indices.now → AllZip (HasRowsAt s.log_blowup j)
        (claims_of (λ domain. domain.log_size) s.claims.now) (inputs_opened s.openings.now) }
    ensures defined { let f = ⟦<EF as ChallengeField<F>>⟧.fields in
        let s = setting.now in
        IsOk result → EachIndex s.indices.now (λ j.
        IsDefinedAt f s.log_blowup s.log_global_max_height
        (claims_of (λ domain. domain.log_size) s.claims.now) (slice_index s.indices.now j)) }
    ensures constants { let f = ⟦<EF as ChallengeField<F>>⟧.fields in
        let s = setting.now in
        let cs = claims_of (λ domain. domain.log_size) s.claims.now in
        IsOk result → (j : ℕ) → j < length s.indices.now →
        IsTrue (has_height s.log_blowup (matrices_of cs) s.log_blowup) →
        sum_at f s.log_blowup alpha s.log_global_max_height cs (inputs_opened s.openings.now) j
        (slice_index s.indices.now j) s.log_blowup ≡ EF.ops.zero }
    ensures sums { let f = ⟦<EF as ChallengeField<F>>⟧.fields in
        let s = setting.now in
        IfOk result (λ openings. lists openings.items ≡ tabulate (length s.indices.now)
        (λ j. sums_at f s.log_blowup alpha s.log_global_max_height
        (claims_of (λ domain. domain.log_size) s.claims.now) (inputs_opened s.openings.now) j
        (slice_index s.indices.now j))) }
    ensures fault { let f = ⟦<EF as ChallengeField<F>>⟧.fields in
        let s = setting.now in
        (mmcs : InputMmcs) → IfErr result (InputFault f s.log_blowup alpha s.log_global_max_height
        (claims_of (λ domain. domain.log_size) s.claims.now)
        (inputs_opened s.openings.now) (InputMmcs.opens mmcs) s.indices.now) }
{
    let found = inverse_distances(
        alloc,
        setting.log_blowup,
        setting.log_global_max_height,
        setting.indices,
        setting.claims,
    )?;
    let inverses = match found {
        Ok(inverses) => inverses,
        Err(at) => {
            return Err(FriError::OpeningPointMatchesQueryPoint {
                batch: at.batch,
                matrix: at.matrix,
                point: at.point,
            });
        },
    };
    let summed = all_openings(alloc, setting, alpha, &inverses)?;
    match summed {
        Some(openings) => Ok(openings),
        None => Err(FriError::FinalPolyMismatch),
    }
}

/// Opens the committed inputs at the queries' positions, and gives for each the quotient sums that
/// it meets: for the log height of each claimed matrix, the greatest first, the sum over
/// commitments, matrices of that log height, points and columns, in this order, of `alpha^t` times
/// `(y - f(x)) / (z - x)`, where `t` counts the terms, `y` is claimed of a column at the point `z`,
/// and `f(x)` is opened of it at the point `x` that the position reads.
///
/// `indices` are the positions, already without the strategy's extra bits; `input_openings` open
/// each commitment, in the order of `claims`. The claimed domains' shifts aren't read. All inverses
/// are found by one inversion. Without an index no sum is asked for, all else is verified alike,
/// and the answer is the empty list.
///
/// Refused, with what is wrong: openings that aren't one for each commitment
/// (`InputProofBatchCountMismatch`), nor one set of rows for each index
/// (`InputOpeningsQueryCountMismatch`) and one row for each matrix
/// (`BatchOpenedValuesCountMismatch`), or that the scheme refuses (`InputError`); a matrix that is
/// claimed at no point (`MatrixWithoutOpeningPoints`), or of another number of values at a point
/// than at its first (`PointEvaluationCountMismatch`); a claimed point that is the one read
/// (`OpeningPointMatchesQueryPoint`); a quotient sum of the log height `log_blowup`, where columns
/// are constant, that isn't zero (`FinalPolyMismatch`); and want of memory (`OutOfMemory`).
pub fn open_inputs<F: TwoAdicField, EF: ExtensionField<F>, M: Mmcs<EF>, InputMmcs: Mmcs<F>>(
    alloc: Global,
    params: &FriParameters<M>,
    log_global_max_height: usize,
    indices: &[usize],
    input_openings: &[BatchMultiOpening<F, InputMmcs>],
    alpha: EF,
    input_mmcs: &InputMmcs,
    claims: &[CommitmentOpening<EF, InputMmcs::Commitment, TwoAdicMultiplicativeCoset<F>>],
) -> Result<Vec<FriOpenings<EF>>, FriError<M::Error, InputMmcs::Error>>
    requires within_two_adicity { log_global_max_height ≤ F.TWO_ADICITY }
    requires heights { All (λ m. log_height params.now.log_blowup m ≤ log_global_max_height)
        (matrices_of (claims_of (λ domain. domain.log_size) claims.now)) }
    requires below { AreBelow (2 ^ log_global_max_height) indices.now }
    ensures exact { let f = ⟦<EF as ChallengeField<F>>⟧.fields in
        result ≢ Err OutOfMemory → (IsOk result ↔ AreInputsGood f params.now.log_blowup alpha
        log_global_max_height (claims_of (λ domain. domain.log_size) claims.now)
        (inputs_opened input_openings.now) (InputMmcs.opens input_mmcs.now) indices.now) }
    ensures sums { let f = ⟦<EF as ChallengeField<F>>⟧.fields in
        IfOk result (λ openings. lists openings.items ≡ tabulate (length indices.now)
        (λ j. sums_at f params.now.log_blowup alpha log_global_max_height
        (claims_of (λ domain. domain.log_size) claims.now) (inputs_opened input_openings.now) j
        (slice_index indices.now j))) }
    ensures fault { let f = ⟦<EF as ChallengeField<F>>⟧.fields in
        IfErr result (InputFault f params.now.log_blowup alpha log_global_max_height
        (claims_of (λ domain. domain.log_size) claims.now)
        (inputs_opened input_openings.now) (InputMmcs.opens input_mmcs.now) indices.now) }
{
    let setting = InputSetting {
        log_blowup: params.log_blowup,
        log_global_max_height,
        indices,
        claims,
        openings: input_openings,
    };
    if let Err(error) = check_openings(alloc, input_mmcs, &setting) {
        return Err(error);
    }
    sum_inputs(alloc, &setting, alpha)
}
