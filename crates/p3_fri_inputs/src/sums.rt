//! Quotient sums at a query, by Horner's rule: from the last term to the first.

ghost use Rattle.std.specs.Prelude.{◌≡◌, ◌<◌, ◌≤◌, ◌+◌, ℕ, List, [], length, map, ◌++◌, All};
ghost use Rattle.std.specs.Prelude.{vec_len, IfOk, slice_index_or, slice_set};
ghost use Rattle.std.specs.List.{flat_map, slice_range, AllZip};
ghost use Rattle.algebra.specs.Field.{pow};
ghost use Rattle.algebra.specs.Nested.{lists};
ghost use Rattle.algebra.specs.Polynomial.{val, tabulate};
ghost use Rattle.algebra.specs.Quotients.{quotients};
ghost use Rattle.p3_mmcs.specs.Batch.{HasRows};
ghost use Rattle.p3_fri_relation.specs.Heights.{matrices_of, width, dimensions};
ghost use Rattle.p3_fri_relation.specs.Inputs.{rows_at};
ghost use Rattle.p3_fri_relation.specs.QuotientSums.{matrix_terms, commitment_terms, terms};
ghost use Rattle.p3_pcs.specs.Claims.{PointClaim};
ghost use Rattle.p3_fri_relation.specs.Setting.{MatrixClaim};
ghost use Rattle.p3_fri_relation.specs.Views.{claims_of, inputs_opened};
ghost use Rattle.p3_fri_inputs.specs.Claims.{claim_of, combined_values, distances, input_of};
ghost use Rattle.p3_fri_inputs.specs.Claims.{IsReadable, HasRowsAt};
ghost use Rattle.p3_fri_inputs.specs.Points.{AreCombined};

use crate::setting::InputSetting;
use p3_field_core::{ExtensionField, Field, TwoAdicField, TwoAdicMultiplicativeCoset};
use p3_fri_relation::proof::BatchMultiOpening;
use p3_fri_relation::setting::ChallengeField;
use p3_fri_relation::{Ladder, combine_row};
use p3_mmcs::{CommitmentOpening, MatrixOpening, Mmcs};
use std::alloc::{AllocError, Global};

/// What the quotients at some claimed points are made of, point by point.
#[derive(Drop)]
struct PointValues<'a, EF> {
    /// The values that are claimed at each point, combined by the ladder.
    claimed: &'a [EF],
    /// The inverse of each point's distance from the point read.
    inverses: &'a [EF],
}

/// The sum of a matrix's quotients at its points and of the terms after them, of which `sum` is the
/// sum: of each point the combined values that are claimed there and the inverse of its distance
/// from the point read, of the opened row its combined values, and the power by which a point's
/// terms move what follows.
fn add_points<EF: Field>(sum: EF, claimed: &[EF], inverses: &[EF], at_row: EF, step: EF) -> EF
    requires { length inverses.now ≡ length claimed.now }
    ensures { (alpha x : EF) (points : List (PointClaim EF)) (row later : List EF) →
        AreCombined EF.ops alpha x points row claimed.now inverses.now →
        at_row ≡ val EF.ops row alpha →
        step ≡ pow EF.ops alpha (length row) →
        sum ≡ val EF.ops later alpha →
        result ≡ val EF.ops
        (flat_map (λ z. quotients EF.ops z.point x z.values row) points ++ later) alpha }
{
    let mut sum = sum;
    for k in (0..claimed.len()).rev() {
        sum = (claimed[k] - at_row) * inverses[k] + step * sum;
    }
    sum
}

/// The sum of a matrix's quotients, of which `row` is the opened row, and of the terms after them.
fn add_matrix<F: TwoAdicField, EF: ExtensionField<F>>(
    ladder: &Ladder<EF>,
    sum: EF,
    row: &[F],
    claimed: &[EF],
    inverses: &[EF],
) -> EF
    requires width { length row.now ≤ vec_len ladder.now.powers }
    requires inverses { length inverses.now ≡ length claimed.now }
    ensures { let f = ⟦<EF as ChallengeField<F>>⟧.fields in
        (x : EF) (m : MatrixClaim EF) (later : List EF) →
        AreCombined EF.ops ladder.now.alpha x m.points (map EF.lift row.now) claimed.now
        inverses.now →
        sum ≡ val EF.ops later ladder.now.alpha →
        result ≡ val EF.ops (matrix_terms f x m row.now ++ later) ladder.now.alpha }
{
    let at_row = combine_row(ladder, row);
    add_points(sum, claimed, inverses, at_row, ladder.step(row.len()))
}

/// Puts a matrix's quotients before the terms of its log height, whose sum stands in `sums`. What
/// belongs to its points ends at `end` in `points`; the answer is where it begins.
fn add_block<F: TwoAdicField, EF: ExtensionField<F>>(
    ladder: &Ladder<EF>,
    sums: &mut [EF],
    log_blowup: usize,
    matrix: &MatrixOpening<EF, TwoAdicMultiplicativeCoset<F>>,
    row: &[F],
    points: &PointValues<'_, EF>,
    end: usize,
) -> usize
    requires height { matrix.now.domain.log_size + log_blowup < length sums.old }
    requires width { length row.now ≤ vec_len ladder.now.powers }
    requires points { vec_len matrix.now.points ≤ end }
    requires end { end ≤ length points.now.claimed.now }
    requires inverses { length points.now.inverses.now ≡ length points.now.claimed.now }
    ensures start { result + vec_len matrix.now.points ≡ end }
    ensures sum { let f = ⟦<EF as ChallengeField<F>>⟧.fields in
        let h = matrix.now.domain.log_size + log_blowup in
        (sum : EF) × (sums.new ≡ slice_set sums.old h sum)
        × ((x : EF) (m : MatrixClaim EF) (later : List EF) →
        AreCombined EF.ops ladder.now.alpha x m.points (map EF.lift row.now)
        (slice_range points.now.claimed.now result end)
        (slice_range points.now.inverses.now result end) →
        slice_index_or sums.old h sum ≡ val EF.ops later ladder.now.alpha →
        sum ≡ val EF.ops (matrix_terms f x m row.now ++ later) ladder.now.alpha) }
{
    let start = end - matrix.points.len();
    let h = matrix.domain.log_size + log_blowup;
    let own_claimed = &points.claimed[start..end];
    let own_inverses = &points.inverses[start..end];
    sums[h] = add_matrix(ladder, sums[h], row, own_claimed, own_inverses);
    start
}

/// Puts the quotients of the matrices under one commitment before the terms of which `sums` has the
/// sum, by log height.
fn add_commitment<F: TwoAdicField, EF: ExtensionField<F>, Com>(
    ladder: &Ladder<EF>,
    sums: &mut [EF],
    log_blowup: usize,
    claim: &CommitmentOpening<EF, Com, TwoAdicMultiplicativeCoset<F>>,
    rows: &[Vec<F>],
    points: &PointValues<'_, EF>,
)
    requires readable { All (IsReadable log_blowup (length sums.old) (vec_len ladder.now.powers))
        (claim_of (λ domain. domain.log_size) claim.now).matrices }
    requires rows { HasRows
        (map (dimensions log_blowup) (claim_of (λ domain. domain.log_size) claim.now).matrices)
        (lists rows.now) }
    requires claimed { points.now.claimed.now ≡ combined_values EF.ops ladder.now.alpha
        (claim_of (λ domain. domain.log_size) claim.now).matrices }
    requires inverses { length points.now.inverses.now ≡ length points.now.claimed.now }
    ensures { let f = ⟦<EF as ChallengeField<F>>⟧.fields in
        let c = claim_of (λ domain. domain.log_size) claim.now in
        (read : ℕ → EF) (later : ℕ → List EF) →
        points.now.inverses.now ≡ map EF.ops.inv (distances EF.ops log_blowup read c.matrices) →
        ((h : ℕ) (d : EF) → h < length sums.old →
        slice_index_or sums.old h d ≡ val EF.ops (later h) ladder.now.alpha) →
        (h : ℕ) (d : EF) → h < length sums.old →
        slice_index_or sums.new h d ≡ val EF.ops
        (commitment_terms f log_blowup h (read h) c (lists rows.now) ++ later h)
        ladder.now.alpha }
{
    let mut end = points.claimed.len();
    for k in (0..claim.matrices.len()).rev() {
        end = add_block(
            ladder,
            sums,
            log_blowup,
            &claim.matrices[k],
            rows[k].as_slice(),
            points,
            end,
        );
    }
}

/// Puts the quotients of the matrices under one commitment, of which `opening` opens the rows at
/// this query, before the terms of which `sums` has the sum, by log height.
fn add_opening<F: TwoAdicField, EF: ExtensionField<F>, InputMmcs: Mmcs<F>>(
    ladder: &Ladder<EF>,
    sums: &mut [EF],
    log_blowup: usize,
    claim: &CommitmentOpening<EF, InputMmcs::Commitment, TwoAdicMultiplicativeCoset<F>>,
    opening: &BatchMultiOpening<F, InputMmcs>,
    query: usize,
    points: &PointValues<'_, EF>,
)
    requires readable { All (IsReadable log_blowup (length sums.old) (vec_len ladder.now.powers))
        (claim_of (λ domain. domain.log_size) claim.now).matrices }
    requires rows { HasRowsAt log_blowup query
        (claim_of (λ domain. domain.log_size) claim.now) (input_of opening.now) }
    requires claimed { points.now.claimed.now ≡ combined_values EF.ops ladder.now.alpha
        (claim_of (λ domain. domain.log_size) claim.now).matrices }
    requires inverses { length points.now.inverses.now ≡ length points.now.claimed.now }
    ensures { let f = ⟦<EF as ChallengeField<F>>⟧.fields in
        let c = claim_of (λ domain. domain.log_size) claim.now in
        (read : ℕ → EF) (later : ℕ → List EF) →
        points.now.inverses.now ≡ map EF.ops.inv (distances EF.ops log_blowup read c.matrices) →
        ((h : ℕ) (d : EF) → h < length sums.old →
        slice_index_or sums.old h d ≡ val EF.ops (later h) ladder.now.alpha) →
        (h : ℕ) (d : EF) → h < length sums.old →
        slice_index_or sums.new h d ≡ val EF.ops (commitment_terms f log_blowup h (read h) c
        (slice_index_or (input_of opening.now).rows query []) ++ later h)
        ladder.now.alpha }
{
    let rows = opening.opened_values[query].as_slice();
    add_commitment(ladder, sums, log_blowup, claim, rows, points);
}

/// Adds up, in sums that begin at zero, the quotients of all matrices by their log heights, of the
/// rows that `openings` open at this query; `inverses` has those of the points' distances from the
/// points read.
fn add_openings<F: TwoAdicField, EF: ExtensionField<F>, InputMmcs: Mmcs<F>>(
    ladder: &Ladder<EF>,
    sums: &mut [EF],
    setting: &InputSetting<'_, F, EF, InputMmcs>,
    query: usize,
    claimed: &[Vec<EF>],
    inverses: &[EF],
)
    requires readable { let s = setting.now in
        All (IsReadable s.log_blowup (length sums.old) (vec_len ladder.now.powers))
        (matrices_of (claims_of (λ domain. domain.log_size) s.claims.now)) }
    requires rows { let s = setting.now in AllZip (HasRowsAt s.log_blowup query)
        (claims_of (λ domain. domain.log_size) s.claims.now) (inputs_opened s.openings.now) }
    requires claimed { lists claimed.now
        ≡ map (λ c. combined_values EF.ops ladder.now.alpha c.matrices)
        (claims_of (λ domain. domain.log_size) setting.now.claims.now) }
    requires inverses { length inverses.now ≡ length (combined_values EF.ops ladder.now.alpha
        (matrices_of (claims_of (λ domain. domain.log_size) setting.now.claims.now))) }
    ensures { let f = ⟦<EF as ChallengeField<F>>⟧.fields in
        let s = setting.now in
        let cs = claims_of (λ domain. domain.log_size) s.claims.now in
        (read : ℕ → EF) →
        inverses.now ≡ map EF.ops.inv (distances EF.ops s.log_blowup read (matrices_of cs)) →
        ((h : ℕ) (d : EF) → h < length sums.old → slice_index_or sums.old h d ≡ EF.ops.zero) →
        (h : ℕ) (d : EF) → h < length sums.old →
        slice_index_or sums.new h d ≡ val EF.ops (terms f s.log_blowup h (read h) cs
        (rows_at query (inputs_opened s.openings.now))) ladder.now.alpha }
{
    let claims = setting.claims;
    let openings = setting.openings;
    let mut end = inverses.len();
    for i in (0..claims.len()).rev() {
        let claim = &claims[i];
        let own = claimed[i].as_slice();
        let start = end - own.len();
        let points = PointValues {
            claimed: own,
            inverses: &inverses[start..end],
        };
        add_opening(
            ladder,
            sums,
            setting.log_blowup,
            claim,
            &openings[i],
            query,
            &points,
        );
        end = start;
    }
}

/// As many zeros.
fn zeros<EF: Field>(alloc: Global, count: usize) -> Result<Vec<EF>, AllocError>
    ensures items { IfOk result (λ zeros. zeros.items ≡ tabulate count (λ _. EF.ops.zero)) }
    ensures count { IfOk result (λ zeros. vec_len zeros ≡ count) }
{
    let mut zeros = Vec::with_capacity(alloc, count)?;
    for _ in 0..count {
        zeros.push(EF::ZERO)?;
    }
    Ok(zeros)
}

/// The quotient sum of each log height up to the greatest that a query meets; `inverses` has those
/// of the points' distances from the points read.
pub(crate) fn query_sums<F: TwoAdicField, EF: ExtensionField<F>, InputMmcs: Mmcs<F>>(
    alloc: Global,
    setting: &InputSetting<'_, F, EF, InputMmcs>,
    ladder: &Ladder<EF>,
    query: usize,
    claimed: &[Vec<EF>],
    inverses: &[EF],
) -> Result<Vec<EF>, AllocError>
    requires within_two_adicity { setting.now.log_global_max_height ≤ F.TWO_ADICITY }
    requires readable { let s = setting.now in All
        (IsReadable s.log_blowup (s.log_global_max_height + 1) (vec_len ladder.now.powers))
        (matrices_of (claims_of (λ domain. domain.log_size) s.claims.now)) }
    requires rows { let s = setting.now in AllZip (HasRowsAt s.log_blowup query)
        (claims_of (λ domain. domain.log_size) s.claims.now) (inputs_opened s.openings.now) }
    requires claimed { lists claimed.now
        ≡ map (λ c. combined_values EF.ops ladder.now.alpha c.matrices)
        (claims_of (λ domain. domain.log_size) setting.now.claims.now) }
    requires inverses { length inverses.now ≡ length (combined_values EF.ops ladder.now.alpha
        (matrices_of (claims_of (λ domain. domain.log_size) setting.now.claims.now))) }
    ensures count { IfOk result (λ sums. vec_len sums ≡ setting.now.log_global_max_height + 1) }
    ensures sums { let f = ⟦<EF as ChallengeField<F>>⟧.fields in
        let s = setting.now in
        let cs = claims_of (λ domain. domain.log_size) s.claims.now in
        IfOk result (λ sums. (read : ℕ → EF) →
        inverses.now ≡ map EF.ops.inv (distances EF.ops s.log_blowup read (matrices_of cs)) →
        (h : ℕ) (d : EF) → h ≤ s.log_global_max_height →
        slice_index_or sums.items h d ≡ val EF.ops (terms f s.log_blowup h (read h) cs
        (rows_at query (inputs_opened s.openings.now))) ladder.now.alpha) }
{
    let mut sums = zeros(alloc, setting.log_global_max_height + 1)?;
    add_openings(ladder, &mut sums, setting, query, claimed, inverses);
    Ok(sums)
}
