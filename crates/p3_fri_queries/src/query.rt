//! The way of one query.

ghost use Rattle.std.specs.Prelude.{◌≡◌, ◌≢◌, ℕ, ◌+◌, ◌-◌, ◌/◌, ◌^◌, ◌<◌, ◌≤◌, ◌↔◌};
ghost use Rattle.std.specs.Prelude.{List, [], ◌∷◌, map, sum, length, min, take};
ghost use Rattle.std.specs.Prelude.{Err, IsOk, IfOk, IfErr, slice_index, slice_index_or};
ghost use Rattle.algebra.specs.Nested.{lists};
ghost use Rattle.p3_fri_relation.specs.declared.error.FriError.TheVariants.{OutOfMemory};
ghost use Rattle.p3_fri_relation.specs.FoldedQuery.{QueryInput, AreInRange, HasRow, HaveRows};
ghost use Rattle.p3_fri_relation.specs.FoldedQuery.{IsInOrder, AreInputsMet, folded, folded_value};
ghost use Rattle.p3_fri_relation.specs.FoldedQuery.{group_indices, group_rows, gains};
ghost use Rattle.p3_fri_relation.specs.Faults.{QueryFault};
ghost use Rattle.p3_fri_relation.specs.Views.{query_input, siblings_opened, rows_collected};
ghost use Rattle.p3_fri_queries.specs.Settings.{query_in};

use crate::checks::{
    first_out_of_range, first_unmet, first_without_row, last_height, saturated_sum, sums_within,
};
use crate::link::QueryLink;
use crate::rounds::fold_rounds;
use crate::setting::QuerySetting;
use p3_field_core::{ExtensionField, TwoAdicField};
use p3_fri_folding::FriFoldingStrategy;
use p3_fri_relation::error::{FriError, FriOpenings};
use p3_fri_relation::proof::CommitPhaseMultiStep;
use p3_mmcs::Mmcs;
use std::alloc::Global;

/// The refusal of a round that doesn't open the query's row.
fn row_fault<E: Copy, A, B>(
    round: usize,
    query: usize,
    log_arity: usize,
    rows: &[Vec<E>],
) -> FriError<A, B>
    requires small { log_arity < 64 }
    requires query { query < usize.MAX }
    requires missing { ¬ HasRow query log_arity (lists rows.now) }
    ensures { (q : QueryInput E) → round < length q.log_arities → round < length q.siblings
        → q.query ≡ query → slice_index q.log_arities round ≡ log_arity
        → slice_index_or q.siblings round [] ≡ lists rows.now → QueryFault q result }
{
    if query >= rows.len() {
        FriError::CommitPhaseQueryCountMismatch {
            round,
            expected: query + 1,
            got: rows.len(),
        }
    } else {
        FriError::SiblingValuesLengthMismatch {
            round,
            expected: (1 << log_arity) - 1,
            got: rows[query].len(),
        }
    }
}

/// Whether the log arities are those of rounds, each of which opens the query's row, and the
/// distance has room for their sum.
fn check_rounds<E: Copy, M: Mmcs<E>, A, B>(
    query: usize,
    log_arities: &[usize],
    openings: &[CommitPhaseMultiStep<E, M>],
    log_height: usize,
    log_final_height: usize,
) -> Result<(), FriError<A, B>>
    requires query { query < usize.MAX }
    ensures exact { IsOk result ↔ (AreInRange log_arities.now
        × HaveRows query log_arities.now (siblings_opened openings.now)
        × (sum log_arities.now ≤ log_height - log_final_height)) }
    ensures fault { (index : ℕ) (betas : List E) (inputs : List (ℕ × E)) →
        let q = query_input query index betas log_arities.now openings.now inputs
        log_height log_final_height in
        IfErr result (QueryFault q) }
{
    if let Some(round) = first_out_of_range(log_arities) {
        return Err(FriError::FoldScheduleArityOutOfRange {
            round,
            log_arity: log_arities[round],
        });
    }
    if let Some(round) = first_without_row(query, log_arities, openings) {
        let rows = openings[round].sibling_values.as_slice();
        return Err(row_fault(round, query, log_arities[round], rows));
    }
    if !sums_within(log_arities, log_height.saturating_sub(log_final_height)) {
        return Err(FriError::FoldScheduleTooLong {
            total_log_reduction: saturated_sum(log_arities),
            log_global_max_height: log_height,
            log_final_height,
        });
    }
    Ok(())
}

/// The log arities of the rounds that are folded: those that have a challenge and an opening.
fn folded_arities<'a, E: Copy, M: Mmcs<E>>(
    betas: &[E],
    log_arities: &'a [usize],
    openings: &[CommitPhaseMultiStep<E, M>],
) -> &'a [usize]
    ensures { result.now
        ≡ take (min (length betas.now) (length (siblings_opened openings.now))) log_arities.now }
{
    &log_arities[..betas.len().min(openings.len()).min(log_arities.len())]
}

/// The first input's value, where the rounds that are folded lead from its log height to the final
/// one and meet the other inputs.
fn check_inputs<E: Copy, A, B>(
    log_arities: &[usize],
    inputs: &[(usize, E)],
    log_height: usize,
    log_final_height: usize,
) -> Result<E, FriError<A, B>>
    requires { sum log_arities.now ≤ log_height }
    ensures value { (default : E) → IfOk result (λ value.
        value ≡ slice_index_or (map (λ input. input.1) inputs.now) 0 default) }
    ensures exact { (q : QueryInput E) → folded q ≡ log_arities.now → q.inputs ≡ inputs.now
        → q.log_height ≡ log_height
        → IsOk result ↔ ((sum log_arities.now + log_final_height ≡ log_height)
        × AreInputsMet q (map (λ input. input.0) inputs.now)) }
    ensures fault { (q : QueryInput E) → folded q ≡ log_arities.now → q.inputs ≡ inputs.now
        → q.log_height ≡ log_height
        → q.final_height ≡ log_final_height → IfErr result (QueryFault q) }
{
    if inputs.is_empty() {
        return Err(FriError::MissingInitialReducedOpening {
            expected: log_height,
        });
    }
    if inputs[0].0 != log_height {
        return Err(FriError::InitialReducedOpeningHeightMismatch {
            expected: log_height,
            got: inputs[0].0,
        });
    }
    let reached = last_height(log_arities, log_height);
    if reached != log_final_height {
        return Err(FriError::FinalFoldHeightMismatch {
            expected: log_final_height,
            got: reached,
        });
    }
    match first_unmet(log_arities, log_height, &inputs[1..]) {
        None => Ok(inputs[0].1),
        Some((next_log_height, remaining)) => Err(FriError::UnconsumedReducedOpenings {
            next_log_height,
            remaining,
        }),
    }
}

/// The first input's value, where the query is in order.
fn check_query<E: Copy, M: Mmcs<E>, S, A, B>(
    setting: &QuerySetting<'_, E, M, S>,
    query: usize,
    inputs: &[(usize, E)],
) -> Result<E, FriError<A, B>>
    requires query { query < usize.MAX }
    ensures exact { (index : ℕ) → IsOk result
        ↔ IsInOrder (query_in setting.now query index inputs.now) }
    ensures fault { (index : ℕ) → IfErr result
        (QueryFault (query_in setting.now query index inputs.now)) }
    ensures value { (default : E) → IfOk result (λ value.
        value ≡ slice_index_or (map (λ input. input.1) inputs.now) 0 default) }
{
    let log_height = setting.log_global_max_height;
    let log_final_height = setting.log_final_height;
    check_rounds(
        query,
        setting.log_arities,
        setting.openings,
        log_height,
        log_final_height,
    )?;
    let folded = folded_arities(setting.betas, setting.log_arities, setting.openings);
    check_inputs(folded, inputs, log_height, log_final_height)
}

/// Folds one query through the rounds of the setting that have a challenge, a log arity and an
/// opening, and returns the value at which it ends (the query phase of FRI, ICALP 2018; further
/// words are rolled in as in the crate p3-fri).
///
/// The reduced openings are the values of the query's words, by log height. The way begins with the
/// first, at the position `start_index` of a word of log height `log_global_max_height`. A round of
/// log arity `a` folds the row that has the value at its place `start_index % 2^a` and the query's
/// siblings, in order, elsewhere. It shifts `start_index` right by `a`, and where there is a
/// reduced opening of the log height that it reaches, adds that times the challenge to the power
/// `2^a`. Its collectors gain the row: its index, and its values as those of the only matrix.
///
/// Refused are a log arity that isn't from 1 to 63 (`FoldScheduleArityOutOfRange`), a round that
/// doesn't open a row of the query (`CommitPhaseQueryCountMismatch`) or one of other than `2^a - 1`
/// values (`SiblingValuesLengthMismatch`), log arities whose sum is more than the distance between
/// the two log heights (`FoldScheduleTooLong`), no reduced opening (`MissingInitialReducedOpening`)
/// or a first one of another than the greatest log height (`InitialReducedOpeningHeightMismatch`),
/// rounds that don't end at the final log height (`FinalFoldHeightMismatch`), and further reduced
/// openings whose log heights don't fall or to which no round folds (`UnconsumedReducedOpenings`).
/// `OutOfMemory` says that memory was refused. After a refusal `start_index` and the collectors are
/// of no use.
///
/// There is an entry for each log arity in both collectors, the query's number is below the
/// greatest `usize`, the greatest log height is at most the strategy's, and the position is below 2
/// to it.
pub fn fold_query<
    F: TwoAdicField,
    EF: ExtensionField<F>,
    M: Mmcs<EF>,
    S: FriFoldingStrategy<F, EF>,
>(
    alloc: Global,
    setting: &QuerySetting<'_, EF, M, S>,
    query: usize,
    start_index: &mut usize,
    reduced_openings: FriOpenings<EF>,
    group_indices_by_round: &mut [Vec<usize>],
    rows_by_round: &mut [Vec<Vec<Vec<EF>>>],
) -> Result<EF, FriError<M::Error, S::InputError>>
    requires query { query < usize.MAX }
    requires within_max_height { setting.now.log_global_max_height
        ≤ S.max_log_height setting.now.folding.now }
    requires within_word { start_index.old < 2 ^ setting.now.log_global_max_height }
    requires indices { length group_indices_by_round.old ≡ length setting.now.log_arities.now }
    requires rows { length rows_by_round.old ≡ length setting.now.log_arities.now }
    ensures exact { let q = query_in setting.now query start_index.old reduced_openings.items in
        result ≢ Err OutOfMemory → (IsOk result ↔ IsInOrder q) }
    ensures refusal { let q = query_in setting.now query start_index.old reduced_openings.items in
        IfErr result (QueryFault q) }
    ensures value { let q = query_in setting.now query start_index.old reduced_openings.items in
        IfOk result (λ value.
        value ≡ folded_value q EF.ops (S.row_fold setting.now.folding.now)) }
    ensures index { let q = query_in setting.now query start_index.old reduced_openings.items in
        IsOk result → start_index.new ≡ start_index.old / 2 ^ sum (folded q) }
    ensures indices { let q = query_in setting.now query start_index.old reduced_openings.items in
        IsOk result → lists group_indices_by_round.new
        ≡ gains (lists group_indices_by_round.old)
        (group_indices q EF.ops (S.row_fold setting.now.folding.now)) }
    ensures rows { let q = query_in setting.now query start_index.old reduced_openings.items in
        IsOk result → rows_collected rows_by_round.new ≡ gains (rows_collected rows_by_round.old)
        (map (λ row. row ∷ []) (group_rows q EF.ops (S.row_fold setting.now.folding.now))) }
{
    let inputs = reduced_openings.as_slice();
    let first = check_query(setting, query, inputs)?;
    let folded = folded_arities(setting.betas, setting.log_arities, setting.openings);
    let rounds = QuerySetting {
        folding: setting.folding,
        betas: setting.betas,
        log_arities: folded,
        openings: setting.openings,
        log_global_max_height: setting.log_global_max_height,
        log_final_height: setting.log_final_height,
    };
    let start = QueryLink {
        index: *start_index,
        log_height: setting.log_global_max_height,
        value: first,
    };
    let link = fold_rounds(
        alloc,
        &rounds,
        query,
        start,
        inputs,
        group_indices_by_round,
        rows_by_round,
    )?;
    *start_index = link.index;
    Ok(link.value)
}
