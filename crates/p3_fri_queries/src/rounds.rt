//! The rounds of one query.

ghost use Rattle.std.specs.Prelude.{◌≡◌, suc, ◌+◌, ◌-◌, ◌/◌, ◌%◌, ◌^◌, ◌<◌, ◌≤◌, [], ◌∷◌};
ghost use Rattle.std.specs.Prelude.{map, sum, length};
ghost use Rattle.std.specs.Prelude.{IfOk, IsOk, slice_index_or};
ghost use Rattle.std.specs.List.{insert};
ghost use Rattle.algebra.specs.Nested.{lists};
ghost use Rattle.algebra.specs.Rounds.{next_link, row_of_link, chain, chain_rows};
ghost use Rattle.p3_fri_relation.specs.Queries.{rounds_of, row_indices};
ghost use Rattle.p3_fri_relation.specs.FoldedQuery.{AreInRange, HasRow, HaveRows, value_at, gains};
ghost use Rattle.p3_fri_relation.specs.Views.{siblings_opened, rows_collected};
ghost use Rattle.p3_fri_queries.specs.Settings.{siblings_in, link_of, round_of};

use crate::collect::collect;
use crate::link::{FoldRound, QueryLink};
use crate::setting::QuerySetting;
use p3_field_core::{ExtensionField, TwoAdicField};
use p3_fri_folding::FriFoldingStrategy;
use p3_fri_relation::proof::CommitPhaseMultiStep;
use p3_mmcs::Mmcs;
use std::alloc::{AllocError, Global};

/// The row of a round: the siblings, in order, with the value at its place among them.
fn full_row<E: Copy>(
    alloc: Global,
    value: E,
    place: usize,
    siblings: &[E],
) -> Result<Vec<E>, AllocError>
    requires place { place ≤ length siblings.now }
    requires room { length siblings.now < usize.MAX }
    ensures { IfOk result (λ row. row.items ≡ insert siblings.now place value) }
{
    let mut row = Vec::with_capacity(alloc, siblings.len() + 1)?;
    for sibling in &siblings[..place] {
        row.push(*sibling)?;
    }
    row.push(value)?;
    for sibling in &siblings[place..] {
        row.push(*sibling)?;
    }
    Ok(row)
}

/// The siblings of a query in a round.
#[tactic(auto, using(algebra::proofs::Nested::lists_at))]
fn siblings_of<E: Copy, M: Mmcs<E>>(opening: &CommitPhaseMultiStep<E, M>, query: usize) -> &[E]
    requires { query < length (lists opening.now.sibling_values.items) }
    ensures { result.now ≡ slice_index_or (lists opening.now.sibling_values.items) query [] }
{
    opening.sibling_values[query].as_slice()
}

/// The input of a log height, if there is one.
fn input_at<E: Copy>(inputs: &[(usize, E)], log_height: usize) -> Option<E>
    ensures { result ≡ value_at inputs.now log_height }
{
    for input in inputs {
        if input.0 == log_height {
            return Some(input.1);
        }
    }
    None
}

/// One round of a query: the value after it, and the row that it folds.
#[tactic(auto, using(crate::proofs::Rows::row_fits))]
fn fold_round<F: TwoAdicField, EF: ExtensionField<F>, S: FriFoldingStrategy<F, EF>>(
    alloc: Global,
    folding: &S,
    link: QueryLink<EF>,
    round: FoldRound<EF>,
    siblings: &[EF],
    input: Option<EF>,
) -> Result<(EF, Vec<EF>), AllocError>
    requires positive { 0 < round.log_arity }
    requires small { round.log_arity < 64 }
    requires within_height { round.log_arity ≤ link.log_height }
    requires within_max_height { link.log_height ≤ S.max_log_height folding.now }
    requires within_word { link.index < 2 ^ link.log_height }
    requires siblings { suc (length siblings.now) ≡ 2 ^ round.log_arity }
    ensures { IfOk result (λ folded.
        (folded.0 ≡ (next_link EF.ops (S.row_fold folding.now) (λ _. input)
        (round_of round) siblings.now (link_of link)).value)
        × (folded.1.items ≡ row_of_link (round_of round) siblings.now (link_of link))) }
{
    let log_arity = round.log_arity;
    let row = full_row(alloc, link.value, link.index % (1 << log_arity), siblings)?;
    let folded = folding.fold_row(
        link.index >> log_arity,
        link.log_height - log_arity,
        log_arity,
        round.beta,
        row.as_slice(),
    );
    match input {
        None => Ok((folded, row)),
        Some(input) => Ok((folded + round.beta.exp_power_of_2(log_arity) * input, row)),
    }
}

/// One round of a query, of the row that its opening has for the query and the input of the log
/// height that it leads to: the value after it, and the row that it folds.
fn fold_opening<F: TwoAdicField, EF: ExtensionField<F>, M: Mmcs<EF>, S: FriFoldingStrategy<F, EF>>(
    alloc: Global,
    folding: &S,
    query: usize,
    link: QueryLink<EF>,
    round: FoldRound<EF>,
    opening: &CommitPhaseMultiStep<EF, M>,
    inputs: &[(usize, EF)],
) -> Result<(EF, Vec<EF>), AllocError>
    requires positive { 0 < round.log_arity }
    requires small { round.log_arity < 64 }
    requires within_height { round.log_arity ≤ link.log_height }
    requires within_max_height { link.log_height ≤ S.max_log_height folding.now }
    requires within_word { link.index < 2 ^ link.log_height }
    requires has_row { HasRow query round.log_arity (lists opening.now.sibling_values.items) }
    ensures { let siblings = slice_index_or (lists opening.now.sibling_values.items) query [] in
        IfOk result (λ folded.
        (folded.0 ≡ (next_link EF.ops (S.row_fold folding.now) (value_at inputs.now)
        (round_of round) siblings (link_of link)).value)
        × (folded.1.items ≡ row_of_link (round_of round) siblings (link_of link))) }
{
    let siblings = siblings_of(opening, query);
    let input = input_at(inputs, link.log_height - round.log_arity);
    fold_round(alloc, folding, link, round, siblings, input)
}

/// The rounds of a query that is in order, one after another, each with a challenge and an opening,
/// from the link `start` on: the last link.
pub(crate) fn fold_rounds<
    F: TwoAdicField,
    EF: ExtensionField<F>,
    M: Mmcs<EF>,
    S: FriFoldingStrategy<F, EF>,
>(
    alloc: Global,
    setting: &QuerySetting<'_, EF, M, S>,
    query: usize,
    start: QueryLink<EF>,
    inputs: &[(usize, EF)],
    group_indices_by_round: &mut [Vec<usize>],
    rows_by_round: &mut [Vec<Vec<Vec<EF>>>],
) -> Result<QueryLink<EF>, AllocError>
    requires betas { length setting.now.log_arities.now ≤ length setting.now.betas.now }
    requires openings { length setting.now.log_arities.now ≤ length setting.now.openings.now }
    requires range { AreInRange setting.now.log_arities.now }
    requires have_rows { HaveRows query setting.now.log_arities.now
        (siblings_opened setting.now.openings.now) }
    requires distance { sum setting.now.log_arities.now ≤ start.log_height }
    requires within_max_height { start.log_height ≤ S.max_log_height setting.now.folding.now }
    requires within_word { start.index < 2 ^ start.log_height }
    requires indices { length setting.now.log_arities.now ≤ length group_indices_by_round.old }
    requires rows { length setting.now.log_arities.now ≤ length rows_by_round.old }
    ensures value { let rounds = rounds_of setting.now.log_arities.now setting.now.betas.now in
        IfOk result (λ link. link.value ≡ (chain EF.ops (S.row_fold setting.now.folding.now)
        (value_at inputs.now) rounds (siblings_in setting.now query) (link_of start)).value) }
    ensures index { IfOk result (λ link.
        link.index ≡ start.index / 2 ^ sum setting.now.log_arities.now) }
    ensures indices { IsOk result → lists group_indices_by_round.new
        ≡ gains (lists group_indices_by_round.old)
        (row_indices setting.now.log_arities.now start.index) }
    ensures rows { let rounds = rounds_of setting.now.log_arities.now setting.now.betas.now in
        IsOk result → rows_collected rows_by_round.new ≡ gains (rows_collected rows_by_round.old)
        (map (λ row. row ∷ []) (chain_rows EF.ops (S.row_fold setting.now.folding.now)
        (value_at inputs.now) rounds (siblings_in setting.now query) (link_of start))) }
{
    let mut link = start;
    for round in 0..setting.log_arities.len() {
        let log_arity = setting.log_arities[round];
        let beta = setting.betas[round];
        let (value, row) = fold_opening(
            alloc,
            setting.folding,
            query,
            link,
            FoldRound { log_arity, beta },
            &setting.openings[round],
            inputs,
        )?;
        let index = link.index >> log_arity;
        link = QueryLink {
            index,
            log_height: link.log_height - log_arity,
            value,
        };
        collect(
            alloc,
            round,
            index,
            row,
            &mut *group_indices_by_round,
            &mut *rows_by_round,
        )?;
    }
    Ok(link)
}
