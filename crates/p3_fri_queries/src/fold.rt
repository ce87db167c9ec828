//! The queries, folded one after another.

ghost use Rattle.std.specs.Prelude.{◌≡◌, ◌≢◌, ◌^◌, ◌<◌, ◌≤◌, ◌↔◌, ◌⊎◌, [], ◌∷◌};
ghost use Rattle.std.specs.Prelude.{map, length, All, EachIndex, SomeIndex};
ghost use Rattle.std.specs.Prelude.{Err, IsOk, IfOk, IfErr};
ghost use Rattle.algebra.specs.Nested.{lists};
ghost use Rattle.algebra.specs.Polynomial.{tabulate};
ghost use Rattle.p3_fri_relation.specs.declared.error.FriError.TheVariants.{FinalPolyMismatch};
ghost use Rattle.p3_fri_relation.specs.declared.error.FriError.TheVariants.{OutOfMemory};
ghost use Rattle.p3_fri_relation.specs.Queries.{row_indices};
ghost use Rattle.p3_fri_relation.specs.FoldedQuery.{IsInOrder, group_rows, gains};
ghost use Rattle.p3_fri_relation.specs.Views.{rows_collected};
ghost use Rattle.p3_fri_queries.specs.Folded.{EndsAtFinal, indices_folded, rows_folded};
ghost use Rattle.p3_fri_queries.specs.Settings.{query_in, queries_in};

use crate::final_value::ends_at_final;
use crate::fold_query;
use crate::folded::FoldedQueries;
use crate::setting::QuerySetting;
use p3_field_core::{ExtensionField, TwoAdicField};
use p3_fri_folding::FriFoldingStrategy;
use p3_fri_relation::error::{FriError, FriOpenings};
use p3_fri_relation::setting::ChallengeField;
use p3_mmcs::Mmcs;
use std::alloc::{AllocError, Global};

/// That many lists, each without an element.
fn empty_lists<T: Drop>(alloc: Global, count: usize) -> Result<Vec<Vec<T>>, AllocError>
    ensures { IfOk result (λ vectors. lists vectors.items ≡ tabulate count (λ _. [])) }
{
    let mut vectors = Vec::with_capacity(alloc, count)?;
    for _ in 0..count {
        vectors.push(Vec::new(alloc))?;
    }
    Ok(vectors)
}

/// The collectors of so many rounds, each without a row.
fn empty_collectors<EF: Copy>(alloc: Global, rounds: usize) -> Result<FoldedQueries<EF>, AllocError>
    ensures indices { IfOk result (λ folded.
        lists folded.group_indices_by_round.items ≡ tabulate rounds (λ _. [])) }
    ensures rows { IfOk result (λ folded.
        rows_collected folded.rows_by_round.items ≡ tabulate rounds (λ _. [])) }
{
    Ok(FoldedQueries {
        group_indices_by_round: empty_lists(alloc, rounds)?,
        rows_by_round: empty_lists(alloc, rounds)?,
    })
}

/// Folds a query that is in order, and compares the value that it ends at with the final
/// polynomial's. What is folded gains its rows.
fn fold_to_final<F: TwoAdicField, EF: ExtensionField<F>, M: Mmcs<EF>, S: FriFoldingStrategy<F, EF>>(
    alloc: Global,
    setting: &QuerySetting<'_, EF, M, S>,
    query: usize,
    position: usize,
    reduced_openings: FriOpenings<EF>,
    final_poly: &[EF],
    folded: &mut FoldedQueries<EF>,
) -> Result<(), FriError<M::Error, S::InputError>>
    requires query { query < usize.MAX }
    requires in_order { IsInOrder (query_in setting.now query position reduced_openings.items) }
    requires betas { length setting.now.betas.now ≡ length setting.now.log_arities.now }
    requires openings { length setting.now.openings.now ≡ length setting.now.log_arities.now }
    requires within_max_height { setting.now.log_global_max_height
        ≤ S.max_log_height setting.now.folding.now }
    requires within_two_adicity { setting.now.log_global_max_height ≤ F.TWO_ADICITY }
    requires within_word { position < 2 ^ setting.now.log_global_max_height }
    requires indices { length folded.old.group_indices_by_round.items
        ≡ length setting.now.log_arities.now }
    requires rows { length folded.old.rows_by_round.items ≡ length setting.now.log_arities.now }
    ensures exact { let q = query_in setting.now query position reduced_openings.items in
        result ≢ Err OutOfMemory → (IsOk result ↔ EndsAtFinal ⟦<EF as ChallengeField<F>>⟧.fields
        (S.row_fold setting.now.folding.now) final_poly.now q) }
    ensures refusal { let q = query_in setting.now query position reduced_openings.items in
        IfErr result (λ e. (e ≡ OutOfMemory) ⊎ ((e ≡ FinalPolyMismatch)
        × (¬ EndsAtFinal ⟦<EF as ChallengeField<F>>⟧.fields
        (S.row_fold setting.now.folding.now) final_poly.now q))) }
    ensures indices { IsOk result → lists folded.new.group_indices_by_round.items
        ≡ gains (lists folded.old.group_indices_by_round.items)
        (row_indices setting.now.log_arities.now position) }
    ensures rows { let q = query_in setting.now query position reduced_openings.items in
        IsOk result → rows_collected folded.new.rows_by_round.items
        ≡ gains (rows_collected folded.old.rows_by_round.items)
        (map (λ row. row ∷ []) (group_rows q EF.ops (S.row_fold setting.now.folding.now))) }
{
    let mut index = position;
    let value = match fold_query(
        alloc,
        setting,
        query,
        &mut index,
        reduced_openings,
        &mut folded.group_indices_by_round,
        &mut folded.rows_by_round,
    ) {
        Ok(value) => value,
        Err(refusal) => return Err(refusal),
    };
    if ends_at_final::<F, EF>(value, final_poly, index, setting.log_final_height) {
        Ok(())
    } else {
        Err(FriError::FinalPolyMismatch)
    }
}

/// Folds the queries, which are in order in this setting, one after another, and compares the value
/// that each ends at with the final polynomial's. `reduced_openings` has what each meets.
///
/// The setting has a challenge and an opening for each log arity. Its greatest log height is at
/// most the strategy's and the two-adicity, and the positions are below 2 to it.
///
/// # Errors
///
/// `FinalPolyMismatch` where some query ends elsewhere, and `OutOfMemory`.
pub fn fold_queries<
    F: TwoAdicField,
    EF: ExtensionField<F>,
    M: Mmcs<EF>,
    S: FriFoldingStrategy<F, EF>,
>(
    alloc: Global,
    setting: &QuerySetting<'_, EF, M, S>,
    positions: &[usize],
    reduced_openings: Vec<FriOpenings<EF>>,
    final_poly: &[EF],
) -> Result<FoldedQueries<EF>, FriError<M::Error, S::InputError>>
    requires count { length reduced_openings.items ≡ length positions.now }
    requires in_order { EachIndex positions.now (λ j.
        IsInOrder (queries_in setting.now positions.now (lists reduced_openings.items) j)) }
    requires betas { length setting.now.betas.now ≡ length setting.now.log_arities.now }
    requires openings { length setting.now.openings.now ≡ length setting.now.log_arities.now }
    requires within_max_height { setting.now.log_global_max_height
        ≤ S.max_log_height setting.now.folding.now }
    requires within_two_adicity { setting.now.log_global_max_height ≤ F.TWO_ADICITY }
    requires positions { All (λ position. position < 2 ^ setting.now.log_global_max_height)
        positions.now }
    ensures exact { let q = queries_in setting.now positions.now (lists reduced_openings.items) in
        result ≢ Err OutOfMemory → (IsOk result ↔ EachIndex positions.now (λ j.
        EndsAtFinal ⟦<EF as ChallengeField<F>>⟧.fields
        (S.row_fold setting.now.folding.now) final_poly.now (q j))) }
    ensures refusal { let q = queries_in setting.now positions.now (lists reduced_openings.items) in
        IfErr result (λ e. (e ≡ OutOfMemory) ⊎ ((e ≡ FinalPolyMismatch)
        × SomeIndex positions.now (λ j. ¬ EndsAtFinal ⟦<EF as ChallengeField<F>>⟧.fields
        (S.row_fold setting.now.folding.now) final_poly.now (q j)))) }
    ensures indices { IfOk result (λ folded. lists folded.group_indices_by_round.items
        ≡ indices_folded setting.now.log_arities.now positions.now) }
    ensures rows { let q = queries_in setting.now positions.now (lists reduced_openings.items) in
        IfOk result (λ folded. rows_collected folded.rows_by_round.items
        ≡ rows_folded EF.ops (S.row_fold setting.now.folding.now)
        (length setting.now.log_arities.now) (length positions.now) q) }
{
    let mut folded = match empty_collectors(alloc, setting.log_arities.len()) {
        Ok(folded) => folded,
        Err(AllocError) => return Err(FriError::OutOfMemory),
    };
    for (query, inputs) in reduced_openings.into_iter().enumerate() {
        match fold_to_final(
            alloc,
            setting,
            query,
            positions[query],
            inputs,
            final_poly,
            &mut folded,
        ) {
            Ok(()) => {},
            Err(refusal) => return Err(refusal),
        }
    }
    Ok(folded)
}
