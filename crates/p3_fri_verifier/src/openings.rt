//! The openings of a proof, once its positions and challenges are drawn.

ghost use Rattle.std.specs.Prelude.{◌≡◌, ◌≢◌, ◌+◌, ◌^◌, ◌<◌, ◌≤◌, ◌↔◌, ◌⊎◌, All, length, sum};
ghost use Rattle.std.specs.Prelude.{EachIndex, SomeIndex, Err, IsOk, IfErr};
ghost use Rattle.algebra.specs.Nested.{lists};
ghost use Rattle.p3_fri_relation.specs.declared.error.FriError.TheVariants.{CommitPhaseMmcsError};
ghost use Rattle.p3_fri_relation.specs.declared.error.FriError.TheVariants.{FinalPolyMismatch};
ghost use Rattle.p3_fri_relation.specs.declared.error.FriError.TheVariants.{OutOfMemory};
ghost use Rattle.p3_fri_relation.specs.TestRounds.{HasCounts};
ghost use Rattle.p3_fri_relation.specs.Acceptance.{IsInRange, top_height};
ghost use Rattle.p3_fri_relation.specs.Acceptance.{log_arities as scheduled};
ghost use Rattle.p3_fri_relation.specs.Faults.{OpeningsFault};
ghost use Rattle.p3_fri_relation.specs.FoldedQuery.{IsInOrder};
ghost use Rattle.p3_fri_relation.specs.Views.{parameters_of, claims_of, proof_of, rounds_opened};
ghost use Rattle.p3_fri_queries.specs.Folded.{EndsAtFinal, indices_folded, rows_folded};
ghost use Rattle.p3_fri_queries.specs.Opened.{RoundsOpenTo, SomeRoundFails};
ghost use Rattle.p3_fri_queries.specs.Settings.{queries_in};
ghost use Rattle.p3_fri_verifier.specs.Openings.{AreOpened};

use crate::setting::{DrawnTest, VerifierSetting};
use p3_challenger_core::{CanObserve, FieldChallenger};
use p3_field_core::{ExtensionField, TwoAdicField};
use p3_fri_folding::FriFoldingStrategy;
use p3_fri_inputs::open_inputs;
use p3_fri_queries::{QuerySetting, fold_queries, verify_rounds};
use p3_fri_relation::error::{FriError, FriOpenings};
use p3_fri_relation::proof::{BatchMultiOpening, FriProof};
use p3_fri_relation::setting::{ChallengeField, PlaysFri};
use p3_mmcs::Mmcs;
use std::alloc::Global;

/// Verifies that each query, which is in order in this setting, ends at the final polynomial, and
/// that the rounds' words open to the rows that the queries fold. `reduced_openings` has what each
/// query meets.
fn verify_queries<
    F: TwoAdicField,
    EF: ExtensionField<F>,
    M: Mmcs<EF>,
    S: FriFoldingStrategy<F, EF>,
>(
    alloc: Global,
    setting: &QuerySetting<'_, EF, M, S>,
    mmcs: &M,
    commitments: &[M::Commitment],
    positions: &[usize],
    reduced_openings: Vec<FriOpenings<EF>>,
    final_poly: &[EF],
) -> Result<(), FriError<M::Error, S::InputError>>
    requires count { length reduced_openings.items ≡ length positions.now }
    requires in_order { EachIndex positions.now (λ j.
        IsInOrder (queries_in setting.now positions.now (lists reduced_openings.items) j)) }
    requires betas { length setting.now.betas.now ≡ length setting.now.log_arities.now }
    requires commitments { length commitments.now ≡ length setting.now.log_arities.now }
    requires openings { length setting.now.openings.now ≡ length setting.now.log_arities.now }
    requires within_max_height { setting.now.log_global_max_height
        ≤ S.max_log_height setting.now.folding.now }
    requires within_two_adicity { setting.now.log_global_max_height ≤ F.TWO_ADICITY }
    requires within_word { All (λ position. position < 2 ^ setting.now.log_global_max_height)
        positions.now }
    requires within { sum setting.now.log_arities.now ≤ setting.now.log_global_max_height }
    ensures exact { let q = queries_in setting.now positions.now (lists reduced_openings.items) in
        result ≢ Err OutOfMemory → (IsOk result ↔ EachIndex positions.now (λ j.
        EndsAtFinal ⟦<EF as ChallengeField<F>>⟧.fields
        (S.row_fold setting.now.folding.now) final_poly.now (q j))
        × RoundsOpenTo (M.opens mmcs.now) setting.now.log_arities.now
        setting.now.log_global_max_height
        (indices_folded setting.now.log_arities.now positions.now)
        (rows_folded EF.ops (S.row_fold setting.now.folding.now)
        (length setting.now.log_arities.now) (length positions.now) q) commitments.now
        (rounds_opened setting.now.openings.now)) }
    ensures refusal { let q = queries_in setting.now positions.now (lists reduced_openings.items) in
        IfErr result (λ e. ((e ≡ OutOfMemory) ⊎ ((e ≡ FinalPolyMismatch)
        × SomeIndex positions.now (λ j. ¬ EndsAtFinal ⟦<EF as ChallengeField<F>>⟧.fields
        (S.row_fold setting.now.folding.now) final_poly.now (q j))))
        ⊎ ((error : M.Error) × (e ≡ CommitPhaseMmcsError error)
        × SomeRoundFails (M.opens mmcs.now) setting.now.log_arities.now
        setting.now.log_global_max_height
        (indices_folded setting.now.log_arities.now positions.now)
        (rows_folded EF.ops (S.row_fold setting.now.folding.now)
        (length setting.now.log_arities.now) (length positions.now) q) commitments.now
        (rounds_opened setting.now.openings.now))) }
{
    let folded = match fold_queries(alloc, setting, positions, reduced_openings, final_poly) {
        Ok(folded) => folded,
        Err(refusal) => return Err(refusal),
    };
    verify_rounds(
        mmcs,
        commitments,
        setting.log_arities,
        setting.log_global_max_height,
        setting.openings,
        &folded,
    )
}

/// Verifies all that a proof opens at the queries' positions, with the folding challenges of the
/// test: the openings of the inputs, each query's way to the final polynomial, and the openings of
/// the rounds.
pub(crate) fn verify_openings<
    F: TwoAdicField,
    EF: ExtensionField<F>,
    M: Mmcs<EF>,
    InputMmcs: Mmcs<F>,
    S: FriFoldingStrategy<F, EF, InputError = InputMmcs::Error>,
    C: FieldChallenger<F> + CanObserve<M::Commitment>,
>(
    alloc: Global,
    known: &VerifierSetting<'_, F, EF, M, InputMmcs, S>,
    proof: &FriProof<EF, M, F, Vec<BatchMultiOpening<F, InputMmcs>>>,
    alpha: EF,
    test: &DrawnTest<'_, EF>,
) -> Result<(), FriError<M::Error, InputMmcs::Error>>
    requires final_height_below_64 { let p = known.now.params.now in
        p.log_blowup + p.log_final_poly_len < 64 }
    requires max_log_height { F.TWO_ADICITY ≤ S.max_log_height known.now.folding.now }
    requires in_range { IsInRange (parameters_of known.now.params.now)
        (claims_of (λ d. d.log_size) known.now.claims.now) F.TWO_ADICITY }
    requires counts { HasCounts (parameters_of known.now.params.now) (proof_of proof.now)
        test.now.log_arities.now (length (proof_of proof.now).inputs) }
    requires schedule { test.now.log_arities.now ≡ scheduled (parameters_of known.now.params.now)
        (claims_of (λ d. d.log_size) known.now.claims.now) }
    requires top { test.now.log_global_max_height ≡ top_height (parameters_of known.now.params.now)
        (claims_of (λ d. d.log_size) known.now.claims.now) }
    requires betas { length test.now.betas.now ≡ length test.now.log_arities.now }
    requires positions { length test.now.positions.now ≡ known.now.params.now.num_queries }
    requires within_word { All (λ position. position < 2 ^ test.now.log_global_max_height)
        test.now.positions.now }
    ensures exact { let k = known.now in
        let s = ⟦<C as PlaysFri<F, EF, S, M, InputMmcs>>⟧.setting k.folding.now
        k.params.now.mmcs k.input_mmcs.now in
        result ≢ Err OutOfMemory → (IsOk result ↔ AreOpened s (parameters_of k.params.now)
        (claims_of (λ d. d.log_size) k.claims.now) (proof_of proof.now) alpha
        test.now.betas.now test.now.positions.now) }
    ensures refusal { let k = known.now in
        let s = ⟦<C as PlaysFri<F, EF, S, M, InputMmcs>>⟧.setting k.folding.now
        k.params.now.mmcs k.input_mmcs.now in
        IfErr result (λ e. OpeningsFault s (parameters_of k.params.now)
        (claims_of (λ d. d.log_size) k.claims.now) (proof_of proof.now) alpha
        test.now.betas.now test.now.positions.now e ⊎ (e ≡ OutOfMemory)) }
{
    let reduced_openings = match open_inputs(
        alloc,
        known.params,
        test.log_global_max_height,
        test.positions,
        &proof.input_openings,
        alpha,
        known.input_mmcs,
        known.claims,
    ) {
        Ok(reduced_openings) => reduced_openings,
        Err(refusal) => return Err(refusal),
    };
    let setting = QuerySetting {
        folding: known.folding,
        betas: test.betas,
        log_arities: test.log_arities,
        openings: proof.commit_phase_openings.as_slice(),
        log_global_max_height: test.log_global_max_height,
        log_final_height: known.params.log_blowup + known.params.log_final_poly_len,
    };
    verify_queries(
        alloc,
        &setting,
        &known.params.mmcs,
        &proof.commit_phase_commits,
        test.positions,
        reduced_openings,
        &proof.final_poly,
    )
}
