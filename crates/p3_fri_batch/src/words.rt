//! The words of all log heights.

ghost use Rattle.std.specs.Prelude.{◌≡◌, ◌≤◌, ◌<◌, ◌+◌, ◌++◌, ◌∷◌, ◌^◌, suc, List, []};
ghost use Rattle.std.specs.Prelude.{All, IfOk, map, length, vec_len, if◌then◌else◌};
ghost use Rattle.std.specs.List.{AllZip};
ghost use Rattle.algebra.specs.Nested.{lists};
ghost use Rattle.algebra.specs.Polynomial.{tabulate};
ghost use Rattle.p3_matrix.specs.Matrix.{matrix_width};
ghost use Rattle.p3_pcs.specs.Claims.{opened_values};
ghost use Rattle.p3_fri_openings.specs.Denominators.{AreInverses, ArePointsCovered};
ghost use Rattle.p3_fri_openings.specs.Rounds.{IsRound};
ghost use Rattle.p3_fri_batch.specs.Heights.{has_height, heights_below};
ghost use Rattle.p3_fri_batch.specs.Words.{Opened, IsSummed, batch_word};
ghost use Rattle.p3_fri_batch.specs.Rounds.{HaveValues, IsReady};
ghost use Rattle.p3_fri_batch.specs.Rounds.{as_opened, opened_of};

use crate::opened::{
    OpenedMatrix, greatest_width, has_log_height, is_of_log_height, opened_matrices,
};
use crate::points::add_matrix;
use p3_field_core::{ExtensionField, Field, TwoAdicField};
use p3_fri_openings::{OpeningRound, PointDenominators};
use p3_fri_relation::Ladder;
use p3_fri_relation::setting::ChallengeField;
use std::alloc::{AllocError, Global};

/// So many zeros.
fn zeros<EF: Field>(alloc: Global, count: usize) -> Result<Vec<EF>, AllocError>
    ensures { IfOk result (λ values. values.items ≡ tabulate count (λ _. EF.ops.zero)) }
{
    let mut values = Vec::with_capacity(alloc, count)?;
    for _ in 0..count {
        values.push(EF::ZERO)?;
    }
    Ok(values)
}

/// Adds a matrix's quotients to the word of its log height, and leaves each other word as it is.
/// `step` is the power of the ladder's element at which they begin; the answer is the one after
/// them.
fn add_of_log_height<F: TwoAdicField, EF: ExtensionField<F>>(
    alloc: Global,
    word: &mut [EF],
    step: EF,
    log_height: usize,
    ladder: &Ladder<EF>,
    table: &[PointDenominators<EF>],
    opened: &OpenedMatrix<'_, F, EF>,
) -> Result<EF, AllocError>
    requires word { length word.old ≡ 2 ^ log_height }
    requires ladder { matrix_width opened.now.matrix.now ≤ vec_len ladder.now.powers }
    requires inverses { All (AreInverses ⟦<EF as ChallengeField<F>>⟧.fields) table.now }
    requires ready { IsReady F.TWO_ADICITY table.now opened.now }
    ensures { IfOk result (λ after. (ms : List (Opened F EF))
        → IsSummed ⟦<EF as ChallengeField<F>>⟧.fields ladder.now.alpha log_height ms word.old step
        → IsSummed ⟦<EF as ChallengeField<F>>⟧.fields ladder.now.alpha log_height
        (ms ++ as_opened opened.now ∷ []) word.new after) }
{
    if !is_of_log_height(opened.matrix, log_height) {
        return Ok(step);
    }
    add_matrix(alloc, word, step, ladder, table, opened)
}

/// The word of a log height: the quotients of all matrices of this log height, by powers of the
/// ladder's element that go on from one matrix to the next.
fn word_of_log_height<F: TwoAdicField, EF: ExtensionField<F>>(
    alloc: Global,
    log_height: usize,
    ladder: &Ladder<EF>,
    table: &[PointDenominators<EF>],
    matrices: &[OpenedMatrix<'_, F, EF>],
) -> Result<Vec<EF>, AllocError>
    requires within_two_adicity { log_height ≤ F.TWO_ADICITY }
    requires ladder { All (λ m. matrix_width m.matrix.now ≤ vec_len ladder.now.powers)
        matrices.now }
    requires inverses { All (AreInverses ⟦<EF as ChallengeField<F>>⟧.fields) table.now }
    requires ready { All (IsReady F.TWO_ADICITY table.now) matrices.now }
    ensures { IfOk result (λ word. word.items
        ≡ batch_word ⟦<EF as ChallengeField<F>>⟧.fields ladder.now.alpha log_height
        (map as_opened matrices.now)) }
{
    let mut word = zeros(alloc, 1 << log_height)?;
    let mut step = EF::ONE;
    for opened in matrices {
        step = add_of_log_height(alloc, &mut word, step, log_height, ladder, table, opened)?;
    }
    Ok(word)
}

/// Adds the word of a log height, if some matrix has it.
fn push_word<F: TwoAdicField, EF: ExtensionField<F>>(
    alloc: Global,
    words: &mut Vec<Vec<EF>>,
    log_height: usize,
    ladder: &Ladder<EF>,
    table: &[PointDenominators<EF>],
    matrices: &[OpenedMatrix<'_, F, EF>],
) -> Result<(), AllocError>
    requires within_two_adicity { log_height ≤ F.TWO_ADICITY }
    requires ladder { All (λ m. matrix_width m.matrix.now ≤ vec_len ladder.now.powers)
        matrices.now }
    requires inverses { All (AreInverses ⟦<EF as ChallengeField<F>>⟧.fields) table.now }
    requires ready { All (IsReady F.TWO_ADICITY table.now) matrices.now }
    ensures { IfOk result (λ _. lists words.new.items ≡ lists words.old.items
        ++ map (λ h. batch_word ⟦<EF as ChallengeField<F>>⟧.fields ladder.now.alpha h
        (map as_opened matrices.now))
        (if has_height (map as_opened matrices.now) log_height then log_height ∷ [] else [])) }
{
    if has_log_height(matrices, log_height) {
        words.push(word_of_log_height(alloc, log_height, ladder, table, matrices)?)?;
    }
    Ok(())
}

/// The words of the quotients of all matrices, where `values` has by round, matrix, point and
/// column what is claimed: one word for each log height that a matrix has, the tallest first. At
/// each entry it is the sum of the quotients of all matrices of this log height, in the order of
/// rounds, matrices, points and columns, by the powers of `alpha`. Each matrix is compressed once
/// for all its points; `table` has the inverse differences of each point for its tallest matrix.
pub fn batch_words<F: TwoAdicField, EF: ExtensionField<F>>(
    alloc: Global,
    alpha: EF,
    rounds: &[OpeningRound<'_, F, EF>],
    values: &[Vec<Vec<Vec<EF>>>],
    table: &[PointDenominators<EF>],
) -> Result<Vec<Vec<EF>>, AllocError>
    requires rounds { All (IsRound F.TWO_ADICITY) rounds.now }
    requires values { AllZip HaveValues rounds.now (opened_values values.now) }
    requires inverses { All (AreInverses ⟦<EF as ChallengeField<F>>⟧.fields) table.now }
    requires covered { All (ArePointsCovered table.now) rounds.now }
    ensures { let ms = opened_of rounds.now (opened_values values.now) in
        IfOk result (λ words. lists words.items
        ≡ map (λ h. batch_word ⟦<EF as ChallengeField<F>>⟧.fields alpha h ms)
        (heights_below ms (suc F.TWO_ADICITY))) }
{
    let matrices = opened_matrices(alloc, rounds, values)?;
    let ladder = Ladder::new(alloc, alpha, greatest_width(&matrices))?;
    let mut words = Vec::new(alloc);
    for log_height in (0..F::TWO_ADICITY + 1).rev() {
        push_word(alloc, &mut words, log_height, &ladder, table, &matrices)?;
    }
    Ok(words)
}
