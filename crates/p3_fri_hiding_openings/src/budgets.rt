//! The hiding budget of all that is committed to at once. One opening point is counted. The tests
//! take no memory.

ghost use Rattle.std.specs.Prelude.{◌/◌, ◌^◌, map, length, MatchResult};
ghost use Rattle.p3_matrix.specs.Matrix.{rows};
ghost use Rattle.p3_fri_hiding_openings.specs.Budgets.{AllFit, SomeDoesNotFit};

use p3_field_core::{TwoAdicField, TwoAdicMultiplicativeCoset};
use p3_fri_masks::{HidingFriProverError, check_hiding_budget, lde_mask_height};
use p3_matrix::RowMajorMatrix;

/// Whether the masks of each of these matrices, as high as it is itself, meet the budget.
pub fn check_matrices<F: TwoAdicField>(
    num_random_codewords: usize,
    num_queries: usize,
    extension_degree: usize,
    evaluations: &[(TwoAdicMultiplicativeCoset<F>, RowMajorMatrix<F>)],
) -> Result<(), HidingFriProverError>
    ensures { let heights = map (λ e. length (rows e.1)) evaluations.now in
        MatchResult result (λ _. AllFit num_random_codewords num_queries extension_degree heights)
        (SomeDoesNotFit num_random_codewords num_queries extension_degree heights) }
{
    for evaluation in evaluations {
        let height = evaluation.1.height();
        check_hiding_budget(
            num_random_codewords,
            num_queries,
            extension_degree,
            height,
            1,
        )?;
    }
    Ok(())
}

/// Whether the masks in each of these extensions, half as high as what was extended, meet the
/// budget.
pub fn check_ldes<F: TwoAdicField>(
    num_random_codewords: usize,
    num_queries: usize,
    extension_degree: usize,
    log_blowup: usize,
    ldes: &[RowMajorMatrix<F>],
) -> Result<(), HidingFriProverError>
    ensures { let heights = map (λ lde. length (rows lde) / 2 ^ log_blowup / 2) ldes.now in
        MatchResult result (λ _. AllFit num_random_codewords num_queries extension_degree heights)
        (SomeDoesNotFit num_random_codewords num_queries extension_degree heights) }
{
    for lde in ldes {
        let height = lde_mask_height(lde.height(), log_blowup);
        check_hiding_budget(
            num_random_codewords,
            num_queries,
            extension_degree,
            height,
            1,
        )?;
    }
    Ok(())
}

/// Whether masks half as high as each of these domains is large meet the budget.
pub fn check_domains<F: TwoAdicField>(
    num_random_codewords: usize,
    num_queries: usize,
    extension_degree: usize,
    domains: &[TwoAdicMultiplicativeCoset<F>],
) -> Result<(), HidingFriProverError>
    ensures { let heights = map (λ d. 2 ^ d.log_size / 2) domains.now in
        MatchResult result (λ _. AllFit num_random_codewords num_queries extension_degree heights)
        (SomeDoesNotFit num_random_codewords num_queries extension_degree heights) }
{
    for domain in domains {
        let height = domain.size() / 2;
        check_hiding_budget(
            num_random_codewords,
            num_queries,
            extension_degree,
            height,
            1,
        )?;
    }
    Ok(())
}
