//! The hiding budget: how many masks a column has to have for what is opened of it.

ghost use Rattle.std.specs.Prelude.{◌≡◌, ◌≤◌, ◌↔◌, ◌/◌, ◌^◌, IsOk, IfErr, MatchOption};
ghost use Rattle.p3_fri_masks.specs.Budget.{required_height, FitsBudget, BudgetRefusal};

use crate::error::HidingFriProverError;

/// The least height of masks for so many queries and opening points, and an extension of this
/// degree: `2 * (num_queries + extension_degree * num_opening_points)`, where at least one point is
/// counted. It is `None` where that is past the greatest `usize`. The rule follows section 4.2 of
/// <https://eprint.iacr.org/2024/1037>.
pub fn hiding_budget(
    num_queries: usize,
    extension_degree: usize,
    num_opening_points: usize,
) -> Option<usize>
    ensures { MatchOption result
        (2 ^ 64 ≤ required_height num_queries extension_degree num_opening_points)
        (λ height. height ≡ required_height num_queries extension_degree num_opening_points) }
{
    extension_degree
        .checked_mul(num_opening_points.max(1))?
        .checked_add(num_queries)?
        .checked_mul(2)
}

/// Whether the random codewords are as many as the extension's degree, and masks of this height
/// meet the budget. Of several faults the codewords come first, then a height past the greatest
/// `usize`.
pub fn check_hiding_budget(
    num_random_codewords: usize,
    num_queries: usize,
    extension_degree: usize,
    mask_height: usize,
    num_opening_points: usize,
) -> Result<(), HidingFriProverError>
    ensures exactly { IsOk result ↔ FitsBudget num_random_codewords num_queries extension_degree
        mask_height num_opening_points }
    ensures refusal { IfErr result (BudgetRefusal num_random_codewords num_queries extension_degree
        mask_height num_opening_points) }
{
    if num_random_codewords < extension_degree {
        return Err(HidingFriProverError::InsufficientRandomCodewords {
            required: extension_degree,
            got: num_random_codewords,
        });
    }
    let Some(required) = hiding_budget(num_queries, extension_degree, num_opening_points) else {
        return Err(HidingFriProverError::BudgetOverflow);
    };
    if mask_height < required {
        return Err(HidingFriProverError::HidingBudgetExceeded {
            mask_height,
            num_queries,
            num_opening_points,
            extension_degree,
        });
    }
    Ok(())
}

/// The height of the masks in an extension of this height: half that of the matrix before it was
/// extended.
pub fn lde_mask_height(height: usize, log_blowup: usize) -> usize
    ensures { result ≡ height / 2 ^ log_blowup / 2 }
{
    if log_blowup < 64 {
        (height >> log_blowup) / 2
    } else {
        0
    }
}
