//! Why a prover refuses to hide.

ghost use Rattle.std.specs.Prelude.{◌≡◌};
ghost use Rattle.p3_fri_folding.specs.declared.error.FriProverError.TheVariants.{OutOfMemory};
ghost use Rattle.p3_fri_masks.specs.declared.error.HidingFriProverError.TheVariants.{Fri};

use p3_fri_folding::FriProverError;
use std::alloc::AllocError;
use thiserror::Error;

/// Why a prover of the hiding scheme refuses.
#[derive(Clone, Copy, Debug, PartialEq, Eq, Error)]
pub enum HidingFriProverError {
    /// What a prover of the plain scheme refuses too.
    #[error(transparent)]
    Fri(FriProverError),
    /// A combination of columns by an element of the extension is hidden by as many random columns
    /// as the extension's degree.
    #[error("{got} random codewords are fewer than the {required} of the extension's degree")]
    InsufficientRandomCodewords {
        required: usize,
        got: usize,
    },
    /// No height is as great as the budget asks for.
    #[error("the height that the hiding budget asks for is past the greatest number")]
    BudgetOverflow,
    /// There are too few masks for the values that are opened.
    #[error("masks of height {mask_height} can't hide {num_queries} queries and \
         {num_opening_points} opening points with an extension of degree {extension_degree}")]
    HidingBudgetExceeded {
        mask_height: usize,
        num_queries: usize,
        num_opening_points: usize,
        extension_degree: usize,
    },
}

impl From<FriProverError> for HidingFriProverError {
    ghost from_gives = { λ refusal e. e ≡ Fri refusal };

    fn from(refusal: FriProverError) -> HidingFriProverError {
        HidingFriProverError::Fri(refusal)
    }
}

impl From<AllocError> for HidingFriProverError {
    ghost from_gives = { λ _ e. e ≡ Fri OutOfMemory };

    fn from(_error: AllocError) -> HidingFriProverError {
        HidingFriProverError::Fri(FriProverError::OutOfMemory)
    }
}
