//! Whether parameters and claims are those of an instance of the low-degree test.

ghost use Rattle.std.specs.Prelude.{◌≡◌, ◌≢◌, ◌+◌, ◌<◌, ◌≤◌, ◌↔◌, ◌⊎◌, All, Err, take, length};
ghost use Rattle.std.specs.Prelude.{IsNone, IfSome, IsOk, IfOk, IfErr, slice_index};
ghost use Rattle.p3_fri_relation.specs.declared.error.FriError.TheVariants.{OutOfMemory};
ghost use Rattle.p3_fri_relation.specs.Acceptance.{IsInRange};
ghost use Rattle.p3_fri_relation.specs.Faults.{InstanceFault};
ghost use Rattle.p3_fri_relation.specs.Heights.{matrices_of, heights_of};
ghost use Rattle.p3_fri_relation.specs.Views.{parameters_of, claims_of};
ghost use Rattle.p3_fri_verifier.specs.Claimed.{ArePositive, ParameterFault};
ghost use Rattle.p3_fri_verifier.specs.Claimed.{AreHeightsInRange, HeightFault};

use crate::claimed::claimed_heights;
use p3_field_core::{TwoAdicField, TwoAdicMultiplicativeCoset};
use p3_fri_folding::FriParameters;
use p3_fri_relation::error::FriError;
use p3_mmcs::{CommitmentOpening, Mmcs};
use std::alloc::Global;

/// Whether the parameters that may not be zero aren't.
fn check_parameters<M, A, B>(params: &FriParameters<M>) -> Result<(), FriError<A, B>>
    ensures exact { IsOk result ↔ ArePositive (parameters_of params.now) }
    ensures refusal { IfErr result (ParameterFault (parameters_of params.now)) }
{
    if params.num_queries == 0 {
        return Err(FriError::ZeroQueries);
    }
    if params.log_blowup == 0 {
        return Err(FriError::ZeroBlowup);
    }
    if params.max_log_arity == 0 {
        return Err(FriError::ZeroFoldingArity);
    }
    Ok(())
}

/// The place of the first height below the final one.
fn first_below(heights: &[usize], final_height: usize) -> Option<usize>
    ensures none { IsNone result ↔ All (λ h. final_height ≤ h) heights.now }
    ensures some { IfSome result (λ place. (place < length heights.now)
        × (slice_index heights.now place < final_height)
        × All (λ h. final_height ≤ h) (take place heights.now)) }
{
    for (place, height) in heights.iter().enumerate() {
        if *height < final_height {
            return Some(place);
        }
    }
    None
}

/// Whether there are heights, the greatest, which is the first, isn't above the two-adicity, and
/// none is below the final one.
fn check_heights<A, B>(
    heights: &[usize],
    final_height: usize,
    two_adicity: usize,
) -> Result<(), FriError<A, B>>
    ensures exact { IsOk result ↔ AreHeightsInRange final_height two_adicity heights.now }
    ensures refusal { IfErr result (HeightFault final_height two_adicity heights.now) }
{
    if heights.is_empty() {
        return Err(FriError::NoCommittedMatrices);
    }
    let log_global_max_height = heights[0];
    if log_global_max_height > two_adicity {
        return Err(FriError::GlobalMaxHeightTooLarge {
            log_global_max_height,
            two_adicity,
        });
    }
    match first_below(heights, final_height) {
        None => Ok(()),
        Some(0) => Err(FriError::FinalFoldHeightMismatch {
            expected: final_height,
            got: log_global_max_height,
        }),
        Some(place) => Err(FriError::UnconsumedReducedOpenings {
            next_log_height: heights[place],
            remaining: heights.len() - place,
        }),
    }
}

/// The log heights of the claimed matrices, each once, falling, if the parameters and the claims
/// are those of an instance: no parameter of the folds is zero, some matrix is claimed, and the log
/// heights reach from the final one to those of cosets of the field.
///
/// # Errors
///
/// Where they aren't, by the name of what isn't so; `OutOfMemory` where memory is refused.
pub fn check_instance<F: TwoAdicField, EF: Copy, M: Mmcs<EF>, InputMmcs: Mmcs<F>>(
    alloc: Global,
    params: &FriParameters<M>,
    claims: &[CommitmentOpening<EF, InputMmcs::Commitment, TwoAdicMultiplicativeCoset<F>>],
) -> Result<Vec<usize>, FriError<M::Error, InputMmcs::Error>>
    requires final_height_below_64 { params.now.log_blowup + params.now.log_final_poly_len < 64 }
    ensures exact { let p = parameters_of params.now in
        let cs = claims_of (λ domain. domain.log_size) claims.now in
        result ≢ Err OutOfMemory → (IsOk result ↔ IsInRange p cs F.TWO_ADICITY) }
    ensures heights { let p = parameters_of params.now in
        let cs = claims_of (λ domain. domain.log_size) claims.now in
        IfOk result (λ heights. heights.items ≡ heights_of p.log_blowup (matrices_of cs)) }
    ensures refusal { let p = parameters_of params.now in
        let cs = claims_of (λ domain. domain.log_size) claims.now in
        IfErr result (λ e. InstanceFault p cs F.TWO_ADICITY e ⊎ (e ≡ OutOfMemory)) }
{
    check_parameters(params)?;
    let heights = claimed_heights(alloc, params.log_blowup, claims)?;
    let final_height = params.log_blowup + params.log_final_poly_len;
    check_heights(heights.as_slice(), final_height, F::TWO_ADICITY)?;
    Ok(heights)
}
