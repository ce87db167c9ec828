//! The heights of the words that are folded.

ghost use Rattle.std.specs.Prelude.{ℕ, List, All, IfOk, IfErr, OnOk};
ghost use Rattle.algebra.specs.Nested.{lists};
ghost use Rattle.p3_fri_relation.specs.Views.{parameters_of};
ghost use Rattle.p3_fri_prover.specs.Inputs.{HaveHeights, HavePowerLengths};
ghost use Rattle.p3_fri_relation.specs.TallEnough.{IsTallEnough};
ghost use Rattle.p3_fri_prover.specs.Refusals.{HeightsRefusal};

use p3_field_core::log2_strict_usize;
use p3_fri_folding::{FriParameters, FriProverError};
use p3_fri_relation::validate_input_height;
use std::alloc::{AllocError, Global};

/// Whether each of these words, whose lengths are powers of two, can be proved.
pub(crate) fn check_heights<M, EF>(
    params: &FriParameters<M>,
    inputs: &[Vec<EF>],
) -> Result<(), FriProverError>
    requires lengths { HavePowerLengths (lists inputs.now) }
    ensures tall_enough { (heights : List ℕ) → HaveHeights heights (lists inputs.now) →
        OnOk result (All (IsTallEnough (parameters_of params.now)) heights) }
    ensures refused { (heights : List ℕ) → HaveHeights heights (lists inputs.now) →
        IfErr result (HeightsRefusal (parameters_of params.now) heights) }
{
    for input in inputs {
        let log_height = log2_strict_usize(input.len());
        if let Err(refusal) = validate_input_height(params, log_height) {
            return Err(refusal);
        }
    }
    Ok(())
}

/// The log heights of words whose lengths are powers of two.
pub(crate) fn log_heights<EF>(alloc: Global, inputs: &[Vec<EF>]) -> Result<Vec<usize>, AllocError>
    requires lengths { HavePowerLengths (lists inputs.now) }
    ensures { IfOk result (λ heights. HaveHeights heights.items (lists inputs.now)) }
{
    let mut heights = Vec::with_capacity(alloc, inputs.len())?;
    for input in inputs {
        heights.push(log2_strict_usize(input.len()))?;
    }
    Ok(heights)
}
