//! What is made before the challenger is touched.

ghost use Rattle.std.specs.Prelude.{◌≡◌, ◌+◌, ◌^◌, ◌<◌, ◌⊎◌, ℕ, List, All, IfOk, IfErr, OnOk, map};
ghost use Rattle.algebra.specs.Nested.{lists};
ghost use Rattle.p3_challenger_fs.specs.Pattern.{turn_of};
ghost use Rattle.p3_challenger_fs.specs.Separator.{seed_bytes, seed_turns};
ghost use Rattle.p3_fri_folding.specs.declared.error.FriProverError.TheVariants.{OutOfMemory};
ghost use Rattle.p3_fri_transcript.specs.Shapes.{fri_shape};
ghost use Rattle.p3_fri_transcript.specs.Steps.{fri_steps, fri_stream};
ghost use Rattle.p3_fri_relation.specs.Views.{parameters_of};
ghost use Rattle.p3_fri_prover.specs.Inputs.{AreInputs, HaveHeights};
ghost use Rattle.p3_fri_prover.specs.Proved.{fri_numbers};
ghost use Rattle.p3_fri_prover.specs.Proved.{log_arities as scheduled};
ghost use Rattle.p3_fri_relation.specs.TallEnough.{IsTallEnough};
ghost use Rattle.p3_fri_prover.specs.Refusals.{HeightsRefusal};

use crate::prover::heights::{check_heights, log_heights};
use p3_challenger_fs::Seed;
use p3_field_core::{ExtensionField, Field};
use p3_fri_folding::{FriParameters, FriProverError};
use p3_fri_transcript::transcript::FriShape;
use std::alloc::Global;

/// The transcript that a test will play.
#[derive(Drop)]
pub(crate) struct PlannedTranscript {
    /// Its shape.
    pub shape: FriShape,
    /// The shape's seed.
    pub seed: Seed,
}

/// What a test will play.
#[derive(Drop)]
pub(crate) struct Plan {
    /// The logarithm of each round's arity: the schedule's.
    pub log_arities: Vec<usize>,
    /// The transcript.
    pub transcript: PlannedTranscript,
}

/// The plan of a test of these inputs, the first of log height `log_global_max_height`, if each can
/// be proved. Want of memory is told only where each can.
pub(crate) fn make_plan<F: Field, EF: ExtensionField<F>, M>(
    alloc: Global,
    params: &FriParameters<M>,
    inputs: &[Vec<EF>],
    log_global_max_height: usize,
    extra_bits: usize,
) -> Result<Plan, FriProverError>
    requires inputs { AreInputs log_global_max_height (lists inputs.now) }
    requires log_blowup_below_64 { params.now.log_blowup < 64 }
    requires positive_cap { 0 < params.now.max_log_arity }
    requires top_below_64 { log_global_max_height < 64 }
    requires index_bits_fit { log_global_max_height + extra_bits < 2 ^ 64 }
    ensures log_arities { (heights : List ℕ) → HaveHeights heights (lists inputs.now) →
        IfOk result (λ plan. plan.log_arities.items
        ≡ scheduled (parameters_of params.now) heights log_global_max_height) }
    ensures shape { (heights : List ℕ) → HaveHeights heights (lists inputs.now) →
        IfOk result (λ plan. fri_shape plan.transcript.shape
        ≡ fri_numbers (parameters_of params.now) heights log_global_max_height extra_bits) }
    ensures stream { IfOk result (λ plan. seed_bytes plan.transcript.seed
        ≡ fri_stream EF.DIMENSION (fri_shape plan.transcript.shape)) }
    ensures turns { IfOk result (λ plan. seed_turns plan.transcript.seed
        ≡ map turn_of (fri_steps EF.DIMENSION (fri_shape plan.transcript.shape))) }
    ensures tall_enough { (heights : List ℕ) → HaveHeights heights (lists inputs.now) →
        OnOk result (All (IsTallEnough (parameters_of params.now)) heights) }
    ensures refused { (heights : List ℕ) → HaveHeights heights (lists inputs.now) →
        IfErr result (λ e. HeightsRefusal (parameters_of params.now) heights e
        ⊎ (All (IsTallEnough (parameters_of params.now)) heights × (e ≡ OutOfMemory))) }
{
    match check_heights(params, inputs) {
        Ok(()) => {},
        Err(refusal) => return Err(refusal),
    }
    let heights = log_heights(alloc, inputs)?;
    let shape = FriShape::new(alloc, params, &heights, log_global_max_height + extra_bits)?;
    let log_arities = Vec::from_slice(alloc, &shape.log_arities)?;
    let seed = shape.seed::<F, EF>(alloc)?;
    Ok(Plan {
        log_arities,
        transcript: PlannedTranscript { shape, seed },
    })
}
