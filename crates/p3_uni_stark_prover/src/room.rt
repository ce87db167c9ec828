//! Whether there is room in the field for a trace.

ghost use Rattle.std.specs.Prelude.{◌≡◌, ◌≤◌, ◌+◌, ◌↔◌, IsTrue, IfOk, IfErr};
ghost use Rattle.p3_air.specs.WellFormed.{IsWellFormed};
ghost use Rattle.p3_uni_stark_phases.specs.Refusals.{DegreeRefusal};
ghost use Rattle.p3_uni_stark_prover.specs.Provable.{FitsField};

use crate::steps::log_chunks_of;
use p3_air::Air;
use p3_field_core::{TwoAdicField, log2_strict_usize};
use p3_uni_stark_phases::ProvingError;
use p3_uni_stark_verifier::chunks::with_hiding;
use std::alloc::Global;

/// Whether the sum is at most so large.
fn are_within(left: usize, right: usize, most: usize) -> bool
    ensures { IsTrue result ↔ (left + right ≤ most) }
{
    left <= most && right <= most - left
}

/// Whether a trace of `height` rows fits the field, over a scheme that hides or not, with words
/// `2^log_blowup` times as long as what they extend: the height is a power of two, and with the
/// rows that hide it, and the blowup or the chunks that the constraints need, within the
/// two-adicity.
///
/// # Errors
///
/// `DegreeTooLarge`, where a node's degree is `2^63` or more, or `OutOfMemory`.
pub fn has_room<F: TwoAdicField, PcsError: Drop>(
    alloc: Global,
    air: &Air<F>,
    height: usize,
    log_blowup: usize,
    hides: bool,
) -> Result<bool, ProvingError<PcsError>>
    requires well_formed { IsWellFormed air.now }
    ensures exactly { IfOk result (λ fits.
        IsTrue fits ↔ FitsField F.TWO_ADICITY log_blowup hides air.now height) }
    ensures refused { IfErr result (DegreeRefusal air.now) }
{
    if !height.is_power_of_two() {
        return Ok(false);
    }
    let log_height = log2_strict_usize(height);
    let log_chunks = log_chunks_of::<F, PcsError>(alloc, air, hides)?;
    let rows = with_hiding(log_height, hides);
    let chunks = with_hiding(log_chunks, hides);
    if !are_within(rows, log_blowup, F::TWO_ADICITY) {
        return Ok(false);
    }
    Ok(are_within(log_height, chunks, F::TWO_ADICITY))
}
