//! The log heights of claimed matrices, falling, by a table of the log sizes of their domains.

ghost use Rattle.std.specs.Prelude.{◌≡◌, ◌==◌, ◌||◌, ◌<◌, ℕ, length, false, IfOk, slice_index_or};
ghost use Rattle.std.specs.List.{list_any};
ghost use Rattle.p3_fri_relation.specs.Heights.{matrices_of, heights_of};
ghost use Rattle.p3_fri_relation.specs.Views.{claims_of};
ghost use Rattle.p3_fri_verifier.specs.Claimed.{has_size};

use p3_field_core::{TwoAdicField, TwoAdicMultiplicativeCoset};
use p3_mmcs::{CommitmentOpening, MatrixOpening};
use std::alloc::{AllocError, Global};

/// Log sizes of domains are below the number of bits of a word.
const NUM_LOG_SIZES: usize = 64;

/// Notes the log sizes of these matrices' domains.
fn mark_sizes<F: TwoAdicField, EF>(
    sizes: &mut [bool],
    matrices: &[MatrixOpening<EF, TwoAdicMultiplicativeCoset<F>>],
)
    requires count { length sizes.old ≡ 64 }
    ensures { (size : ℕ) → slice_index_or sizes.new size false
        ≡ (slice_index_or sizes.old size false
        || list_any (λ m. m.domain.log_size == size) matrices.now) }
{
    for matrix in matrices {
        sizes[matrix.domain.log_size] = true;
    }
}

/// Whether some claimed matrix has a domain of the log size, for each.
fn claimed_sizes<F: TwoAdicField, EF, Com>(
    claims: &[CommitmentOpening<EF, Com, TwoAdicMultiplicativeCoset<F>>],
) -> [bool; NUM_LOG_SIZES]
    ensures count { length result ≡ 64 }
    ensures marked { (size : ℕ) → slice_index_or result size false
        ≡ has_size (λ domain. domain.log_size) claims.now size }
{
    let mut sizes = [false; NUM_LOG_SIZES];
    for claim in claims {
        mark_sizes(&mut sizes, claim.matrices.as_slice());
    }
    sizes
}

/// The log heights of the claimed matrices, each once, falling.
pub fn claimed_heights<F: TwoAdicField, EF, Com>(
    alloc: Global,
    log_blowup: usize,
    claims: &[CommitmentOpening<EF, Com, TwoAdicMultiplicativeCoset<F>>],
) -> Result<Vec<usize>, AllocError>
    requires small { log_blowup < 64 }
    ensures { IfOk result (λ heights. heights.items
        ≡ heights_of log_blowup (matrices_of (claims_of (λ domain. domain.log_size) claims.now))) }
{
    let sizes = claimed_sizes(claims);
    let mut heights = Vec::new(alloc);
    for size in (0..NUM_LOG_SIZES).rev() {
        if sizes[size] {
            heights.push(size + log_blowup)?;
        }
    }
    Ok(heights)
}
