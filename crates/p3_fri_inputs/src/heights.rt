//! The log heights of the claimed matrices.

ghost use Rattle.std.specs.Prelude.{◌≡◌, ◌++◌, ◌∷◌, [], if◌then◌else◌, ◌≤◌, ◌<◌, ◌+◌, ◌==◌, ◌↔◌};
ghost use Rattle.std.specs.Prelude.{map, All, IfOk, IsTrue};
ghost use Rattle.p3_fri_relation.specs.Heights.{matrices_of, log_height, has_height, heights_of};
ghost use Rattle.p3_fri_relation.specs.Heights.{greatest_height};
ghost use Rattle.p3_fri_relation.specs.Views.{claims_of, matrix_claim};

use p3_field_core::{Field, TwoAdicField, TwoAdicMultiplicativeCoset};
use p3_mmcs::{CommitmentOpening, MatrixOpening};
use std::alloc::{AllocError, Global};

/// Whether this is the log height of a domain of log size `log_size` with its blowup.
fn is_log_height(log_size: usize, log_blowup: usize, height: usize) -> bool
    ensures { result ≡ (log_size + log_blowup == height) }
{
    log_size <= height && height - log_size == log_blowup
}

/// Whether some of these matrices has the log height.
fn some_has_height<F: TwoAdicField, EF: Field>(
    matrices: &[MatrixOpening<EF, TwoAdicMultiplicativeCoset<F>>],
    log_blowup: usize,
    height: usize,
) -> bool
    ensures { result ≡ has_height log_blowup
        (map (matrix_claim (λ domain. domain.log_size)) matrices.now) height }
{
    for k in 0..matrices.len() {
        if is_log_height(matrices[k].domain.log_size, log_blowup, height) {
            return true;
        }
    }
    false
}

/// Whether some claimed matrix has the log height.
pub fn has_height<F: TwoAdicField, EF: Field, Com>(
    claims: &[CommitmentOpening<EF, Com, TwoAdicMultiplicativeCoset<F>>],
    log_blowup: usize,
    height: usize,
) -> bool
    ensures { result ≡ has_height log_blowup
        (matrices_of (claims_of (λ domain. domain.log_size) claims.now)) height }
{
    for batch in 0..claims.len() {
        if some_has_height(&claims[batch].matrices, log_blowup, height) {
            return true;
        }
    }
    false
}

/// Adds a log height to those before it, if it is one of them.
fn push_height(heights: &mut Vec<usize>, is_one: bool, height: usize) -> Result<(), AllocError>
    ensures { IfOk result (λ _. heights.new.items
        ≡ heights.old.items ++ (if is_one then height ∷ [] else [])) }
{
    if is_one {
        heights.push(height)?;
    }
    Ok(())
}

/// The log heights of the claimed matrices, each once, falling.
pub fn falling_heights<F: TwoAdicField, EF: Field, Com>(
    alloc: Global,
    claims: &[CommitmentOpening<EF, Com, TwoAdicMultiplicativeCoset<F>>],
    log_blowup: usize,
    log_global_max_height: usize,
) -> Result<Vec<usize>, AllocError>
    requires within_two_adicity { log_global_max_height ≤ F.TWO_ADICITY }
    requires heights { All (λ m. log_height log_blowup m ≤ log_global_max_height)
        (matrices_of (claims_of (λ domain. domain.log_size) claims.now)) }
    ensures { IfOk result (λ heights. heights.items ≡ heights_of log_blowup
        (matrices_of (claims_of (λ domain. domain.log_size) claims.now))) }
{
    let mut heights = Vec::new(alloc);
    for h in (0..log_global_max_height + 1).rev() {
        push_height(&mut heights, has_height(claims, log_blowup, h), h)?;
    }
    Ok(heights)
}

/// The greatest log height of these matrices, 0 without matrices.
pub fn greatest_log_height<F: TwoAdicField, EF: Field>(
    matrices: &[MatrixOpening<EF, TwoAdicMultiplicativeCoset<F>>],
    log_blowup: usize,
) -> usize
    requires { All (λ m. log_height log_blowup m < 64)
        (map (matrix_claim (λ domain. domain.log_size)) matrices.now) }
    ensures { result ≡ greatest_height log_blowup
        (map (matrix_claim (λ domain. domain.log_size)) matrices.now) }
{
    let mut greatest: usize = 0;
    for k in 0..matrices.len() {
        greatest = greatest.max(matrices[k].domain.log_size + log_blowup);
    }
    greatest
}

/// Whether a domain of log size `log_size` has a log height of at most `bound` with its blowup.
fn is_within(log_size: usize, log_blowup: usize, bound: usize) -> bool
    ensures { IsTrue result ↔ (log_size + log_blowup ≤ bound) }
{
    log_size <= bound && log_blowup <= bound - log_size
}

/// Whether the log height of each of these matrices is at most `bound`.
fn are_within<F: TwoAdicField, EF: Field>(
    matrices: &[MatrixOpening<EF, TwoAdicMultiplicativeCoset<F>>],
    log_blowup: usize,
    bound: usize,
) -> bool
    ensures { IsTrue result ↔ All (λ m. log_height log_blowup m ≤ bound)
        (map (matrix_claim (λ domain. domain.log_size)) matrices.now) }
{
    for k in 0..matrices.len() {
        if !is_within(matrices[k].domain.log_size, log_blowup, bound) {
            return false;
        }
    }
    true
}

/// Whether the log height of each claimed matrix, with the blowup of its domain, is at most
/// `bound`, as `open_inputs` asks of the global one.
pub fn heights_are_within<F: TwoAdicField, EF: Field, Com>(
    claims: &[CommitmentOpening<EF, Com, TwoAdicMultiplicativeCoset<F>>],
    log_blowup: usize,
    bound: usize,
) -> bool
    ensures { IsTrue result ↔ All (λ m. log_height log_blowup m ≤ bound)
        (matrices_of (claims_of (λ domain. domain.log_size) claims.now)) }
{
    for batch in 0..claims.len() {
        if !are_within(&claims[batch].matrices, log_blowup, bound) {
            return false;
        }
    }
    true
}
