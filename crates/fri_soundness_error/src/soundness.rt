//! The numbers of all rounds and batches of an instance.

ghost use Rattle.std.specs.Prelude.{◌≡◌, ◌<◌, ◌≤◌, ◌+◌, ◌-◌, ◌^◌, ℕ, List, length, sum, IfOk};
ghost use Rattle.p3_fri_folding.specs.Schedule.{IsStrictlyFalling, tallest, schedule};
ghost use Rattle.fri_soundness.specs.FoldTests.{budget};
ghost use Rattle.fri_soundness_error.specs.Errors.{is_among, round_error, round_errors};
ghost use Rattle.fri_soundness_error.specs.Errors.{batch_error, batch_errors};

use crate::errors::{BatchError, RoundError, bad_challenges, degree};
use p3_fri_folding::{FriParameters, fold_schedule};
use std::alloc::{AllocError, Global};

/// What can go wrong in an instance, where no more than `failing` positions fail.
#[derive(Debug, Drop)]
pub struct SoundnessError {
    /// Of the rounds, in order.
    pub rounds: Vec<RoundError>,
    /// Of the batches, from the tallest columns down.
    pub batches: Vec<BatchError>,
}

/// The rows of log height `log_height` that fail, where so many positions of log height `top` do.
fn failing_rows(top: usize, failing: usize, log_height: usize) -> usize
    requires below { log_height ≤ top }
    requires small { top < 64 }
    ensures { result ≡ budget top failing log_height }
{
    failing >> (top - log_height)
}

/// The numbers of one round.
fn error_of_round(
    heights: &[usize],
    top: usize,
    failing: usize,
    log_height: usize,
    log_arity: usize,
) -> RoundError
    requires tallest { top ≡ tallest heights.now }
    requires below { log_height ≤ top }
    requires small { top < 64 }
    requires arity { log_arity < 64 }
    ensures { result ≡ round_error heights.now failing log_height log_arity }
{
    let degree = degree(heights.contains(&log_height), log_arity);
    let failing_rows = failing_rows(top, failing, log_height);
    RoundError {
        log_height,
        log_arity,
        degree,
        failing_rows,
        bad_challenges: bad_challenges(degree, failing_rows),
    }
}

/// The numbers of the rounds of these log arities.
fn errors_of_rounds(
    alloc: Global,
    heights: &[usize],
    top: usize,
    failing: usize,
    log_arities: &[usize],
) -> Result<Vec<RoundError>, AllocError>
    requires tallest { top ≡ tallest heights.now }
    requires small { top < 64 }
    requires sum { sum log_arities.now ≤ top }
    ensures { IfOk result (λ rounds.
        rounds.items ≡ round_errors heights.now failing log_arities.now top) }
{
    let mut rounds = Vec::new(alloc);
    let mut log_height = top;
    for log_arity in log_arities {
        log_height -= *log_arity;
        rounds.push(error_of_round(heights, top, failing, log_height, *log_arity))?;
    }
    Ok(rounds)
}

/// The numbers of one batch.
fn error_of_batch(top: usize, failing: usize, log_height: usize, columns: usize) -> BatchError
    requires below { log_height ≤ top }
    requires small { top < 64 }
    ensures { (heights : List ℕ) → top ≡ tallest heights →
        result ≡ batch_error heights failing log_height columns }
{
    let failing_rows = failing_rows(top, failing, log_height);
    BatchError {
        log_height,
        columns,
        failing_rows,
        bad_challenges: bad_challenges(columns.saturating_sub(1), failing_rows),
    }
}

/// The numbers of the batches of these log heights.
fn errors_of_batches(
    alloc: Global,
    heights: &[usize],
    top: usize,
    failing: usize,
    columns: &[usize],
) -> Result<Vec<BatchError>, AllocError>
    requires tallest { top ≡ tallest heights.now }
    requires falling { IsStrictlyFalling heights.now }
    requires small { top < 64 }
    requires counts { length columns.now ≡ length heights.now }
    ensures { IfOk result (λ batches.
        batches.items ≡ batch_errors heights.now failing heights.now columns.now) }
{
    let mut batches = Vec::new(alloc);
    for i in 0..heights.len() {
        batches.push(error_of_batch(top, failing, heights[i], columns[i]))?;
    }
    Ok(batches)
}

/// What the statements of soundness by counting come to, for an instance of these parameters whose
/// matrices have these log heights, each with so many columns (one for each point at which it is
/// opened), where at most `failing` positions fail. The log heights fall strictly and are below 64,
/// and the rounds are those of `fold_schedule`. That the bound holds asks for room in each round
/// and each batch, which `has_room` tells.
pub fn soundness_error<M>(
    alloc: Global,
    parameters: &FriParameters<M>,
    heights: &[usize],
    columns: &[usize],
    failing: usize,
) -> Result<SoundnessError, AllocError>
    requires falling { IsStrictlyFalling heights.now }
    requires small { tallest heights.now < 64 }
    requires cap { 0 < parameters.now.max_log_arity }
    requires final_height { parameters.now.log_blowup + parameters.now.log_final_poly_len < 2 ^ 64 }
    requires counts { length columns.now ≡ length heights.now }
    ensures rounds { IfOk result (λ error. error.rounds.items
        ≡ round_errors heights.now failing (schedule heights.now
        (parameters.now.log_blowup + parameters.now.log_final_poly_len)
        parameters.now.max_log_arity) (tallest heights.now)) }
    ensures batches { IfOk result (λ error. error.batches.items
        ≡ batch_errors heights.now failing heights.now columns.now) }
{
    let final_height = parameters.log_blowup + parameters.log_final_poly_len;
    let log_arities = fold_schedule(alloc, heights, final_height, parameters.max_log_arity)?;
    let top = tallest_of(heights);
    let rounds = errors_of_rounds(alloc, heights, top, failing, log_arities.as_slice())?;
    let batches = errors_of_batches(alloc, heights, top, failing, columns)?;
    Ok(SoundnessError { rounds, batches })
}

/// The tallest of falling log heights, 0 where there is none.
pub fn tallest_of(heights: &[usize]) -> usize
    ensures { result ≡ tallest heights.now }
{
    match heights.first() {
        Some(height) => *height,
        None => 0,
    }
}
