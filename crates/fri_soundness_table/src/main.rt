//! Prints what the statements of soundness by counting come to for some parameters: the greatest
//! number of failing positions for which each round and each batch has room, that one more leaves
//! none, and how many challenges can be bad then.
#![tactic(auto)]

use anyhow::{Result, anyhow};
use fri_soundness_error::{SoundnessError, soundness_error, tallest_of};
use p3_fri_folding::{FriParameters, is_strictly_falling};
use std::alloc::Global;

/// An instance of which the numbers are printed, with the log heights of its matrices and their
/// numbers of columns.
#[derive(Clone, Copy)]
struct Instance {
    log_blowup: usize,
    max_log_arity: usize,
    heights: &'static [usize],
    columns: &'static [usize],
    failing: usize,
}

/// The instances: blowup, greatest arity, heights, columns, failing positions.
const INSTANCES: [(usize, usize, &[usize], &[usize], usize); 7] = [
    (1, 1, &[20], &[1], 174_763),
    (2, 1, &[20], &[1], 262_145),
    (3, 1, &[20], &[1], 305_835),
    (2, 2, &[20], &[1], 157_287),
    (1, 3, &[20], &[1], 58_255),
    (1, 1, &[20], &[64], 8_065),
    (2, 1, &[20, 18], &[8, 4], 87_381),
];

/// The numbers of an instance, where so many positions fail.
fn numbers(alloc: Global, instance: &Instance, failing: usize) -> Result<SoundnessError> {
    let parameters = FriParameters {
        log_blowup: instance.log_blowup,
        log_final_poly_len: 0,
        max_log_arity: instance.max_log_arity,
        num_queries: 100,
        batch_proof_of_work_bits: 0,
        commit_proof_of_work_bits: 0,
        query_proof_of_work_bits: 0,
        mmcs: (),
    };
    let heights = instance.heights;
    if !is_strictly_falling(heights)
        || tallest_of(heights) >= 64
        || parameters.max_log_arity == 0
        || parameters.log_blowup >= 64
        || instance.columns.len() != heights.len()
    {
        return Err(anyhow!("no instance"));
    }
    Ok(soundness_error(alloc, &parameters, heights, instance.columns, failing)?)
}

/// Whether each round and each batch has room.
fn has_room(error: &SoundnessError, log_blowup: usize) -> bool {
    for round in &error.rounds {
        if round.log_height >= 64 || !round.has_room(log_blowup) {
            return false;
        }
    }
    for batch in &error.batches {
        if batch.log_height >= 64 || !batch.has_room(log_blowup) {
            return false;
        }
    }
    true
}

/// How many challenges can be bad, of all rounds and batches together.
fn bad_challenges(error: &SoundnessError) -> u128 {
    let mut sum: u128 = 0;
    for round in &error.rounds {
        sum = sum.saturating_add(round.bad_challenges);
    }
    for batch in &error.batches {
        sum = sum.saturating_add(batch.bad_challenges);
    }
    sum
}

fn main(rt: HostRuntime) -> Result<()> {
    for (log_blowup, max_log_arity, heights, columns, failing) in INSTANCES {
        let instance = Instance {
            log_blowup,
            max_log_arity,
            heights,
            columns,
            failing,
        };
        let error = numbers(rt.alloc(), &instance, failing)?;
        let more = numbers(rt.alloc(), &instance, failing.saturating_add(1))?;
        let bad = bad_challenges(&error);
        let (room, more_room) = (has_room(&error, log_blowup), has_room(&more, log_blowup));
        println!(rt;
            "log blowup {log_blowup}, log arity {max_log_arity}, \
             columns {columns:?} at {heights:?}: \
             {failing} failing, {bad} bad, room {room}, with one more {more_room}"
        )?;
    }
    Ok(())
}
