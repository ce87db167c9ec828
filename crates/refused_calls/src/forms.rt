//! The call that reads a proof from its plain form.

use crate::answer::{Fault, Name, Result, tell};
use p3_field::{BabyBear, BabyBear4};
use p3_fri_plain::{PlainBatch, PlainFriProof, PlainStep, from_plain, to_plain};
use p3_test_openings::listed::{listed, pair};
use std::alloc::{AllocError, Global};

/// What is made, or the allocator's refusal.
type Made<T> = std::result::Result<T, AllocError>;

/// An element of the extension, by its coefficients.
const ELEMENT: [u64; 4] = [1, 2, 3, 4];

/// A list of one list.
fn alone<T: Copy>(alloc: Global, values: &[T]) -> Made<Vec<Vec<T>>> {
    listed(alloc, Vec::from_slice(alloc, values)?)
}

/// Such a list for each of two queries.
fn of_queries<T: Copy>(alloc: Global, first: &[T], second: &[T]) -> Made<Vec<Vec<Vec<T>>>> {
    pair(alloc, alone(alloc, first)?, alone(alloc, second)?)
}

/// The plain form of a proof with one round, whose queries open one matrix. Each path has one
/// digest.
fn form(alloc: Global) -> Made<PlainFriProof> {
    let batch = PlainBatch {
        opened_values: of_queries(alloc, &[5, 6], &[7, 8])?,
        paths: of_queries(alloc, &[7; 32], &[8; 32])?,
    };
    let step = PlainStep {
        sibling_values: of_queries(alloc, &ELEMENT, &ELEMENT)?,
        paths: of_queries(alloc, &[7; 32], &[8; 32])?,
    };
    Ok(PlainFriProof {
        batch_pow_witness: 1,
        commit_phase_commits: alone(alloc, &[9; 32])?,
        commit_pow_witnesses: listed(alloc, 2)?,
        input_openings: listed(alloc, batch)?,
        commit_phase_openings: listed(alloc, step)?,
        final_poly: alone(alloc, &ELEMENT)?,
        query_pow_witness: 3,
    })
}

/// `from_plain`; the proof is shown by its plain form.
pub fn tell_from_plain(rt: &HostRuntime, name: Name) -> Result<()> {
    let form = form(rt.alloc())?;
    let answer = match from_plain::<BabyBear, BabyBear4>(rt.alloc(), form) {
        Ok(proof) => match to_plain(rt.alloc(), &proof) {
            Ok(form) => Ok(form),
            Err(_) => return Err(Fault::Memory),
        },
        Err(refusal) => Err(refusal),
    };
    tell(rt, name, &answer)
}
