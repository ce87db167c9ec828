//! Proofs of work without a solution.

use crate::proofs::{FALLING, committed, parameters_of, prove};
use p3_fri_folding::{FriProverError, PowPhase};
use p3_test_challengers::AlwaysOne;
use std::alloc::Global;
use std::process::Abort;

/// Bits of the proofs of work of the rounds and of the queries, and the phase without a witness.
const CASES: [(usize, usize, Option<PowPhase>); 3] = [
    (0, 0, None),
    (0, 3, Some(PowPhase::Query)),
    (3, 3, Some(PowPhase::CommitPhase)),
];

/// Why the prover refuses with so many bits.
fn refusal(
    rt: &impl Abort,
    alloc: Global,
    commit_bits: usize,
    query_bits: usize,
) -> Option<FriProverError> {
    let parameters = parameters_of(&(1, 1, 0), &(commit_bits, query_bits, 0));
    let (_claims, data) = committed(rt, alloc, &FALLING, 1);
    prove(
        rt,
        alloc,
        &parameters,
        0,
        &FALLING.words,
        &data,
        &mut AlwaysOne {},
    )
    .err()
}

#[test]
fn work_without_a_witness_is_named_by_its_phase(rt: HostRuntime) {
    for (commit_bits, query_bits, phase) in &CASES {
        let expected = match phase {
            Some(phase) => Some(FriProverError::NoPowWitness { phase: *phase }),
            None => None,
        };
        let refusal = refusal(&rt, rt.alloc(), *commit_bits, *query_bits);
        assert!(rt; refusal == expected, "{commit_bits}, {query_bits}");
    }
}
