//! Counts and refusals, and runs of both sides, step by step and as a whole. The drawn values were
//! computed from the rules of the formats with the hashlib module of Python's standard library.

mod cases;
mod prover;
mod verifier;

use crate::run::{Run, element, shape_of, witness_of};
use cases::{CASES, Case};
use p3_challenger::Sha256Challenger;
use p3_challenger::fs::Script;
use p3_field::{BabyBear, BabyBear4, Field};
use p3_fri_core::transcript::{FriMessages, Refusal};
use prover::proves;
use std::alloc::Global;
use std::process::Abort;
use verifier::verify;

/// What both sides draw and find along a test of one round.
fn drawn() -> Run {
    Run {
        beta: element([854_485_589, 1_124_761_396, 1_343_671_587, 916_607_916]),
        indices: [2, 4, 4, 5],
        commit_witness: BabyBear::from_u64(2),
        query_witness: BabyBear::from_u64(19),
    }
}

/// Whether both sides run as the case says, by new challengers: the prover's transcript is the run,
/// and the verifier returns what the case says and ends where it says.
fn is_met(rt: &impl Abort, alloc: Global, case: &Case) -> bool {
    let (commit_bits, query_bits) = (case.commit_pow_bits, case.query_pow_bits);
    if commit_bits > 63
        || query_bits > 63
        || case.commitments > 50
        || case.commit_witnesses > 50
        || case.coefficients > 3
    {
        rt.panic("more bits, rounds or coefficients");
    }
    let witnesses = [BabyBear::from_u64(case.commit_witness); 50];
    let fives = [BabyBear4::from_u64(5); 3];
    let sent = FriMessages {
        commitments: &[[7u8; 32]; 50][..case.commitments],
        commit_witnesses: &witnesses[..case.commit_witnesses],
        final_poly: &fives[..case.coefficients],
        query_witness: witness_of(case.query_witness),
    };
    let run = drawn();
    let mut prover = Sha256Challenger::new();
    let mut verifier = Sha256Challenger::new();
    let mut seeded = Sha256Challenger::new();
    let shape = shape_of(rt, alloc, case.log_arities, commit_bits, query_bits);
    let seed = shape
        .seed::<BabyBear, BabyBear4>(alloc)
        .expect(rt, "memory");
    let answer = verify(alloc, &mut verifier, &case.verifier, shape, sent, &run);
    let is_run = proves(rt, alloc, &mut prover, &case.prover, &run);
    let is_unmoved = verifier == seeded;
    let _script = Script::start::<BabyBear, Sha256Challenger>(&mut seeded, seed);
    let end = (verifier == seeded, verifier == prover);
    let is_so = is_run & (answer == case.answer) & (end == case.end);
    is_so | (case.is_seed_optional & (answer == Err(Refusal::Seed)) & is_unmoved)
}

#[test]
fn transcripts(rt: HostRuntime) {
    for case in &CASES {
        if !is_met(&rt, rt.alloc(), case) {
            rt.panic(case.name);
        }
    }
}
