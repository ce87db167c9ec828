//! Claims and refusals, streams, and runs of both sides, step by step and as a whole. The drawn
//! values were computed from the rules of the formats with the hashlib module of Python's standard
//! library.

mod cases;
mod prover;
pub(crate) mod shapes;
mod verifier;

use crate::run::witness_of;
use cases::{CASES, Case, Form, run_behind};
use p3_challenger::Sha256Challenger;
use p3_field::{BabyBear4, Field};
use p3_fri_core::transcript::{FriMessages, Refusal};
use prover::proves;
use shapes::{claims_of, one_value};
use std::alloc::Global;
use std::process::Abort;
use verifier::{compare, verify};

/// Whether both sides run as the case says, by new challengers: the prover draws and finds what the
/// run does, if there is one, and the verifier returns what the case says and ends where it says.
fn is_met(rt: &impl Abort, alloc: Global, case: &Case) -> bool {
    if case.bits > 63 {
        rt.panic("more bits");
    }
    let run = run_behind(case.bits);
    let claims = claims_of(rt, alloc, case.claimed);
    let mut prover = Sha256Challenger::new();
    let mut verifier = Sha256Challenger::new();
    if let Form::Claims = case.form {
        let answer = compare(rt, alloc, &mut verifier, case.described, &claims);
        // the prover's is new
        let is_unmoved = verifier == prover;
        let is_refused = case.is_seed_optional & (answer == Err(Refusal::Seed));
        return (is_unmoved & is_refused) | (!is_unmoved & (answer == case.answer));
    }
    let final_poly = [BabyBear4::from_u64(5)];
    let sent = FriMessages {
        commitments: &[[7u8; 32]],
        commit_witnesses: &[run.test.commit_witness],
        final_poly: &final_poly,
        query_witness: witness_of(case.query_witness),
    };
    let answer = verify(rt, alloc, &mut verifier, case, &claims, sent, &run);
    let values = one_value(rt, alloc);
    let is_run = proves(rt, alloc, &mut prover, case, &values, &final_poly, &run);
    let is_as_prover = verifier == prover;
    is_run & (answer == case.answer) & (is_as_prover == (answer == Ok(true)))
}

#[test]
fn openings(rt: HostRuntime) {
    for case in &CASES {
        if !is_met(&rt, rt.alloc(), case) {
            rt.panic(case.name);
        }
    }
}
