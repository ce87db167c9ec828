//! The prover's side of a test of one round, step by step and as a whole.

use crate::run::{Run, shape_of};
use crate::transcript::cases::Form;
use p3_challenger::Sha256Challenger;
use p3_field::{BabyBear, BabyBear4, Field};
use p3_fri_core::transcript::{ProverTranscript, play_fri};
use std::alloc::Global;
use std::process::Abort;

/// Whether the prover's transcript of one round and the queries, step by step or as a whole, is
/// this run.
pub(crate) fn proves(
    rt: &impl Abort,
    alloc: Global,
    challenger: &mut Sha256Challenger,
    form: &Form,
    run: &Run,
) -> bool {
    let shape = shape_of(rt, alloc, &[3], 2, 3);
    let final_poly = [BabyBear4::from_u64(5)];
    if let Form::Whole = form {
        let played = play_fri(alloc, challenger, shape, &[[7u8; 32]], &final_poly);
        return run.is_played(&played.expect(rt, "the prover is refused"));
    }
    let transcript = ProverTranscript::<Sha256Challenger, BabyBear, BabyBear4>::new(
        alloc, challenger, shape,
    );
    let mut transcript = transcript.expect(rt, "memory");
    let round = transcript.commit_round([7u8; 32]);
    let (beta, commit_witness) = round.expect(rt, "a round is refused");
    let queries = transcript.query_phase(alloc, &final_poly);
    let (indices, query_witness) = queries.expect(rt, "the queries are refused");
    transcript.finish();
    run.draws(&[beta], &indices)
        & (commit_witness == Some(run.commit_witness))
        & (query_witness == Some(run.query_witness))
}
