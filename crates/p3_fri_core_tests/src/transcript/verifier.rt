//! The verifier's side of a test, step by step and as a whole.

ghost use Rattle.std.specs.Prelude.{◌≡◌, ◌≤◌};
ghost use Rattle.p3_fri_transcript.specs.Shapes.{fri_shape};

use crate::run::Run;
use crate::transcript::cases::{Answer, Form};
use p3_challenger::Sha256Challenger;
use p3_field::{BabyBear, BabyBear4};
use p3_fri_core::transcript::{FriMessages, FriShape, Refusal, VerifierTranscript, replay_fri};
use std::alloc::Global;
use std::process::Abort;

/// What the verifier returns, step by step or as a whole.
pub(crate) fn verify(
    alloc: Global,
    challenger: &mut Sha256Challenger,
    form: &Form,
    shape: FriShape,
    sent: FriMessages<'_, BabyBear, BabyBear4, [u8; 32]>,
    run: &Run,
) -> Answer
    requires commit_bits { (fri_shape shape).commit_pow_bits ≤ 63 }
    requires query_bits { (fri_shape shape).query_pow_bits ≤ 63 }
    requires index_bits { (fri_shape shape).index_bits ≡ 3 }
{
    if let Form::Whole = form {
        return match replay_fri(alloc, challenger, shape, sent) {
            Ok(replayed) => Ok(run.draws(&replayed.betas, &replayed.indices)),
            Err(refusal) => Err(refusal),
        };
    }
    let Ok(mut transcript) = VerifierTranscript::<Sha256Challenger, BabyBear, BabyBear4>::new(
        alloc, challenger, shape,
    ) else {
        return Err(Refusal::Seed);
    };
    match transcript.commit_rounds(alloc, sent.commitments, sent.commit_witnesses) {
        Ok(betas) => match transcript.query_phase(alloc, sent.final_poly, sent.query_witness) {
            Ok(indices) => {
                transcript.finish();
                Ok(run.draws(&betas, &indices))
            },
            Err(failure) => {
                transcript.abort();
                Err(Refusal::Step(failure))
            },
        },
        Err(failure) => {
            transcript.abort();
            Err(Refusal::Step(failure))
        },
    }
}
