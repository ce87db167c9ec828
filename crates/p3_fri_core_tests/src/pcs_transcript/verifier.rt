//! The verifier's side of an opening: its claims alone, step by step and as a whole.

ghost use Rattle.std.specs.Prelude.{◌≤◌};

use crate::pcs_transcript::cases::{Answer, Case, Claim, Counts, Form, PcsRun};
use crate::pcs_transcript::shapes::{parameters, shape_of};
use crate::run::{shape_of as test_of, witness_of};
use p3_challenger::Sha256Challenger;
use p3_field::{BabyBear, BabyBear4};
use p3_fri_core::pcs_transcript::{PcsFailure, PcsShape, PcsVerifierTranscript, replay_pcs};
use p3_fri_core::transcript::{FriMessages, Refusal};
use std::alloc::Global;
use std::process::Abort;

/// What the verifier returns for claims where these counts are described.
pub(crate) fn compare(
    rt: &impl Abort,
    alloc: Global,
    challenger: &mut Sha256Challenger,
    described: Counts,
    claims: &[Claim],
) -> Answer {
    let shape = shape_of(rt, alloc, described);
    let Ok(mut transcript) = PcsVerifierTranscript::<Sha256Challenger, BabyBear, BabyBear4>::new(
        alloc, challenger, shape,
    ) else {
        return Err(Refusal::Seed);
    };
    let answer = transcript.claimed_openings(claims);
    transcript.abort();
    match answer {
        Ok(()) => Ok(false),
        Err(failure) => Err(Refusal::Step(PcsFailure::Pcs(failure))),
    }
}

/// The verifier's whole opening, with a test of one round, or its steps, with nothing inside the
/// bracket. The claims are those described.
pub(crate) fn verify(
    rt: &impl Abort,
    alloc: Global,
    challenger: &mut Sha256Challenger,
    case: &Case,
    claims: &[Claim],
    sent: FriMessages<'_, BabyBear, BabyBear4, [u8; 32]>,
    run: &PcsRun,
) -> Answer
    requires bits { case.now.bits ≤ 63 }
{
    let witness = witness_of(case.batch_witness);
    let shape = PcsShape::from_claims(alloc, &parameters(case.bits), claims);
    let shape = shape.expect(rt, "memory");
    if let Form::Whole = case.form {
        let test = test_of(rt, alloc, &[3], 2, 3);
        return match replay_pcs(alloc, challenger, shape, claims, witness, test, sent) {
            Ok(replayed) => Ok(
                (replayed.alpha == run.alpha) & run.test.draws(&replayed.betas, &replayed.indices),
            ),
            Err(refusal) => Err(refusal),
        };
    }
    let transcript = PcsVerifierTranscript::<Sha256Challenger, BabyBear, BabyBear4>::new(
        alloc, challenger, shape,
    );
    let mut transcript = transcript.expect(rt, "memory");
    let claimed = transcript.claimed_openings(claims);
    claimed.expect(rt, "other claims are described");
    match transcript.batch_phase(witness) {
        Ok(alpha) => {
            let _lent = transcript.begin_delegate();
            transcript.end_delegate();
            transcript.finish();
            Ok(alpha == run.alpha)
        }
        Err(failure) => {
            transcript.abort();
            Err(Refusal::Step(PcsFailure::Pcs(failure)))
        }
    }
}
