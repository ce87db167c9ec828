//! Which refusal a failure becomes where `?` converts it, and how refusals print.

use p3_fri_folding::PowPhase;
use p3_fri_pcs_transcript::pcs_transcript::PcsTranscriptFailure;
use p3_fri_relation::error::FriError;
use p3_fri_transcript::transcript::TranscriptFailure;
use p3_mmcs::Sha256MmcsError;
use std::alloc::AllocError;

type Refusal = FriError<Sha256MmcsError, Sha256MmcsError>;

/// What fails.
enum Failure {
    /// The test's transcript.
    Test(TranscriptFailure),
    /// The transcript around it.
    Around(PcsTranscriptFailure),
    Memory,
}

/// What `?` makes of the failure.
fn refused(failure: &Failure) -> Result<(), Refusal> {
    match failure {
        Failure::Test(failure) => Err(*failure)?,
        Failure::Around(failure) => Err(*failure)?,
        Failure::Memory => Err(AllocError)?,
    }
    Ok(())
}

/// Failures, and how what they become prints: those of the test keep their numbers, and those
/// around it are of its phase.
static FAILURES: [(Failure, &str); 11] = [
    (
        Failure::Test(TranscriptFailure::PowWitness(PowPhase::CommitPhase)),
        "Err(InvalidPowWitness(CommitPhase))",
    ),
    (
        Failure::Test(TranscriptFailure::MissingPowWitness(PowPhase::Query)),
        "Err(InvalidPowWitness(Query))",
    ),
    (
        Failure::Test(TranscriptFailure::FinalPolyLen {
            expected: 1,
            got: 3,
        }),
        "Err(FinalPolyLengthMismatch { expected: 1, got: 3 })",
    ),
    (
        Failure::Test(TranscriptFailure::CommitRoundCount {
            expected: 3,
            got: 50,
        }),
        "Err(CommitRoundCountMismatch { expected: 3, got: 50 })",
    ),
    (
        Failure::Test(TranscriptFailure::CommitPowWitnessCount {
            expected: 3,
            got: 2,
        }),
        "Err(CommitPowWitnessCountMismatch { expected: 3, got: 2 })",
    ),
    (
        Failure::Test(TranscriptFailure::OutOfMemory),
        "Err(OutOfMemory)",
    ),
    (
        Failure::Around(PcsTranscriptFailure::ClaimedEvaluationCount {
            opening: 4,
            expected: 2,
            got: 3,
        }),
        "Err(ClaimedEvaluationCountMismatch { opening: 4, expected: 2, got: 3 })",
    ),
    (
        Failure::Around(PcsTranscriptFailure::PowWitness { bits: 8 }),
        "Err(InvalidPowWitness(Batch))",
    ),
    (
        Failure::Around(PcsTranscriptFailure::MissingPowWitness { bits: 8 }),
        "Err(InvalidPowWitness(Batch))",
    ),
    (
        Failure::Around(PcsTranscriptFailure::OutOfMemory),
        "Err(OutOfMemory)",
    ),
    (Failure::Memory, "Err(OutOfMemory)"),
];

#[test]
fn failures_become_refusals(rt: HostRuntime) {
    for (failure, wanted) in &FAILURES {
        let answer = refused(failure);
        let text = format!(in rt.alloc(); "{answer:?}").expect(&rt, "memory");
        assert!(rt; text.as_str() == *wanted, "{wanted}");
    }
}

/// Refusals, and the words for them.
static REFUSALS: [(Refusal, &str); 4] = [
    (
        FriError::SiblingValuesLengthMismatch {
            round: 0,
            expected: 1,
            got: 2,
        },
        "a row of round 0 has 2 siblings for 1",
    ),
    (
        FriError::InputError(Sha256MmcsError::RootMismatch),
        "the rows of a batch: RootMismatch",
    ),
    (
        FriError::NonCanonicalPowWitness {
            phase: PowPhase::Batch,
        },
        "the witness of the opening-batching phase, of no bits, is not zero",
    ),
    (FriError::OutOfMemory, "out of memory"),
];

#[test]
fn refusals_say_what_was_found(rt: HostRuntime) {
    for (refusal, wanted) in &REFUSALS {
        let text = format!(in rt.alloc(); "{refusal}").expect(&rt, "memory");
        assert!(rt; text.as_str() == *wanted, "{wanted}");
    }
}
