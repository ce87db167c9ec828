//! How phases and failures are printed.

use p3_fri_core::PowPhase;
use p3_fri_core::transcript::TranscriptFailure;

#[test]
fn phases_and_failures_are_printed(rt: HostRuntime) {
    let count = TranscriptFailure::CommitRoundCount {
        expected: 3,
        got: 50,
    };
    let missing = TranscriptFailure::MissingPowWitness(PowPhase::Query);
    let (batch, commit, query) = (PowPhase::Batch, PowPhase::CommitPhase, PowPhase::Query);
    let text = format!(in rt.alloc(); "{batch}; {commit}; {query}; {count}; {missing}");
    let wanted = "opening-batching; commit; query; there are 50 commitments for 3 rounds; \
        the proof of work of the query phase has no witness";
    assert!(rt; text.expect(&rt, "memory").as_str() == wanted);
}
