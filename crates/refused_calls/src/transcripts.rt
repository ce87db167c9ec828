//! The beginnings of transcripts.

use crate::answer::{Name, Result, drawn, kept, tell_left};
use crate::call::TranscriptCall;
use p3_challenger::Sha256Challenger;
use p3_field::{BabyBear, BabyBear4};
use p3_fri_pcs_transcript::pcs_transcript::{PcsShape, PcsTranscript};
use p3_fri_transcript::transcript::{FriShape, FriTranscript};
use p3_test_openings::listed::{listed, pair};

type Transcript<'a, Side> = FriTranscript<'a, Side, Sha256Challenger, BabyBear, BabyBear4>;

type OpeningTranscript<'a, Side> = PcsTranscript<'a, Side, Sha256Challenger, BabyBear, BabyBear4>;

/// Begins a side's transcript: of the low-degree test, of two rounds with proofs of work, or of an
/// opening of two matrices, the first at two points. Prints whether it began, and what it leaves of
/// the challenger.
pub fn begin<Side>(rt: &HostRuntime, name: Name, call: &TranscriptCall) -> Result<()> {
    let alloc = rt.alloc();
    let mut challenger = Sha256Challenger::new();
    let begun = match call {
        TranscriptCall::LowDegreeTest => {
            let shape = FriShape {
                log_arities: pair(alloc, 3, 1)?,
                final_poly_len: 1,
                commit_pow_bits: 1,
                query_pow_bits: 1,
                num_queries: 4,
                index_bits: 5,
                log_blowup: 1,
                max_log_arity: 3,
            };
            match Transcript::<'_, Side>::new(alloc, &mut challenger, shape) {
                Ok(transcript) => Ok(transcript.abort()),
                Err(refusal) => Err(refusal),
            }
        }
        TranscriptCall::Opening => {
            let matrices = pair(alloc, pair(alloc, 2, 2)?, listed(alloc, 3)?)?;
            let shape = PcsShape {
                claimed_evaluation_counts: listed(alloc, matrices)?,
                batch_pow_bits: 1,
            };
            match OpeningTranscript::<'_, Side>::new(alloc, &mut challenger, shape) {
                Ok(transcript) => Ok(transcript.abort()),
                Err(refusal) => Err(refusal),
            }
        }
    };
    let left = kept(&challenger);
    let answer = begun.and(Ok(drawn(&mut challenger)));
    tell_left(rt, name, &answer, [left, ""])
}
