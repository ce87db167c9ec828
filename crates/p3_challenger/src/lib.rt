//! Challengers: where both sides of a protocol absorb what was sent and draw their challenges from,
//! and `fs`, transcripts by description. All of it stands in three crates below, and has its names
//! here.
#![tactic(auto)]

pub use p3_challenger_core::{
    CanObserve, CanSample, CanSampleBits, FieldChallenger, GrindingChallenger, Plays,
    field_challenger, grinding_challenger, observe, plays, sample,
};
pub use p3_challenger_fs as fs;
pub use p3_challenger_sha256::{Sha256Challenger, Sha256Field, sha256_challenger, sha256_field};

/// Laws of runs, of the SHA-256 challenger and of streams.
pub mod laws {
    pub use p3_challenger_core::laws::run_law;
    pub use p3_challenger_fs::laws::seed_stream_law;
    pub use p3_challenger_sha256::laws::sha256_challenger_law;
}
