//! The transcript of the low-degree test: what is exchanged (the shape), what is absorbed first
//! (its seed), and the calls of both sides, each of which plays some steps and says by the replay
//! what was drawn.
//!
//! The steps, with the label of each, for `r` rounds:
//!
//! ```text
//!            observe the seed, byte by byte
//!   r times  observe  commit_phase_commitment   the round's commitment
//!            grind    commit_pow                only if commit_pow_bits > 0
//!            draw     fold_challenge            an element of the extension: beta
//!            observe  final_poly                final_poly_len elements of the extension
//!            grind    query_pow                 only if query_pow_bits > 0
//!            draw     query_indices             num_queries numbers of index_bits bits
//! ```
//!
//! A grind observes a witness, an element, and draws its bits, which have to be zero; at no bits
//! nothing is observed or drawn.
//!
//! The seed binds the version and the name of the protocol, each step with its kind, what it is
//! made of, its label and its count, and as instance labels the log blowup, the cap on a round's
//! log arity and each round's log arity, which the steps don't show. So whatever a challenge
//! depends on was absorbed before it, and transcripts of two shapes part at the seed
//! (`laws::fri_seed_law`): a proof made for one schedule, blowup, number of queries or proof of
//! work can't be read under another. A commitment is observed before its challenge, so that no word
//! can be chosen to suit its fold; the final polynomial before the indices, so that it can't be
//! chosen to suit the queries; and each grind stands right before the draw that it guards.
//!
//! One run, over `Sha256Challenger`, with one round of arity 8, 2 bits before its challenge and 3
//! before the indices, one coefficient, and 4 queries of 3 bits:
//!
//! ```text
//!   observe the stream of the seed
//!   observe the commitment 07 07 .. 07
//!   grind   2 bits: the witness is 2
//!   draw    beta = 854485589 + 1124761396 X + 1343671587 X^2 + 916607916 X^3
//!   observe the final polynomial 5
//!   grind   3 bits: the witness is 19
//!   draw    the indices 2, 4, 4, 5
//! ```
//!
//! Both sides of it are run by the tests of this crate's facade, which compare these values with an
//! independent computation.

mod failure;
mod play;
mod prover;
mod shape;
mod state;
mod steps;
mod verifier;

pub use crate::transcript::failure::TranscriptFailure;
pub use crate::transcript::play::{
    FriMessages, PlayedFri, Refusal, ReplayedFri, play_fri, replay_fri,
};
pub use crate::transcript::shape::FriShape;
pub use crate::transcript::state::{FriTranscript, ProverTranscript, VerifierTranscript};
