//! The transcript of the polynomial commitment scheme (PCS), around that of the low-degree test:
//! what is exchanged (the shape), what is absorbed first (its seed), and the calls of both sides,
//! each of which plays some steps and says by the replay what was drawn.
//!
//! The steps, with the label of each:
//!
//! ```text
//!              observe the seed, byte by byte
//!   each point observe  claimed_evaluations   the values claimed there, elements of the extension
//!              grind    batch_pow             only if batch_pow_bits > 0
//!              draw     alpha                 an element of the extension
//!              begin    low_degree_test
//!                       the test's transcript, with a seed of its own
//!              end      low_degree_test
//! ```
//!
//! Points come in the order of commitments, matrices and points. A grind observes a witness, an
//! element, and draws its bits, which have to be zero; at no bits nothing is observed or drawn.
//!
//! The seed binds the version and the name of the protocol, each step with its kind, what it is
//! made of, its label and its count, and as instance labels how the points are grouped: the number
//! of commitments, of each its number of matrices, and of each of these its number of points,
//! which the steps don't show. So transcripts of two shapes part at the seed
//! (`laws::pcs_seed_law`): claims on one matrix can't be read as claims on two. `alpha` combines
//! all quotients into one word, so every claimed value is observed before it is drawn: were one
//! left out, it could be chosen to cancel another's fault. Commitments, domains and points aren't
//! observed here; the caller's challenger has absorbed what they depend on. The grind stands right
//! before the draw that it guards. The test runs on the same challenger, lent inside the bracket,
//! so that its challenges depend on `alpha` and on all before it.
//!
//! One run, over `Sha256Challenger`, with the value 1 at one point of one matrix, and 4 bits
//! before the challenge; the test has one round of arity 8, 2 bits before its challenge and 3
//! before the indices, one coefficient, and 4 queries of 3 bits:
//!
//! ```text
//!   observe the stream of the seed
//!   observe the claimed value 1
//!   grind   4 bits: the witness is 27
//!   draw    alpha = 1893109911 + 1140352409 X + 1569219815 X^2 + 223669611 X^3
//!   begin   the low-degree test
//!   observe the stream of its seed
//!   observe the commitment 07 07 .. 07
//!   grind   2 bits: the witness is 5
//!   draw    beta = 115710677 + 823049067 X + 281331580 X^2 + 1749275461 X^3
//!   observe the final polynomial 5
//!   grind   3 bits: the witness is 11
//!   draw    the indices 6, 5, 3, 1
//!   end     the low-degree test
//! ```
//!
//! Both sides of it are run by the tests of this crate's facade, which compare these values with
//! an independent computation.

mod claims;
mod counts;
mod described;
mod description;
mod failure;
mod play;
mod prover;
mod shape;
mod state;
mod steps;
mod verifier;

pub use crate::pcs_transcript::failure::PcsTranscriptFailure;
pub use crate::pcs_transcript::play::{PcsFailure, PlayedPcs, ReplayedPcs, play_pcs, replay_pcs};
pub use crate::pcs_transcript::shape::PcsShape;
pub use crate::pcs_transcript::state::{PcsProverTranscript, PcsTranscript, PcsVerifierTranscript};
