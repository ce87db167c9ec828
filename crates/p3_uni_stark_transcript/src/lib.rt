//! The transcript of a STARK: what both sides absorb before its opening, and the challenges that
//! they draw.
//!
//! ```text
//!              observe the seed, byte by byte
//!              observe  preprocessed   the commitment, if there are preprocessed columns
//!              observe  trace          the commitment
//!              draw     alpha          an element of the extension
//!              observe  quotient       the commitment
//!              observe  random         the commitment, if the scheme hides
//!              draw     zeta           an element of the extension
//!              begin    opening
//!                       the opening's transcript
//!              end      opening
//! ```
//!
//! The seed binds the version and the name of the protocol, each step, and as a label the
//! instance: the constraint system node by node, the logarithm of the trace's height, the public
//! values and the periodic columns.
#![tactic(auto)]

pub mod instance;
pub mod laws;
mod numbers;
pub mod transcript;

pub use crate::instance::StarkInstance;
pub use crate::laws::stark_instance_law;
pub use crate::transcript::{
    StarkChallenges, StarkCommitments, absorb_instance, draw_alpha, draw_zeta, replay_stark,
};
