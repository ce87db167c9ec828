//! Transcripts by description: a pattern lists the steps that both sides will take, a separator
//! binds it and the numbers of an instance to a stream of bytes, and drivers, one for each side,
//! absorb that stream and then play the steps (the Fiat-Shamir transform of an interactive
//! protocol).
#![tactic(auto)]

pub mod domain_separator;
pub mod driver;
pub mod laws;
pub mod pattern;
pub mod script;

pub use crate::domain_separator::{DomainSeparator, Seed};
pub use crate::driver::{Prover, ProverState, TranscriptState, Verifier, VerifierState};
pub use crate::pattern::{Hierarchy, Interaction, InteractionPattern, Kind, Length, Turn, TypeTag};
pub use crate::script::Script;
