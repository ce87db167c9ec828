//! The plain form of a STARK's proof: numbers and bytes in lists and records, which serde's formats
//! write and read, over BabyBear, its extension of degree 4 and the tree over SHA-256. An opening's
//! proof is in its scheme's plain form.
#![tactic(auto)]

pub mod forms;
pub mod laws;
mod parts;
pub mod proof;

pub use crate::forms::{PlainCommitments, PlainOpenedValues, PlainStarkProof};
pub use crate::laws::stark_form_law;
pub use crate::proof::{StarkProof, stark_from_plain, stark_to_plain};
