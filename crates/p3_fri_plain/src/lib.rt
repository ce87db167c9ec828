//! The plain form of a proof: numbers and bytes in lists and records, which serde's formats write
//! and read. It stands for the proofs of both schemes over a prime field, an extension of it and
//! the tree over SHA-256: BabyBear, KoalaBear and Goldilocks have such.
#![tactic(auto)]

mod digests;
mod elements;
pub mod error;
pub mod forms;
pub mod laws;
mod openings;
pub mod plain;
pub mod proof;

pub use crate::elements::{Element, ExtensionElement};
pub use crate::error::PlainProofError;
pub use crate::forms::{PlainBatch, PlainFriProof, PlainHidingProof, PlainStep};
pub use crate::openings::Step;
pub use crate::plain::{Each, Plain};
pub use crate::proof::{
    HidingFriProof, TwoAdicFriProof, from_plain, hiding_from_plain, hiding_to_plain, to_plain,
};
