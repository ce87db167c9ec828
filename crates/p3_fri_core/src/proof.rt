//! Proofs of the low-degree test, and the plain forms of the proofs of both schemes: numbers and
//! bytes, which can be written and read.

pub use p3_fri_plain::{
    Each, Element, ExtensionElement, HidingFriProof, Plain, PlainBatch, PlainFriProof,
    PlainHidingProof, PlainProofError, PlainStep, Step, TwoAdicFriProof, from_plain,
    hiding_from_plain, hiding_to_plain, to_plain,
};
pub use p3_fri_relation::proof::{BatchMultiOpening, CommitPhaseMultiStep, FriProof};
