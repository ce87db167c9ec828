//! The plain forms of a STARK's proof and of its parts, with the names of their fields in a text.
//! An element of the extension is the list of its four coefficients' numbers, that of one first,
//! and a digest the list of its 32 bytes.

use serde::{Deserialize, Serialize};

/// The commitments that a proof has.
#[derive(Debug, PartialEq, Eq, Drop, Serialize, Deserialize)]
pub struct PlainCommitments {
    pub trace: Vec<u8>,
    pub quotient_chunks: Vec<u8>,
    /// Where the scheme hides.
    #[serde(default)]
    pub random: Option<Vec<u8>>,
}

/// The values that a proof opens, one to a column.
#[derive(Debug, PartialEq, Eq, Drop, Serialize, Deserialize)]
pub struct PlainOpenedValues {
    pub trace_local: Vec<Vec<u64>>,
    pub trace_next: Vec<Vec<u64>>,
    pub preprocessed_local: Vec<Vec<u64>>,
    pub preprocessed_next: Vec<Vec<u64>>,
    /// Of each chunk.
    pub quotient_chunks: Vec<Vec<Vec<u64>>>,
    pub random: Vec<Vec<u64>>,
}

/// A STARK's proof, whose opening's proof has the form `Opening`.
#[derive(Debug, Drop, Serialize, Deserialize)]
pub struct PlainStarkProof<Opening> {
    pub commitments: PlainCommitments,
    pub opened_values: PlainOpenedValues,
    pub opening_proof: Opening,
    pub log_height: usize,
}
