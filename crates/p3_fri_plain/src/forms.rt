//! The plain forms of proofs and of their parts. An element of a prime field is its canonical
//! number, one of an extension the list of its coefficients' numbers, that of one first, and a
//! digest the list of its 32 bytes.

use serde::{Deserialize, Serialize};

/// The rows that are opened of one commitment.
#[derive(Debug, PartialEq, Eq, Drop, Serialize, Deserialize)]
pub struct PlainBatch {
    /// For each query and each matrix the opened row.
    pub opened_values: Vec<Vec<Vec<u64>>>,
    /// For each query the digests from the leaf up.
    pub paths: Vec<Vec<Vec<u8>>>,
}

/// What one round opens, for all queries.
#[derive(Debug, PartialEq, Eq, Drop, Serialize, Deserialize)]
pub struct PlainStep {
    /// For each query the values of its row but the one at its own place, in order.
    pub sibling_values: Vec<Vec<Vec<u64>>>,
    /// For each query the digests from the leaf up.
    pub paths: Vec<Vec<Vec<u8>>>,
}

/// The proof of a low-degree test, or of the plain scheme.
#[derive(Debug, PartialEq, Eq, Drop, Serialize, Deserialize)]
pub struct PlainFriProof {
    /// The witness before the challenge that batches the openings.
    pub batch_pow_witness: u64,
    /// The commitment of each round.
    pub commit_phase_commits: Vec<Vec<u8>>,
    /// The witness before each round's challenge.
    pub commit_pow_witnesses: Vec<u64>,
    /// What is opened of each input commitment.
    pub input_openings: Vec<PlainBatch>,
    /// What each round opens.
    pub commit_phase_openings: Vec<PlainStep>,
    /// The coefficients of the final polynomial, the constant first.
    pub final_poly: Vec<Vec<u64>>,
    /// The witness before the queries' indices.
    pub query_pow_witness: u64,
}

/// The proof of the hiding scheme.
#[derive(Debug, PartialEq, Eq, Drop, Serialize, Deserialize)]
pub struct PlainHidingProof {
    /// The values of the random columns at the points, nested by commitment, matrix and point.
    pub random_values: Vec<Vec<Vec<Vec<Vec<u64>>>>>,
    /// The proof of the scheme inside.
    pub proof: PlainFriProof,
}
