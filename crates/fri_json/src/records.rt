//! The records of requests, answers and statements.

use crate::prime_field::FieldName;
use fri_requests::{Batch, BatchClaims, Parameters};
use p3_fri_plain::{PlainFriProof, PlainHidingProof};
use serde::{Deserialize, Serialize};

/// By what a request is to be hidden.
#[derive(Drop, Deserialize)]
pub(crate) struct HidingAsked {
    /// How many random columns stand beside those of each matrix.
    pub num_random_codewords: usize,
    /// Of which all that is random is drawn: 32 bytes in hex.
    pub seed: String,
}

/// What is committed to and opened: of the plain scheme, or of the one that hides.
#[derive(Drop, Deserialize)]
pub(crate) struct Request {
    #[serde(default)]
    pub field: FieldName,
    /// In hex; empty if it isn't there.
    #[serde(default)]
    pub context: String,
    pub parameters: Parameters,
    #[serde(default)]
    pub hiding: Option<HidingAsked>,
    pub commitments: Vec<Batch>,
}

/// By what a statement of the scheme that hides is hidden.
#[derive(Clone, Copy, Debug, PartialEq, Eq, Serialize, Deserialize)]
pub(crate) struct HidingStated {
    pub num_random_codewords: usize,
    /// The place of the commitment that is opened without masks, if there is one.
    #[serde(default)]
    pub preprocessing: Option<usize>,
}

/// What comes of opening a request in the plain scheme.
#[derive(Drop, Serialize)]
pub(crate) struct Answer {
    #[serde(skip_serializing_if = "FieldName::is_default")]
    pub field: FieldName,
    /// In hex.
    pub context: String,
    pub parameters: Parameters,
    pub claims: Vec<BatchClaims>,
    pub proof: PlainFriProof,
    /// What the challenger draws next, of which a verifier's is the same.
    pub next_challenge: Vec<u64>,
}

/// And in the scheme that hides.
#[derive(Drop, Serialize)]
pub(crate) struct HidingAnswer {
    #[serde(skip_serializing_if = "FieldName::is_default")]
    pub field: FieldName,
    /// In hex.
    pub context: String,
    pub parameters: Parameters,
    pub hiding: HidingStated,
    pub claims: Vec<BatchClaims>,
    pub proof: PlainHidingProof,
    /// What the challenger draws next, of which a verifier's is the same.
    pub next_challenge: Vec<u64>,
}

/// What is verified in the plain scheme: an answer's context, parameters, claims and proof.
#[derive(Drop, Deserialize)]
pub(crate) struct Statement {
    #[serde(default)]
    pub field: FieldName,
    /// In hex; empty if it isn't there.
    #[serde(default)]
    pub context: String,
    pub parameters: Parameters,
    #[serde(default)]
    pub hiding: Option<HidingStated>,
    pub claims: Vec<BatchClaims>,
    pub proof: PlainFriProof,
}

/// And in the scheme that hides.
#[derive(Drop, Deserialize)]
pub(crate) struct HidingStatement {
    #[serde(default)]
    pub field: FieldName,
    /// In hex; empty if it isn't there.
    #[serde(default)]
    pub context: String,
    pub parameters: Parameters,
    pub hiding: HidingStated,
    pub claims: Vec<BatchClaims>,
    pub proof: PlainHidingProof,
}

/// Which scheme a statement is of.
#[derive(Drop, Deserialize)]
pub(crate) struct Kind {
    #[serde(default)]
    pub hiding: Option<HidingStated>,
}

/// What was accepted, and what the challenger draws next.
#[derive(Drop)]
pub(crate) struct Accepted {
    pub field: FieldName,
    /// In hex.
    pub context: String,
    pub parameters: Parameters,
    /// Where the scheme hides.
    pub hiding: Option<HidingStated>,
    pub claims: Vec<BatchClaims>,
    pub next_challenge: Vec<u64>,
}
