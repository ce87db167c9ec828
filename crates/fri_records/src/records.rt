//! The records that cross a boundary. An element of a prime field is its canonical number, one of
//! the extension the list of its coefficients' numbers, that of one first, a commitment the hex
//! text of its 32 bytes, and a context that of its bytes.

ghost use Rattle.std.specs.Prelude.{◌≡◌};
ghost use Rattle.fri_records.specs.Records.{conjectured_bits};

use serde::{Deserialize, Serialize};

/// The parameters of the scheme. Logarithms are to the base 2.
#[derive(Clone, Copy, Serialize, Deserialize)]
pub struct Parameters {
    pub log_blowup: usize,
    pub log_final_poly_len: usize,
    pub max_log_arity: usize,
    pub num_queries: usize,
    pub batch_proof_of_work_bits: usize,
    pub commit_proof_of_work_bits: usize,
    pub query_proof_of_work_bits: usize,
}

impl Parameters {
    /// The bits of soundness by the conjecture of [ethSTARK](https://eprint.iacr.org/2021/582):
    /// those of the queries, and those of the proof of work before them; at most as many as a
    /// number holds. Only the sum is proved here, and not what it says of soundness.
    pub fn conjectured_soundness_bits(&self) -> usize
        ensures { result ≡ conjectured_bits self.now }
    {
        self.log_blowup
            .saturating_mul(self.num_queries)
            .saturating_add(self.query_proof_of_work_bits)
    }
}

/// A coset of `2^log_size` points.
#[derive(Clone, Copy, Serialize, Deserialize)]
pub struct Domain {
    pub shift: u64,
    pub log_size: usize,
}

/// A matrix, whose columns are functions on the domain, and the points to open it at.
#[derive(Drop, Deserialize)]
pub struct Matrix {
    pub domain: Domain,
    /// The number of columns.
    pub width: usize,
    /// Row by row, the first row's at the domain's shift.
    pub values: Vec<u64>,
    pub points: Vec<Vec<u64>>,
}

/// The matrices under one commitment.
#[derive(Drop, Deserialize)]
pub struct Batch {
    pub matrices: Vec<Matrix>,
    /// Whether the matrices are public and the same in every run: a scheme that hides opens them
    /// without masks. To the plain scheme it says nothing.
    #[serde(default)]
    pub preprocessed: bool,
}

/// What is committed to and opened.
#[derive(Drop, Deserialize)]
pub struct Request {
    /// What the application binds the proof to beside the rest: its name, public data, and what was
    /// sent before. Empty if it isn't there.
    #[serde(default)]
    pub context: String,
    pub parameters: Parameters,
    pub commitments: Vec<Batch>,
}

/// The values claimed at a point, one for each column.
#[derive(Drop, Serialize, Deserialize)]
pub struct PointClaims {
    pub point: Vec<u64>,
    pub values: Vec<Vec<u64>>,
}

/// What is claimed of a matrix.
#[derive(Drop, Serialize, Deserialize)]
pub struct MatrixClaims {
    pub domain: Domain,
    pub points: Vec<PointClaims>,
}

/// What is claimed of the matrices under a commitment.
#[derive(Drop, Serialize, Deserialize)]
pub struct BatchClaims {
    pub commitment: String,
    pub matrices: Vec<MatrixClaims>,
}
