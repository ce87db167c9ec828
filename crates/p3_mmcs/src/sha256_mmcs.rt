//! Merkle's tree over SHA-256.

mod buffer;
mod digests;
mod eights;
mod encoding;
mod error;
mod heights;
mod opening;
mod prover_data;
mod scheme;
mod tree;
mod verification;

pub use error::Sha256MmcsError;
pub use prover_data::Sha256ProverData;
pub use scheme::Sha256Mmcs;
