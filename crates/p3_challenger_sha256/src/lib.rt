//! The challenger over SHA-256, of any prime field.
#![tactic(auto)]

pub mod laws;
pub mod sha256_challenger;
pub mod sha256_field;

pub use crate::sha256_challenger::Sha256Challenger;
pub use crate::sha256_field::Sha256Field;
