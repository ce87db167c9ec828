//! Statements of a STARK by their numbers: a constraint system in its plain form, with periodic
//! columns and public values as canonical numbers. A proof is verified of such a statement.
#![tactic(auto)]

pub mod error;
pub mod matrix;
pub mod statement;
pub mod verification;

pub use crate::error::PlainVerificationError;
pub use crate::matrix::{have_width, matrix_of_rows};
pub use crate::statement::PlainStatement;
pub use crate::verification::verify_plain;
