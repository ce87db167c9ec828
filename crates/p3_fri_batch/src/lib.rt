//! The batch of an opening: for each log height the word of the quotients of all matrices of that
//! height, by powers of the batching challenge.
#![tactic(auto)]

pub mod compression;
pub mod opened;
pub mod points;
pub mod words;

pub use crate::compression::compress;
pub use crate::points::{add_matrix, add_opened_points};
pub use crate::words::batch_words;
