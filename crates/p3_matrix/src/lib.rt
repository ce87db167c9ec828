//! Matrices of field elements, row after row. Contracts see a matrix as the list of its rows,
//! which have one width.
#![tactic(auto)]

pub mod dense;
pub mod laws;
pub mod wider;

pub use crate::dense::{RowMajorMatrix, RowMajorMatrixView};

/// The numbers of columns and of rows of a matrix.
#[derive(Clone, Copy, Debug, PartialEq, Eq)]
pub struct Dimensions {
    pub width: usize,
    pub height: usize,
}
