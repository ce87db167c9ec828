//! The opening of a STARK's columns, over any scheme: preprocessed columns and trace at a point and
//! at the next one, chunks of the quotient and random polynomials at the point.
#![tactic(auto)]

pub mod opening;

pub use crate::opening::{ColumnData, open_columns};
