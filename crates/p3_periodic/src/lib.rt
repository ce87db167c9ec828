//! Periodic columns: tables of columns that repeat along a trace, their values between and beyond
//! its rows, and what of them a larger domain sees.
#![tactic(auto)]

mod batch;
pub mod columns;
pub mod error;
pub mod evaluator;
mod extension;
pub mod periodic;
mod powers;
pub mod table;
pub mod traits;
mod writes;

pub use crate::columns::PeriodicColumns;
pub use crate::error::PeriodicError;
pub use crate::evaluator::TwoAdicPeriodicEvaluator;
pub use crate::extension::build_periodic_lde_table_two_adic;
pub use crate::table::PeriodicLdeTable;
pub use crate::traits::PeriodicEvaluator;
