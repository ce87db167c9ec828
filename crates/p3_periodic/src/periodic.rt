//! Periodic columns over two-adic domains, by the Rust crate's names.

pub use crate::evaluator::TwoAdicPeriodicEvaluator;
pub use crate::extension::build_periodic_lde_table_two_adic;
