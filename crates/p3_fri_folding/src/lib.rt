//! The parameters of FRI and its phases, the schedule of its folds, the fold itself, and why a
//! prover refuses.
#![tactic(auto)]

mod challenges;
pub mod config;
pub mod error;
pub mod folding;
pub mod lanes;
pub mod laws;
pub mod pow_phase;
pub mod strategy;
pub mod table;

pub use crate::config::{
    FriParameters, compute_log_arity_for_round, fold_schedule, is_strictly_falling,
};
pub use crate::error::FriProverError;
pub use crate::folding::TwoAdicFriFolding;
pub use crate::lanes::fold_lanes;
pub use crate::pow_phase::PowPhase;
pub use crate::strategy::{FriFoldingStrategy, WithExtraBits};
pub use crate::table::FoldTable;
