//! Parameters of an instance, the schedule of its folds, and why a prover refuses.

pub use p3_fri_folding::config::{
    FriParameters, compute_log_arity_for_round, fold_schedule, is_strictly_falling,
};
pub use p3_fri_folding::{FriProverError, WithExtraBits};
