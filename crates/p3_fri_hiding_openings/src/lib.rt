//! Openings of a scheme that hides. Its prover: what it keeps of a commitment, whether its masks
//! are enough for what is committed to and for what is to be opened, and its openings, whose random
//! values are cut off. Its verifier: the random values are appended to what is claimed, and
//! verified with it.
#![tactic(auto)]

pub mod append;
pub mod budgets;
pub mod columns;
pub mod data;
pub mod gather;
pub mod marks;
pub mod opening;
pub mod request_checks;
pub mod split;
pub mod verify;

pub use crate::append::append_random_values;
pub use crate::columns::without_last_cols;
pub use crate::data::{
    HidingFriPcsProverData, committed_matrices, hidden_columns, new_prover_data,
};
pub use crate::opening::open_hiding_requests;
pub use crate::split::split_random_values;
pub use crate::verify::{HidingVerifierSetting, verify_with_random_values};
pub use p3_fri_two_adic::rules::OpensTwoAdic;
