//! The converse of folding: the one polynomial behind the rows whose folds, at enough challenges,
//! are the values of given polynomials. Soundness arguments need it: words whose folds have low
//! degree have low degree themselves.
#![tactic(auto)]

pub mod batching;
mod by_position;
pub mod conditions;
pub mod laws;
mod newton;
pub mod quotient;
pub mod tree;
pub mod unfolding;

pub use crate::batching::unbatch;
pub use crate::conditions::{
    are_distinct, challenges_fit, have_one_length, leaf_length, leaves_fit, log_arities_fit,
    log_arity_sum, paths_fit, unfolds_within_range,
};
pub use crate::quotient::unquotient;
pub use crate::tree::{FoldTree, unfold_tree};
pub use crate::unfolding::{unfold, unfold_with_input};
