//! Masks: what a hiding scheme commits to in place of a matrix, and how many masks it takes to hide
//! what it opens. Random values, and matrices of them, are a generator's next words.
//!
//! What a STARK prover commits to of its quotient is cut into chunks, each on a coset of its own.
//! Each chunk gets a random multiple of the polynomial that vanishes on its coset, which leaves its
//! values there and changes those elsewhere, while the chunks together make the quotient that they
//! made before (section 4.2 of <https://eprint.iacr.org/2024/1037>).
#![tactic(auto)]

pub mod budget;
pub mod disjoint;
pub mod drawn;
pub mod draws;
pub mod error;
pub mod extension;
pub mod factors;
pub mod halves;
pub mod laws;
pub mod ldes;
pub mod masked;
pub mod masks;
pub mod padded;
pub mod quotient_draws;
pub mod quotient_laws;

pub use crate::budget::{check_hiding_budget, hiding_budget, lde_mask_height};
pub use crate::disjoint::are_disjoint;
pub use crate::drawn::random_matrices;
pub use crate::draws::{random_matrix, random_rows, random_values};
pub use crate::error::HidingFriProverError;
pub use crate::extension::masked_extension;
pub use crate::ldes::quotient_ldes;
pub use crate::masked::{mask, mask_each};
pub use crate::masks::quotient_masks;
pub use crate::padded::{pad, pad_each};
pub use crate::quotient_laws::masked_quotients_law;
