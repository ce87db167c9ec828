//! The hiding scheme: what it commits to, what is kept of that, why its prover refuses, and whether
//! the domains of a quotient's chunks are disjoint.

pub use p3_fri_hiding::{HidingFriPcs, HidingFriPcsProverData};
pub use p3_fri_masks::{HidingFriProverError, are_disjoint};
