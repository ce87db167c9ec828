//! The arithmetic of a STARK at a point off its trace's domain: selectors, the constraints' sum by
//! powers of a challenge, the quotient that chunks recombine to, and whether the two agree. What is
//! computed here is what the relation of an accepted proof says of the opened values; and a law
//! says that a trace that satisfies its constraints gives values that agree.
#![tactic(auto)]

pub mod chunks;
pub mod folding;
pub mod identity;
pub mod laws;
pub mod selectors;

pub use crate::chunks::{have_dimension, quotient_chunk_domains, recombine_quotient, split_coset};
pub use crate::folding::{fold_constraints, select};
pub use crate::identity::{Challenges, folded_constraints, has_widths, identity_holds};
pub use crate::laws::quotient_chunks_law;
pub use crate::selectors::{LagrangeSelectors, is_on_domain, selectors_at_point};
