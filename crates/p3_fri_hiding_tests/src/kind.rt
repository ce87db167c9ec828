//! What is committed to, and how.

use crate::matrices::Entries;

/// What one call commits to: matrices, each beside a domain, or what is made of them.
pub(crate) enum Kind {
    Private(&'static [Entries]),
    Preprocessed(&'static [Entries]),
    /// Words that were extended before.
    Ldes(&'static [Entries]),
    /// The words that the scheme extends these chunks of a quotient to.
    Chunks(&'static [Entries; 2]),
    /// Random polynomials on the domains of these shifts and log sizes.
    Random(&'static [(u64, usize)]),
}
