//! Algebra of a proof about a trace: polynomials of bounded degree, what vanishes on a subgroup,
//! what selects its points, and quotients that are cut into chunks. It has no program code:
//! contracts of the crates above cite `specs/`, their proofs cite `proofs/`, and each function here
//! is a law, whose contract is a theorem on those definitions.
#![tactic(auto)]

ghost use Rattle.stark_algebra.specs.Laws.{VanishesExactly, SelectorsSelect, ChunksRecombine};
ghost use Rattle.stark_algebra.specs.Laws.{CosetsSplit, ColumnsRecombine};

/// A polynomial is zero at each root of unity of order `2^k` exactly where it is `X^(2^k) - 1`
/// times one of the rest of its degree.
pub fn vanishing_law<A>()
    ensures { VanishesExactly A }
{}

/// What selects a point of the subgroup is the value of a polynomial of degree below `2^k`, which
/// is zero at each other point of it, and not at that one.
pub fn selectors_law<A>()
    ensures { SelectorsSelect A }
{}

/// Chunks of a polynomial, given on disjoint cosets, recombine to it at each point; and a coset is
/// split into such cosets.
pub fn chunks_law<A>()
    ensures recombine { ChunksRecombine A }
    ensures split { CosetsSplit A }
{}

/// Chunks whose columns lie in the base field: recombined column by column, and put together by a
/// basis of the extension, they are the polynomial over the extension whose values they have.
pub fn columns_law<A, E>()
    ensures { ColumnsRecombine A E }
{}
