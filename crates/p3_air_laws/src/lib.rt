//! What a constraint system says of the polynomials of a trace's columns. It has no program code:
//! each function here is a law, whose contract is a theorem on the definitions of `specs/`.
#![tactic(auto)]

ghost use Rattle.p3_air_laws.specs.Laws.{RowsAreLifted, ShownIsSatisfied, SatisfiedIsShown};

/// Over the columns' polynomials each node has, at the point of a row, its value at that row.
pub fn lifting_law<V, A>()
    ensures { RowsAreLifted V A }
{}

/// Constraints whose sums by enough challenges have a quotient at enough points hold on the trace;
/// and of a trace on which they hold each such sum has a quotient.
pub fn composition_law<V, A>()
    ensures shown { ShownIsSatisfied V A }
    ensures satisfied { SatisfiedIsShown V A }
{}
