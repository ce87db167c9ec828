//! What the prover's values are.

ghost use Rattle.p3_uni_stark_quotient.specs.Laws.{QuotientOfColumns, CosetsAreOff};

/// Where the rows are the values of the columns' polynomials, the prover's values are the
/// quotient's at the points of the coset.
pub fn quotient_values_law<V, A>()
    ensures { QuotientOfColumns V A }
{}

/// A coset meets no subgroup whose order is a power of two up to that which its shift to that power
/// tells: so for a field it is enough to know one power of its `GENERATOR`.
pub fn coset_off_law<V>()
    ensures { CosetsAreOff V }
{}
