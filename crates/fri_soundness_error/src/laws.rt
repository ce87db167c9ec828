//! That the numbers are those of the statements, as a call that does nothing and whose contract is
//! a theorem.

ghost use Rattle.fri_soundness_error.specs.Statements.{RoundsAreCounted, BatchesAreCounted};

/// Over every field and all words and columns: where the numbers of a round or of a batch have
/// room, the round's step has room for its budget, and no more challenges of the round, or of the
/// batch, are bad than they say.
pub fn numbers_law<A>()
    ensures rounds { RoundsAreCounted A }
    ensures batches { BatchesAreCounted A }
{}
