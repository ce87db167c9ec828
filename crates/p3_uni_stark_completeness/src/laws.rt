//! The laws, as calls that do nothing and whose contracts are theorems.

ghost use Rattle.p3_uni_stark_completeness.specs.Laws.{HonestChunksAgree, PeriodicColumnsExtend};

/// The chunks of a prover's quotient agree with the columns, at each point off the trace's domain,
/// where the trace satisfies the constraints.
pub fn honest_chunks_law<V, A>()
    ensures { HonestChunksAgree V A }
{}

/// A periodic column is a function on the extension, of a degree below the number of rows.
pub fn periodic_columns_law<V, A>()
    ensures { PeriodicColumnsExtend V A }
{}
