//! What a prover's chunks give.

ghost use Rattle.p3_uni_stark_identity.specs.Laws.{QuotientChunksAgree};

/// Of a trace that satisfies its constraints the chunks of the quotient agree with the opened
/// columns, at each point off the trace's domain.
pub fn quotient_chunks_law<V, A>()
    ensures { QuotientChunksAgree V A }
{}
