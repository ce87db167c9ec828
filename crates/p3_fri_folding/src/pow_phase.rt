//! The phases of a proof that a proof of work stands before.

ghost use Rattle.std.specs.Prelude.{Some};

use std::fmt;

/// What a proof of work guards.
#[derive(Clone, Copy, Debug, PartialEq, Eq)]
pub enum PowPhase {
    /// The challenge that batches the openings.
    Batch,
    /// A round's folding challenge.
    CommitPhase,
    /// The queries' indices.
    Query,
}

impl fmt::Display for PowPhase {
    ghost use Rattle.p3_fri_folding.specs.Phases.{phase_name};

    ghost output = { λ phase. Some (phase_name phase) };

    fn fmt<W: fmt::Write>(&self, f: &mut fmt::Formatter<W>) -> fmt::Result {
        match self {
            PowPhase::Batch => f.write_str("opening-batching"),
            PowPhase::CommitPhase => f.write_str("commit"),
            PowPhase::Query => f.write_str("query"),
        }
    }
}
