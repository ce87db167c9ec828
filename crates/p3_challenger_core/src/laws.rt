//! A law of runs, as a call that does nothing and whose contract is a theorem.

ghost use Rattle.std.specs.Prelude.{List};
ghost use Rattle.p3_challenger_core.specs.Run.{Moves, Event};
ghost use Rattle.p3_challenger_core.specs.Laws.{RunsJoin};

/// A run along joined lists of events is a run along the first, and from its last state one along
/// the second.
pub fn run_law<C, F, E, Com>()
    ensures { (m : Moves C F E Com) (c : C) (first second : List (Event F Com))
        → RunsJoin m c first second }
{}
