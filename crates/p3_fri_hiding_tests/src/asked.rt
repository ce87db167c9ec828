//! What tests ask of the hiding scheme, by one function: what names a scheme takes long to prove.

use crate::openings::cases::{Asked, are_met};
use crate::openings::headline::is_column_accepted;
use crate::openings::requests::Batches;
use crate::openings::stark::is_stark_served;
use crate::openings::unsolved::{commit_and_open, is_named};
use crate::scheme::{SMALL, Setting};
use crate::schemes::{Scheme, plain_scheme_of};
use crate::tested::Tested;
use crate::turns::{Turn, are_met_in_turn};
use p3_fri_folding::PowPhase;
use std::alloc::Global;
use std::process::Abort;

/// What is asked of a scheme.
pub(crate) enum Question {
    /// Whether what a new scheme of that setting or its forks commit to in turn is as it is wanted.
    InTurn(Setting, &'static [Turn]),
    /// Whether openings are.
    Openings(&'static Batches, &'static [Asked]),
    /// Whether a column is accepted.
    IsColumnAccepted,
    /// Whether a periodic column has a table, and the columns of a STARK are opened, beside random
    /// polynomials.
    IsStarkServed,
    /// Whether both schemes name this proof of work, which has no solution, where a column is to be
    /// opened, or none; and the hiding one's data counts as opened.
    IsWorkNamed(Option<PowPhase>),
}

/// What a scheme answers.
fn answer_of<P: Tested>(rt: &impl Abort, alloc: Global, question: &Question) -> bool {
    match question {
        Question::InTurn(setting, turns) => are_met_in_turn::<P>(rt, alloc, *setting, *turns),
        Question::Openings(batches, openings) => are_met::<P>(rt, alloc, *batches, *openings),
        Question::IsColumnAccepted => is_column_accepted::<P>(rt, alloc),
        Question::IsStarkServed => is_stark_served::<P>(rt, alloc),
        // no scheme alone answers that
        Question::IsWorkNamed(_) => false,
    }
}

/// What the hiding scheme answers, or both schemes.
fn ask(rt: &impl Abort, alloc: Global, question: &Question) -> bool {
    match question {
        Question::IsWorkNamed(work) => {
            let setting = Setting {
                work: *work,
                ..SMALL
            };
            let (hiding, held) = commit_and_open(rt, Scheme::of(setting), alloc, 2);
            let (plain, _held) = commit_and_open(rt, plain_scheme_of(setting), alloc, 1);
            held.is_opened() & is_named(*work, hiding, plain)
        }
        _ => answer_of::<Scheme>(rt, alloc, question),
    }
}

/// Whether it answers each of these questions by yes: the first that it doesn't is named.
pub(crate) fn hold(rt: &impl Abort, alloc: Global, questions: &[Question]) {
    for index in 0..questions.len() {
        assert!(rt; ask(rt, alloc, &questions[index]), "case {index}");
    }
}
