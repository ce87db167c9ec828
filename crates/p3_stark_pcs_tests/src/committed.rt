//! Columns committed to as preprocessing, and words of a quotient as they are.

ghost use Rattle.std.specs.Prelude.{◌≡◌, length};

use crate::columns::{are_columns, column, columns, coset, listed};
use crate::headline::is_shown;
use crate::opened::is_opened;
use crate::parts::Part;
use crate::tested::Tested;
use p3_pcs::KnownCommitment;
use std::alloc::Global;
use std::process::Abort;

/// The values of `2 - X` on the coset of 31 of 4 points, in bit-reversed order.
const WORD: [u64; 4] = [2_013_265_892, 33, 777_639_966, 1_235_625_959];

/// `2 - X` on two points, 1 at 1 and 3 at -1.
const LINE: (u64, &[u64]) = (1, &[1, 3]);

/// The same on the coset of 3: -1 at 3 and 5 at -3.
const ON_COSET: (u64, &[u64]) = (3, &[2_013_265_920, 5]);

/// What is asked of a commitment to `2 - X` as a preprocessed column.
#[derive(Clone, Copy)]
pub(crate) enum OfLine {
    /// Its word is committed to.
    Held,
    /// It is opened, and verified with this index.
    Opened(Option<usize>),
    /// It is opened and verified by one function, with this index.
    Shown(Option<usize>),
}

/// Whether that is so.
pub(crate) fn is_line_met<P: Tested>(
    rt: &impl Abort,
    alloc: Global,
    mut scheme: P,
    asked: OfLine,
) -> bool
    requires tested { P.IsTested scheme }
    requires prover { (P.rules scheme).InProverRange }
    requires verifier { (P.rules scheme).InVerifierRange }
{
    let evaluation = column(rt, alloc, LINE.0, LINE.1);
    let domains = listed(rt, alloc, evaluation.0);
    let evaluations = listed(rt, alloc, evaluation);
    let Ok(pair) = scheme.commit_preprocessing(alloc, evaluations) else {
        panic!(rt; "memory was refused")
    };
    let (commitment, held) = pair;
    let known = KnownCommitment {
        commitment,
        domains,
    };
    match asked {
        OfLine::Held => P::holds(&held, &[&WORD]),
        OfLine::Opened(index) => is_opened(rt, alloc, &scheme, known, held, Some(0), index),
        OfLine::Shown(index) => is_shown(rt, alloc, &scheme, known, held, index),
    }
}

/// Columns of a quotient, the words that are expected of them, and the index with which the
/// commitment to these is opened, if it is.
#[derive(Clone, Copy)]
pub(crate) struct OfWords {
    each: &'static [(u64, &'static [u64])],
    expected: &'static [&'static [u64]],
    opened: Option<Option<usize>>,
}

/// Whether these are the words, and are committed to, or opened where that is asked. They are known
/// of a column on two points.
pub(crate) fn are_words_met<P: Tested>(
    rt: &impl Abort,
    alloc: Global,
    mut scheme: P,
    asked: &OfWords,
) -> bool
    requires tested { P.IsTested scheme }
    requires prover { (P.rules scheme).InProverRange }
    requires verifier { (P.rules scheme).InVerifierRange }
{
    let chunks = columns(rt, alloc, asked.each);
    let Ok(words) = scheme.get_quotient_ldes(alloc, chunks, asked.each.len()) else {
        panic!(rt; "memory was refused")
    };
    assert!(rt; are_columns(&words, asked.expected), "other words");
    let matrices = words.len();
    let Ok(pair) = scheme.commit_ldes(alloc, words) else {
        panic!(rt; "memory was refused")
    };
    let (commitment, held) = pair;
    match asked.opened {
        None => P::holds(&held, asked.expected),
        Some(index) => {
            if matrices != 1 {
                panic!(rt; "not one matrix")
            }
            let known = KnownCommitment {
                commitment,
                domains: listed(rt, alloc, coset(rt, 1, 1)),
            };
            is_opened(rt, alloc, &scheme, known, held, index, None)
        },
    }
}

/// `2 - X` from one coset, opened without an index.
const FROM_ONE_COSET: OfWords = OfWords {
    each: &[ON_COSET],
    expected: &[&WORD],
    opened: Some(None),
};

/// A preprocessed column is extended, opened, and opened and verified by one function, with
/// whatever index; quotients are extended from their cosets and opened.
pub(crate) static PARTS: [Part; 10] = [
    Part::Line(OfLine::Held),
    Part::Line(OfLine::Opened(None)),
    Part::Line(OfLine::Opened(Some(0))),
    Part::Line(OfLine::Shown(None)),
    Part::Line(OfLine::Shown(Some(0))),
    Part::Line(OfLine::Shown(Some(7))),
    Part::Words(OfWords {
        each: &[LINE, ON_COSET],
        expected: &[&WORD, &WORD],
        opened: None,
    }),
    Part::Words(FROM_ONE_COSET),
    Part::Words(OfWords {
        opened: Some(Some(0)),
        ..FROM_ONE_COSET
    }),
    Part::Words(OfWords {
        opened: Some(Some(7)),
        ..FROM_ONE_COSET
    }),
];
