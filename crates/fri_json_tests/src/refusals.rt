//! Changed statements and requests, each with what is written of it.

use crate::texts::{COLUMN, changed, written};
use fri_json::{Command, Failure, open};
use std::alloc::{AllocError, Global};

/// What stands in the answer to the column's request, what is written there in its place, and the
/// refusals that `tools/relation` finds true of the statement then, of which one is written.
pub(crate) type Refusal = (&'static str, &'static str, &'static [&'static str]);

/// Where a changed part of the statement, digest or coefficient is absorbed every later draw moves,
/// so that other rows are asked for than the proof opens.
pub(crate) const MOVED: &[&str] = &[
    "CommitPhaseMmcsError(RootMismatch)",
    "FinalPolyMismatch",
    "InputError(RootMismatch)",
];

const REFUSALS: [Refusal; 20] = [
    ("[[2013265918,0,0,0]]", "[[2013265917,0,0,0]]", MOVED),
    (
        "\"point\":[5,",
        "\"point\":[6,",
        &["CommitPhaseMmcsError(RootMismatch)", "FinalPolyMismatch"],
    ),
    ("2aa419f5", "3aa419f5", MOVED),
    ("[[[30,", "[[[31,", &["InputError(RootMismatch)"]),
    ("[[[2013265892]]", "[[[2013265893]]", MOVED),
    ("[[82,209", "[[83,209", MOVED),
    (
        "[[[183,",
        "[[[182,",
        &["CommitPhaseMmcsError(RootMismatch)"],
    ),
    (
        "[[2013265920,0,0,0]],\"q",
        "[[2013265919,0,0,0]],\"q",
        MOVED,
    ),
    (
        "\"batch_pow_witness\":0",
        "\"batch_pow_witness\":1",
        &["NonCanonicalPowWitness { phase: Batch }"],
    ),
    (
        "\"commit_pow_witnesses\":[0]",
        "\"commit_pow_witnesses\":[1]",
        &["NonCanonicalPowWitness { phase: CommitPhase }"],
    ),
    (
        "\"query_pow_witness\":0",
        "\"query_pow_witness\":1",
        &["NonCanonicalPowWitness { phase: Query }"],
    ),
    (
        "\"max_log_arity\":1",
        "\"max_log_arity\":0",
        &["ZeroFoldingArity"],
    ),
    (
        "{\"point\":[5,0,0,0],\"values\":[[2013265918,0,0,0]]}",
        "",
        &["MatrixWithoutOpeningPoints { batch: 0, matrix: 0 }"],
    ),
    (
        "[[2013265918,0,0,0]]",
        "[[2013265918,0,0,0],[0,0,0,0]]",
        &["InputError(RowWidth)"],
    ),
    ("\"shift\":1", "\"shift\":2", MOVED),
    ("\"context\":\"\"", "\"context\":\"00\"", MOVED),
    ("\"context\":\"\"", "\"context\":\"AbcD\"", MOVED),
    ("\"max_log_arity\":1", "\"max_log_arity\":2", MOVED),
    (
        "\"num_queries\":2",
        "\"num_queries\":3",
        &[
            "CommitPhaseQueryCountMismatch { round: 0, expected: 3, got: 2 }",
            "InputOpeningsQueryCountMismatch { batch: 0, expected: 3, got: 2 }",
        ],
    ),
    (
        "\"num_queries\":2",
        "\"num_queries\":1073741824",
        &[
            "CommitPhaseQueryCountMismatch { round: 0, expected: 1073741824, got: 2 }",
            "InputOpeningsQueryCountMismatch { batch: 0, expected: 1073741824, got: 2 }",
        ],
    ),
];

/// Whether the line names one of these refusals, with words after it.
fn is_named(line: &[u8], names: &[&str]) -> bool {
    let Some(refusal) = line.strip_prefix(b"refused: ") else {
        return false;
    };
    for name in names {
        if let Some(words) = refusal.strip_prefix(name.as_bytes()) {
            if words.starts_with(b": ") {
                return words.ends_with(b"\n");
            }
        }
    }
    false
}

/// Whether the changed statement is refused so, and nothing is written beside.
pub(crate) fn is_refused(
    alloc: Global,
    statement: &str,
    refusal: &Refusal,
) -> Result<bool, AllocError> {
    let (old, new, names) = *refusal;
    let text = changed(alloc, statement, old, new)?;
    let outcome = written(alloc, Command::Verify, text.as_str());
    Ok(outcome.status == 1 && outcome.fault.is_empty() && is_named(&outcome.output, names))
}

/// The first refusal that isn't as it should be.
fn first_unrefused(alloc: Global) -> Result<Option<&'static str>, Failure> {
    let statement = open(alloc, COLUMN)?;
    for refusal in &REFUSALS {
        if !is_refused(alloc, statement.as_str(), refusal)? {
            return Ok(Some(refusal.1));
        }
    }
    Ok(None)
}

#[test]
fn changed_statements_are_refused(rt: HostRuntime) -> Result<(), Failure> {
    let first = first_unrefused(rt.alloc())?;
    assert!(rt; first.is_none(), "{first:?}");
    Ok(())
}
