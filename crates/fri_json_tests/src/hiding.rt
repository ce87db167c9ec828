//! Requests and statements of the scheme that hides.

use crate::refusals::{Refusal, is_refused};
use crate::texts::{COLUMN, Lines, changed, warning, writes, written};
use fri_json::{Command, Failure, open, read_expected, verify};
use std::alloc::{AllocError, Global};

/// Two commitments, the first of them preprocessed.
const PREPROCESSED: &str = "\
{\"context\":\"00ff\",\"parameters\":{\"log_blowup\":1,\"log_final_poly_len\":0,\"max_log_arity\
\":2,\"num_queries\":3,\"batch_proof_of_work_bits\":1,\"commit_proof_of_work_bits\":1,\"query_pr\
oof_of_work_bits\":2},\"commitments\":[{\"matrices\":[{\"domain\":{\"shift\":1,\"log_size\":5},\
\"width\":1,\"values\":[1,11,35,73,125,191,271,365,473,595,731,881,1045,1223,1415,1621,1841,2075\
,2323,2585,2861,3151,3455,3773,4105,4451,4811,5185,5573,5975,6391,6821],\"points\":[[2,3,5,7]]}]\
,\"preprocessed\":true},{\"matrices\":[{\"domain\":{\"shift\":3,\"log_size\":5},\"width\":2,\"va\
lues\":[1,6,11,16,21,26,31,36,41,46,51,56,61,66,71,76,81,86,91,96,101,106,111,116,121,126,131,13\
6,141,146,151,156,161,166,171,176,181,186,191,196,201,206,211,216,221,226,231,236,241,246,251,25\
6,261,266,271,276,281,286,291,296,301,306,311,316],\"points\":[[2,3,5,7]]}]}],\"hiding\":{\"num_\
random_codewords\":4,\"seed\":\"0707070707070707070707070707070707070707070707070707070707070707\
\"}}";

/// What says in `PREPROCESSED` that the first batch is preprocessed.
const FLAG: &str = ",\"preprocessed\":true";

/// What is changed in `PREPROCESSED`, and what `tools/relation` finds of the request then: its
/// commitments, the lines of what is accepted below the context, the next challenge, and the
/// values of the first commitment.
struct Case {
    old: &'static str,
    new: &'static str,
    commitments: &'static str,
    summary: &'static str,
    hiding: &'static str,
    values: &'static str,
    next_challenge: [u64; 4],
}

const CASES: [Case; 2] = [
    Case {
        old: "",
        new: "",
        commitments: "53e7123446572b97b07c041897b16fc52e3ba6358f733dc24c821ad0dda54f4c\n\
27963e9abdff8c65c0ebf69fd49a0a7be35fceee01ffec0f4dd847fbbb08d9c4\n",
        summary: "commitment 53e7123446572b97b07c041897b16fc52e3ba6358f733dc24c821ad0dda54f4c\n\
matrix log_size 6 width 1 points 1\n\
commitment 27963e9abdff8c65c0ebf69fd49a0a7be35fceee01ffec0f4dd847fbbb08d9c4\n\
matrix log_size 6 width 2 points 1\n",
        hiding: "\"hiding\":{\"num_random_codewords\":4,\"preprocessing\":0},",
        values: "\"values\":[[1578156231,576744122,1509056422,810203772]]",
        next_challenge: [894776665, 789991442, 664518047, 1994831894],
    },
    Case {
        old: FLAG,
        new: "",
        commitments: "efbf3f524c561c09e9a38299cbc770f89f549bb377187b5a16110f0f2104c184\n\
fc4ad37d2550ded860de08802858c6d559ce0d5f428b6b44d9f4b5c6433d15df\n",
        summary: "commitment efbf3f524c561c09e9a38299cbc770f89f549bb377187b5a16110f0f2104c184\n\
matrix log_size 6 width 1 points 1\n\
commitment fc4ad37d2550ded860de08802858c6d559ce0d5f428b6b44d9f4b5c6433d15df\n\
matrix log_size 6 width 2 points 1\n",
        hiding: "\"hiding\":{\"num_random_codewords\":4,\"preprocessing\":null},",
        values: "\"values\":[[1739825161,291442988,1151300543,893883804]]",
        next_challenge: [1038509830, 46052768, 375435135, 1183853710],
    },
];

/// Whether a command writes these lines for a request or a statement, and nothing else.
fn are_written(alloc: Global, command: Command<'_>, text: &str, output: &str, fault: &str) -> bool {
    let lines = Lines {
        output,
        fault,
        status: 0,
    };
    writes(alloc, command, text, lines)
}

/// Whether the case's request has its commitments, and its answer what it should, and is accepted.
fn is_answered(alloc: Global, case: &Case) -> Result<bool, Failure> {
    let request = changed(alloc, PREPROCESSED, case.old, case.new)?;
    let committed = are_written(alloc, Command::Commit, &request, case.commitments, "");
    let answer = open(alloc, request.as_str())?;
    let summary = case.summary;
    let output = format!(in alloc;
        "accepted\ncontext 00ff\n{summary}conjectured soundness bits 5\n"
    )?;
    let fault = warning(alloc, 5)?;
    let accepted = are_written(alloc, Command::Verify, &answer, &output, &fault);
    let next = verify(alloc, answer.as_str())?;
    Ok(
        committed
            && accepted
            && answer.contains(case.hiding)
            && answer.contains(case.values)
            && next.as_slice() == case.next_challenge.as_slice(),
    )
}

/// The first case whose answer isn't as it should be.
fn first_unanswered(alloc: Global) -> Result<Option<&'static str>, Failure> {
    for case in &CASES {
        if !is_answered(alloc, case)? {
            return Ok(Some(case.hiding));
        }
    }
    Ok(None)
}

#[test]
fn hiding_requests_are_opened_and_accepted(rt: HostRuntime) -> Result<(), Failure> {
    let first = first_unanswered(rt.alloc())?;
    assert!(rt; first.is_none(), "{first:?}");
    Ok(())
}

/// What is changed in the answer to `PREPROCESSED`, with the refusals that `tools/relation` finds
/// true then.
const REFUSALS: [Refusal; 10] = [
    (
        "\"num_random_codewords\":4",
        "\"num_random_codewords\":5",
        &[
            "HidingRandomOpeningValueCountMismatch { round: 1, matrix: 0, point: 0, expected: 5, \
got: 4 }",
        ],
    ),
    (
        "\"num_random_codewords\":4",
        "\"num_random_codewords\":3",
        &[
            "HidingRandomOpeningValueCountMismatch { round: 1, matrix: 0, point: 0, expected: 3, \
got: 4 }",
            "InsufficientHidingRandomCodewords { required: 4, got: 3 }",
        ],
    ),
    (
        "\"preprocessing\":0",
        "\"preprocessing\":null",
        &[
            "HidingRandomOpeningValueCountMismatch { round: 0, matrix: 0, point: 0, expected: 4, \
got: 0 }",
        ],
    ),
    (
        "\"preprocessing\":0",
        "\"preprocessing\":1",
        &[
            "HidingRandomOpeningValueCountMismatch { round: 0, matrix: 0, point: 0, expected: 4, \
got: 0 }",
            "HidingRandomOpeningValueCountMismatch { round: 1, matrix: 0, point: 0, expected: 0, \
got: 4 }",
        ],
    ),
    (
        "\"preprocessing\":0",
        "\"preprocessing\":2",
        &[
            "HidingPreprocessedCommitmentOutOfBounds { index: 2, num_rounds: 2 }",
            "HidingRandomOpeningValueCountMismatch { round: 0, matrix: 0, point: 0, expected: 4, \
got: 0 }",
        ],
    ),
    ("00ff", "00fe", &["InvalidPowWitness(CommitPhase)"]),
    ("53e71234", "63e71234", &["InvalidPowWitness(Batch)"]),
    (
        "\"shift\":3",
        "\"shift\":5",
        &["InvalidPowWitness(CommitPhase)"],
    ),
    (
        "[[1578156231,",
        "[[1578156232,",
        &["InvalidPowWitness(CommitPhase)"],
    ),
    (
        "\"point\":[2,3",
        "\"point\":[3,3",
        &["InvalidPowWitness(Batch)"],
    ),
];

/// The first refusal that isn't as it should be.
fn first_unrefused(alloc: Global) -> Result<Option<&'static str>, Failure> {
    let statement = open(alloc, PREPROCESSED)?;
    for refusal in &REFUSALS {
        if !is_refused(alloc, statement.as_str(), refusal)? {
            return Ok(Some(refusal.1));
        }
    }
    Ok(None)
}

#[test]
fn changed_hiding_statements_are_refused(rt: HostRuntime) -> Result<(), Failure> {
    let first = first_unrefused(rt.alloc())?;
    assert!(rt; first.is_none(), "{first:?}");
    Ok(())
}

/// What is changed in `PREPROCESSED`, and the line that says why it isn't opened, with the status.
const FAULTS: [(&str, &str, &str, u8); 5] = [
    (
        "\"seed\":\"07",
        "\"seed\":\"",
        "Seed: hiding.seed: expected 64 hex digits",
        2,
    ),
    (
        "\"seed\":\"07",
        "\"seed\":\"x7",
        "Seed: hiding.seed: expected 64 hex digits",
        2,
    ),
    (
        "[[2,3,5,7]]}]}],\"h",
        "[[2,3,5,7]]}],\"preprocessed\":true}],\"h",
        "Preprocessed: commitments[1].preprocessed: expected at most one preprocessed batch",
        2,
    ),
    (
        "\"log_size\":5",
        "\"log_size\":26",
        "LogSize: commitments[0].matrices[0].domain.log_size: expected a number up to the \
field's two-adicity, with log_blowup where it is committed to",
        2,
    ),
    (
        "\"num_random_codewords\":4",
        "\"num_random_codewords\":3",
        "refused: InsufficientRandomCodewords { required: 4, got: 3 }: 3 random codewords are \
fewer than the 4 of the extension's degree",
        1,
    ),
];

/// Whether both commands write the fault of the changed request.
fn is_unanswered(alloc: Global, fault: &(&str, &str, &str, u8)) -> Result<bool, AllocError> {
    let (old, new, line, status) = *fault;
    let request = changed(alloc, PREPROCESSED, old, new)?;
    let line = format!(in alloc; "fri: F: {line}\n")?;
    let lines = Lines {
        output: "",
        fault: line.as_str(),
        status,
    };
    Ok(
        writes(alloc, Command::Open, request.as_str(), lines)
            && writes(alloc, Command::Commit, request.as_str(), lines),
    )
}

/// The first fault that isn't written.
fn first_answered(alloc: Global) -> Result<Option<&'static str>, AllocError> {
    for fault in &FAULTS {
        if !is_unanswered(alloc, fault)? {
            return Ok(Some(fault.2));
        }
    }
    Ok(None)
}

#[test]
fn faulty_hiding_requests_are_named(rt: HostRuntime) -> Result<(), AllocError> {
    let first = first_answered(rt.alloc())?;
    assert!(rt; first.is_none(), "{first:?}");
    Ok(())
}

/// What stands in an answer of one scheme, and what makes it a statement of the other.
const OTHERS: [(&str, &str, &str); 2] = [
    (
        COLUMN,
        "\"claims\":",
        "\"hiding\":{\"num_random_codewords\":4,\"preprocessing\":null},\"claims\":",
    ),
    (PREPROCESSED, "\"hiding\":", "\"others\":"),
];

/// Whether each proof isn't read as one of the other scheme.
fn are_other_proofs_unread(alloc: Global) -> Result<bool, Failure> {
    for (request, old, new) in &OTHERS {
        let answer = open(alloc, *request)?;
        let statement = changed(alloc, answer.as_str(), *old, *new)?;
        let outcome = written(alloc, Command::Verify, statement.as_str());
        let named = outcome.fault.starts_with(b"fri: F: Json: proof");
        if outcome.status != 2 || !outcome.output.is_empty() || !named {
            return Ok(false);
        }
    }
    Ok(true)
}

#[test]
fn proofs_of_the_other_scheme_are_not_read(rt: HostRuntime) -> Result<(), Failure> {
    assert!(rt; are_other_proofs_unread(rt.alloc())?);
    Ok(())
}

/// What is changed in what is expected of the answer to `PREPROCESSED`, and how it differs then.
const DIFFERENCES: [(&str, &str, &str); 4] = [
    (
        "\"num_random_codewords\":4",
        "\"num_random_codewords\":5",
        "hiding.num_random_codewords: expected another value",
    ),
    (
        "\"preprocessing\":0",
        "\"preprocessing\":1",
        "hiding.preprocessing: expected another value",
    ),
    (
        "\"preprocessing\":0",
        "\"preprocessing\":null",
        "hiding.preprocessing: expected another value",
    ),
    (
        "\"hiding\":",
        "\"others\":",
        "hiding: expected another value",
    ),
];

/// What is written of the answer where this is expected.
fn expected_output(alloc: Global, answer: &str, expected: &str) -> Result<Vec<u8>, AllocError> {
    let mut fault = Vec::new(alloc);
    match read_expected(alloc, "E", expected, &mut fault) {
        Ok(expected) => Ok(written(alloc, Command::VerifyExpected(&expected), answer).output),
        Err(_) => Ok(fault),
    }
}

/// The first difference that isn't named; or the whole answer, if it isn't the expected one.
fn first_unnamed(alloc: Global) -> Result<Option<&'static str>, Failure> {
    let answer = open(alloc, PREPROCESSED)?;
    let output = expected_output(alloc, answer.as_str(), answer.as_str())?;
    if !output.starts_with(b"accepted\n") {
        return Ok(Some("accepted"));
    }
    for (old, new, line) in &DIFFERENCES {
        let expected = changed(alloc, answer.as_str(), *old, *new)?;
        let output = expected_output(alloc, answer.as_str(), expected.as_str())?;
        let refusal = format!(in alloc; "refused: Unexpected: {line}\n")?;
        if output.as_slice() != refusal.as_bytes() {
            return Ok(Some(*line));
        }
    }
    Ok(None)
}

#[test]
fn differences_of_hiding_are_named(rt: HostRuntime) -> Result<(), Failure> {
    let first = first_unnamed(rt.alloc())?;
    assert!(rt; first.is_none(), "{first:?}");
    Ok(())
}
