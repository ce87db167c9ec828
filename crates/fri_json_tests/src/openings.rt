//! Answers of the example requests under several contexts, which are accepted, and their
//! commitments.

use crate::texts::{COLUMN, Lines, TWO_COMMITMENTS, TWO_HEIGHTS, changed, warning, writes};
use fri_json::{Command, Failure, WRITE_FAILED, answer, open, verify};
use std::alloc::{AllocError, Global};

/// A request, the lines of its commitments, the lines that say what was accepted below its context,
/// and its bits of soundness. All are those that `tools/relation` found, commitments as
/// `crates/fri/stdout` has them.
#[derive(Clone, Copy)]
struct Case {
    request: &'static str,
    commitments: &'static str,
    summary: &'static str,
    bits: usize,
}

const COLUMN_CASE: Case = Case {
    request: COLUMN,
    commitments: "2aa419f58ea1802d8a714e88157918d5c64c948cbbf6d57fa86161ecdece7203\n",
    summary: "commitment 2aa419f58ea1802d8a714e88157918d5c64c948cbbf6d57fa86161ecdece7203\n\
matrix log_size 1 width 1 points 1\n",
    bits: 2,
};

const TWO_HEIGHTS_CASE: Case = Case {
    request: TWO_HEIGHTS,
    commitments: "7f4fca6d4493d5b5c6d99dc7d5f180786f7292ad26f89708b9d69b69690bb1a0\n",
    summary: "commitment 7f4fca6d4493d5b5c6d99dc7d5f180786f7292ad26f89708b9d69b69690bb1a0\n\
matrix log_size 3 width 2 points 2\n\
matrix log_size 1 width 3 points 1\n",
    bits: 6,
};

const TWO_COMMITMENTS_CASE: Case = Case {
    request: TWO_COMMITMENTS,
    commitments: "1a560aee673507d4f0709ed50a3cd7c6bd0a9461c8d56af0ecd5b75f7dde4ff3\n\
fc1219dd27ab78ab0db55f6138ea57242a4c81bc26edcd88be1a15d16dd047af\n",
    summary: "commitment 1a560aee673507d4f0709ed50a3cd7c6bd0a9461c8d56af0ecd5b75f7dde4ff3\n\
matrix log_size 4 width 1 points 1\n\
commitment fc1219dd27ab78ab0db55f6138ea57242a4c81bc26edcd88be1a15d16dd047af\n\
matrix log_size 2 width 2 points 2\n",
    bits: 8,
};

/// A case under a context, which is a hex text so many times over, the context's line, and the
/// coefficients of what is drawn after the proof, as `tools/relation` found them.
#[derive(Clone, Copy)]
struct Bound {
    case: Case,
    context: &'static str,
    times: usize,
    line: &'static str,
    next_challenge: [u64; 4],
}

const BOUND: [Bound; 8] = [
    Bound {
        case: COLUMN_CASE,
        context: "",
        times: 1,
        line: "context empty\n",
        next_challenge: [1575306697, 1677209360, 273931704, 799075703],
    },
    Bound {
        case: TWO_HEIGHTS_CASE,
        context: "",
        times: 1,
        line: "context empty\n",
        next_challenge: [1306391120, 602489802, 218582372, 1043326126],
    },
    Bound {
        case: TWO_COMMITMENTS_CASE,
        context: "",
        times: 1,
        line: "context empty\n",
        next_challenge: [1118608469, 1542791781, 213118713, 1870654046],
    },
    Bound {
        case: COLUMN_CASE,
        context: "00",
        times: 1,
        line: "context 00\n",
        next_challenge: [746189083, 1495596827, 1817467402, 212980258],
    },
    Bound {
        case: COLUMN_CASE,
        context: "ABCdef",
        times: 1,
        line: "context abcdef\n",
        next_challenge: [487689348, 729776954, 1493495339, 49009106],
    },
    Bound {
        case: COLUMN_CASE,
        context: "Ff",
        times: 32,
        line: "context ffffffffffffffffffffffffffffffffffffffffffffffffffffffffffffffff\n",
        next_challenge: [1483188845, 1802249898, 1509146620, 1862883339],
    },
    Bound {
        case: COLUMN_CASE,
        context: "07",
        times: 300,
        line: "context 0707070707070707070707070707070707070707070707070707070707070707 \
.. 300 bytes\n",
        next_challenge: [944552100, 641884498, 1316492725, 782360372],
    },
    Bound {
        case: TWO_COMMITMENTS_CASE,
        context: "00010203040506070809",
        times: 1,
        line: "context 00010203040506070809\n",
        next_challenge: [1863030146, 427337452, 459439267, 228119812],
    },
];

/// The column's request without its points.
const UNOPENED: &str = "{\"parameters\":{\"log_blowup\":1,\"log_final_poly_len\":0,\
\"max_log_arity\":1,\"num_queries\":2,\"batch_proof_of_work_bits\":0,\
\"commit_proof_of_work_bits\":0,\"query_proof_of_work_bits\":0},\"commitments\":[{\"matrices\":[\
{\"domain\":{\"shift\":1,\"log_size\":1},\"width\":1,\"values\":[1,3],\"points\":[]}]}]}";

/// Requests with the case that has their commitments.
const COMMITTED: [(&str, Case); 4] = [
    (COLUMN, COLUMN_CASE),
    (TWO_HEIGHTS, TWO_HEIGHTS_CASE),
    (TWO_COMMITMENTS, TWO_COMMITMENTS_CASE),
    (UNOPENED, COLUMN_CASE),
];

/// Whether each request has its commitments.
fn each_is_committed(alloc: Global) -> bool {
    for (request, case) in &COMMITTED {
        let lines = Lines {
            output: case.commitments,
            fault: "",
            status: 0,
        };
        if !writes(alloc, Command::Commit, *request, lines) {
            return false;
        }
    }
    true
}

#[test]
fn requests_are_committed_to(rt: HostRuntime) {
    assert!(rt; each_is_committed(rt.alloc()));
}

/// How a request under a context begins.
fn front_of(alloc: Global, bound: &Bound) -> Result<String, AllocError> {
    let mut front = String::from_str(alloc, "{\"context\":\"")?;
    for _ in 0..bound.times {
        front.push_str(bound.context)?;
    }
    front.push_str("\",\"parameters\"")?;
    Ok(front)
}

/// Whether a command writes of the answer that it is accepted, and what was.
fn is_told(alloc: Global, bound: &Bound, answer: &str) -> Result<bool, AllocError> {
    let Bound { case, line, .. } = *bound;
    let (summary, bits) = (case.summary, case.bits);
    let output = format!(in alloc; "accepted\n{line}{summary}conjectured soundness bits {bits}\n")?;
    let fault = warning(alloc, bits)?;
    let lines = Lines {
        output: output.as_str(),
        fault: fault.as_str(),
        status: 0,
    };
    Ok(writes(alloc, Command::Verify, answer, lines))
}

/// Whether the answer to a request under a context has that context, in lower case, and is accepted
/// with this next draw.
fn is_accepted(alloc: Global, bound: &Bound) -> Result<bool, Failure> {
    let mut front = front_of(alloc, bound)?;
    let request = changed(alloc, bound.case.request, "{\"parameters\"", front.as_str())?;
    let answer = open(alloc, request.as_str())?;
    front.make_ascii_lowercase();
    if !answer.starts_with(front.as_str()) || !is_told(alloc, bound, answer.as_str())? {
        return Ok(false);
    }
    let next = verify(alloc, answer.as_str())?;
    Ok(next.as_slice() == bound.next_challenge.as_slice())
}

/// The first context under which no answer is accepted.
fn first_unaccepted(alloc: Global) -> Result<Option<&'static str>, Failure> {
    for bound in &BOUND {
        if !is_accepted(alloc, bound)? {
            return Ok(Some(bound.line));
        }
    }
    Ok(None)
}

#[test]
fn answers_are_accepted(rt: HostRuntime) -> Result<(), Failure> {
    let first = first_unaccepted(rt.alloc())?;
    assert!(rt; first.is_none(), "{first:?}");
    Ok(())
}

/// Whether an answer is accepted without its empty context, as a statement has none where it is
/// empty.
fn is_context_left_out(alloc: Global) -> Result<bool, Failure> {
    let answer = open(alloc, COLUMN)?;
    let shorter = changed(alloc, answer.as_str(), "\"context\":\"\",", "")?;
    Ok(
        shorter.len() < answer.len()
            && verify(alloc, shorter.as_str())?.as_slice() == BOUND[0].next_challenge.as_slice(),
    )
}

#[test]
fn an_empty_context_may_be_left_out(rt: HostRuntime) -> Result<(), Failure> {
    assert!(rt; is_context_left_out(rt.alloc())?);
    Ok(())
}

/// The status where nothing is taken.
fn status_unwritten(alloc: Global, command: Command<'_>, text: &str) -> u8 {
    let (mut first, mut second) = ([0u8; 0], [0u8; 0]);
    let (mut output, mut fault) = (&mut first[..], &mut second[..]);
    answer(alloc, command, "F", text, &mut output, &mut fault)
}

#[test]
fn failed_writes_have_their_status(rt: HostRuntime) {
    let alloc = rt.alloc();
    assert!(rt;
        status_unwritten(alloc, Command::Commit, COLUMN) == WRITE_FAILED
            && status_unwritten(alloc, Command::Verify, "") == WRITE_FAILED
    );
}
