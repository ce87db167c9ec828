//! An answer compared with what was expected.

use crate::texts::{Lines, SEVERAL, changed, warning, writes};
use fri_json::{Command, Failure, open, read_expected};
use std::alloc::{AllocError, Global};

/// What is expected of the answer to `SEVERAL`: commitments in upper case, no context, no proof,
/// and at one point no values.
const EXPECTED: &str = "{\"parameters\":{\"log_blowup\":2,\"log_final_poly_len\":0,\
\"max_log_arity\":2,\"num_queries\":3,\"batch_proof_of_work_bits\":0,\
\"commit_proof_of_work_bits\":0,\"query_proof_of_work_bits\":0},\"claims\":[{\"commitment\":\
\"26BCE7536E76248F01F14A525A4C4E007979E67A61DC7A9BDD4873C54D1A9320\",\"matrices\":[{\"domain\":\
{\"shift\":1,\"log_size\":1},\"points\":[{\"point\":[5,0,0,0],\"values\":[[2013265918,0,0,0]]}]}]},\
{\"commitment\":\"7F4FCA6D4493D5B5C6D99DC7D5F180786F7292AD26F89708B9D69B69690BB1A0\",\
\"matrices\":[{\"domain\":{\"shift\":1,\"log_size\":3},\"points\":[{\"point\":[5,0,0,0]},\
{\"point\":[7,1,0,2],\"values\":[[1558977350,112890481,1028726872,261441804],\
[435550421,735035206,867237736,1395585587]]}]},{\"domain\":{\"shift\":3,\"log_size\":1},\
\"points\":[{\"point\":[7,1,0,2],\"values\":[[2013265919,2013265920,0,2013265919],\
[1342177291,335544321,0,671088642],[1342177277,335544319,0,671088638]]}]}]}]}";

/// What is printed of that answer, as `tools/relation` found it.
const SUMMARY: &str = "accepted\n\
context empty\n\
commitment 26bce7536e76248f01f14a525a4c4e007979e67a61dc7a9bdd4873c54d1a9320\n\
matrix log_size 1 width 1 points 1\n\
commitment 7f4fca6d4493d5b5c6d99dc7d5f180786f7292ad26f89708b9d69b69690bb1a0\n\
matrix log_size 3 width 2 points 2\n\
matrix log_size 1 width 3 points 1\n\
conjectured soundness bits 6\n";

/// What stands in `EXPECTED`, what is written there in its place, and how the refusal ends.
type Difference = (&'static str, &'static str, &'static str);

const DIFFERENCES: [Difference; 24] = [
    (
        "{\"parameters\"",
        "{\"context\":\"00\",\"parameters\"",
        "context: expected another value",
    ),
    (
        "\"log_blowup\":2",
        "\"log_blowup\":1",
        "parameters.log_blowup: expected another value",
    ),
    (
        "\"log_final_poly_len\":0",
        "\"log_final_poly_len\":1",
        "parameters.log_final_poly_len: expected another value",
    ),
    (
        "\"max_log_arity\":2",
        "\"max_log_arity\":1",
        "parameters.max_log_arity: expected another value",
    ),
    (
        "\"num_queries\":3",
        "\"num_queries\":100",
        "parameters.num_queries: expected another value",
    ),
    (
        "\"batch_proof_of_work_bits\":0",
        "\"batch_proof_of_work_bits\":1",
        "parameters.batch_proof_of_work_bits: expected another value",
    ),
    (
        "\"commit_proof_of_work_bits\":0",
        "\"commit_proof_of_work_bits\":1",
        "parameters.commit_proof_of_work_bits: expected another value",
    ),
    (
        "\"query_proof_of_work_bits\":0",
        "\"query_proof_of_work_bits\":1",
        "parameters.query_proof_of_work_bits: expected another value",
    ),
    (
        "\"claims\":[",
        "\"claims\":[],\"others\":[",
        "claims: expected another number of entries",
    ),
    (
        "\"claims\":[",
        "\"claims\":[{\"commitment\":\
\"26BCE7536E76248F01F14A525A4C4E007979E67A61DC7A9BDD4873C54D1A9320\",\"matrices\":[]},",
        "claims: expected another number of entries",
    ),
    (
        "26BCE7",
        "26BCE8",
        "claims[0].commitment: expected another value",
    ),
    (
        "7F4FCA",
        "7F4FCB",
        "claims[1].commitment: expected another value",
    ),
    (
        "\"matrices\":[",
        "\"matrices\":[],\"others\":[",
        "claims[0].matrices: expected another number of entries",
    ),
    (
        "\"matrices\":[",
        "\"matrices\":[{\"domain\":{\"shift\":1,\"log_size\":1},\"points\":[]},",
        "claims[0].matrices: expected another number of entries",
    ),
    (
        "\"shift\":3",
        "\"shift\":1",
        "claims[1].matrices[1].domain.shift: expected another value",
    ),
    (
        "\"log_size\":3",
        "\"log_size\":2",
        "claims[1].matrices[0].domain.log_size: expected another value",
    ),
    (
        "\"points\":[",
        "\"points\":[],\"others\":[",
        "claims[0].matrices[0].points: expected another number of entries",
    ),
    (
        "\"points\":[{\"point\":[5,0,0,0]},",
        "\"points\":[{\"point\":[5,0,0,0]},{\"point\":[6,0,0,0]},",
        "claims[1].matrices[0].points: expected another number of entries",
    ),
    (
        "{\"point\":[5,0,0,0]}",
        "{\"point\":[5,0,0,1]}",
        "claims[1].matrices[0].points[0].point: expected another value",
    ),
    (
        "{\"point\":[7,1,0,2]",
        "{\"point\":[7,1,0,3]",
        "claims[1].matrices[0].points[1].point: expected another value",
    ),
    (
        "[[2013265918,0,0,0]]",
        "[[2013265917,0,0,0]]",
        "claims[0].matrices[0].points[0].values[0]: expected another value",
    ),
    (
        "1395585587",
        "1395585586",
        "claims[1].matrices[0].points[1].values[1]: expected another value",
    ),
    (
        "[[2013265918,0,0,0]]",
        "[]",
        "claims[0].matrices[0].points[0].values: expected another number of entries",
    ),
    (
        ",[1342177277,335544319,0,671088638]",
        "",
        "claims[1].matrices[1].points[0].values: expected another number of entries",
    ),
];

/// What stands in `EXPECTED`, what is written there in its place, and why that is no statement.
/// Lines are the rules of `docs/FORMATS.md`.
const FAULTS: [Difference; 14] = [
    (
        "{\"parameters\"",
        "{\"context\":\"0\",\"parameters\"",
        "Context: context: expected an even number of hex digits",
    ),
    (
        "{\"parameters\"",
        "{\"context\":\"0x\",\"parameters\"",
        "Context: context: expected an even number of hex digits",
    ),
    (
        "{\"parameters\":{",
        "{\n\"parameters\":3,\"others\":{",
        "Json: parameters: 3: invalid type at line 2 column 14",
    ),
    (
        "\"claims\":[",
        "\"others\":[",
        "Json: missing field `claims` at line 1 column 844",
    ),
    (
        "26BCE7",
        "26BCE",
        "Commitment: claims[0].commitment: expected 64 hex digits",
    ),
    (
        "7F4FCA",
        "xF4FCA",
        "Commitment: claims[1].commitment: expected 64 hex digits",
    ),
    (
        "\"shift\":3",
        "\"shift\":0",
        "Shift: claims[1].matrices[1].domain.shift: expected a number above 0 and below the \
field's order",
    ),
    (
        "\"shift\":3",
        "\"shift\":2013265921",
        "Shift: claims[1].matrices[1].domain.shift: expected a number above 0 and below the \
field's order",
    ),
    (
        "\"log_size\":3",
        "\"log_size\":28",
        "LogSize: claims[1].matrices[0].domain.log_size: expected a number up to the \
field's two-adicity, with log_blowup where it is committed to",
    ),
    (
        "{\"point\":[5,0,0,0]}",
        "{\"point\":[5,0,0]}",
        "ExtensionElement: claims[1].matrices[0].points[0].point: expected numbers below the \
field's order, as many as the extension's degree",
    ),
    (
        "{\"point\":[7,1,0,2]",
        "{\"point\":[7,1,0,2013265921]",
        "Element: claims[1].matrices[0].points[1].point: expected a number below the field's order",
    ),
    (
        ",1395585587]",
        "]",
        "ExtensionElement: claims[1].matrices[0].points[1].values[1]: expected numbers below the \
field's order, as many as the extension's degree",
    ),
    (
        "1395585587",
        "2013265921",
        "Element: claims[1].matrices[0].points[1].values[1]: expected a number below the field's \
order",
    ),
    (
        "{\"parameters\"",
        "",
        "Json: invalid JSON at line 1 column 1",
    ),
];

/// Whether `verify` writes this and nothing else of an answer that is compared with what is in the
/// text of a file named `E`.
pub(crate) fn is_compared(alloc: Global, expected: &str, answer: &str, lines: Lines<'_>) -> bool {
    let mut fault = Vec::new(alloc);
    match read_expected(alloc, "E", expected, &mut fault) {
        Ok(expected) => {
            fault.is_empty() && writes(alloc, Command::VerifyExpected(&expected), answer, lines)
        },
        Err(status) => {
            lines.output.is_empty()
                && fault.as_slice() == lines.fault.as_bytes()
                && status == lines.status
        },
    }
}

/// The first change of what is expected of which another line is written, or more.
fn first_unnamed(alloc: Global, answer: &str) -> Result<Option<&'static str>, AllocError> {
    for (old, new, place) in &DIFFERENCES {
        let expected = changed(alloc, EXPECTED, old, new)?;
        let line = format!(in alloc; "refused: Unexpected: {place}\n")?;
        let lines = Lines {
            output: line.as_str(),
            fault: "",
            status: 1,
        };
        if !is_compared(alloc, expected.as_str(), answer, lines) {
            return Ok(Some(*place));
        }
    }
    Ok(None)
}

/// The first fault of the text of what is expected of which another line is written, or more.
fn first_unfound(alloc: Global) -> Result<Option<&'static str>, AllocError> {
    for (old, new, fault) in &FAULTS {
        let expected = changed(alloc, EXPECTED, old, new)?;
        let line = format!(in alloc; "fri: E: {fault}\n")?;
        let lines = Lines {
            output: "",
            fault: line.as_str(),
            status: 2,
        };
        if !is_compared(alloc, expected.as_str(), "", lines) {
            return Ok(Some(*fault));
        }
    }
    Ok(None)
}

/// Whether the answer is accepted where it is what was expected, the answer itself too.
fn is_expected(alloc: Global, answer: &str) -> Result<bool, AllocError> {
    let fault = warning(alloc, 6)?;
    let lines = Lines {
        output: SUMMARY,
        fault: fault.as_str(),
        status: 0,
    };
    Ok(is_compared(alloc, EXPECTED, answer, lines) && is_compared(alloc, answer, answer, lines))
}

#[test]
fn differences_are_named(rt: HostRuntime) -> Result<(), Failure> {
    let alloc = rt.alloc();
    let answer = open(alloc, SEVERAL)?;
    let first = first_unnamed(alloc, answer.as_str())?;
    assert!(rt;
        first.is_none() && is_expected(alloc, answer.as_str())?,
        "{first:?}"
    );
    Ok(())
}

#[test]
fn faulty_expectations_are_named(rt: HostRuntime) -> Result<(), Failure> {
    let first = first_unfound(rt.alloc())?;
    assert!(rt; first.is_none(), "{first:?}");
    Ok(())
}
