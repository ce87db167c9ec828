//! Faulty requests and statements, each with the line that says where its fault is.

use crate::texts::{COLUMN, Lines, changed, writes};
use fri_json::{Command, Failure, open};
use std::alloc::{AllocError, Global};

/// What stands in a text, what is written there in its place, the line that says why the text has
/// no answer, and the status. Lines are the rules of `docs/FORMATS.md` and places are counted from
/// 0, columns of what isn't JSON from 1.
type Fault = (&'static str, &'static str, &'static str, u8);

/// Of the column's request.
const REQUESTS: [Fault; 29] = [
    (
        "\"log_blowup\":1",
        "\"log_blowup\":0",
        "LogBlowup: parameters.log_blowup: expected a number from 1 to the field's two-adicity",
        2,
    ),
    (
        "\"log_blowup\":1",
        "\"log_blowup\":28",
        "LogBlowup: parameters.log_blowup: expected a number from 1 to the field's two-adicity",
        2,
    ),
    (
        "\"max_log_arity\":1",
        "\"max_log_arity\":0",
        "MaxLogArity: parameters.max_log_arity: expected a number above 0",
        2,
    ),
    (
        "\"num_queries\":2",
        "\"num_queries\":0",
        "NumQueries: parameters.num_queries: expected a number above 0",
        2,
    ),
    (
        "\"query_proof_of_work_bits\":0",
        "\"query_proof_of_work_bits\":64",
        "ProofOfWorkBits: parameters: expected proofs of work of at most 63 bits",
        2,
    ),
    (
        "[{\"matrices\":[",
        "[{\"matrices\":[],\"others\":[",
        "Matrices: commitments: expected some matrix",
        2,
    ),
    (
        "\"log_size\":1",
        "\"log_size\":27",
        "LogSize: commitments[0].matrices[0].domain.log_size: expected a number up to the \
field's two-adicity, with log_blowup where it is committed to",
        2,
    ),
    (
        "\"shift\":1",
        "\"shift\":0",
        "Shift: commitments[0].matrices[0].domain.shift: expected a number above 0 and below the \
field's order",
        2,
    ),
    (
        "\"shift\":1",
        "\"shift\":2013265921",
        "Shift: commitments[0].matrices[0].domain.shift: expected a number above 0 and below the \
field's order",
        2,
    ),
    (
        "\"width\":1",
        "\"width\":0",
        "Width: commitments[0].matrices[0].width: expected a number above 0",
        2,
    ),
    (
        "[1,3]",
        "[1]",
        "Values: commitments[0].matrices[0].values: expected as many values as the domain has \
points, times the width",
        2,
    ),
    (
        "[1,3]",
        "[1,2013265921]",
        "Element: commitments[0].matrices[0].values[1]: expected a number below the field's order",
        2,
    ),
    (
        "[[5,0,0,0]]",
        "[]",
        "Points: commitments[0].matrices[0].points: expected some point",
        2,
    ),
    (
        "[[5,0,0,0]]",
        "[[5,0,0,0],[5,0,0]]",
        "ExtensionElement: commitments[0].matrices[0].points[1]: expected numbers below the \
field's order, as many as the extension's degree",
        2,
    ),
    (
        "[[5,0,0,0]]",
        "[[5,0,2013265921,0]]",
        "Element: commitments[0].matrices[0].points[0]: expected a number below the field's order",
        2,
    ),
    (
        "{\"parameters\":{",
        "{\n\"parameters\":3,\"others\":{",
        "Json: parameters: 3: invalid type at line 2 column 14",
        2,
    ),
    (
        "\"commitments\":[",
        "\"others\":[",
        "Json: missing field `commitments` at line 1 column 284",
        2,
    ),
    (
        "[1,3]",
        "[1,-1]",
        "Json: commitments[0].matrices[0].values[1]: -1: invalid value at line 1 column 262",
        2,
    ),
    (
        "[1,3]",
        "[1,\"3\"]",
        "Json: commitments[0].matrices[0].values[1]: invalid type at line 1 column 262",
        2,
    ),
    (
        "[[5,0,0,0]]",
        "[[5,0,0,0],[5,null,0,0]]",
        "Json: commitments[0].matrices[0].points[1][1]: null: invalid type at line 1 column 288",
        2,
    ),
    (
        ",\"log_size\":1",
        "",
        "Json: commitments[0].matrices[0].domain: missing field `log_size` at line 1 column 225",
        2,
    ),
    (
        "{\"parameters\":{",
        "{\"a\\\"[\":[{\"b\":[1]}],\"parameters\":3,\"others\":{",
        "Json: parameters: 3: invalid type at line 1 column 34",
        2,
    ),
    (
        "\"log_final_poly_len\":0",
        "\"log_final_poly_len\":1",
        "refused: InputHeightTooSmall { log_input_height: 2, log_final_height: 2 }: the input's \
log height 2 is not above the final log height 2",
        1,
    ),
    (
        "\"log_final_poly_len\":0",
        "\"log_final_poly_len\":18446744073709551615",
        "refused: FinalHeightOverflow: the final log height is past the greatest number",
        1,
    ),
    (
        "[[5,0,0,0]]",
        "[[31,0,0,0]]",
        "refused: PointInEvaluationDomain { round: 0, matrix: 0, point: 0 }: point 0 of matrix 0 \
in round 0 lies in the evaluation domain",
        1,
    ),
    (
        "{\"parameters\":{",
        "{\"context\":\"000\",\"parameters\":{",
        "Context: context: expected an even number of hex digits",
        2,
    ),
    (
        "{\"parameters\":{",
        "{\"context\":\"0g\",\"parameters\":{",
        "Context: context: expected an even number of hex digits",
        2,
    ),
    (
        "{\"parameters\":{",
        "{\"context\":\"é\",\"parameters\":{",
        "Context: context: expected an even number of hex digits",
        2,
    ),
    (
        "{\"parameters\":{",
        "{\"context\":[],\"parameters\":{",
        "Json: context: invalid type at line 1 column 12",
        2,
    ),
];

/// Of the answer to it.
const STATEMENTS: [Fault; 16] = [
    (
        "\"log_final_poly_len\":0",
        "\"log_final_poly_len\":63",
        "LogFinalPolyLen: parameters.log_final_poly_len: expected a number below 64 together with \
log_blowup",
        2,
    ),
    (
        "\"commit_proof_of_work_bits\":0",
        "\"commit_proof_of_work_bits\":64",
        "ProofOfWorkBits: parameters: expected proofs of work of at most 63 bits",
        2,
    ),
    (
        "2aa419f5",
        "2aa419f",
        "Commitment: claims[0].commitment: expected 64 hex digits",
        2,
    ),
    (
        "2aa419f5",
        "2xa419f5",
        "Commitment: claims[0].commitment: expected 64 hex digits",
        2,
    ),
    (
        "\"shift\":1",
        "\"shift\":0",
        "Shift: claims[0].matrices[0].domain.shift: expected a number above 0 and below the \
field's order",
        2,
    ),
    (
        "\"log_size\":1",
        "\"log_size\":28",
        "LogSize: claims[0].matrices[0].domain.log_size: expected a number up to the \
field's two-adicity, with log_blowup where it is committed to",
        2,
    ),
    (
        "\"point\":[5,",
        "\"point\":[",
        "ExtensionElement: claims[0].matrices[0].points[0].point: expected numbers below the \
field's order, as many as the extension's degree",
        2,
    ),
    (
        "[[2013265918,0,0,0]]",
        "[[2013265918,0,0,0],[2013265921,0,0,0]]",
        "Element: claims[0].matrices[0].points[0].values[1]: expected a number below the field's \
order",
        2,
    ),
    (
        "[[2013265918,0,0,0]]",
        "[[2013265918,0,0]]",
        "ExtensionElement: claims[0].matrices[0].points[0].values[0]: expected numbers below the \
field's order, as many as the extension's degree",
        2,
    ),
    (
        "\"batch_pow_witness\":0",
        "\"batch_pow_witness\":2013265921",
        "Element: proof: expected a number below the field's order",
        2,
    ),
    (
        "[[2013265920,0,0,0]],\"q",
        "[[2013265920,0,0]],\"q",
        "ExtensionElement: proof: expected numbers below the field's order, as many as the \
extension's degree",
        2,
    ),
    (
        "[[[30,",
        "[[[",
        "Digest: proof: expected digests of 32 bytes",
        2,
    ),
    (
        "\"context\":\"\",\"parameters\":{",
        "\"context\":\"\",\n\"parameters\":3,\"others\":{",
        "Json: parameters: 3: invalid type at line 2 column 14",
        2,
    ),
    (
        "\"context\":\"\"",
        "\"context\":\"0\"",
        "Context: context: expected an even number of hex digits",
        2,
    ),
    (
        "\"context\":\"\"",
        "\"context\":\"0x\"",
        "Context: context: expected an even number of hex digits",
        2,
    ),
    (
        "\"context\":\"\"",
        "\"context\":\"é\"",
        "Context: context: expected an even number of hex digits",
        2,
    ),
];

/// The first fault of the text of which another line is written, or more.
fn first_unnamed(
    alloc: Global,
    command: Command<'_>,
    text: &str,
    faults: &[Fault],
) -> Result<Option<&'static str>, AllocError> {
    for fault in faults {
        let (old, new, line, status) = *fault;
        let faulty = changed(alloc, text, old, new)?;
        let line = format!(in alloc; "fri: F: {line}\n")?;
        let lines = Lines {
            output: "",
            fault: line.as_str(),
            status,
        };
        if !writes(alloc, command, faulty.as_str(), lines) {
            return Ok(Some(new));
        }
    }
    Ok(None)
}

#[test]
fn faulty_requests_are_named(rt: HostRuntime) -> Result<(), Failure> {
    let first = first_unnamed(rt.alloc(), Command::Open, COLUMN, &REQUESTS)?;
    assert!(rt; first.is_none(), "{first:?}");
    Ok(())
}

#[test]
fn faulty_statements_are_named(rt: HostRuntime) -> Result<(), Failure> {
    let statement = open(rt.alloc(), COLUMN)?;
    let first = first_unnamed(rt.alloc(), Command::Verify, statement.as_str(), &STATEMENTS)?;
    assert!(rt; first.is_none(), "{first:?}");
    Ok(())
}
