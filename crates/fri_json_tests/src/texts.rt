//! The example requests, and what a command writes for a text.

use fri_json::{Command, answer};
use std::alloc::{AllocError, Global};

/// The column 1, 3 opened at 5.
pub(crate) const COLUMN: &str = "{\"parameters\":{\"log_blowup\":1,\"log_final_poly_len\":0,\
\"max_log_arity\":1,\"num_queries\":2,\"batch_proof_of_work_bits\":0,\
\"commit_proof_of_work_bits\":0,\"query_proof_of_work_bits\":0},\"commitments\":[{\"matrices\":[\
{\"domain\":{\"shift\":1,\"log_size\":1},\"width\":1,\"values\":[1,3],\"points\":[[5,0,0,0]]}]}]}";

/// Two matrices of unequal heights under one commitment.
pub(crate) const TWO_HEIGHTS: &str = "{\"parameters\":{\"log_blowup\":2,\"log_final_poly_len\":0,\
\"max_log_arity\":2,\"num_queries\":3,\"batch_proof_of_work_bits\":0,\
\"commit_proof_of_work_bits\":0,\"query_proof_of_work_bits\":0},\"commitments\":[{\"matrices\":[\
{\"domain\":{\"shift\":1,\"log_size\":3},\"width\":2,\
\"values\":[3,1,4,1,5,9,2,6,5,3,5,8,9,7,9,3],\"points\":[[5,0,0,0],[7,1,0,2]]},\
{\"domain\":{\"shift\":3,\"log_size\":1},\"width\":3,\"values\":[2,7,1,8,2,8],\
\"points\":[[7,1,0,2]]}]}]}";

/// Two commitments, with proofs of work.
pub(crate) const TWO_COMMITMENTS: &str = "{\"parameters\":{\"log_blowup\":1,\
\"log_final_poly_len\":1,\"max_log_arity\":3,\"num_queries\":4,\"batch_proof_of_work_bits\":2,\
\"commit_proof_of_work_bits\":3,\"query_proof_of_work_bits\":4},\"commitments\":[{\"matrices\":[\
{\"domain\":{\"shift\":1,\"log_size\":4},\"width\":1,\
\"values\":[1,1,2,3,5,8,13,21,34,55,89,144,233,377,610,987],\
\"points\":[[2013265920,0,0,1]]}]},{\"matrices\":[{\"domain\":{\"shift\":31,\"log_size\":2},\
\"width\":2,\"values\":[2,3,5,7,11,13,17,19],\"points\":[[2013265920,0,0,1],[0,1,0,0]]}]}]}";

/// The column and the two matrices under a commitment each.
pub(crate) const SEVERAL: &str = "{\"parameters\":{\"log_blowup\":2,\"log_final_poly_len\":0,\
\"max_log_arity\":2,\"num_queries\":3,\"batch_proof_of_work_bits\":0,\
\"commit_proof_of_work_bits\":0,\"query_proof_of_work_bits\":0},\"commitments\":[{\"matrices\":[\
{\"domain\":{\"shift\":1,\"log_size\":1},\"width\":1,\"values\":[1,3],\"points\":[[5,0,0,0]]}]},\
{\"matrices\":[{\"domain\":{\"shift\":1,\"log_size\":3},\"width\":2,\
\"values\":[3,1,4,1,5,9,2,6,5,3,5,8,9,7,9,3],\"points\":[[5,0,0,0],[7,1,0,2]]},\
{\"domain\":{\"shift\":3,\"log_size\":1},\"width\":3,\"values\":[2,7,1,8,2,8],\
\"points\":[[7,1,0,2]]}]}]}";

/// What is written of few bits of soundness, of a file named `F`.
pub(crate) fn warning(alloc: Global, bits: usize) -> Result<String, AllocError> {
    format!(in alloc; "fri: F: {bits} conjectured bits of soundness, below 80\n")
}

/// What a command writes for a text, and the status.
#[derive(Drop)]
pub(crate) struct Outcome {
    pub output: Vec<u8>,
    pub fault: Vec<u8>,
    pub status: u8,
}

/// Runs the command over the text, of a file named `F`.
pub(crate) fn written(alloc: Global, command: Command<'_>, text: &str) -> Outcome {
    let mut output = Vec::new(alloc);
    let mut fault = Vec::new(alloc);
    let status = answer(alloc, command, "F", text, &mut output, &mut fault);
    Outcome {
        output,
        fault,
        status,
    }
}

/// What is written, with the status.
#[derive(Clone, Copy)]
pub(crate) struct Lines<'a> {
    pub output: &'a str,
    pub fault: &'a str,
    pub status: u8,
}

/// Whether the command writes this and nothing else for the text, of a file named `F`.
pub(crate) fn writes(alloc: Global, command: Command<'_>, text: &str, lines: Lines<'_>) -> bool {
    let outcome = written(alloc, command, text);
    outcome.status == lines.status
        && outcome.output.as_slice() == lines.output.as_bytes()
        && outcome.fault.as_slice() == lines.fault.as_bytes()
}

/// The text with one part of it replaced, where it has that part.
pub(crate) fn changed(
    alloc: Global,
    text: &str,
    old: &str,
    new: &str,
) -> Result<String, AllocError> {
    text.replacen(alloc, old, new, 1)
}
