//! The parameters of the schemes, as numbers in JSON.

ghost use Rattle.std.specs.Prelude.{IfOk, IsTrue};
ghost use Rattle.p3_fri_relation.specs.Views.{parameters_of};
ghost use Rattle.p3_fri_two_adic.specs.Ranges.{InVerifierRange};

use crate::places::number;
use anyhow::{Result, ensure};
use p3_field::BabyBear4;
use p3_fri_folding::FriParameters;
use p3_mmcs::Sha256Mmcs;
use serde_json::Value;

/// The tree of folded words.
pub type Rounds = Sha256Mmcs<BabyBear4>;

/// Where the parameters stand, in their order.
static PARAMETERS: [&str; 7] = [
    "/log_blowup",
    "/log_final_poly_len",
    "/max_log_arity",
    "/num_queries",
    "/batch_proof_of_work_bits",
    "/commit_proof_of_work_bits",
    "/query_proof_of_work_bits",
];

/// Whether a verifier may be asked about the parameters.
fn is_in_range(parameters: &FriParameters<Rounds>) -> bool
    ensures { IsTrue result → InVerifierRange (parameters_of parameters.now) 27 63 }
{
    parameters.log_blowup < 32
        && parameters.log_final_poly_len < 32
        && parameters.batch_proof_of_work_bits < 64
        && parameters.commit_proof_of_work_bits < 64
        && parameters.query_proof_of_work_bits < 64
}

/// The parameters of these numbers, in their order.
fn parameters_of_numbers(numbers: [usize; 7]) -> FriParameters<Rounds> {
    let [
        log_blowup,
        log_final_poly_len,
        max_log_arity,
        num_queries,
        batch,
        commit,
        query,
    ] = numbers;
    FriParameters {
        log_blowup,
        log_final_poly_len,
        max_log_arity,
        num_queries,
        batch_proof_of_work_bits: batch,
        commit_proof_of_work_bits: commit,
        query_proof_of_work_bits: query,
        mmcs: Rounds::new(),
    }
}

/// The parameters, where a verifier may be asked about them.
pub fn read_parameters(parameters: &Value) -> Result<FriParameters<Rounds>>
    ensures { IfOk result (λ p. InVerifierRange (parameters_of p) 27 63) }
{
    let mut numbers = [0; 7];
    for (entry, path) in numbers.iter_mut().zip(&PARAMETERS) {
        *entry = number(parameters, *path)?;
    }
    let parameters = parameters_of_numbers(numbers);
    ensure!(is_in_range(&parameters), "parameters out of range");
    Ok(parameters)
}
