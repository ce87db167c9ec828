//! The parameters of the low-degree test that records name, and whether a prover or a verifier over
//! a two-adic field takes them.

ghost use Rattle.std.specs.Prelude.{◌≡◌, ◌≤◌, ◌↔◌, IsTrue, IfOk, IfErr};
ghost use Rattle.p3_fri_relation.specs.Views.{parameters_of};
ghost use Rattle.p3_fri_two_adic.specs.Ranges.{InProverRange, InVerifierRange};
ghost use Rattle.fri_records.specs.Records.{parameters_in, AreDifficultiesLow, AreProvers};

use crate::fault::{Fault, Misfit, Place};
use crate::records::Parameters;
use p3_field::{BabyBear4, TwoAdicField};
use p3_fri_folding::FriParameters;
use p3_mmcs::Sha256Mmcs;

/// The tree of folded words, of elements of the extension `EF`.
pub type Rounds<EF = BabyBear4> = Sha256Mmcs<EF>;

/// The greatest difficulty: as many bits as the challenger draws at once.
const GREATEST_DIFFICULTY: usize = 63;

/// Whether the challenger draws as many bits at once as each difficulty.
fn are_difficulties_low(parameters: &Parameters) -> bool
    ensures { IsTrue result ↔ AreDifficultiesLow parameters.now }
{
    parameters.batch_proof_of_work_bits <= GREATEST_DIFFICULTY
        && parameters.commit_proof_of_work_bits <= GREATEST_DIFFICULTY
        && parameters.query_proof_of_work_bits <= GREATEST_DIFFICULTY
}

/// The parameters of the low-degree test, whether or not anybody takes them.
pub fn fri_parameters<EF>(parameters: &Parameters) -> FriParameters<Rounds<EF>>
    ensures { parameters_of result ≡ parameters_in parameters.now }
{
    FriParameters {
        log_blowup: parameters.log_blowup,
        log_final_poly_len: parameters.log_final_poly_len,
        max_log_arity: parameters.max_log_arity,
        num_queries: parameters.num_queries,
        batch_proof_of_work_bits: parameters.batch_proof_of_work_bits,
        commit_proof_of_work_bits: parameters.commit_proof_of_work_bits,
        query_proof_of_work_bits: parameters.query_proof_of_work_bits,
        mmcs: Sha256Mmcs::new(),
    }
}

/// Those of a prover over the field `F`.
///
/// # Errors
///
/// A difficulty above 63 bits, no query, rounds that fold nothing, and a blowup of none or above
/// the field's two-adicity.
pub fn prover_parameters<F: TwoAdicField, EF>(
    parameters: &Parameters,
) -> Result<FriParameters<Rounds<EF>>, Misfit>
    ensures parameters { IfOk result (λ fri. parameters_of fri ≡ parameters_in parameters.now) }
    ensures range { IfOk result (λ fri. InProverRange (parameters_of fri) F.TWO_ADICITY 63) }
    ensures blowup { IfOk result (λ fri. fri.log_blowup ≤ F.TWO_ADICITY) }
    ensures refused { IfErr result (λ _. ¬ AreProvers F.TWO_ADICITY parameters.now) }
{
    if parameters.log_blowup == 0 || parameters.log_blowup > F::TWO_ADICITY {
        return Err(Place::NONE.lacks(Fault::LogBlowup));
    }
    if parameters.max_log_arity == 0 {
        return Err(Place::NONE.lacks(Fault::MaxLogArity));
    }
    if parameters.num_queries == 0 {
        return Err(Place::NONE.lacks(Fault::NumQueries));
    }
    if !are_difficulties_low(parameters) {
        return Err(Place::NONE.lacks(Fault::ProofOfWorkBits));
    }
    Ok(fri_parameters(parameters))
}

/// Those of a verifier over the field `F`.
///
/// # Errors
///
/// A difficulty above 63 bits, and words of `2^64` values or more at the end of folding.
pub fn verifier_parameters<F: TwoAdicField, EF>(
    parameters: &Parameters,
) -> Result<FriParameters<Rounds<EF>>, Misfit>
    ensures parameters { IfOk result (λ fri. parameters_of fri ≡ parameters_in parameters.now) }
    ensures range { IfOk result (λ fri. InVerifierRange (parameters_of fri) F.TWO_ADICITY 63) }
    ensures refused { IfErr result (λ _.
        ¬ InVerifierRange (parameters_in parameters.now) F.TWO_ADICITY 63) }
{
    let final_height = parameters
        .log_blowup
        .checked_add(parameters.log_final_poly_len);
    match final_height {
        Some(height) if height < 64 => {},
        _ => return Err(Place::NONE.lacks(Fault::LogFinalPolyLen)),
    }
    if !are_difficulties_low(parameters) {
        return Err(Place::NONE.lacks(Fault::ProofOfWorkBits));
    }
    Ok(fri_parameters(parameters))
}
