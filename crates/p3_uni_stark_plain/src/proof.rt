//! A STARK's proof, and its plain form.

ghost use Rattle.std.specs.Prelude.{◌≡◌, ◌≢◌, IfOk, IfErr};
ghost use Rattle.p3_fri_plain.specs.declared.error.PlainProofError.TheVariants.{OutOfMemory};
ghost use Rattle.p3_uni_stark_plain.specs.Proofs.{stark_seen, stark_numbers, stark_listed};
ghost use Rattle.p3_uni_stark_plain.specs.Proofs.{StarkFormFault};

use crate::forms::PlainStarkProof;
use crate::parts::{commitments_of, opened_of, plain_commitments, plain_opened};
use p3_baby_bear::BabyBear4;
use p3_fri_plain::{Plain, PlainProofError};
use p3_uni_stark_verifier::Proof;
use std::alloc::{AllocError, Global};

/// A STARK's proof over BabyBear, its extension of degree 4 and the tree over SHA-256, whose
/// opening's proof is `Opening`.
pub type StarkProof<Opening> = Proof<BabyBear4, [u8; 32], Opening>;

/// The proof that has this plain form. A form that isn't any proof's is refused by a fault that it
/// shows. The lengths of lists are for the verifier to test.
pub fn stark_from_plain<Opening: Plain<Value = Opening>>(
    alloc: Global,
    form: &PlainStarkProof<Opening::Form>,
) -> Result<StarkProof<Opening>, PlainProofError>
    ensures ok { IfOk result (λ proof. stark_numbers Opening.numbers
        (stark_seen Opening.seen proof) ≡ stark_listed Opening.listed form.now) }
    ensures err { IfErr result (λ error. error ≢ OutOfMemory → StarkFormFault Opening.has_fault
        error (stark_listed Opening.listed form.now)) }
{
    let commitments = match commitments_of(alloc, &form.commitments) {
        Ok(commitments) => commitments,
        Err(fault) => return Err(fault),
    };
    let opened_values = match opened_of(alloc, &form.opened_values) {
        Ok(opened) => opened,
        Err(fault) => return Err(fault),
    };
    let opening_proof = match Opening::from_plain(alloc, &form.opening_proof) {
        Ok(opening) => opening,
        Err(fault) => return Err(fault),
    };
    Ok(Proof {
        commitments,
        opened_values,
        opening_proof,
        log_height: form.log_height,
    })
}

/// The plain form of a proof.
pub fn stark_to_plain<Opening: Plain<Value = Opening>>(
    alloc: Global,
    proof: &StarkProof<Opening>,
) -> Result<PlainStarkProof<Opening::Form>, AllocError>
    ensures { IfOk result (λ form. stark_listed Opening.listed form
        ≡ stark_numbers Opening.numbers (stark_seen Opening.seen proof.now)) }
{
    Ok(PlainStarkProof {
        commitments: plain_commitments(alloc, &proof.commitments)?,
        opened_values: plain_opened(alloc, &proof.opened_values)?,
        opening_proof: Opening::to_plain(alloc, &proof.opening_proof)?,
        log_height: proof.log_height,
    })
}
