//! Proofs, verified of systems.

ghost use Rattle.std.specs.Prelude.{◌≡◌, ◌⊎◌, IfOk, IfErr};
ghost use Rattle.fri_records.specs.Records.{conjectured_bits};
ghost use Rattle.p3_challenger_sha256.specs.Sha256.{start};
ghost use Rattle.p3_uni_stark_plain.specs.Proofs.{stark_seen, stark_numbers, stark_listed};
ghost use Rattle.p3_uni_stark_plain.specs.Proofs.{StarkFormFault};
ghost use Rattle.p3_uni_stark_plain.specs.declared.forms.PlainStarkProof.{
  PlainStarkProof as Form,
};
ghost use Rattle.p3_uni_stark_verifier.specs.Setting.{stark_setting};
ghost use Rattle.fri_stark_json.specs.Systems.{numbers_in, IsMadeFor};
ghost use Rattle.fri_stark_json.specs.Verdicts.{IsAccepted, IsRefused, NotAccepted, IsOfText};

use crate::failure::Failure;
use crate::records::{PublicValues, System, read};
use fri_records::verifier_parameters;
use fri_schemes::{Coset, MadeScheme};
use p3_challenger_core::Plays;
use p3_challenger_sha256::Sha256Challenger;
use p3_dft::Radix2Dit;
use p3_field::{BabyBear, BabyBear4, Field, PrimeField64};
use p3_fri_plain::Plain;
use p3_uni_stark_plain::{PlainStarkProof, stark_from_plain};
use p3_uni_stark_system::verify_system;
use p3_uni_stark_verifier::setting::StarkField;
use serde::Deserialize;
use std::alloc::Global;

/// What was accepted.
#[derive(Clone, Copy, Debug)]
pub struct Accepted {
    /// The base-2 logarithm of the number of the trace's rows.
    pub log_height: usize,
    /// The bits of soundness that the parameters have by a conjecture.
    pub soundness_bits: usize,
}

/// Whether the proof of this form shows that some trace satisfies the system with these public
/// values.
pub fn verify_form<P: MadeScheme<BabyBear, BabyBear4, Coset>>(
    alloc: Global,
    system: &System,
    public_values: &PublicValues,
    form: &PlainStarkProof<<P::Proof as Plain>::Form>,
) -> Result<Accepted, Failure<P::ProverError>>
where
    P::Proof: Plain<Value = P::Proof>,
    ensures accepted { IfOk result (λ accepted. IsAccepted ⟦<BabyBear as PrimeField64>⟧.canonical
        (λ s. stark_setting ⟦<BabyBear4 as StarkField<BabyBear>>⟧.fields
        ⟦<Sha256Challenger as Plays<BabyBear, BabyBear4, [u8; 32]>>⟧.moves P.ZK (P.rules s)
        (λ k d. (d.shift ≡ ⟦<BabyBear as Field>⟧.ONE) × (d.log_size ≡ k)))
        (IsMadeFor P.IsMade system.now)
        (λ proof. stark_numbers P.Proof.numbers (stark_seen P.Proof.seen proof)
        ≡ stark_listed P.Proof.listed form.now)
        (numbers_in system.now public_values.now.public_values.items) start accepted.log_height) }
    ensures bits { IfOk result (λ accepted.
        accepted.soundness_bits ≡ conjectured_bits system.now.parameters) }
    ensures refused { IfErr result (NotAccepted
        (λ e. StarkFormFault P.Proof.has_fault e (stark_listed P.Proof.listed form.now))
        (IsRefused ⟦<BabyBear as PrimeField64>⟧.canonical
        (λ s. stark_setting ⟦<BabyBear4 as StarkField<BabyBear>>⟧.fields
        ⟦<Sha256Challenger as Plays<BabyBear, BabyBear4, [u8; 32]>>⟧.moves P.ZK (P.rules s)
        (λ k d. (d.shift ≡ ⟦<BabyBear as Field>⟧.ONE) × (d.log_size ≡ k)))
        (IsMadeFor P.IsMade system.now)
        (λ proof. stark_numbers P.Proof.numbers (stark_seen P.Proof.seen proof)
        ≡ stark_listed P.Proof.listed form.now)
        (numbers_in system.now public_values.now.public_values.items) start P.stark_rules
        ⟦<BabyBear as PrimeField64>⟧.ORDER_U64 system.now.parameters.log_blowup)
        system.now.parameters) }
{
    let proof = match stark_from_plain::<P::Proof>(alloc, form) {
        Ok(proof) => proof,
        Err(fault) => return Err(Failure::Form(fault)),
    };
    let fri = match verifier_parameters::<BabyBear, BabyBear4>(&system.parameters) {
        Ok(fri) => fri,
        Err(misfit) => return Err(Failure::Parameters(misfit)),
    };
    // a verifier draws nothing
    let mut scheme = P::made(fri, system.num_random_codewords, [0; 32]);
    let mut challenger = Sha256Challenger::new();
    let verified = verify_system::<
        BabyBear,
        BabyBear4,
        [u8; 32],
        Sha256Challenger,
        Radix2Dit<BabyBear>,
        P,
    >(
        &mut scheme,
        alloc,
        &system.plain(),
        public_values.public_values.as_slice(),
        &proof,
        &mut challenger,
    );
    match verified {
        Ok(()) => Ok(Accepted {
            log_height: proof.log_height,
            soundness_bits: system.parameters.conjectured_soundness_bits(),
        }),
        Err(error) => Err(Failure::Verification(error)),
    }
}

/// Verifies a proof in JSON.
pub fn verify<'de, P: MadeScheme<BabyBear, BabyBear4, Coset>>(
    alloc: Global,
    system: &System,
    public_values: &PublicValues,
    proof: &'de str,
) -> Result<Accepted, Failure<P::ProverError>>
where
    P::Proof: Plain<Value = P::Proof>,
    <P::Proof as Plain>::Form: Deserialize<'de>,
    ensures accepted { IfOk result (λ accepted. (form : Form P.Proof.Form)
        × IsAccepted ⟦<BabyBear as PrimeField64>⟧.canonical
        (λ s. stark_setting ⟦<BabyBear4 as StarkField<BabyBear>>⟧.fields
        ⟦<Sha256Challenger as Plays<BabyBear, BabyBear4, [u8; 32]>>⟧.moves P.ZK (P.rules s)
        (λ k d. (d.shift ≡ ⟦<BabyBear as Field>⟧.ONE) × (d.log_size ≡ k)))
        (IsMadeFor P.IsMade system.now)
        (λ proof. stark_numbers P.Proof.numbers (stark_seen P.Proof.seen proof)
        ≡ stark_listed P.Proof.listed form)
        (numbers_in system.now public_values.now.public_values.items) start accepted.log_height) }
    ensures bits { IfOk result (λ accepted.
        accepted.soundness_bits ≡ conjectured_bits system.now.parameters) }
    ensures refused { IfErr result (λ e. IsOfText e ⊎ (form : Form P.Proof.Form) × NotAccepted
        (λ fault. StarkFormFault P.Proof.has_fault fault (stark_listed P.Proof.listed form))
        (IsRefused ⟦<BabyBear as PrimeField64>⟧.canonical
        (λ s. stark_setting ⟦<BabyBear4 as StarkField<BabyBear>>⟧.fields
        ⟦<Sha256Challenger as Plays<BabyBear, BabyBear4, [u8; 32]>>⟧.moves P.ZK (P.rules s)
        (λ k d. (d.shift ≡ ⟦<BabyBear as Field>⟧.ONE) × (d.log_size ≡ k)))
        (IsMadeFor P.IsMade system.now)
        (λ proof. stark_numbers P.Proof.numbers (stark_seen P.Proof.seen proof)
        ≡ stark_listed P.Proof.listed form)
        (numbers_in system.now public_values.now.public_values.items) start P.stark_rules
        ⟦<BabyBear as PrimeField64>⟧.ORDER_U64 system.now.parameters.log_blowup)
        system.now.parameters e) }
{
    let form: Result<PlainStarkProof<<P::Proof as Plain>::Form>, Failure<P::ProverError>> = read(
        alloc, proof,
    );
    match form {
        Ok(form) => verify_form::<P>(alloc, system, public_values, &form),
        Err(failure) => Err(failure),
    }
}
