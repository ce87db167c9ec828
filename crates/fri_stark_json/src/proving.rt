//! Proofs, made of traces.

ghost use Rattle.std.specs.Prelude.{◌≡◌, ◌⊎◌, IfOk, IfErr};
ghost use Rattle.algebra.specs.Nested.{lists};
ghost use Rattle.fri_records.specs.Records.{parameters_in};
ghost use Rattle.p3_air_plain.specs.Checked.{IsSatisfiedIn};
ghost use Rattle.p3_challenger_sha256.specs.Sha256.{start};
ghost use Rattle.p3_fri_two_adic.specs.Ranges.{InVerifierRange};
ghost use Rattle.p3_uni_stark_plain.specs.Proofs.{stark_seen, stark_numbers, stark_listed};
ghost use Rattle.p3_uni_stark_plain.specs.declared.forms.PlainStarkProof.{
  PlainStarkProof as Form,
};
ghost use Rattle.p3_uni_stark_system.specs.Proved.{IsUnproved, ProvingFault};
ghost use Rattle.p3_uni_stark_system.specs.Systems.{with_trace};
ghost use Rattle.p3_uni_stark_verifier.specs.Setting.{stark_setting};
ghost use Rattle.fri_stark_json.specs.Systems.{numbers_in, IsMadeWith};
ghost use Rattle.fri_stark_json.specs.Verdicts.{IsAccepted, NoProof, IsOfText};

use crate::failure::Failure;
use crate::records::{System, Trace};
use fri_records::{prover_parameters, verifier_parameters};
use fri_schemes::{Coset, MadeScheme};
use p3_challenger_core::Plays;
use p3_challenger_sha256::Sha256Challenger;
use p3_field::{BabyBear, BabyBear4, ExtensionField, Field, PrimeField64, TwoAdicField};
use p3_fri_plain::Plain;
use p3_uni_stark_plain::{PlainStarkProof, stark_to_plain};
use p3_uni_stark_system::prove_system;
use p3_uni_stark_verifier::setting::StarkField;
use serde::Serialize;
use std::alloc::Global;

/// The plain form of a proof that the trace satisfies the system. The masks of a scheme that hides
/// are drawn from the seed.
pub fn prove_form<P: MadeScheme<BabyBear, BabyBear4, Coset>>(
    alloc: Global,
    system: &System,
    trace: &Trace,
    seed: [u8; 32],
) -> Result<PlainStarkProof<<P::Proof as Plain>::Form>, Failure<P::ProverError>>
where
    P::Proof: Plain<Value = P::Proof>,
    ensures accepted { IfOk result (λ form. IsAccepted ⟦<BabyBear as PrimeField64>⟧.canonical
        (λ s. stark_setting ⟦<BabyBear4 as StarkField<BabyBear>>⟧.fields
        ⟦<Sha256Challenger as Plays<BabyBear, BabyBear4, [u8; 32]>>⟧.moves P.ZK (P.rules s)
        (λ k d. (d.shift ≡ ⟦<BabyBear as Field>⟧.ONE) × (d.log_size ≡ k)))
        (IsMadeWith P.IsMade system.now seed)
        (λ proof. stark_numbers P.Proof.numbers (stark_seen P.Proof.seen proof)
        ≡ stark_listed P.Proof.listed form)
        (numbers_in system.now trace.now.public_values.items) start form.log_height) }
    ensures satisfied { IfOk result (λ _. IsSatisfiedIn ⟦<BabyBear as Field>⟧.ops
        ⟦<BabyBear as PrimeField64>⟧.ORDER_U64 ⟦<BabyBear as PrimeField64>⟧.canonical system.now.air
        (with_trace (numbers_in system.now trace.now.public_values.items)
        (lists trace.now.trace.items))) }
    ensures verifiable { IfOk result (λ _.
        InVerifierRange (parameters_in system.now.parameters) 27 63) }
    ensures refused { IfErr result (NoProof
        (IsMadeWith P.IsMade system.now seed) (λ made after.
        ProvingFault (P.stark_rules made) P.ZK
        (λ k d. (d.shift ≡ ⟦<BabyBear as Field>⟧.ONE) × (d.log_size ≡ k))
        ⟦<BabyBear as Field>⟧.ops ⟦<BabyBear as TwoAdicField>⟧.TWO_ADICITY
        system.now.parameters.log_blowup ⟦<BabyBear as PrimeField64>⟧.ORDER_U64
        ⟦<BabyBear as PrimeField64>⟧.canonical
        (IsUnproved ⟦<BabyBear4 as StarkField<BabyBear>>⟧.fields
        ⟦<BabyBear4 as ExtensionField<BabyBear>>⟧.coefficients
        ⟦<Sha256Challenger as Plays<BabyBear, BabyBear4, [u8; 32]>>⟧.moves (λ d. d.shift)
        (λ d. d.log_size) P.ZK (λ k d. (d.shift ≡ ⟦<BabyBear as Field>⟧.ONE) × (d.log_size ≡ k))
        P.rules P.stark_rules P.embed P.point P.recombined P.chunk_polynomials
        P.EvaluationRefuses (λ s. P.Keeps made s) after start) system.now.air
        (with_trace (numbers_in system.now trace.now.public_values.items)
        (lists trace.now.trace.items))) system.now.parameters) }
{
    // what no verifier takes isn't proved
    if let Err(misfit) = verifier_parameters::<BabyBear, BabyBear4>(&system.parameters) {
        return Err(Failure::Parameters(misfit));
    }
    let fri = match prover_parameters::<BabyBear, BabyBear4>(&system.parameters) {
        Ok(fri) => fri,
        Err(misfit) => return Err(Failure::Parameters(misfit)),
    };
    let mut scheme = P::made(fri, system.num_random_codewords, seed);
    let mut challenger = Sha256Challenger::new();
    let proved = prove_system::<BabyBear, BabyBear4, [u8; 32], Sha256Challenger, P>(
        &mut scheme,
        alloc,
        &system.plain(),
        trace.public_values.as_slice(),
        trace.trace.as_slice(),
        &mut challenger,
    );
    let proof = match proved {
        Ok(proof) => proof,
        Err(error) => return Err(Failure::Proving(error)),
    };
    match stark_to_plain(alloc, &proof) {
        Ok(form) => Ok(form),
        Err(_) => Err(Failure::OutOfMemory),
    }
}

/// A proof that the trace satisfies the system, in JSON.
pub fn prove<P: MadeScheme<BabyBear, BabyBear4, Coset>>(
    alloc: Global,
    system: &System,
    trace: &Trace,
    seed: [u8; 32],
) -> Result<String, Failure<P::ProverError>>
where
    P::Proof: Plain<Value = P::Proof>,
    <P::Proof as Plain>::Form: Serialize,
    ensures accepted { IfOk result (λ _. (form : Form P.Proof.Form)
        × IsAccepted ⟦<BabyBear as PrimeField64>⟧.canonical
        (λ s. stark_setting ⟦<BabyBear4 as StarkField<BabyBear>>⟧.fields
        ⟦<Sha256Challenger as Plays<BabyBear, BabyBear4, [u8; 32]>>⟧.moves P.ZK (P.rules s)
        (λ k d. (d.shift ≡ ⟦<BabyBear as Field>⟧.ONE) × (d.log_size ≡ k)))
        (IsMadeWith P.IsMade system.now seed)
        (λ proof. stark_numbers P.Proof.numbers (stark_seen P.Proof.seen proof)
        ≡ stark_listed P.Proof.listed form)
        (numbers_in system.now trace.now.public_values.items) start form.log_height) }
    ensures satisfied { IfOk result (λ _. IsSatisfiedIn ⟦<BabyBear as Field>⟧.ops
        ⟦<BabyBear as PrimeField64>⟧.ORDER_U64 ⟦<BabyBear as PrimeField64>⟧.canonical system.now.air
        (with_trace (numbers_in system.now trace.now.public_values.items)
        (lists trace.now.trace.items))) }
    ensures verifiable { IfOk result (λ _.
        InVerifierRange (parameters_in system.now.parameters) 27 63) }
    ensures refused { IfErr result (λ e. IsOfText e ⊎ NoProof
        (IsMadeWith P.IsMade system.now seed) (λ made after.
        ProvingFault (P.stark_rules made) P.ZK
        (λ k d. (d.shift ≡ ⟦<BabyBear as Field>⟧.ONE) × (d.log_size ≡ k))
        ⟦<BabyBear as Field>⟧.ops ⟦<BabyBear as TwoAdicField>⟧.TWO_ADICITY
        system.now.parameters.log_blowup ⟦<BabyBear as PrimeField64>⟧.ORDER_U64
        ⟦<BabyBear as PrimeField64>⟧.canonical
        (IsUnproved ⟦<BabyBear4 as StarkField<BabyBear>>⟧.fields
        ⟦<BabyBear4 as ExtensionField<BabyBear>>⟧.coefficients
        ⟦<Sha256Challenger as Plays<BabyBear, BabyBear4, [u8; 32]>>⟧.moves (λ d. d.shift)
        (λ d. d.log_size) P.ZK (λ k d. (d.shift ≡ ⟦<BabyBear as Field>⟧.ONE) × (d.log_size ≡ k))
        P.rules P.stark_rules P.embed P.point P.recombined P.chunk_polynomials
        P.EvaluationRefuses (λ s. P.Keeps made s) after start) system.now.air
        (with_trace (numbers_in system.now trace.now.public_values.items)
        (lists trace.now.trace.items))) system.now.parameters e) }
{
    let form = match prove_form::<P>(alloc, system, trace, seed) {
        Ok(form) => form,
        Err(failure) => return Err(failure),
    };
    match serde_json::to_string(alloc, &form) {
        Ok(text) => Ok(text),
        Err(error) => Err(Failure::Json(error)),
    }
}
