//! The calls over texts.

ghost use Rattle.std.specs.Prelude.{◌≡◌, IfOk};
ghost use Rattle.std.specs.Int.{w64, to_le_bytes};
ghost use Rattle.p3_challenger_sha256.specs.Sha256.{start};
ghost use Rattle.p3_uni_stark_plain.specs.Proofs.{stark_seen, stark_numbers, stark_listed};
ghost use Rattle.p3_uni_stark_verifier.specs.Setting.{stark_setting};
ghost use Rattle.fri_stark_json.specs.Systems.{IsMadeFor};
ghost use Rattle.fri_stark_json.specs.Verdicts.{IsAccepted};
ghost use Rattle.fri_stark_bytes.specs.Texts.{IsSatisfiedText, IsAcceptedText};

use crate::failure::{Failure, read};
use fri_stark_json::{
    Coset, MadeScheme, PublicValues, Refusal, System, Trace, seed_of, verify_form,
};
use p3_challenger_core::Plays;
use p3_challenger_sha256::Sha256Challenger;
use p3_field::{BabyBear, BabyBear4, Field, PrimeField64};
use p3_fri_folding::FriProverError;
use p3_fri_plain::Plain;
use p3_uni_stark_plain::PlainStarkProof;
use p3_uni_stark_verifier::setting::StarkField;
use serde::{Deserialize, Serialize};
use std::alloc::Global;

/// Answers no bytes where the trace satisfies the system.
pub fn check(alloc: Global, system: &[u8], trace: &[u8]) -> Result<Vec<u8>, Failure>
    ensures { IfOk result (λ _. IsSatisfiedText ⟦<BabyBear as Field>⟧.ops
        ⟦<BabyBear as PrimeField64>⟧.ORDER_U64 ⟦<BabyBear as PrimeField64>⟧.canonical) }
{
    let system: System = read(alloc, "system", system)?;
    let trace: Trace = read(alloc, "trace", trace)?;
    match fri_stark_json::check(alloc, &system, &trace) {
        Ok(()) => Ok(Vec::new(alloc)),
        Err(error) => {
            let failure: fri_stark_json::Failure<FriProverError> = fri_stark_json::Failure::Trace(
                error,
            );
            Err(Failure::of_records(alloc, &failure))
        },
    }
}

/// Answers the text of a proof that the trace satisfies the system. The masks of a scheme that
/// hides are drawn from the 32 bytes of the seed.
pub fn prove<P: MadeScheme<BabyBear, BabyBear4, Coset>>(
    alloc: Global,
    system: &[u8],
    trace: &[u8],
    seed: &[u8],
) -> Result<Vec<u8>, Failure>
where
    P::ProverError: Refusal,
    P::Proof: Plain<Value = P::Proof>,
    <P::Proof as Plain>::Form: Serialize,
    ensures { IfOk result (λ _. IsSatisfiedText ⟦<BabyBear as Field>⟧.ops
        ⟦<BabyBear as PrimeField64>⟧.ORDER_U64 ⟦<BabyBear as PrimeField64>⟧.canonical) }
{
    let system: System = read(alloc, "system", system)?;
    let trace: Trace = read(alloc, "trace", trace)?;
    let seed = match seed_of::<P::ProverError>(seed) {
        Ok(seed) => seed,
        Err(failure) => return Err(Failure::of_records(alloc, &failure)),
    };
    match fri_stark_json::prove::<P>(alloc, &system, &trace, seed) {
        Ok(text) => Ok(text.into_bytes()),
        Err(failure) => Err(Failure::of_records(alloc, &failure)),
    }
}

/// The number in eight bytes, the lowest first.
fn number_bytes(alloc: Global, number: usize) -> Result<Vec<u8>, Failure>
    ensures { IfOk result (λ bytes. bytes.items ≡ to_le_bytes w64 number) }
{
    let mut bytes = Vec::new(alloc);
    bytes.extend_from_slice(&(number as u64).to_le_bytes())?;
    Ok(bytes)
}

/// Answers the logarithm of the height of a trace that satisfies the system with the public values,
/// in eight bytes, the lowest first, where the proof shows that there is one.
pub fn verify<'de, P: MadeScheme<BabyBear, BabyBear4, Coset>>(
    alloc: Global,
    system: &[u8],
    public_values: &[u8],
    proof: &'de [u8],
) -> Result<Vec<u8>, Failure>
where
    P::ProverError: Refusal,
    P::Proof: Plain<Value = P::Proof>,
    <P::Proof as Plain>::Form: Deserialize<'de>,
    ensures { IfOk result (λ answer. IsAcceptedText (λ system n form k. IsAccepted
        ⟦<BabyBear as PrimeField64>⟧.canonical
        (λ s. stark_setting ⟦<BabyBear4 as StarkField<BabyBear>>⟧.fields
        ⟦<Sha256Challenger as Plays<BabyBear, BabyBear4, [u8; 32]>>⟧.moves P.ZK (P.rules s)
        (λ j d. (d.shift ≡ ⟦<BabyBear as Field>⟧.ONE) × (d.log_size ≡ j)))
        (IsMadeFor P.IsMade system)
        (λ proof. stark_numbers P.Proof.numbers (stark_seen P.Proof.seen proof)
        ≡ stark_listed P.Proof.listed form) n start k) answer.items) }
{
    let system: System = read(alloc, "system", system)?;
    let public_values: PublicValues = read(alloc, "public_values", public_values)?;
    let form: PlainStarkProof<<P::Proof as Plain>::Form> = read(alloc, "proof", proof)?;
    let accepted = match verify_form::<P>(alloc, &system, &public_values, &form) {
        Ok(accepted) => accepted,
        Err(failure) => return Err(Failure::of_records(alloc, &failure)),
    };
    number_bytes(alloc, accepted.log_height)
}
