//! A STARK over texts.

ghost use Rattle.std.specs.Prelude.{◌≡◌, take, true, false};
ghost use Rattle.p3_challenger_sha256.specs.Sha256.{start};
ghost use Rattle.p3_uni_stark_plain.specs.Proofs.{stark_seen, stark_numbers, stark_listed};
ghost use Rattle.p3_uni_stark_verifier.specs.Setting.{stark_setting};
ghost use Rattle.fri_stark_json.specs.Systems.{IsMadeFor};
ghost use Rattle.fri_stark_json.specs.Verdicts.{IsAccepted};
ghost use Rattle.fri_stark_bytes.specs.Texts.{IsSatisfiedText, IsAcceptedText};
ghost use Rattle.p3_fri_ffi.specs.Reply.{IsReply};

use crate::reply::reply;
use fri_stark_json::{Coset, HidingScheme, MadeScheme, PlainScheme};
use p3_challenger_core::Plays;
use p3_challenger_sha256::Sha256Challenger;
use p3_field::{BabyBear, BabyBear4, Field, PrimeField64};
use p3_fri_plain::{HidingFriProof, Plain, TwoAdicFriProof};
use p3_pcs::Pcs;
use p3_uni_stark_verifier::setting::StarkField;
use std::alloc::Global;

/// Nothing is drawn from it: the plain scheme has no masks.
const NO_SEED: [u8; 32] = [0; 32];

/// Answers no bytes where a trace satisfies a system.
#[unsafe(no_mangle)]
pub extern "C" fn p3_fri_stark_check(
    alloc: Global,
    system: &[u8],
    trace: &[u8],
    answer: &mut [u8],
    needed: &mut usize,
) -> u8
    ensures reply { IsReply answer.old answer.new needed.new result }
    ensures satisfied { result ≡ 0 → IsSatisfiedText ⟦<BabyBear as Field>⟧.ops
        ⟦<BabyBear as PrimeField64>⟧.ORDER_U64 ⟦<BabyBear as PrimeField64>⟧.canonical }
{
    let outcome = fri_stark_bytes::check(alloc, system, trace);
    reply(alloc, outcome, answer, needed)
}

/// Proves in the plain scheme that a trace satisfies a system, and answers the proof's text.
#[unsafe(no_mangle)]
pub extern "C" fn p3_fri_stark_prove(
    alloc: Global,
    system: &[u8],
    trace: &[u8],
    answer: &mut [u8],
    needed: &mut usize,
) -> u8
    ensures reply { IsReply answer.old answer.new needed.new result }
    ensures satisfied { result ≡ 0 → IsSatisfiedText ⟦<BabyBear as Field>⟧.ops
        ⟦<BabyBear as PrimeField64>⟧.ORDER_U64 ⟦<BabyBear as PrimeField64>⟧.canonical }
{
    let outcome = fri_stark_bytes::prove::<PlainScheme>(alloc, system, trace, &NO_SEED);
    reply(alloc, outcome, answer, needed)
}

/// The same in the scheme that hides, with masks drawn from a seed of 32 bytes.
#[unsafe(no_mangle)]
pub extern "C" fn p3_fri_stark_prove_hiding(
    alloc: Global,
    system: &[u8],
    trace: &[u8],
    seed: &[u8],
    answer: &mut [u8],
    needed: &mut usize,
) -> u8
    ensures reply { IsReply answer.old answer.new needed.new result }
    ensures satisfied { result ≡ 0 → IsSatisfiedText ⟦<BabyBear as Field>⟧.ops
        ⟦<BabyBear as PrimeField64>⟧.ORDER_U64 ⟦<BabyBear as PrimeField64>⟧.canonical }
{
    let outcome = fri_stark_bytes::prove::<HidingScheme>(alloc, system, trace, seed);
    reply(alloc, outcome, answer, needed)
}

/// Verifies a proof of the plain scheme, and answers the logarithm of the trace's height.
#[unsafe(no_mangle)]
pub extern "C" fn p3_fri_stark_verify(
    alloc: Global,
    system: &[u8],
    public_values: &[u8],
    proof: &[u8],
    answer: &mut [u8],
    needed: &mut usize,
) -> u8
    ensures reply { IsReply answer.old answer.new needed.new result }
    ensures accepted { result ≡ 0 → IsAcceptedText (λ system n form k. IsAccepted
        ⟦<BabyBear as PrimeField64>⟧.canonical
        (λ s. stark_setting ⟦<BabyBear4 as StarkField<BabyBear>>⟧.fields
        ⟦<Sha256Challenger as Plays<BabyBear, BabyBear4, [u8; 32]>>⟧.moves false
        (⟦<PlainScheme as Pcs<BabyBear4, Sha256Challenger>>⟧.rules s)
        (λ j d. (d.shift ≡ ⟦<BabyBear as Field>⟧.ONE) × (d.log_size ≡ j)))
        (IsMadeFor ⟦<PlainScheme as MadeScheme<BabyBear, BabyBear4, Coset>>⟧.IsMade system)
        (λ proof. stark_numbers ⟦<TwoAdicFriProof as Plain>⟧.numbers
        (stark_seen ⟦<TwoAdicFriProof as Plain>⟧.seen proof)
        ≡ stark_listed ⟦<TwoAdicFriProof as Plain>⟧.listed form) n start k)
        (take needed.new answer.new) }
{
    let outcome = fri_stark_bytes::verify::<PlainScheme>(alloc, system, public_values, proof);
    reply(alloc, outcome, answer, needed)
}

/// Verifies a proof of the scheme that hides, and answers the logarithm of the trace's height.
#[unsafe(no_mangle)]
pub extern "C" fn p3_fri_stark_verify_hiding(
    alloc: Global,
    system: &[u8],
    public_values: &[u8],
    proof: &[u8],
    answer: &mut [u8],
    needed: &mut usize,
) -> u8
    ensures reply { IsReply answer.old answer.new needed.new result }
    ensures accepted { result ≡ 0 → IsAcceptedText (λ system n form k. IsAccepted
        ⟦<BabyBear as PrimeField64>⟧.canonical
        (λ s. stark_setting ⟦<BabyBear4 as StarkField<BabyBear>>⟧.fields
        ⟦<Sha256Challenger as Plays<BabyBear, BabyBear4, [u8; 32]>>⟧.moves true
        (⟦<HidingScheme as Pcs<BabyBear4, Sha256Challenger>>⟧.rules s)
        (λ j d. (d.shift ≡ ⟦<BabyBear as Field>⟧.ONE) × (d.log_size ≡ j)))
        (IsMadeFor ⟦<HidingScheme as MadeScheme<BabyBear, BabyBear4, Coset>>⟧.IsMade system)
        (λ proof. stark_numbers ⟦<HidingFriProof as Plain>⟧.numbers
        (stark_seen ⟦<HidingFriProof as Plain>⟧.seen proof)
        ≡ stark_listed ⟦<HidingFriProof as Plain>⟧.listed form) n start k)
        (take needed.new answer.new) }
{
    let outcome = fri_stark_bytes::verify::<HidingScheme>(alloc, system, public_values, proof);
    reply(alloc, outcome, answer, needed)
}
