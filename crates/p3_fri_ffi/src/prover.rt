//! A prover that keeps what it committed to, behind a handle of the caller's.

ghost use Rattle.std.specs.Prelude.{◌≡◌, ◌≢◌, IfOk, IfSome, IsSome, Some, None, is_some, take};
ghost use Rattle.p3_fri_ffi.specs.declared.any_prover.AnyProver.TheVariants as any;
ghost use Rattle.p3_fri_ffi.specs.Fields.{OverField};
ghost use Rattle.p3_fri_ffi.specs.Provers.{OverProver, Has, Keeps};
ghost use Rattle.p3_fri_ffi.specs.Reply.{IsReply};

use crate::any_prover::AnyProver;
use crate::field::Refusal;
use crate::held::Held;
use crate::kept::Kept;
use crate::parts::Parts;
use crate::reply::{TOO_SHORT, place, refuse, reply};
use fri_flat::{ANSWERED, Failure, Prover};
use p3_baby_bear::BabyBear;
use p3_goldilocks::Goldilocks;
use p3_koala_bear::KoalaBear;
use std::alloc::Global;
use std::mem;

/// What a caller holds: a prover, once it is begun. A handle of zeros has none.
#[repr(C)]
#[derive(Drop)]
pub struct Handle {
    kept: Held,
    is_open: bool,
    pub ghost agrees: { is_open ≡ is_some kept.prover },
}

/// A handle with no prover.
fn closed(alloc: Global) -> Handle
    ensures { result.kept.prover ≡ None }
{
    Handle {
        kept: Held::empty(alloc),
        is_open: false,
    }
}

/// A handle of a prover.
fn opened(prover: Box<AnyProver>) -> Handle
    ensures { result.kept.prover ≡ Some prover.value }
{
    Handle {
        kept: Held::of_parts(Parts::of(prover)),
        is_open: true,
    }
}

/// Takes a handle's prover, if it has one.
fn taken(alloc: Global, handle: &mut Handle) -> Option<Box<AnyProver>>
    ensures none { handle.new.kept.prover ≡ None }
    ensures some { IfSome result (λ b. Some b.value ≡ handle.old.kept.prover) }
    ensures all { IsSome handle.old.kept.prover → IsSome result }
{
    if !handle.is_open {
        return None;
    }
    let Handle { kept, is_open: _ } = mem::replace(handle, closed(alloc));
    Some(kept.into_parts().into_box())
}

/// A prover over the field of this number, of the parameters in these bytes, in a place of its own.
fn boxed(alloc: Global, field: u32, parameters: &[u8]) -> Result<Box<AnyProver>, Refusal>
    ensures { IfOk result (λ b. OverField field
        (Has any.BabyBear (λ p. ⟦<Prover<BabyBear> as Kept>⟧.Begins p parameters.now)
        (Some b.value))
        (Has any.KoalaBear (λ p. ⟦<Prover<KoalaBear> as Kept>⟧.Begins p parameters.now)
        (Some b.value))
        (Has any.Goldilocks (λ p. ⟦<Prover<Goldilocks> as Kept>⟧.Begins p parameters.now)
        (Some b.value))) }
{
    let prover = AnyProver::begin(alloc, field, parameters)?;
    match Box::new(alloc, prover) {
        Ok(prover) => Ok(prover),
        Err(error) => Err(Refusal::Call(Failure::from(error))),
    }
}

/// Gives a handle a prover over the field of this number, of the parameters in these bytes, that
/// has committed to nothing. The answer is empty. What the handle had is freed first.
#[unsafe(no_mangle)]
pub extern "C" fn p3_fri_prover_begin(
    alloc: Global,
    field: u32,
    parameters: &[u8],
    handle: &mut Handle,
    answer: &mut [u8],
    needed: &mut usize,
) -> u8
    ensures reply { IsReply answer.old answer.new needed.new result }
    ensures begun { result ≡ 0 → OverField field
        (Has any.BabyBear (λ p. ⟦<Prover<BabyBear> as Kept>⟧.Begins p parameters.now)
        handle.new.kept.prover)
        (Has any.KoalaBear (λ p. ⟦<Prover<KoalaBear> as Kept>⟧.Begins p parameters.now)
        handle.new.kept.prover)
        (Has any.Goldilocks (λ p. ⟦<Prover<Goldilocks> as Kept>⟧.Begins p parameters.now)
        handle.new.kept.prover) }
    ensures empty { result ≡ 0 → needed.new ≡ 0 }
    ensures closed { result ≢ 0 → handle.new.kept.prover ≡ None }
{
    drop(taken(alloc, handle));
    match boxed(alloc, field, parameters) {
        Ok(prover) => {
            *handle = opened(prover);
            place(&[], ANSWERED, answer, needed)
        },
        Err(refusal) => refuse(alloc, refusal, answer, needed),
    }
}

/// The bytes of a commitment.
const COMMITMENT: usize = 32;

/// Commits to the batch in these bytes, keeps it, and answers the commitment, 32 bytes. What isn't
/// answered isn't kept.
#[unsafe(no_mangle)]
pub extern "C" fn p3_fri_prover_commit(
    alloc: Global,
    handle: &mut Handle,
    batch: &[u8],
    answer: &mut [u8],
    needed: &mut usize,
) -> u8
    ensures reply { IsReply answer.old answer.new needed.new result }
    ensures committed { let out = take needed.new answer.new in
        let before = handle.old.kept.prover in let after = handle.new.kept.prover in
        result ≡ 0 → OverProver before ⊥
        (Keeps any.BabyBear
        (λ old new. ⟦<Prover<BabyBear> as Kept>⟧.Commits old new batch.now out) before after)
        (Keeps any.KoalaBear
        (λ old new. ⟦<Prover<KoalaBear> as Kept>⟧.Commits old new batch.now out) before after)
        (Keeps any.Goldilocks
        (λ old new. ⟦<Prover<Goldilocks> as Kept>⟧.Commits old new batch.now out) before after) }
    ensures numbers { result ≡ 0 → needed.new ≡ 32 }
    ensures unchanged { let before = handle.old.kept.prover in let after = handle.new.kept.prover in
        result ≢ 0 → OverProver before (after ≡ None)
        (Keeps any.BabyBear ⟦<Prover<BabyBear> as Kept>⟧.IsSame before after)
        (Keeps any.KoalaBear ⟦<Prover<KoalaBear> as Kept>⟧.IsSame before after)
        (Keeps any.Goldilocks ⟦<Prover<Goldilocks> as Kept>⟧.IsSame before after) }
{
    if answer.len() < COMMITMENT {
        *needed = COMMITMENT;
        return TOO_SHORT;
    }
    let Some(mut prover) = taken(alloc, handle) else {
        return refuse(alloc, Refusal::NoProver, answer, needed);
    };
    let outcome = prover.commit(alloc, batch);
    *handle = opened(prover);
    match outcome {
        Ok(commitment) => place(&commitment, ANSWERED, answer, needed),
        Err(failure) => refuse(alloc, failure, answer, needed),
    }
}

/// Opens all that a handle's prover keeps, under the context and at the points in these bytes, and
/// answers as `p3_fri_open`. What is kept stays as it was.
#[unsafe(no_mangle)]
pub extern "C" fn p3_fri_prover_open(
    alloc: Global,
    handle: &mut Handle,
    asked: &[u8],
    answer: &mut [u8],
    needed: &mut usize,
) -> u8
    ensures reply { IsReply answer.old answer.new needed.new result }
    ensures answered { let out = take needed.new answer.new in
        let before = handle.old.kept.prover in result ≡ 0 → OverProver before ⊥
        (Has any.BabyBear (λ p. ⟦<Prover<BabyBear> as Kept>⟧.Answers p asked.now out) before)
        (Has any.KoalaBear (λ p. ⟦<Prover<KoalaBear> as Kept>⟧.Answers p asked.now out) before)
        (Has any.Goldilocks (λ p. ⟦<Prover<Goldilocks> as Kept>⟧.Answers p asked.now out)
        before) }
    ensures kept { let before = handle.old.kept.prover in let after = handle.new.kept.prover in
        OverProver before (after ≡ None)
        (Keeps any.BabyBear ⟦<Prover<BabyBear> as Kept>⟧.IsSame before after)
        (Keeps any.KoalaBear ⟦<Prover<KoalaBear> as Kept>⟧.IsSame before after)
        (Keeps any.Goldilocks ⟦<Prover<Goldilocks> as Kept>⟧.IsSame before after) }
{
    let Some(mut prover) = taken(alloc, handle) else {
        return refuse(alloc, Refusal::NoProver, answer, needed);
    };
    let outcome = prover.open(alloc, asked);
    *handle = opened(prover);
    reply(alloc, outcome, answer, needed)
}

/// Frees a handle's prover, if it has one.
#[unsafe(no_mangle)]
pub extern "C" fn p3_fri_prover_close(alloc: Global, handle: &mut Handle)
    ensures { handle.new.kept.prover ≡ None }
{
    drop(taken(alloc, handle));
}
