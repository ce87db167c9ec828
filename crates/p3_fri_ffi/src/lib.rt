//! Both schemes, and a STARK in both, for callers that aren't Rattle: functions over bytes. Nothing
//! is required of what the bytes are, no call halts, and none keeps a pointer of the caller's.
//!
//! Four functions of the plain scheme and three of the one that hides take the flat form, over the
//! field of a number: 0 BabyBear, 1 KoalaBear, 2 Goldilocks. A proof is bound to the whole
//! statement: its context, parameters, commitments, domains, widths and points, and by what it
//! hides. A point that has to be random is drawn after the commitments, by `p3_fri_challenge` from
//! the bytes of what was sent, which are then the context.
//!
//! Four functions more are of a prover of the plain scheme that keeps what it committed to, so that
//! an opening commits to nothing again. It is behind a handle of the caller's.
//!
//! Five functions of a STARK take texts in JSON. A proof is accepted of the system and the public
//! values that the verifier passes.
#![tactic(auto)]

ghost use Rattle.std.specs.Prelude.{◌≡◌, take};
ghost use Rattle.fri_flat.specs.Answers.{AnswersRequest, AnswersStatement, CommitsRequest};
ghost use Rattle.fri_flat.specs.Answers.{drawn_after};
ghost use Rattle.p3_fri_ffi.specs.Fields.{OverField};
ghost use Rattle.p3_fri_ffi.specs.Reply.{IsReply};

mod any_prover;
mod calls;
mod field;
mod held;
mod hiding;
mod kept;
mod parts;
mod prover;
mod reply;
mod stark;

use crate::calls::{Challenge, Commit, Open, Verify};
use crate::reply::reply_over;
use fri_schemes::SchemeParts;
use p3_baby_bear::BabyBear;
use p3_goldilocks::Goldilocks;
use p3_koala_bear::KoalaBear;
use std::alloc::Global;

/// Answers the commitments of a request, 32 bytes each.
#[unsafe(no_mangle)]
pub extern "C" fn p3_fri_commit(
    alloc: Global,
    field: u32,
    request: &[u8],
    answer: &mut [u8],
    needed: &mut usize,
) -> u8
    ensures reply { IsReply answer.old answer.new needed.new result }
    ensures answered { let out = take needed.new answer.new in result ≡ 0 → OverField field
        (CommitsRequest ⟦<BabyBear as SchemeParts>⟧.fields request.now out)
        (CommitsRequest ⟦<KoalaBear as SchemeParts>⟧.fields request.now out)
        (CommitsRequest ⟦<Goldilocks as SchemeParts>⟧.fields request.now out) }
{
    reply_over::<Commit>(alloc, field, request, answer, needed)
}

/// Opens what a request commits to, and answers the next challenge and a statement, to which the
/// proof is bound.
#[unsafe(no_mangle)]
pub extern "C" fn p3_fri_open(
    alloc: Global,
    field: u32,
    request: &[u8],
    answer: &mut [u8],
    needed: &mut usize,
) -> u8
    ensures reply { IsReply answer.old answer.new needed.new result }
    ensures answered { let out = take needed.new answer.new in result ≡ 0 → OverField field
        (AnswersRequest ⟦<BabyBear as SchemeParts>⟧.fields request.now out)
        (AnswersRequest ⟦<KoalaBear as SchemeParts>⟧.fields request.now out)
        (AnswersRequest ⟦<Goldilocks as SchemeParts>⟧.fields request.now out) }
{
    reply_over::<Open>(alloc, field, request, answer, needed)
}

/// Verifies a statement under the context that it names, and answers the next challenge.
#[unsafe(no_mangle)]
pub extern "C" fn p3_fri_verify(
    alloc: Global,
    field: u32,
    statement: &[u8],
    answer: &mut [u8],
    needed: &mut usize,
) -> u8
    ensures reply { IsReply answer.old answer.new needed.new result }
    ensures answered { let out = take needed.new answer.new in result ≡ 0 → OverField field
        (AnswersStatement ⟦<BabyBear as SchemeParts>⟧.fields statement.now out)
        (AnswersStatement ⟦<KoalaBear as SchemeParts>⟧.fields statement.now out)
        (AnswersStatement ⟦<Goldilocks as SchemeParts>⟧.fields statement.now out) }
    ensures numbers { result ≡ 0 → needed.new ≡ 16 }
{
    reply_over::<Verify>(alloc, field, statement, answer, needed)
}

/// Answers the challenge that is drawn after a context, any bytes.
#[unsafe(no_mangle)]
pub extern "C" fn p3_fri_challenge(
    alloc: Global,
    field: u32,
    context: &[u8],
    answer: &mut [u8],
    needed: &mut usize,
) -> u8
    ensures reply { IsReply answer.old answer.new needed.new result }
    ensures answered { let out = take needed.new answer.new in result ≡ 0 → OverField field
        (out ≡ drawn_after ⟦<BabyBear as SchemeParts>⟧.fields context.now)
        (out ≡ drawn_after ⟦<KoalaBear as SchemeParts>⟧.fields context.now)
        (out ≡ drawn_after ⟦<Goldilocks as SchemeParts>⟧.fields context.now) }
    ensures numbers { result ≡ 0 → needed.new ≡ 16 }
{
    reply_over::<Challenge>(alloc, field, context, answer, needed)
}
