//! Replies in a caller's buffer.

ghost use Rattle.std.specs.Prelude.{◌≡◌, ◌≢◌, ◌<◌, ◌≤◌, ◌++◌, length, take, drop};
ghost use Rattle.std.specs.Prelude.{IfOk, OnErr};
ghost use Rattle.p3_fri_ffi.specs.Fields.{OverField};
ghost use Rattle.p3_fri_ffi.specs.Reply.{IsReply};

use crate::field::{Call, Refusal, answer_over};
use fri_flat::{ANSWERED, MALFORMED, OUT_OF_MEMORY};
use p3_baby_bear::BabyBear;
use p3_goldilocks::Goldilocks;
use p3_koala_bear::KoalaBear;
use std::alloc::Global;
use std::fmt::Display;

/// The status of a buffer that is too short.
pub const TOO_SHORT: u8 = 4;

/// Why there is no answer, with a text.
pub(crate) trait Reason: Display + Drop {
    /// Its status.
    fn status(&self) -> u8
        ensures { 1 ≤ result × result ≤ 3 };
}

impl Reason for Refusal {
    fn status(&self) -> u8 {
        match self {
            Refusal::UnknownField { number: _ } => MALFORMED,
            Refusal::NoProver => MALFORMED,
            Refusal::Call(failure) => failure.status(),
        }
    }
}

impl Reason for fri_flat::Failure {
    fn status(&self) -> u8 {
        fri_flat::Failure::status(self)
    }
}

impl Reason for fri_stark_bytes::Failure {
    fn status(&self) -> u8 {
        fri_stark_bytes::Failure::status(self)
    }
}

/// Writes bytes to the front of a buffer that has room for them, and answers the status.
fn fill(bytes: &[u8], status: u8, buffer: &mut [u8], needed: &mut usize) -> u8
    ensures needed { needed.new ≡ length bytes.now }
    ensures status { length bytes.now ≤ length buffer.old → result ≡ status }
    ensures bytes { length bytes.now ≤ length buffer.old
        → buffer.new ≡ bytes.now ++ drop (length bytes.now) buffer.old }
    ensures short { length buffer.old < length bytes.now → result ≡ 4 }
    ensures kept { length buffer.old < length bytes.now → buffer.new ≡ buffer.old }
{
    *needed = bytes.len();
    if buffer.len() < bytes.len() {
        return TOO_SHORT;
    }
    let (front, _) = buffer.split_at_mut(bytes.len());
    front.copy_from_slice(bytes);
    status
}

/// Writes bytes to the front of a buffer that has room for them, with a status below 4.
pub(crate) fn place(bytes: &[u8], status: u8, buffer: &mut [u8], needed: &mut usize) -> u8
    requires { status < 4 }
    ensures reply { IsReply buffer.old buffer.new needed.new result }
    ensures status { result ≢ 4 → result ≡ status }
    ensures bytes { result ≢ 4 → take needed.new buffer.new ≡ bytes.now }
    ensures length { needed.new ≡ length bytes.now }
{
    fill(bytes, status, buffer, needed)
}

/// Writes why there is no answer, and gives the status.
pub(crate) fn refuse<R: Reason>(
    alloc: Global,
    reason: R,
    buffer: &mut [u8],
    needed: &mut usize,
) -> u8
    ensures reply { IsReply buffer.old buffer.new needed.new result }
    ensures status { result ≢ 0 }
{
    let status = reason.status();
    *needed = 0;
    if status == OUT_OF_MEMORY {
        return OUT_OF_MEMORY;
    }
    match format!(in alloc; "{reason}") {
        Ok(text) => place(text.as_bytes(), status, buffer, needed),
        Err(_) => OUT_OF_MEMORY,
    }
}

/// Writes an answer, or the text of what is refused, to the front of a buffer, and gives the
/// status.
pub(crate) fn reply<R: Reason>(
    alloc: Global,
    outcome: Result<Vec<u8>, R>,
    buffer: &mut [u8],
    needed: &mut usize,
) -> u8
    ensures reply { IsReply buffer.old buffer.new needed.new result }
    ensures answered { IfOk outcome (λ v. result ≡ 0 → take needed.new buffer.new ≡ v.items) }
    ensures length { IfOk outcome (λ v. result ≡ 0 → needed.new ≡ length v.items) }
    ensures refused { OnErr outcome (result ≢ 0) }
{
    match outcome {
        Ok(bytes) => place(&bytes, ANSWERED, buffer, needed),
        Err(reason) => refuse(alloc, reason, buffer, needed),
    }
}

/// Writes the answer of a call over the field of this number, or the text of what is refused, and
/// gives the status.
pub(crate) fn reply_over<C: Call<BabyBear> + Call<KoalaBear> + Call<Goldilocks>>(
    alloc: Global,
    field: u32,
    bytes: &[u8],
    buffer: &mut [u8],
    needed: &mut usize,
) -> u8
    ensures reply { IsReply buffer.old buffer.new needed.new result }
    ensures answered { let out = take needed.new buffer.new in result ≡ 0 → OverField field
        (⟦<C as Call<BabyBear>>⟧.Answers bytes.now out)
        (⟦<C as Call<KoalaBear>>⟧.Answers bytes.now out)
        (⟦<C as Call<Goldilocks>>⟧.Answers bytes.now out) }
    ensures length { result ≡ 0 → OverField field
        (⟦<C as Call<BabyBear>>⟧.HasLength needed.new)
        (⟦<C as Call<KoalaBear>>⟧.HasLength needed.new)
        (⟦<C as Call<Goldilocks>>⟧.HasLength needed.new) }
{
    let outcome = answer_over::<C>(alloc, field, bytes);
    reply(alloc, outcome, buffer, needed)
}
