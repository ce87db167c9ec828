//! The scheme that hides, in the flat form, over the field of a number. The seed of a request is
//! secret, from a good source, and fresh for each opening.

ghost use Rattle.std.specs.Prelude.{◌≡◌, take};
ghost use Rattle.fri_flat.specs.Flat.{element_size};
ghost use Rattle.fri_flat.specs.Layouts.{layout_of};
ghost use Rattle.p3_fri_ffi.specs.Fields.{OverField};
ghost use Rattle.p3_fri_ffi.specs.Reply.{IsReply};

use crate::field::Call;
use crate::reply::reply_over;
use fri_flat::hiding::{self, HidingParts};
use fri_flat::{Failure, SchemeField};
use fri_schemes::SchemeParts;
use p3_baby_bear::BabyBear;
use p3_goldilocks::Goldilocks;
use p3_koala_bear::KoalaBear;
use std::alloc::Global;

/// The commitments of a hiding request.
struct Commit;

impl<F: SchemeField> Call<F> for Commit {
    ghost Answers = { ⟦<F as HidingParts>⟧.Commits };

    ghost HasLength = { λ _. Unit {0} };

    fn answer(alloc: Global, bytes: &[u8]) -> Result<Vec<u8>, Failure> {
        hiding::commit::<F>(alloc, bytes)
    }
}

/// The next challenge and the hiding statement that answer a hiding request.
struct Open;

impl<F: SchemeField> Call<F> for Open {
    ghost Answers = { ⟦<F as HidingParts>⟧.Opens };

    ghost HasLength = { λ _. Unit {0} };

    fn answer(alloc: Global, bytes: &[u8]) -> Result<Vec<u8>, Failure> {
        hiding::open::<F>(alloc, bytes)
    }
}

/// What is drawn after a hiding statement that is accepted.
struct Verify;

impl<F: SchemeField> Call<F> for Verify {
    ghost Answers = { ⟦<F as HidingParts>⟧.Verifies };

    ghost HasLength = { λ n. n ≡ element_size (layout_of ⟦<F as SchemeParts>⟧.fields) };

    fn answer(alloc: Global, bytes: &[u8]) -> Result<Vec<u8>, Failure> {
        hiding::verify::<F>(alloc, bytes)
    }
}

/// Answers the commitments of a hiding request, 32 bytes each.
#[unsafe(no_mangle)]
pub extern "C" fn p3_fri_hiding_commit(
    alloc: Global,
    field: u32,
    request: &[u8],
    answer: &mut [u8],
    needed: &mut usize,
) -> u8
    ensures reply { IsReply answer.old answer.new needed.new result }
    ensures answered { let out = take needed.new answer.new in result ≡ 0 → OverField field
        (⟦<BabyBear as HidingParts>⟧.Commits request.now out)
        (⟦<KoalaBear as HidingParts>⟧.Commits request.now out)
        (⟦<Goldilocks as HidingParts>⟧.Commits request.now out) }
{
    reply_over::<Commit>(alloc, field, request, answer, needed)
}

/// Opens what a hiding request commits to, and answers the next challenge and a hiding statement,
/// to which the proof is bound.
#[unsafe(no_mangle)]
pub extern "C" fn p3_fri_hiding_open(
    alloc: Global,
    field: u32,
    request: &[u8],
    answer: &mut [u8],
    needed: &mut usize,
) -> u8
    ensures reply { IsReply answer.old answer.new needed.new result }
    ensures answered { let out = take needed.new answer.new in result ≡ 0 → OverField field
        (⟦<BabyBear as HidingParts>⟧.Opens request.now out)
        (⟦<KoalaBear as HidingParts>⟧.Opens request.now out)
        (⟦<Goldilocks as HidingParts>⟧.Opens request.now out) }
{
    reply_over::<Open>(alloc, field, request, answer, needed)
}

/// Verifies a hiding statement under the context that it names, and answers the next challenge.
#[unsafe(no_mangle)]
pub extern "C" fn p3_fri_hiding_verify(
    alloc: Global,
    field: u32,
    statement: &[u8],
    answer: &mut [u8],
    needed: &mut usize,
) -> u8
    ensures reply { IsReply answer.old answer.new needed.new result }
    ensures answered { let out = take needed.new answer.new in result ≡ 0 → OverField field
        (⟦<BabyBear as HidingParts>⟧.Verifies statement.now out)
        (⟦<KoalaBear as HidingParts>⟧.Verifies statement.now out)
        (⟦<Goldilocks as HidingParts>⟧.Verifies statement.now out) }
    ensures numbers { result ≡ 0 → needed.new ≡ 16 }
{
    reply_over::<Verify>(alloc, field, statement, answer, needed)
}
