//! The fields by their numbers: the one place where a call goes over one of them.

ghost use Rattle.std.specs.Prelude.{◌≡◌, ◌≤◌, ℕ, List, IfOk, length};
ghost use Rattle.p3_fri_ffi.specs.Fields.{OverField};

use fri_flat::{Failure, SchemeField};
use p3_baby_bear::BabyBear;
use p3_goldilocks::Goldilocks;
use p3_koala_bear::KoalaBear;
use std::alloc::Global;
use std::fmt;

/// A call over bytes, at the field `F`.
pub(crate) trait Call<F: SchemeField> {
    // bytes answer others
    ghost Answers: { List ℕ → List ℕ → Type 0 };

    // answers have so many bytes
    ghost HasLength: { ℕ → Type 0 };

    /// The answer to the bytes.
    fn answer(alloc: Global, bytes: &[u8]) -> Result<Vec<u8>, Failure>
        ensures answered { IfOk result (λ v. Answers bytes.now v.items) }
        ensures length { IfOk result (λ v. HasLength (length v.items)) };
}

/// Why a call over a field has no answer.
#[derive(Debug, Drop)]
pub(crate) enum Refusal {
    /// No field has this number.
    UnknownField { number: u32 },
    /// The handle was not begun, or is closed.
    NoProver,
    /// The call over the field has none.
    Call(Failure),
}

impl From<Failure> for Refusal {
    fn from(failure: Failure) -> Refusal {
        Refusal::Call(failure)
    }
}

impl fmt::Display for Refusal {
    fn fmt<W: fmt::Write>(&self, f: &mut fmt::Formatter<W>) -> fmt::Result {
        match self {
            Refusal::UnknownField { number } => {
                write!(
                    f,
                    "UnknownField {{ number: {number} }}: no field has this number"
                )
            },
            Refusal::NoProver => f.write_str("NoProver: the handle has no prover"),
            Refusal::Call(failure) => write!(f, "{failure}"),
        }
    }
}

/// The answer of a call at the field `F`.
fn answer_at<F: SchemeField, C: Call<F>>(alloc: Global, bytes: &[u8]) -> Result<Vec<u8>, Refusal>
    ensures answered { IfOk result (λ v. C.Answers bytes.now v.items) }
    ensures length { IfOk result (λ v. C.HasLength (length v.items)) }
{
    match C::answer(alloc, bytes) {
        Ok(answer) => Ok(answer),
        Err(failure) => Err(Refusal::Call(failure)),
    }
}

/// The answer of a call over the field of this number: 0 BabyBear, 1 KoalaBear, 2 Goldilocks.
pub(crate) fn answer_over<C: Call<BabyBear> + Call<KoalaBear> + Call<Goldilocks>>(
    alloc: Global,
    field: u32,
    bytes: &[u8],
) -> Result<Vec<u8>, Refusal>
    ensures answered { IfOk result (λ v. OverField field
        (⟦<C as Call<BabyBear>>⟧.Answers bytes.now v.items)
        (⟦<C as Call<KoalaBear>>⟧.Answers bytes.now v.items)
        (⟦<C as Call<Goldilocks>>⟧.Answers bytes.now v.items)) }
    ensures length { IfOk result (λ v. OverField field
        (⟦<C as Call<BabyBear>>⟧.HasLength (length v.items))
        (⟦<C as Call<KoalaBear>>⟧.HasLength (length v.items))
        (⟦<C as Call<Goldilocks>>⟧.HasLength (length v.items))) }
{
    match field {
        0 => answer_at::<BabyBear, C>(alloc, bytes),
        1 => answer_at::<KoalaBear, C>(alloc, bytes),
        2 => answer_at::<Goldilocks, C>(alloc, bytes),
        number => Err(Refusal::UnknownField { number }),
    }
}
