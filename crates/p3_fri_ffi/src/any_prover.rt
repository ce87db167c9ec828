//! Provers over the fields by their numbers.

ghost use Rattle.std.specs.Prelude.{IfOk, IfErr, Some};
ghost use Rattle.p3_fri_ffi.specs.Fields.{OverField};

use crate::field::Refusal;
use crate::kept::Kept;
use fri_flat::{Failure, Prover};
use p3_baby_bear::BabyBear;
use p3_goldilocks::Goldilocks;
use p3_koala_bear::KoalaBear;
use std::alloc::Global;

/// A prover over one of the fields.
#[derive(Drop)]
pub enum AnyProver {
    BabyBear(Prover<BabyBear>),
    KoalaBear(Prover<KoalaBear>),
    Goldilocks(Prover<Goldilocks>),
}

impl AnyProver {
    ghost use Rattle.p3_fri_ffi.specs.declared.any_prover.AnyProver.TheVariants as any;
    ghost use Rattle.p3_fri_ffi.specs.Provers.{OverProver, Has, Keeps};

    /// A prover over the field of this number, of the parameters in these bytes, that has committed
    /// to nothing.
    pub(crate) fn begin(alloc: Global, field: u32, parameters: &[u8]) -> Result<AnyProver, Refusal>
        ensures { IfOk result (λ made. OverField field
            (Has any.BabyBear (λ p. ⟦<Prover<BabyBear> as Kept>⟧.Begins p parameters.now)
            (Some made))
            (Has any.KoalaBear (λ p. ⟦<Prover<KoalaBear> as Kept>⟧.Begins p parameters.now)
            (Some made))
            (Has any.Goldilocks (λ p. ⟦<Prover<Goldilocks> as Kept>⟧.Begins p parameters.now)
            (Some made))) }
    {
        match field {
            0 => Ok(AnyProver::BabyBear(Prover::begin(alloc, parameters)?)),
            1 => Ok(AnyProver::KoalaBear(Prover::begin(alloc, parameters)?)),
            2 => Ok(AnyProver::Goldilocks(Prover::begin(alloc, parameters)?)),
            number => Err(Refusal::UnknownField { number }),
        }
    }

    /// Commits to the batch in these bytes, and keeps it.
    pub(crate) fn commit(&mut self, alloc: Global, batch: &[u8]) -> Result<[u8; 32], Failure>
        ensures committed { IfOk result (λ out. OverProver (Some self.old) ⊥
            (Keeps any.BabyBear
            (λ old new. ⟦<Prover<BabyBear> as Kept>⟧.Commits old new batch.now out)
            (Some self.old) (Some self.new))
            (Keeps any.KoalaBear
            (λ old new. ⟦<Prover<KoalaBear> as Kept>⟧.Commits old new batch.now out)
            (Some self.old) (Some self.new))
            (Keeps any.Goldilocks
            (λ old new. ⟦<Prover<Goldilocks> as Kept>⟧.Commits old new batch.now out)
            (Some self.old) (Some self.new))) }
        ensures unchanged { IfErr result (λ _. OverProver (Some self.old) ⊥
            (Keeps any.BabyBear ⟦<Prover<BabyBear> as Kept>⟧.IsSame (Some self.old)
            (Some self.new))
            (Keeps any.KoalaBear ⟦<Prover<KoalaBear> as Kept>⟧.IsSame (Some self.old)
            (Some self.new))
            (Keeps any.Goldilocks ⟦<Prover<Goldilocks> as Kept>⟧.IsSame (Some self.old)
            (Some self.new))) }
    {
        match self {
            AnyProver::BabyBear(prover) => prover.commit_batch(alloc, batch),
            AnyProver::KoalaBear(prover) => prover.commit_batch(alloc, batch),
            AnyProver::Goldilocks(prover) => prover.commit_batch(alloc, batch),
        }
    }

    /// Opens all that is kept, under the context and at the points in these bytes.
    pub(crate) fn open(&mut self, alloc: Global, asked: &[u8]) -> Result<Vec<u8>, Failure>
        ensures answered { IfOk result (λ v. OverProver (Some self.old) ⊥
            (Has any.BabyBear (λ p. ⟦<Prover<BabyBear> as Kept>⟧.Answers p asked.now v.items)
            (Some self.old))
            (Has any.KoalaBear (λ p. ⟦<Prover<KoalaBear> as Kept>⟧.Answers p asked.now v.items)
            (Some self.old))
            (Has any.Goldilocks (λ p. ⟦<Prover<Goldilocks> as Kept>⟧.Answers p asked.now v.items)
            (Some self.old))) }
        ensures kept { OverProver (Some self.old) ⊥
            (Keeps any.BabyBear ⟦<Prover<BabyBear> as Kept>⟧.IsSame (Some self.old)
            (Some self.new))
            (Keeps any.KoalaBear ⟦<Prover<KoalaBear> as Kept>⟧.IsSame (Some self.old)
            (Some self.new))
            (Keeps any.Goldilocks ⟦<Prover<Goldilocks> as Kept>⟧.IsSame (Some self.old)
            (Some self.new)) }
    {
        match self {
            AnyProver::BabyBear(prover) => prover.open_asked(alloc, asked),
            AnyProver::KoalaBear(prover) => prover.open_asked(alloc, asked),
            AnyProver::Goldilocks(prover) => prover.open_asked(alloc, asked),
        }
    }
}
