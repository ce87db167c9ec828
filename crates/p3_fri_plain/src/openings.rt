//! The plain forms of what is opened: of one commitment, and in one round.

ghost use Rattle.std.specs.Prelude.{ℕ, List};
ghost use Rattle.p3_fri_relation.specs.Setting.{InputOpening, RoundOpening};
ghost use Rattle.p3_fri_plain.specs.Faults.{BatchFault, StepFault};
ghost use Rattle.p3_fri_plain.specs.Numbers.{Paths, batch_numbers, step_numbers};
ghost use Rattle.p3_fri_plain.specs.PlainLaws.{element_told_apart};
ghost use Rattle.p3_fri_plain.specs.PlainLaws.{batch_told_apart, step_told_apart};
ghost use Rattle.p3_fri_plain.specs.Views.{batch_seen, batch_listed, step_seen, step_listed};

use crate::elements::{Element, ExtensionElement};
use crate::error::PlainProofError;
use crate::forms::{PlainBatch, PlainStep};
use crate::plain::{Each, Plain};
use p3_field_core::{ElementBytes, ExtensionField, PrimeField64};
use p3_fri_relation::proof::{BatchMultiOpening, CommitPhaseMultiStep};
use p3_mmcs::Sha256Mmcs;
use std::alloc::{AllocError, Global};
use std::marker::PhantomData;

/// What is opened of one commitment.
type BatchOpening<F> = BatchMultiOpening<F, Sha256Mmcs<F>>;

/// What one round opens.
type StepOpening<EF> = CommitPhaseMultiStep<EF, Sha256Mmcs<EF>>;

/// For each query the digests from the leaf up.
type EachPath = Each<Each<[u8; 32]>>;

/// Field by field.
impl<F: PrimeField64 + ElementBytes> Plain for BatchOpening<F> {
    type Value = BatchOpening<F>;

    type Form = PlainBatch;

    ghost Seen = { InputOpening F Paths };

    ghost seen = { batch_seen };

    ghost Numbers = { InputOpening ℕ Paths };

    ghost listed = { batch_listed };

    ghost numbers = { batch_numbers F.canonical };

    ghost has_fault = { BatchFault F.ORDER_U64 };

    fn to_plain(alloc: Global, value: &BatchOpening<F>) -> Result<PlainBatch, AllocError> {
        Ok(PlainBatch {
            opened_values: Each::<Each<Each<Element<F>>>>::to_plain(alloc, &value.opened_values)?,
            paths: EachPath::to_plain(alloc, &value.opening_proof)?,
        })
    }

    fn from_plain(alloc: Global, form: &PlainBatch) -> Result<BatchOpening<F>, PlainProofError> {
        Ok(BatchMultiOpening {
            opened_values: Each::<Each<Each<Element<F>>>>::from_plain(alloc, &form.opened_values)?,
            opening_proof: EachPath::from_plain(alloc, &form.paths)?,
        })
    }

    ghost told_apart = { batch_told_apart F.canonical
        (element_told_apart F.ops F.canonical F.multiple_canonical) };
}

/// What one round opens, of the extension `EF` of a prime field, field by field.
pub struct Step<F, EF>(PhantomData<F>, PhantomData<EF>);

impl<F: PrimeField64, EF: ExtensionField<F> + ElementBytes> Plain for Step<F, EF> {
    type Value = StepOpening<EF>;

    type Form = PlainStep;

    ghost Seen = { RoundOpening EF Paths };

    ghost seen = { step_seen };

    ghost Numbers = { RoundOpening (List ℕ) Paths };

    ghost listed = { step_listed };

    ghost numbers = { step_numbers F.canonical EF.coefficients };

    ghost has_fault = { StepFault F.ORDER_U64 EF.DIMENSION };

    fn to_plain(alloc: Global, value: &StepOpening<EF>) -> Result<PlainStep, AllocError> {
        let values = &value.sibling_values;
        Ok(PlainStep {
            sibling_values: Each::<Each<ExtensionElement<F, EF>>>::to_plain(alloc, values)?,
            paths: EachPath::to_plain(alloc, &value.opening_proof)?,
        })
    }

    fn from_plain(alloc: Global, form: &PlainStep) -> Result<StepOpening<EF>, PlainProofError> {
        let values = &form.sibling_values;
        Ok(CommitPhaseMultiStep {
            sibling_values: Each::<Each<ExtensionElement<F, EF>>>::from_plain(alloc, values)?,
            opening_proof: EachPath::from_plain(alloc, &form.paths)?,
        })
    }

    ghost told_apart = { step_told_apart F.canonical
        (element_told_apart F.ops F.canonical F.multiple_canonical)
        EF.coefficients EF.coefficients_injective };
}
