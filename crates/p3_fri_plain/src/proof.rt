//! The plain forms of whole proofs: of the plain scheme, and of the one that hides.

ghost use Rattle.std.specs.Prelude.{◌≡◌, ◌≢◌, ℕ, List, IfOk, IfErr};
ghost use Rattle.p3_fri_plain.specs.declared.error.PlainProofError.TheVariants.{OutOfMemory};
ghost use Rattle.p3_fri_plain.specs.Faults.{IsFaultless, ProofFault, HidingProofFault};
ghost use Rattle.p3_fri_plain.specs.Numbers.{SeenProof, ProofNumbers, proof_numbers};
ghost use Rattle.p3_fri_plain.specs.Numbers.{HidingSeen, HidingNumbers, hiding_numbers};
ghost use Rattle.p3_fri_plain.specs.PlainLaws.{element_told_apart};
ghost use Rattle.p3_fri_plain.specs.PlainLaws.{proof_told_apart, hiding_told_apart};
ghost use Rattle.p3_fri_plain.specs.Views.{proof_seen, proof_listed, hiding_seen, hiding_listed};

use crate::elements::{Element, ExtensionElement};
use crate::error::PlainProofError;
use crate::forms::{PlainFriProof, PlainHidingProof};
use crate::openings::Step;
use crate::plain::{Each, Plain};
use p3_baby_bear::{BabyBear, BabyBear4};
use p3_field_core::{ElementBytes, ExtensionField, PrimeField64};
use p3_fri_relation::proof::{BatchMultiOpening, FriProof};
use p3_mmcs::{OpenedValues, Sha256Mmcs};
use std::alloc::{AllocError, Global};

/// A proof of the low-degree test and of the plain scheme, over a prime field, an extension of it
/// and the tree over SHA-256.
pub type TwoAdicFriProof<F = BabyBear, EF = BabyBear4> = FriProof<
    EF,
    Sha256Mmcs<EF>,
    F,
    Vec<BatchMultiOpening<F, Sha256Mmcs<F>>>,
>;

/// A proof of the scheme that hides: the values of the random columns, and a proof of the scheme
/// inside.
pub type HidingFriProof<F = BabyBear, EF = BabyBear4> = (OpenedValues<EF>, TwoAdicFriProof<F, EF>);

/// Field by field.
impl<F: PrimeField64 + ElementBytes, EF: ExtensionField<F> + ElementBytes> Plain
    for TwoAdicFriProof<F, EF> {
    type Value = TwoAdicFriProof<F, EF>;

    type Form = PlainFriProof;

    ghost Seen = { SeenProof F EF };

    ghost seen = { proof_seen };

    ghost Numbers = { ProofNumbers };

    ghost listed = { proof_listed };

    ghost numbers = { proof_numbers F.canonical EF.coefficients };

    ghost has_fault = { ProofFault F.ORDER_U64 EF.DIMENSION };

    fn to_plain(
        alloc: Global,
        value: &TwoAdicFriProof<F, EF>,
    ) -> Result<PlainFriProof, AllocError> {
        let steps = &value.commit_phase_openings;
        Ok(PlainFriProof {
            batch_pow_witness: Element::<F>::to_plain(alloc, &value.batch_pow_witness)?,
            commit_phase_commits: Each::<[u8; 32]>::to_plain(alloc, &value.commit_phase_commits)?,
            commit_pow_witnesses: Each::<Element<F>>::to_plain(alloc, &value.commit_pow_witnesses)?,
            input_openings: Each::<BatchMultiOpening<F, Sha256Mmcs<F>>>::to_plain(
                alloc,
                &value.input_openings,
            )?,
            commit_phase_openings: Each::<Step<F, EF>>::to_plain(alloc, steps)?,
            final_poly: Each::<ExtensionElement<F, EF>>::to_plain(alloc, &value.final_poly)?,
            query_pow_witness: Element::<F>::to_plain(alloc, &value.query_pow_witness)?,
        })
    }

    fn from_plain(
        alloc: Global,
        form: &PlainFriProof,
    ) -> Result<TwoAdicFriProof<F, EF>, PlainProofError> {
        let steps = &form.commit_phase_openings;
        Ok(FriProof {
            batch_pow_witness: Element::<F>::from_plain(alloc, &form.batch_pow_witness)?,
            commit_phase_commits: Each::<[u8; 32]>::from_plain(alloc, &form.commit_phase_commits)?,
            commit_pow_witnesses: Each::<Element<F>>::from_plain(
                alloc,
                &form.commit_pow_witnesses,
            )?,
            input_openings: Each::<BatchMultiOpening<F, Sha256Mmcs<F>>>::from_plain(
                alloc,
                &form.input_openings,
            )?,
            commit_phase_openings: Each::<Step<F, EF>>::from_plain(alloc, steps)?,
            final_poly: Each::<ExtensionElement<F, EF>>::from_plain(alloc, &form.final_poly)?,
            query_pow_witness: Element::<F>::from_plain(alloc, &form.query_pow_witness)?,
        })
    }

    ghost told_apart = { proof_told_apart F.canonical
        (element_told_apart F.ops F.canonical F.multiple_canonical)
        EF.coefficients EF.coefficients_injective };
}

/// The values of the random columns, by commitment, matrix and point.
type RandomValues<F, EF> = Each<Each<Each<Each<ExtensionElement<F, EF>>>>>;

/// The two of the pair.
impl<F: PrimeField64 + ElementBytes, EF: ExtensionField<F> + ElementBytes> Plain
    for HidingFriProof<F, EF> {
    type Value = HidingFriProof<F, EF>;

    type Form = PlainHidingProof;

    ghost Seen = { HidingSeen F EF };

    ghost seen = { hiding_seen };

    ghost Numbers = { HidingNumbers };

    ghost listed = { hiding_listed };

    ghost numbers = { hiding_numbers F.canonical EF.coefficients };

    ghost has_fault = { HidingProofFault F.ORDER_U64 EF.DIMENSION };

    fn to_plain(
        alloc: Global,
        value: &HidingFriProof<F, EF>,
    ) -> Result<PlainHidingProof, AllocError> {
        Ok(PlainHidingProof {
            random_values: RandomValues::<F, EF>::to_plain(alloc, &value.0)?,
            proof: TwoAdicFriProof::<F, EF>::to_plain(alloc, &value.1)?,
        })
    }

    fn from_plain(
        alloc: Global,
        form: &PlainHidingProof,
    ) -> Result<HidingFriProof<F, EF>, PlainProofError> {
        Ok((
            RandomValues::<F, EF>::from_plain(alloc, &form.random_values)?,
            TwoAdicFriProof::<F, EF>::from_plain(alloc, &form.proof)?,
        ))
    }

    ghost told_apart = { hiding_told_apart F.canonical
        (element_told_apart F.ops F.canonical F.multiple_canonical)
        EF.coefficients EF.coefficients_injective };
}

/// The plain form of a proof of the plain scheme.
pub fn to_plain<F: PrimeField64 + ElementBytes, EF: ExtensionField<F> + ElementBytes>(
    alloc: Global,
    proof: &TwoAdicFriProof<F, EF>,
) -> Result<PlainFriProof, AllocError>
    ensures numbers { IfOk result (λ form. proof_listed form
        ≡ proof_numbers F.canonical EF.coefficients (proof_seen proof.now)) }
    ensures faultless { IfOk result (λ form.
        IsFaultless (ProofFault F.ORDER_U64 EF.DIMENSION) (proof_listed form)) }
{
    TwoAdicFriProof::<F, EF>::to_plain(alloc, proof)
}

/// The proof of the plain scheme that has this plain form. A form that isn't any proof's is refused
/// by a fault that it shows.
pub fn from_plain<F: PrimeField64 + ElementBytes, EF: ExtensionField<F> + ElementBytes>(
    alloc: Global,
    form: PlainFriProof,
) -> Result<TwoAdicFriProof<F, EF>, PlainProofError>
    ensures ok { IfOk result (λ proof.
        proof_numbers F.canonical EF.coefficients (proof_seen proof) ≡ proof_listed form) }
    ensures faultless { IfOk result (λ _.
        IsFaultless (ProofFault F.ORDER_U64 EF.DIMENSION) (proof_listed form)) }
    ensures err { IfErr result (λ error. error ≢ OutOfMemory
        → ProofFault F.ORDER_U64 EF.DIMENSION error (proof_listed form)) }
{
    TwoAdicFriProof::<F, EF>::from_plain(alloc, &form)
}

/// The plain form of a proof of the scheme that hides.
pub fn hiding_to_plain<F: PrimeField64 + ElementBytes, EF: ExtensionField<F> + ElementBytes>(
    alloc: Global,
    proof: &HidingFriProof<F, EF>,
) -> Result<PlainHidingProof, AllocError>
    ensures numbers { IfOk result (λ form. hiding_listed form
        ≡ hiding_numbers F.canonical EF.coefficients (hiding_seen proof.now)) }
    ensures faultless { IfOk result (λ form.
        IsFaultless (HidingProofFault F.ORDER_U64 EF.DIMENSION) (hiding_listed form)) }
{
    HidingFriProof::<F, EF>::to_plain(alloc, proof)
}

/// The proof of the scheme that hides that has this plain form. A form that isn't any proof's is
/// refused by a fault that it shows.
pub fn hiding_from_plain<F: PrimeField64 + ElementBytes, EF: ExtensionField<F> + ElementBytes>(
    alloc: Global,
    form: PlainHidingProof,
) -> Result<HidingFriProof<F, EF>, PlainProofError>
    ensures ok { IfOk result (λ proof.
        hiding_numbers F.canonical EF.coefficients (hiding_seen proof) ≡ hiding_listed form) }
    ensures faultless { IfOk result (λ _.
        IsFaultless (HidingProofFault F.ORDER_U64 EF.DIMENSION) (hiding_listed form)) }
    ensures err { IfErr result (λ error. error ≢ OutOfMemory
        → HidingProofFault F.ORDER_U64 EF.DIMENSION error (hiding_listed form)) }
{
    HidingFriProof::<F, EF>::from_plain(alloc, &form)
}
