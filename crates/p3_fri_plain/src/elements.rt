//! The plain forms of elements.

ghost use Rattle.std.specs.Prelude.{ℕ, List};
ghost use Rattle.p3_fri_plain.specs.Numbers.{coefficient_numbers};
ghost use Rattle.p3_fri_plain.specs.PlainLaws.{element_told_apart, extension_told_apart};
ghost use Rattle.p3_fri_plain.specs.Faults.{ElementFault, ExtensionFault};

use crate::error::PlainProofError;
use crate::plain::{Each, Plain};
use p3_field_core::{ExtensionField, PrimeField64};
use std::alloc::{AllocError, Global};
use std::marker::PhantomData;

/// An element of a prime field: its canonical number.
pub struct Element<F>(PhantomData<F>);

impl<F: PrimeField64> Plain for Element<F> {
    type Value = F;

    type Form = u64;

    ghost Seen = { F };

    ghost seen = { λ x. x };

    ghost Numbers = { ℕ };

    ghost listed = { λ n. n };

    ghost numbers = { F.canonical };

    ghost has_fault = { ElementFault F.ORDER_U64 };

    fn to_plain(alloc: Global, value: &F) -> Result<u64, AllocError> {
        Ok(value.as_canonical_u64())
    }

    fn from_plain(alloc: Global, form: &u64) -> Result<F, PlainProofError> {
        if *form < F::ORDER_U64 {
            Ok(F::from_canonical(*form))
        } else {
            Err(PlainProofError::ElementOutOfRange)
        }
    }

    ghost told_apart = { element_told_apart F.ops F.canonical F.multiple_canonical };
}

/// An element of the extension `EF` of a prime field: its coefficients' canonical numbers, that of
/// one first.
pub struct ExtensionElement<F, EF>(PhantomData<F>, PhantomData<EF>);

impl<F: PrimeField64, EF: ExtensionField<F>> Plain for ExtensionElement<F, EF> {
    type Value = EF;

    type Form = Vec<u64>;

    ghost Seen = { EF };

    ghost seen = { λ x. x };

    ghost Numbers = { List ℕ };

    ghost listed = { λ form. form.items };

    ghost numbers = { coefficient_numbers F.canonical EF.coefficients };

    ghost has_fault = { ExtensionFault F.ORDER_U64 EF.DIMENSION };

    fn to_plain(alloc: Global, value: &EF) -> Result<Vec<u64>, AllocError> {
        let mut numbers = Vec::with_capacity(alloc, EF::DIMENSION)?;
        for index in 0..EF::DIMENSION {
            let coefficient: F = value.coefficient(index);
            numbers.push(coefficient.as_canonical_u64())?;
        }
        Ok(numbers)
    }

    fn from_plain(alloc: Global, form: &Vec<u64>) -> Result<EF, PlainProofError> {
        if form.len() != EF::DIMENSION {
            return Err(PlainProofError::ElementLength);
        }
        let coefficients = Each::<Element<F>>::from_plain(alloc, form)?;
        Ok(EF::from_coefficients(coefficients.as_slice()))
    }

    ghost told_apart = { extension_told_apart F.canonical
        (element_told_apart F.ops F.canonical F.multiple_canonical)
        EF.coefficients EF.coefficients_injective };
}
