//! Elements from numbers, of any field.

use p3_field::{ExtensionField, Field, PrimeField64};
use std::alloc::Global;
use std::process::Abort;

/// The element of the extension with these coefficients, of which it has at most four.
pub(crate) fn extension<F: Field, EF: ExtensionField<F>>(coefficients: [u64; 4]) -> EF {
    let mut element = EF::ZERO;
    for index in 0..4 {
        if index < EF::DIMENSION {
            element = element.with_coefficient(index, F::from_u64(coefficients[index]));
        }
    }
    element
}

/// Whether the canonical numbers of an element's coefficients are these.
pub(crate) fn has_coefficients<F: PrimeField64, EF: ExtensionField<F>>(
    element: EF,
    numbers: [u64; 4],
) -> bool {
    for index in 0..4 {
        if index >= EF::DIMENSION
            || element.coefficient(index).as_canonical_u64() != numbers[index]
        {
            return false;
        }
    }
    EF::DIMENSION == 4
}

/// The elements of these numbers.
pub(crate) fn elements<F: Field>(rt: &impl Abort, alloc: Global, numbers: &[u64]) -> Vec<F> {
    let mut elements = Vec::new(alloc);
    for number in numbers {
        elements.push(F::from_u64(*number)).expect(rt, "memory");
    }
    elements
}

/// The elements of the extension of these coefficients.
pub(crate) fn extensions<F: Field, EF: ExtensionField<F>>(
    rt: &impl Abort,
    alloc: Global,
    numbers: &[[u64; 4]],
) -> Vec<EF> {
    let mut elements = Vec::new(alloc);
    for coefficients in numbers {
        elements
            .push(extension::<F, EF>(*coefficients))
            .expect(rt, "memory");
    }
    elements
}

/// The same of several lists.
pub(crate) fn extension_lists<F: Field, EF: ExtensionField<F>>(
    rt: &impl Abort,
    alloc: Global,
    each: &[&[[u64; 4]]],
) -> Vec<Vec<EF>> {
    let mut lists = Vec::new(alloc);
    for numbers in each {
        lists
            .push(extensions::<F, EF>(rt, alloc, *numbers))
            .expect(rt, "memory");
    }
    lists
}
