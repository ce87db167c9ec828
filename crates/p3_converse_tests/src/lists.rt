//! Elements and polynomials by their numbers.

ghost use Rattle.std.specs.Prelude.{◌≡◌};
ghost use Rattle.p3_converse.specs.Unfolding.{common_length};

use p3_field::Field;
use std::alloc::Global;
use std::process::Abort;

/// The elements of these numbers.
pub(crate) fn elements<F: Field>(rt: &impl Abort, alloc: Global, numbers: &[u64]) -> Vec<F> {
    let mut elements = Vec::new(alloc);
    for number in numbers {
        elements.push(F::from_u64(*number)).expect(rt, "memory");
    }
    elements
}

/// The polynomials with these coefficients.
pub(crate) fn polynomials<F: Field>(
    rt: &impl Abort,
    alloc: Global,
    numbers: &[&[u64]],
) -> Vec<Vec<F>> {
    let mut polys = Vec::new(alloc);
    for coefficients in numbers {
        polys
            .push(elements::<F>(rt, alloc, *coefficients))
            .expect(rt, "memory");
    }
    polys
}

/// The length of the first polynomial, which is that of all.
pub(crate) fn first_length<F: Field>(polys: &[Vec<F>]) -> usize
    ensures { result ≡ common_length polys.now }
{
    match polys {
        [] => 0,
        [first, ..] => first.len(),
    }
}
