//! Batched inverses of both fields.

ghost use Rattle.std.specs.Prelude.{◌≢◌, All, IsTrue};

use p3_field::{BabyBear, BabyBear4, Field, batch_multiplicative_inverse};
use std::alloc::Global;
use std::process::Abort;

/// Whether none of the elements is zero.
fn are_nonzero<F: Field>(elements: &[F]) -> bool
    ensures { IsTrue result → All (λ x. x ≢ F.ops.zero) elements.now }
{
    for element in elements {
        if element.is_zero() {
            return false;
        }
    }
    true
}

/// Whether the batched inverses of the elements of these numbers are the inverses one by one.
fn agrees<F: Field>(rt: &impl Abort, alloc: Global, numbers: &[u64]) -> bool {
    let mut elements = Vec::new(alloc);
    for number in numbers {
        elements.push(F::from_u64(*number)).expect(rt, "memory");
    }
    assert!(rt; are_nonzero(&elements), "an element is zero");
    let inverses = batch_multiplicative_inverse(alloc, &elements).expect(rt, "memory");
    are_inverses(&elements, &inverses)
}

/// Whether there are as many inverses as elements, and each product is one.
fn are_inverses<F: Field>(elements: &[F], inverses: &[F]) -> bool {
    let mut right = inverses.len() == elements.len();
    for (element, inverse) in elements.iter().zip(inverses) {
        right = right && *element * *inverse == F::ONE;
    }
    right
}

static LISTS: [&[u64]; 3] = [&[], &[7], &[1, 2, 3, 4, 2013265920]];

#[test]
fn inverts_lists_of_length_0_1_and_5(rt: HostRuntime) {
    for numbers in &LISTS {
        let right = agrees::<BabyBear>(&rt, rt.alloc(), *numbers)
            && agrees::<BabyBear4>(&rt, rt.alloc(), *numbers);
        assert!(rt; right);
    }
}
