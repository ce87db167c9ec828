//! Calls of a field.

use p3_field_core::{ExtensionField, Field, PrimeField64, SampleField, TwoAdicField};

/// The canonical numbers of what the calls of a prime field give at 5 and 7, and its constants.
pub fn field_values<F: PrimeField64>() -> [u64; 13] {
    let five = F::from_u64(5);
    let seven = F::from_u64(7);
    [
        (five + seven).as_canonical_u64(),
        (five - seven).as_canonical_u64(),
        (five * seven).as_canonical_u64(),
        (-five).as_canonical_u64(),
        five.double().as_canonical_u64(),
        five.square().as_canonical_u64(),
        F::ONE.halve().as_canonical_u64(),
        five.exp_u64(3).as_canonical_u64(),
        five.exp_power_of_2(2).as_canonical_u64(),
        F::TWO.as_canonical_u64(),
        F::BITS as u64,
        F::ORDER_U64,
        F::GENERATOR.as_canonical_u64(),
    ]
}

/// The first of these numbers, two factors and their product, of which the elements' product is
/// another.
pub fn first_wrong_product<F: PrimeField64>(cases: &[(u64, u64, u64)]) -> Option<(u64, u64)> {
    for (x, y, product) in cases {
        let found = F::from_u64(*x) * F::from_u64(*y);
        if found.as_canonical_u64() != *product {
            return Some((*x, *y));
        }
    }
    None
}

/// The first of these numbers, each beside that of its inverse, that has another inverse, or zero
/// if zero has one.
pub fn first_wrong_inverse<F: PrimeField64>(cases: &[(u64, u64)]) -> Option<u64> {
    for (n, wanted) in cases {
        match F::from_u64(*n).try_inverse() {
            Some(inverse) => {
                if inverse.as_canonical_u64() != *wanted {
                    return Some(*n);
                }
            },
            None => return Some(*n),
        }
    }
    if F::ZERO.try_inverse().is_none() && F::ZERO.is_zero() {
        None
    } else {
        Some(0)
    }
}

/// The first of these words whose element has another number.
pub fn first_wrong_word<F: SampleField>(cases: &[(u64, u64)]) -> Option<u64> {
    for (word, number) in cases {
        let found = F::from_word(*word);
        if found.as_canonical_u64() != *number || F::from_u64(*word) != found {
            return Some(*word);
        }
    }
    None
}

/// The first of these logarithms whose root of unity has another number than that beside it.
pub fn first_wrong_root<F: PrimeField64 + TwoAdicField>(cases: &[(usize, u64)]) -> Option<usize> {
    for (bits, number) in cases {
        if *bits > F::TWO_ADICITY {
            return Some(*bits);
        }
        if F::two_adic_generator(*bits).as_canonical_u64() != *number {
            return Some(*bits);
        }
    }
    None
}

/// Whether both products of this element and factor are one.
pub fn agree<F: Field>(x: F, factor: F) -> bool {
    x.times(factor.prepare()) == x * factor
}

/// Whether both products with the factor are one at zero, at one and its negative, and at a hundred
/// powers of the extension's generator, each scaled and, as its first coefficient, multiplied.
pub fn agree_throughout<F: Field, E: ExtensionField<F>>(factor: F) -> bool {
    let mut powers_agree = true;
    let prepared = factor.prepare();
    let mut power = E::GENERATOR;
    for _ in 0..100 {
        powers_agree = powers_agree && power.scale_prepared(prepared) == power.scale(factor);
        if E::DIMENSION > 0 {
            powers_agree = powers_agree && agree(power.coefficient(0), factor);
        }
        power = power * E::GENERATOR;
    }
    powers_agree && agree(F::ZERO, factor) && agree(F::ONE, factor) && agree(-F::ONE, factor)
}
