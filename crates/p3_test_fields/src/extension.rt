//! Calls of an extension.

use p3_field_core::{ExtensionField, Field};

/// What the calls of an extension give at one of its elements and one of the base field.
pub fn extension_values<F: Field, E: ExtensionField<F>>(x: E, factor: F) -> [E; 10] {
    [
        x + E::TWO,
        x - E::from_u64(3),
        -x,
        x.double(),
        x.halve(),
        x.square(),
        x.exp_u64(3),
        x.exp_power_of_2(1),
        x.scale(factor),
        E::from_base(factor),
    ]
}

/// Whether each coefficient comes back.
pub fn comes_back<F: Field, E: ExtensionField<F>>(coefficients: &[F]) -> bool {
    if coefficients.len() != E::DIMENSION {
        return false;
    }
    let element = E::from_coefficients(coefficients);
    for (index, value) in coefficients.iter().enumerate() {
        if element.coefficient(index) != *value {
            return false;
        }
        if E::ZERO.with_coefficient(index, *value).coefficient(index) != *value {
            return false;
        }
    }
    true
}

/// The first index at which the element of the basis isn't that power of the root.
pub fn first_wrong_basis<F: Field, E: ExtensionField<F>>() -> Option<usize> {
    if E::DIMENSION < 2 {
        return Some(E::DIMENSION);
    }
    let root = E::ith_basis_element(1);
    let mut power = E::ONE;
    for index in 0..E::DIMENSION {
        if E::ith_basis_element(index) != power {
            return Some(index);
        }
        power = power * root;
    }
    None
}
