//! Lanes of packed elements.

use p3_field_core::{PackableExtension, PackableField, PackedExtension, PackedField};

/// Whether the first lane has what was put into each, and then into it alone.
pub(crate) fn first_lane_is_kept<F: PackableField>(x: F, y: F) -> bool {
    if F::Packing::WIDTH == 0 {
        return false;
    }
    let packed = F::Packing::broadcast(x);
    packed.lane(0) == x && packed.with_lane(0, y).lane(0) == y
}

/// The first lane of a packed element, scaled by a packed element of the base field.
pub(crate) fn scaled_lane<F: PackableField, E: PackableExtension<F>>(x: E, factor: F) -> Option<E> {
    if E::ExtensionPacking::WIDTH == 0 {
        return None;
    }
    let factors = F::Packing::broadcast(factor);
    Some(
        E::ExtensionPacking::broadcast(x)
            .scale_lanes(factors)
            .lane(0),
    )
}
