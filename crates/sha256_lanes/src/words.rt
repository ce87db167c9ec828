//! Eight words of 32 bits in one value.

ghost use Rattle.std.specs.Prelude.{◌≡◌, ◌<◌, ℕ, length, slice_index};

pub(crate) mod operations;

use std::simd::prelude::*;

/// Eight words of 32 bits, each in a lane of its own.
#[derive(Clone, Copy)]
pub(crate) struct Words {
    lanes: u32x8,
    // They are eight.
    ghost eight: { length lanes ≡ 8 },
    // Each has 32 bits.
    ghost small: { (lane : ℕ) → slice_index lanes lane < 4294967296 },
}
