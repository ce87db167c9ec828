//! Sums that are greater than numbers of 64 bits: the low and the high halves of what is summed up
//! are added apart, and reduced in the end.

ghost use Rattle.std.specs.Prelude.{◌≡◌, ◌<◌, ◌+◌, ◌%◌, ℕ, map, replicate};
ghost use Rattle.std.specs.Simd.Lanes.{zip2, Each1};
ghost use Rattle.p3_lanes.specs.Halves.{totals, AreWithin};

use crate::{HIGH_HALF, low_parts, reduced, reduced_sum, scaled, shifted};
use std::simd::prelude::*;

/// Eight sums of numbers of 64 bits, a lane each, as those of the low halves and of the high ones.
#[derive(Clone, Copy)]
pub struct HalfSums {
    pub low: u64x8,
    pub high: u64x8,
}

/// The sums of nothing.
pub fn no_halves() -> HalfSums
    ensures value { totals result.low result.high ≡ replicate 8 0 }
    ensures within { AreWithin 0 result.low result.high }
{
    HalfSums {
        low: u64x8::splat(0),
        high: u64x8::splat(0),
    }
}

/// The sums with a number more in each lane.
pub fn add_halves(sums: HalfSums, numbers: u64x8) -> HalfSums
    requires room { AreWithin 4294967295 sums.low sums.high }
    requires numbers { Each1 (λ n. n < 18446744073709551616) numbers }
    ensures value { totals result.low result.high
        ≡ zip2 (λ m n. m + n) (totals sums.low sums.high) numbers }
    ensures within { (count : ℕ) → AreWithin count sums.low sums.high →
        AreWithin (count + 1) result.low result.high }
{
    HalfSums {
        low: sums.low.strict_add(low_parts(numbers)),
        high: sums.high.strict_add(shifted(numbers, 32)),
    }
}

/// What the sums leave modulo the order.
pub fn reduced_halves(sums: HalfSums) -> u64x8
    requires { AreWithin 4294967296 sums.low sums.high }
    ensures { result ≡ map (λ n. n % 2013265921) (totals sums.low sums.high) }
{
    let high = scaled(reduced_sum(sums.high), HIGH_HALF);
    reduced(high.strict_add(reduced_sum(sums.low)))
}
