//! Operations on eight words, lane by lane.

ghost use Rattle.std.specs.Prelude.{◌≡◌, ◌<◌, ◌/◌, ◌^◌, ℕ, bit_and, bit_xor, slice_index};
ghost use Rattle.sha2.specs.Sha256.{add32};
ghost use Rattle.sha256_lanes.specs.Words.{lane_word, left};

use super::Words;
use std::simd::prelude::*;

/// One word in each lane.
#[inline(always)]
pub(crate) fn splat(value: u32) -> Words
    ensures { (lane : ℕ) → lane < 8 → lane_word result lane ≡ value }
{
    Words {
        lanes: u32x8::splat(value),
    }
}

/// The words of a list, in its order.
#[inline(always)]
pub(crate) fn from_array(values: [u32; 8]) -> Words
    ensures { (lane : ℕ) → lane < 8 → lane_word result lane ≡ slice_index values lane }
{
    Words {
        lanes: u32x8::from_array(values),
    }
}

/// The sums, without the carry out of the word.
#[inline(always)]
pub(crate) fn sum(x: Words, y: Words) -> Words
    ensures { (lane : ℕ) → lane < 8
        → lane_word result lane ≡ add32 (lane_word x lane) (lane_word y lane) }
{
    Words {
        lanes: x.lanes + y.lanes,
    }
}

/// The bits that just one of the two words has.
#[inline(always)]
pub(crate) fn xor(x: Words, y: Words) -> Words
    ensures { (lane : ℕ) → lane < 8
        → lane_word result lane ≡ bit_xor (lane_word x lane) (lane_word y lane) }
{
    Words {
        lanes: x.lanes ^ y.lanes,
    }
}

/// The bits that both words have.
#[inline(always)]
pub(crate) fn and(x: Words, y: Words) -> Words
    ensures { (lane : ℕ) → lane < 8
        → lane_word result lane ≡ bit_and (lane_word x lane) (lane_word y lane) }
{
    Words {
        lanes: x.lanes & y.lanes,
    }
}

/// The words shifted to the right.
#[inline(always)]
pub(crate) fn shifted_right(x: Words, bits: u32) -> Words
    requires { bits < 32 }
    ensures { (lane : ℕ) → lane < 8 → lane_word result lane ≡ lane_word x lane / 2 ^ bits }
{
    Words {
        lanes: x.lanes >> u32x8::splat(bits),
    }
}

/// The words shifted to the left, without what leaves the word.
#[inline(always)]
pub(crate) fn shifted_left(x: Words, bits: u32) -> Words
    requires { bits < 32 }
    ensures { (lane : ℕ) → lane < 8 → lane_word result lane ≡ left (lane_word x lane) bits }
{
    Words {
        lanes: x.lanes << u32x8::splat(bits),
    }
}

/// The words as a list.
#[inline(always)]
pub(crate) fn to_array(x: Words) -> [u32; 8]
    ensures { (lane : ℕ) → lane < 8 → slice_index result lane ≡ lane_word x lane }
{
    x.lanes.to_array()
}
