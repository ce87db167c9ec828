//! The functions of SHA-256 on words, in each lane.

ghost use Rattle.std.specs.Prelude.{◌≡◌, ◌<◌, ◌+◌, ◌/◌, ◌^◌, ℕ, bit_xor};
ghost use Rattle.sha2.specs.Sha256.{big_sigma0, big_sigma1, ch, maj, small_sigma0, small_sigma1};
ghost use Rattle.sha256_lanes.specs.Words.{lane_word, left};

use crate::words::Words;
use crate::words::operations::{and, shifted_left, shifted_right, xor};

/// The bits of `y` where `x` has a bit, and those of `z` elsewhere.
#[inline(always)]
pub(crate) fn choose(x: Words, y: Words, z: Words) -> Words
    ensures { (lane : ℕ) → lane < 8
        → lane_word result lane ≡ ch (lane_word x lane) (lane_word y lane) (lane_word z lane) }
{
    let differing = xor(y, z);
    let chosen = and(x, differing);
    xor(z, chosen)
}

/// The bits that at least two of the three words have.
#[inline(always)]
pub(crate) fn majority(x: Words, y: Words, z: Words) -> Words
    ensures { (lane : ℕ) → lane < 8
        → lane_word result lane ≡ maj (lane_word x lane) (lane_word y lane) (lane_word z lane) }
{
    let before = xor(x, y);
    let after = xor(y, z);
    let turned = and(before, after);
    xor(y, turned)
}

/// The words shifted to the right by three numbers of bits, under exclusive or. Each shift goes
/// inside the next, which takes fewer copies than three of their own.
#[inline(always)]
fn three_right(x: Words, a: u32, b: u32, c: u32) -> Words
    requires a { a < 32 }
    requires b { b < 32 }
    requires c { c < 32 }
    ensures { (lane : ℕ) → lane < 8 → let w = lane_word x lane in
        lane_word result lane
        ≡ bit_xor (w / 2 ^ c) (bit_xor (w / 2 ^ (b + c)) (w / 2 ^ (a + (b + c)))) }
{
    let one = xor(x, shifted_right(x, a));
    let two = xor(x, shifted_right(one, b));
    shifted_right(two, c)
}

/// The words shifted to the left by two numbers of bits, under exclusive or.
#[inline(always)]
fn two_left(x: Words, a: u32, b: u32) -> Words
    requires a { a < 32 }
    requires b { b < 32 }
    ensures { (lane : ℕ) → lane < 8 → let w = lane_word x lane in
        lane_word result lane ≡ bit_xor (left w b) (left w (a + b)) }
{
    let one = xor(x, shifted_left(x, a));
    shifted_left(one, b)
}

/// The words shifted to the left by three numbers of bits, under exclusive or.
#[inline(always)]
fn three_left(x: Words, a: u32, b: u32, c: u32) -> Words
    requires a { a < 32 }
    requires b { b < 32 }
    requires c { c < 32 }
    ensures { (lane : ℕ) → lane < 8 → let w = lane_word x lane in
        lane_word result lane
        ≡ bit_xor (left w c) (bit_xor (left w (b + c)) (left w (a + (b + c)))) }
{
    let one = xor(x, shifted_left(x, a));
    let two = xor(x, shifted_left(one, b));
    shifted_left(two, c)
}

/// The first function of the working variables: rotations by 2, 13 and 22.
#[inline(always)]
pub(crate) fn upper_sigma0(x: Words) -> Words
    ensures { (lane : ℕ) → lane < 8 → lane_word result lane ≡ big_sigma0 (lane_word x lane) }
{
    let low = three_right(x, 9, 11, 2);
    let high = three_left(x, 11, 9, 10);
    xor(low, high)
}

/// The second function of the working variables: rotations by 6, 11 and 25.
#[inline(always)]
pub(crate) fn upper_sigma1(x: Words) -> Words
    ensures { (lane : ℕ) → lane < 8 → lane_word result lane ≡ big_sigma1 (lane_word x lane) }
{
    let low = three_right(x, 14, 5, 6);
    let high = three_left(x, 5, 14, 7);
    xor(low, high)
}

/// The first function of the schedule: rotations by 7 and 18, and a shift by 3.
#[inline(always)]
pub(crate) fn lower_sigma0(x: Words) -> Words
    ensures { (lane : ℕ) → lane < 8 → lane_word result lane ≡ small_sigma0 (lane_word x lane) }
{
    let low = three_right(x, 11, 4, 3);
    let high = two_left(x, 11, 14);
    xor(low, high)
}

/// The second function of the schedule: rotations by 17 and 19, and a shift by 10.
#[inline(always)]
pub(crate) fn lower_sigma1(x: Words) -> Words
    ensures { (lane : ℕ) → lane < 8 → lane_word result lane ≡ small_sigma1 (lane_word x lane) }
{
    let low = three_right(x, 2, 7, 10);
    let high = two_left(x, 2, 13);
    xor(low, high)
}
