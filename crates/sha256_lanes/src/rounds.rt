//! The rounds over a block of each message.

ghost use Rattle.std.specs.Prelude.{◌≡◌, ◌<◌, ◌≤◌, ◌+◌, ◌*◌, ℕ, List, slice_set};
ghost use Rattle.sha2.specs.Sha256.{compress, round, window_word};
ghost use Rattle.sha256_lanes.specs.Words.{lane_word, lane_words, HoldsBlock};
ghost use Rattle.sha256_lanes.specs.Hash.{lane_hash, AreRoundsAt};

pub(crate) mod variables;

use self::variables::Variables;
use crate::functions::{choose, lower_sigma0, lower_sigma1, majority, upper_sigma0, upper_sigma1};
use crate::words::Words;
use crate::words::operations::{splat, sum};

/// The first 32 bits of the fractional parts of the cube roots of the first 64 primes.
const ROUND_CONSTANTS: [u32; 64] = [
    0x428a2f98, 0x71374491, 0xb5c0fbcf, 0xe9b5dba5, 0x3956c25b, 0x59f111f1, 0x923f82a4, 0xab1c5ed5,
    0xd807aa98, 0x12835b01, 0x243185be, 0x550c7dc3, 0x72be5d74, 0x80deb1fe, 0x9bdc06a7, 0xc19bf174,
    0xe49b69c1, 0xefbe4786, 0x0fc19dc6, 0x240ca1cc, 0x2de92c6f, 0x4a7484aa, 0x5cb0a9dc, 0x76f988da,
    0x983e5152, 0xa831c66d, 0xb00327c8, 0xbf597fc7, 0xc6e00bf3, 0xd5a79147, 0x06ca6351, 0x14292967,
    0x27b70a85, 0x2e1b2138, 0x4d2c6dfc, 0x53380d13, 0x650a7354, 0x766a0abb, 0x81c2c92e, 0x92722c85,
    0xa2bfe8a1, 0xa81a664b, 0xc24b8b70, 0xc76c51a3, 0xd192e819, 0xd6990624, 0xf40e3585, 0x106aa070,
    0x19a4c116, 0x1e376c08, 0x2748774c, 0x34b0bcb5, 0x391c0cb3, 0x4ed8aa4a, 0x5b9cca4f, 0x682e6ff3,
    0x748f82ee, 0x78a5636f, 0x84c87814, 0x8cc70208, 0x90befffa, 0xa4506ceb, 0xbef9a3f7, 0xc67178f2,
];

/// The next words of the schedules, from the sixteen before them: the word of round `t` stands at
/// place `t % 16`, and takes the place of that of round `t - 16`.
#[inline(always)]
fn schedule_word(window: &mut [Words; 16], place: usize) -> Words
    requires { place < 16 }
    ensures value { (lane : ℕ) → lane < 8
        → lane_word result lane ≡ window_word (lane_words window.old lane) place }
    ensures window { window.new ≡ slice_set window.old place result }
{
    let recent = sum(
        lower_sigma1(window[(place + 14) % 16]),
        window[(place + 9) % 16],
    );
    let old = sum(recent, lower_sigma0(window[(place + 1) % 16]));
    let word = sum(old, window[place]);
    window[place] = word;
    word
}

/// One round with a constant and a word of each schedule.
#[inline(always)]
fn round(before: Variables, constant: u32, word: Words) -> Variables
    ensures { (lane : ℕ) → lane < 8
        → lane_hash result lane ≡ round (lane_hash before lane) constant (lane_word word lane) }
{
    let mixed = sum(before.h, upper_sigma1(before.e));
    let chosen = sum(mixed, choose(before.e, before.f, before.g));
    let first = sum(sum(chosen, splat(constant)), word);
    let second = sum(
        upper_sigma0(before.a),
        majority(before.a, before.b, before.c),
    );
    Variables {
        a: sum(first, second),
        b: before.a,
        c: before.b,
        d: before.c,
        e: sum(before.d, first),
        f: before.e,
        g: before.f,
        h: before.g,
    }
}

/// Round `t`, one of the first sixteen, whose words are those of the blocks.
#[inline(always)]
fn block_round(window: &[Words; 16], before: Variables, t: usize) -> Variables
    requires { t < 16 }
    ensures { (block hash : List ℕ) (lane : ℕ) → lane < 8
        → AreRoundsAt block hash lane window.now 16 before t
        → AreRoundsAt block hash lane window.now 16 result (t + 1) }
{
    round(before, ROUND_CONSTANTS[t], window[t])
}

/// Four of the first sixteen rounds.
#[inline(always)]
fn four_block_rounds(window: &[Words; 16], before: Variables, t: usize) -> Variables
    requires { t + 4 ≤ 16 }
    ensures { (block hash : List ℕ) (lane : ℕ) → lane < 8
        → AreRoundsAt block hash lane window.now 16 before t
        → AreRoundsAt block hash lane window.now 16 result (t + 4) }
{
    let one = block_round(window, before, t);
    let two = block_round(window, one, t + 1);
    let three = block_round(window, two, t + 2);
    block_round(window, three, t + 3)
}

/// Round `16 * turn + place`, one of those after the first sixteen, with the next word of each
/// schedule.
#[inline(always)]
fn schedule_round(
    window: &mut [Words; 16],
    before: Variables,
    turn: usize,
    place: usize,
) -> Variables
    requires positive { 1 ≤ turn }
    requires turn { turn < 4 }
    requires place { place < 16 }
    ensures { (block hash : List ℕ) (lane : ℕ) → lane < 8 → let t = 16 * turn + place in
        AreRoundsAt block hash lane window.old t before t
        → AreRoundsAt block hash lane window.new (t + 1) result (t + 1) }
{
    let word = schedule_word(window, place);
    round(before, ROUND_CONSTANTS[16 * turn + place], word)
}

/// Four rounds of those after the first sixteen.
#[inline(always)]
fn four_schedule_rounds(
    window: &mut [Words; 16],
    before: Variables,
    turn: usize,
    place: usize,
) -> Variables
    requires positive { 1 ≤ turn }
    requires turn { turn < 4 }
    requires place { place + 4 ≤ 16 }
    ensures { (block hash : List ℕ) (lane : ℕ) → lane < 8 → let t = 16 * turn + place in
        AreRoundsAt block hash lane window.old t before t
        → AreRoundsAt block hash lane window.new (t + 4) result (t + 4) }
{
    let one = schedule_round(window, before, turn, place);
    let two = schedule_round(window, one, turn, place + 1);
    let three = schedule_round(window, two, turn, place + 2);
    schedule_round(window, three, turn, place + 3)
}

/// The hash values after one more block of each message, whose words the window holds. The rounds
/// leave other words there.
pub(crate) fn compress(window: &mut [Words; 16], state: Variables) -> Variables
    ensures { (block : List ℕ) (lane : ℕ) → lane < 8 → HoldsBlock window.old lane block
        → lane_hash result lane ≡ compress (lane_hash state lane) block }
{
    let mut v = four_block_rounds(window, state, 0);
    v = four_block_rounds(window, v, 4);
    v = four_block_rounds(window, v, 8);
    v = four_block_rounds(window, v, 12);
    // After sixteen rounds the places in the window come again, so one turn can name them all.
    'turns: for turn in 1..4 {
        v = four_schedule_rounds(window, v, turn, 0);
        v = four_schedule_rounds(window, v, turn, 4);
        v = four_schedule_rounds(window, v, turn, 8);
        v = four_schedule_rounds(window, v, turn, 12);
    }
    Variables {
        a: sum(state.a, v.a),
        b: sum(state.b, v.b),
        c: sum(state.c, v.c),
        d: sum(state.d, v.d),
        e: sum(state.e, v.e),
        f: sum(state.f, v.f),
        g: sum(state.g, v.g),
        h: sum(state.h, v.h),
    }
}
