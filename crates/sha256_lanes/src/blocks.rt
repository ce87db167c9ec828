//! The words of blocks, one message to a lane.

ghost use Rattle.std.specs.Prelude.{◌≡◌, ◌<◌, ◌≤◌, ◌+◌, ◌*◌, ◌/◌, ℕ, length, slice_index};
ghost use Rattle.sha2.specs.Sha256.{padded_message, word_at};
ghost use Rattle.sha256_lanes.specs.Lanes.{message_of};
ghost use Rattle.sha256_lanes.specs.Words.{lane_word, HoldsBlock};
ghost use Rattle.sha256_lanes.specs.Blocks.{block_of, blocks_of, IsEndOf};

use crate::padding::BLOCK;
use crate::words::Words;
use crate::words::operations::{from_array, splat};

/// The word whose first byte stands at `at`.
#[inline(always)]
fn word_of(bytes: &[u8], at: usize) -> u32
    requires { at + 4 ≤ length bytes.now }
    ensures { result ≡ word_at bytes.now at }
{
    u32::from_be_bytes([bytes[at], bytes[at + 1], bytes[at + 2], bytes[at + 3]])
}

/// The word at byte `at` of each message.
#[inline(always)]
fn message_words(messages: &[u8], len: usize, at: usize) -> Words
    requires length { length messages.now ≡ 8 * len }
    requires within { at + 4 ≤ len }
    ensures { (lane : ℕ) → lane < 8
        → lane_word result lane ≡ word_at (message_of len lane messages.now) at }
{
    from_array([
        word_of(messages, at),
        word_of(messages, len + at),
        word_of(messages, 2 * len + at),
        word_of(messages, 3 * len + at),
        word_of(messages, 4 * len + at),
        word_of(messages, 5 * len + at),
        word_of(messages, 6 * len + at),
        word_of(messages, 7 * len + at),
    ])
}

/// Loads block `n` of each message, where it is one of its own bytes alone.
pub(crate) fn load_whole_block(window: &mut [Words; 16], messages: &[u8], len: usize, n: usize)
    requires length { length messages.now ≡ 8 * len }
    requires within { n < len / 64 }
    ensures { (lane : ℕ) → lane < 8 → let message = message_of len lane messages.now in
        HoldsBlock window.new lane (block_of n (padded_message message)) }
{
    'words: for k in 0..16 {
        window[k] = message_words(messages, len, BLOCK * n + 4 * k);
    }
}

/// The byte at `at` of the padded message in a lane, of those behind its whole blocks.
#[inline(always)]
fn padded_byte(messages: &[u8], len: usize, end: &[u8; 128], lane: usize, at: usize) -> u8
    requires length { length messages.now ≡ 8 * len }
    requires end { IsEndOf len end.now }
    requires lane { lane < 8 }
    requires behind { 64 * (len / 64) ≤ at }
    requires within { at < 64 * blocks_of len }
    ensures { result ≡ slice_index (padded_message (message_of len lane messages.now)) at }
{
    if at < len {
        messages[lane * len + at]
    } else {
        end[at - BLOCK * (len / BLOCK)]
    }
}

/// The word at byte `at` of the padded message in a lane, of those behind its whole blocks.
#[inline(always)]
fn padded_word(messages: &[u8], len: usize, end: &[u8; 128], lane: usize, at: usize) -> u32
    requires length { length messages.now ≡ 8 * len }
    requires end { IsEndOf len end.now }
    requires lane { lane < 8 }
    requires behind { 64 * (len / 64) ≤ at }
    requires within { at + 4 ≤ 64 * blocks_of len }
    ensures { result ≡ word_at (padded_message (message_of len lane messages.now)) at }
{
    u32::from_be_bytes([
        padded_byte(messages, len, end, lane, at),
        padded_byte(messages, len, end, lane, at + 1),
        padded_byte(messages, len, end, lane, at + 2),
        padded_byte(messages, len, end, lane, at + 3),
    ])
}

/// The word at byte `at` of each padded message, of those behind its whole blocks.
fn padded_words(messages: &[u8], len: usize, end: &[u8; 128], at: usize) -> Words
    requires length { length messages.now ≡ 8 * len }
    requires end { IsEndOf len end.now }
    requires behind { 64 * (len / 64) ≤ at }
    requires within { at + 4 ≤ 64 * blocks_of len }
    ensures { (lane : ℕ) → lane < 8
        → lane_word result lane ≡ word_at (padded_message (message_of len lane messages.now)) at }
{
    if at + 4 <= len {
        message_words(messages, len, at)
    } else if at >= len {
        splat(word_of(end, at - BLOCK * (len / BLOCK)))
    } else {
        from_array([
            padded_word(messages, len, end, 0, at),
            padded_word(messages, len, end, 1, at),
            padded_word(messages, len, end, 2, at),
            padded_word(messages, len, end, 3, at),
            padded_word(messages, len, end, 4, at),
            padded_word(messages, len, end, 5, at),
            padded_word(messages, len, end, 6, at),
            padded_word(messages, len, end, 7, at),
        ])
    }
}

/// Loads block `n` of each padded message, one behind its whole blocks.
pub(crate) fn load_last_block(
    window: &mut [Words; 16],
    messages: &[u8],
    len: usize,
    end: &[u8; 128],
    n: usize,
)
    requires length { length messages.now ≡ 8 * len }
    requires end { IsEndOf len end.now }
    requires behind { len / 64 ≤ n }
    requires within { n < blocks_of len }
    ensures { (lane : ℕ) → lane < 8 → let message = message_of len lane messages.now in
        HoldsBlock window.new lane (block_of n (padded_message message)) }
{
    'words: for k in 0..16 {
        window[k] = padded_words(messages, len, end, BLOCK * n + 4 * k);
    }
}
