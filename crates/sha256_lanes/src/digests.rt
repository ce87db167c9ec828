//! The digests of eight messages.

ghost use Rattle.std.specs.Prelude.{◌≡◌, ◌<◌, ◌*◌, ℕ, [], length, slice_index_or};
ghost use Rattle.sha2.specs.Sha256.{digest_bytes, initial_hash_256, sha256};
ghost use Rattle.sha256_lanes.specs.Lanes.{message_of};
ghost use Rattle.sha256_lanes.specs.Hash.{lane_hash};

use crate::blocks::{load_last_block, load_whole_block};
use crate::padding::{BLOCK, padded_end};
use crate::rounds::compress;
use crate::rounds::variables::Variables;
use crate::words::operations::{splat, to_array};

/// The first 32 bits of the fractional parts of the square roots of the first eight primes.
const INITIAL: [u32; 8] = [
    0x6a09e667, 0xbb67ae85, 0x3c6ef372, 0xa54ff53a, 0x510e527f, 0x9b05688c, 0x1f83d9ab, 0x5be0cd19,
];

/// The hash value before the first block, in each lane.
fn initial() -> Variables
    ensures { (lane : ℕ) → lane < 8 → lane_hash result lane ≡ initial_hash_256 }
{
    Variables {
        a: splat(INITIAL[0]),
        b: splat(INITIAL[1]),
        c: splat(INITIAL[2]),
        d: splat(INITIAL[3]),
        e: splat(INITIAL[4]),
        f: splat(INITIAL[5]),
        g: splat(INITIAL[6]),
        h: splat(INITIAL[7]),
    }
}

/// The bytes of a hash value.
#[inline(always)]
fn bytes_of(hash: [u32; 8]) -> [u8; 32]
    ensures { result ≡ digest_bytes hash 8 }
{
    let mut bytes = [0; 32];
    'words: for i in 0..8 {
        bytes[4 * i..4 * i + 4].copy_from_slice(&hash[i].to_be_bytes());
    }
    bytes
}

/// The bytes of the hash value in each lane.
fn bytes_of_each(hash: Variables) -> [[u8; 32]; 8]
    ensures { (lane : ℕ) → lane < 8
        → slice_index_or result lane [] ≡ digest_bytes (lane_hash hash lane) 8 }
{
    let (a, b, c, d) = (
        to_array(hash.a),
        to_array(hash.b),
        to_array(hash.c),
        to_array(hash.d),
    );
    let (e, f, g, h) = (
        to_array(hash.e),
        to_array(hash.f),
        to_array(hash.g),
        to_array(hash.h),
    );
    let mut digests = [[0; 32]; 8];
    'lanes: for l in 0..8 {
        digests[l] = bytes_of([a[l], b[l], c[l], d[l], e[l], f[l], g[l], h[l]]);
    }
    digests
}

/// The digests of eight messages of `len` bytes, which follow one another.
pub fn digests_of_eight(messages: &[u8], len: usize) -> [[u8; 32]; 8]
    requires { length messages.now ≡ 8 * len }
    ensures { (lane : ℕ) → lane < 8
        → slice_index_or result lane [] ≡ sha256 (message_of len lane messages.now) }
{
    let whole = len / BLOCK;
    let mut hash = initial();
    let mut window = [splat(0); 16];
    'whole: for n in 0..whole {
        load_whole_block(&mut window, messages, len, n);
        hash = compress(&mut window, hash);
    }
    let end = padded_end(len);
    'last: for n in whole..whole + (len % BLOCK + 72) / BLOCK {
        load_last_block(&mut window, messages, len, &end, n);
        hash = compress(&mut window, hash);
    }
    bytes_of_each(hash)
}
