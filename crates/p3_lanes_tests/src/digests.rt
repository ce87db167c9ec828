//! Digests by lanes, beside those of the crate `sha2` and those that the standard names.

ghost use Rattle.std.specs.Prelude.{◌≡◌, ◌*◌, ◌≤◌, length};

use sha2::{Digest, Sha256};
use sha256_lanes::digests_of_eight;

/// The greatest length that is tried.
const LONGEST: usize = 200;

/// The messages of the standard's examples, with their digests.
static EXAMPLES: [(&[u8], [u8; 32]); 3] = [
    (
        b"abc",
        [
            0xba, 0x78, 0x16, 0xbf, 0x8f, 0x01, 0xcf, 0xea, 0x41, 0x41, 0x40, 0xde, 0x5d, 0xae,
            0x22, 0x23, 0xb0, 0x03, 0x61, 0xa3, 0x96, 0x17, 0x7a, 0x9c, 0xb4, 0x10, 0xff, 0x61,
            0xf2, 0x00, 0x15, 0xad,
        ],
    ),
    (
        b"",
        [
            0xe3, 0xb0, 0xc4, 0x42, 0x98, 0xfc, 0x1c, 0x14, 0x9a, 0xfb, 0xf4, 0xc8, 0x99, 0x6f,
            0xb9, 0x24, 0x27, 0xae, 0x41, 0xe4, 0x64, 0x9b, 0x93, 0x4c, 0xa4, 0x95, 0x99, 0x1b,
            0x78, 0x52, 0xb8, 0x55,
        ],
    ),
    (
        b"abcdbcdecdefdefgefghfghighijhijkijkljklmklmnlmnomnopnopq",
        [
            0x24, 0x8d, 0x6a, 0x61, 0xd2, 0x06, 0x38, 0xb8, 0xe5, 0xc0, 0x26, 0x93, 0x0c, 0x3e,
            0x60, 0x39, 0xa3, 0x3c, 0xe4, 0x59, 0x64, 0xff, 0x21, 0x67, 0xf6, 0xec, 0xed, 0xd4,
            0x19, 0xdb, 0x06, 0xc1,
        ],
    ),
];

/// Bytes of which no two messages of a call are alike.
fn bytes() -> [u8; 1600] {
    let mut bytes = [0; 1600];
    let mut state: u32 = 1;
    for i in 0..1600 {
        state = state.wrapping_mul(1_664_525).wrapping_add(1_013_904_223);
        bytes[i] = (state >> 24) as u8;
    }
    bytes
}

/// Eight times a message of at most 64 bytes.
fn eight_times(message: &[u8]) -> [u8; 512]
    requires { length message.now ≤ 64 }
{
    let mut messages = [0; 512];
    for lane in 0..8 {
        for i in 0..message.len() {
            messages[lane * message.len() + i] = message[i];
        }
    }
    messages
}

#[test]
fn each_lane_is_hashed_as_by_sha2(rt: HostRuntime) {
    let bytes = bytes();
    for len in 0..LONGEST + 1 {
        let messages = &bytes[..8 * len];
        let digests = digests_of_eight(messages, len);
        for lane in 0..8 {
            let digest = Sha256::digest(&messages[lane * len..lane * len + len]);
            assert!(rt;
                digests[lane].as_slice() == digest.as_slice(),
                "length {len}"
            );
        }
    }
}

#[test]
fn the_examples_of_the_standard_are_met(rt: HostRuntime) {
    for (message, expected) in &EXAMPLES {
        let len = message.len();
        assert!(rt; len <= 64, "a long message");
        let messages = eight_times(*message);
        let digests = digests_of_eight(&messages[..8 * len], len);
        for lane in 0..8 {
            assert!(rt;
                digests[lane].as_slice() == expected.as_slice(),
                "length {len}"
            );
        }
    }
}
