//! The state, and how bytes and draws move it.

ghost use Rattle.std.specs.Prelude.{◌≡◌, ◌++◌, ◌∷◌, [], take};
ghost use Rattle.std.specs.Int.{w128, from_le_bytes};
ghost use Rattle.sha2.specs.Sha256.{sha256};
ghost use Rattle.p3_challenger_sha256.specs.Sha256.{start, absorbed, stepped, drawn_number};

use super::Sha256Challenger;
use sha2::{Digest, Sha256};
use std::marker::PhantomData;

/// What the digest of an observation has between the state and the bytes.
const OBSERVE_TAG: u8 = 0;

/// What the digest of a draw has after the state.
const DRAW_TAG: u8 = 1;

/// The digest of a state, a tag and bytes.
fn digest(state: &[u8; 32], tag: u8, bytes: &[u8]) -> [u8; 32]
    ensures { result ≡ sha256 (state.now ++ tag ∷ bytes.now) }
{
    let mut hasher = Sha256::new();
    hasher.update(state.as_slice());
    hasher.update([tag].as_slice());
    hasher.update(bytes);
    hasher.finalize()
}

impl Sha256Challenger {
    /// A challenger over BabyBear that has absorbed nothing. `over_field` makes one over any field.
    pub fn new() -> Sha256Challenger
        ensures { result ≡ start }
    {
        Sha256Challenger::over_field()
    }
}

impl<F> Sha256Challenger<F> {
    /// A challenger over a field that has absorbed nothing.
    pub fn over_field() -> Sha256Challenger<F>
        ensures { result ≡ start }
    {
        Sha256Challenger {
            state: [0; 32],
            field: PhantomData,
        }
    }

    /// Absorbs bytes.
    pub(super) fn absorb(&mut self, bytes: &[u8])
        ensures { self.new ≡ absorbed self.old bytes.now }
    {
        self.state = digest(&self.state, OBSERVE_TAG, bytes);
    }

    /// The state after a draw.
    fn after_draw(&self) -> [u8; 32]
        ensures { result ≡ (stepped self.now).state }
    {
        digest(&self.state, DRAW_TAG, &[])
    }

    /// Draws a number of 64 bits.
    pub(super) fn draw(&mut self) -> u64
        ensures value { result ≡ drawn_number self.old }
        ensures state { self.new ≡ stepped self.old }
    {
        let s = self.after_draw();
        self.state = s;
        u64::from_le_bytes([s[0], s[1], s[2], s[3], s[4], s[5], s[6], s[7]])
    }

    /// Draws a number of 128 bits.
    pub(super) fn draw_wide(&mut self) -> u128
        ensures value { result ≡ from_le_bytes w128 (take 16 (stepped self.old).state) }
        ensures state { self.new ≡ stepped self.old }
    {
        self.state = self.after_draw();
        let s = &self.state;
        u128::from_le_bytes([
            s[0], s[1], s[2], s[3], s[4], s[5], s[6], s[7], s[8], s[9], s[10], s[11], s[12], s[13],
            s[14], s[15],
        ])
    }
}
