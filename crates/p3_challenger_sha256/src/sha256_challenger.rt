//! The challenger over SHA-256.

mod absorb;
mod grind;
mod observe;
mod sample;

use p3_field::BabyBear;
use std::marker::PhantomData;

/// A challenger over the prime field `F` whose state is 32 bytes, at first all zero. Absorbing
/// bytes makes the state the digest of the state, a byte 0 and those bytes; a draw makes it the
/// digest of the state and a byte 1, and answers the first bytes of the new state as a
/// little-endian number.
#[derive(Clone, PartialEq, Eq, Debug, Drop)]
pub struct Sha256Challenger<F = BabyBear> {
    state: [u8; 32],
    field: PhantomData<F>,
}

/// Canonical numbers below an order that is at most this have four bytes, others eight.
const HAVE_SHORT_NUMBERS: u64 = 1 << 32;
