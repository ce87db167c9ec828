//! Well-formed statements that aren't accepted.

use crate::forms::{OPENED, bytes_of, empty_proof, statement_of};
use fri_flat::REFUSED;
use hex::FromHexError;
use p3_baby_bear::BabyBear;
use std::alloc::{AllocError, Global};

/// Where in the statement of no context the claimed value begins, and the proof.
const VALUE: usize = 104;

const PROOF: usize = 120;

/// Proofs of few bytes: empty lists, and lists of empty ones.
const SHORT_PROOFS: [&[u32]; 3] = [
    &[0, 0, 0, 0, 0, 0, 0],
    // two openings of commitments, one of three queries, and one round's
    &[0, 0, 0, 2, 0, 0, 3, 0, 0, 0, 0, 1, 0, 0, 0, 0],
    // a round of two queries, without and with two siblings, and two paths without a digest
    &[
        0, 0, 0, 0, 1, 2, 0, 2, 1, 2, 3, 4, 5, 6, 7, 8, 2, 0, 0, 0, 0,
    ],
];

/// Whether the statement is well formed, and isn't accepted.
fn is_refused(alloc: Global, statement: &[u8]) -> bool {
    match fri_flat::verify::<BabyBear>(alloc, statement) {
        Err(failure) => failure.status() == REFUSED,
        Ok(_) => false,
    }
}

/// Whether each proof is refused under each context that isn't its own.
fn each_is_bound(alloc: Global) -> Result<bool, FromHexError> {
    for (proven, own) in OPENED.iter().enumerate() {
        let proof = hex::decode(alloc, own.proof)?;
        for (index, opened) in OPENED.iter().enumerate() {
            let statement = statement_of(alloc, opened.context, &proof)?;
            if is_refused(alloc, &statement) == (index == proven) {
                return Ok(false);
            }
        }
    }
    Ok(true)
}

#[test]
fn another_context_is_refused(rt: HostRuntime) -> Result<(), FromHexError> {
    assert!(rt; each_is_bound(rt.alloc())?);
    Ok(())
}

/// Whether each of the short proofs is read, and refused for what it is.
fn each_is_read(alloc: Global) -> Result<bool, AllocError> {
    for proof in &SHORT_PROOFS {
        let statement = statement_of(alloc, &[], &bytes_of(alloc, *proof)?)?;
        if !is_refused(alloc, &statement) {
            return Ok(false);
        }
    }
    Ok(true)
}

#[test]
fn empty_lists_are_read(rt: HostRuntime) -> Result<(), AllocError> {
    assert!(rt; each_is_read(rt.alloc())?);
    Ok(())
}

/// Whether the statement isn't accepted with another claimed value, nor once the lowest bit of any
/// byte of the proof is turned.
fn each_byte_counts(alloc: Global) -> Result<bool, FromHexError> {
    let mut statement = statement_of(alloc, &[], &empty_proof(alloc)?)?;
    for place in PROOF..statement.len() {
        let old = statement[place];
        statement[place] = old ^ 1;
        if fri_flat::verify::<BabyBear>(alloc, &statement).is_ok() {
            return Ok(false);
        }
        statement[place] = old;
    }
    if let Some(byte) = statement.get_mut(VALUE) {
        *byte = 253;
    }
    Ok(is_refused(alloc, &statement))
}

#[test]
fn each_byte_of_a_value_and_a_proof_counts(rt: HostRuntime) -> Result<(), FromHexError> {
    assert!(rt; each_byte_counts(rt.alloc())?);
    Ok(())
}
