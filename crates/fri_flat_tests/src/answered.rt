//! What is answered.

use crate::forms::{COMMITMENT, OPENED, bytes_of, request_of, statement_of};
use fri_flat::Failure;
use hex::FromHexError;
use p3_baby_bear::BabyBear;
use std::alloc::{AllocError, Global};

/// Contexts, and the challenges that tools/relation draws after them.
const CHALLENGES: [(&[u8], [u32; 4]); 5] = [
    (b"", [1656580281, 788222061, 931621667, 1078137329]),
    (b"\0", [236551923, 1499549955, 1389457094, 1364937548]),
    (b"abc", [1224100151, 1267975166, 288258122, 1684755250]),
    (&[7; 300], [287540999, 1237190328, 349326694, 1545798327]),
    (&[255; 100], [1886908380, 168746801, 1172395165, 910213582]),
];

/// Whether these bytes are answered.
pub fn is_answer(answer: Result<Vec<u8>, Failure>, expected: &[u8]) -> bool {
    match answer {
        Ok(answer) => answer.as_slice() == expected,
        Err(_) => false,
    }
}

/// Whether under each context the column is committed to and opened, and the opening verified.
fn each_is_answered(alloc: Global) -> Result<bool, FromHexError> {
    for opened in &OPENED {
        let proof = hex::decode(alloc, opened.proof)?;
        let statement = statement_of(alloc, opened.context, &proof)?;
        let mut expected = bytes_of(alloc, &opened.next_challenge)?;
        let is_verified = is_answer(fri_flat::verify::<BabyBear>(alloc, &statement), &expected);
        expected.extend_from_slice(&statement)?;
        let request = request_of(alloc, opened.context)?;
        let is_opened = is_answer(fri_flat::open::<BabyBear>(alloc, &request), &expected);
        if !is_verified
            || !is_opened
            || !is_answer(fri_flat::commit::<BabyBear>(alloc, &request), &COMMITMENT)
        {
            return Ok(false);
        }
    }
    Ok(true)
}

#[test]
fn requests_and_statements_are_answered(rt: HostRuntime) -> Result<(), FromHexError> {
    assert!(rt; each_is_answered(rt.alloc())?);
    Ok(())
}

/// Whether each of the challenges is drawn after its context.
fn each_is_drawn(alloc: Global) -> Result<bool, AllocError> {
    for (context, numbers) in &CHALLENGES {
        let expected = bytes_of(alloc, numbers)?;
        if !is_answer(fri_flat::challenge::<BabyBear>(alloc, *context), &expected) {
            return Ok(false);
        }
    }
    Ok(true)
}

#[test]
fn known_challenges_are_drawn(rt: HostRuntime) -> Result<(), AllocError> {
    assert!(rt; each_is_drawn(rt.alloc())?);
    Ok(())
}
