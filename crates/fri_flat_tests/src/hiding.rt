//! The scheme that hides, over bytes.

use crate::answered::is_answer;
use crate::hidden::{ALONE, BESIDE, HIDDEN};
use crate::malformed::{is_malformed, with_number};
use fri_flat::{Failure, MALFORMED, REFUSED, hiding};
use hex::FromHexError;
use p3_baby_bear::BabyBear;
use std::alloc::{AllocError, Global};

/// Where in the statement of both columns the proof begins, and in that the proof inside.
const PROOF: usize = 212;

const INNER: usize = 304;

/// Whether each request is committed to and opened, and the opening verified.
fn each_is_answered(alloc: Global) -> Result<bool, FromHexError> {
    for hidden in &HIDDEN {
        let request = hex::decode(alloc, hidden.request)?;
        let commitments = hex::decode(alloc, hidden.commitments)?;
        let statement = hex::decode(alloc, hidden.statement)?;
        let mut expected = hex::decode(alloc, hidden.next_challenge)?;
        let is_verified = is_answer(hiding::verify::<BabyBear>(alloc, &statement), &expected);
        expected.extend_from_slice(&statement)?;
        if !is_verified
            || !is_answer(hiding::open::<BabyBear>(alloc, &request), &expected)
            || !is_answer(hiding::commit::<BabyBear>(alloc, &request), &commitments)
        {
            return Ok(false);
        }
    }
    Ok(true)
}

#[test]
fn hiding_requests_and_statements_are_answered(rt: HostRuntime) -> Result<(), FromHexError> {
    assert!(rt; each_is_answered(rt.alloc())?);
    Ok(())
}

/// Places of numbers in the request of both columns, other numbers there, to how many bytes it is
/// cut, and by which status and words it is refused then.
const REQUESTS: [(usize, u32, usize, u8, &str); 10] = [
    (
        36,
        2,
        276,
        MALFORMED,
        "NoCommitment { index: 2 }: no commitment of the request has the index",
    ),
    (
        36,
        4294967294,
        276,
        MALFORMED,
        "NoCommitment { index: 4294967294 }: no commitment of the request has the index",
    ),
    (
        0,
        4,
        3,
        MALFORMED,
        "BytesMissing { at: 0 }: fewer bytes are left than have to come",
    ),
    (
        0,
        4,
        35,
        MALFORMED,
        "BytesMissing { at: 4 }: fewer bytes are left than have to come",
    ),
    (
        0,
        4,
        39,
        MALFORMED,
        "BytesMissing { at: 36 }: fewer bytes are left than have to come",
    ),
    (
        40,
        4294967295,
        276,
        MALFORMED,
        "BytesMissing { at: 44 }: fewer bytes are left than have to come",
    ),
    (
        0,
        4,
        275,
        MALFORMED,
        "BytesMissing { at: 260 }: fewer bytes are left than have to come",
    ),
    (
        0,
        4,
        277,
        MALFORMED,
        "BytesLeft { at: 276 }: bytes follow what is whole",
    ),
    // three random columns, and a point where its column is committed to
    (
        0,
        3,
        276,
        REFUSED,
        "InsufficientRandomCodewords { required: 4, got: 3 }: ",
    ),
    (
        260,
        31,
        276,
        REFUSED,
        "PointInEvaluationDomain { round: 1, matrix: 0, point: 0 }: ",
    ),
];

/// Whether this is refused by this status, in words that begin so.
fn is_refused_by(
    alloc: Global,
    outcome: Result<Vec<u8>, Failure>,
    status: u8,
    text: &str,
) -> Result<bool, AllocError> {
    let Err(failure) = outcome else {
        return Ok(false);
    };
    let said = format!(in alloc; "{failure}")?;
    Ok(failure.status() == status && said.starts_with(text))
}

/// Whether each of the requests is refused so, by `commit` too where it isn't well formed.
fn each_request_is_refused(alloc: Global) -> Result<bool, FromHexError> {
    let request = hex::decode(alloc, HIDDEN[0].request)?;
    for (place, number, length, status, text) in &REQUESTS {
        let mut bytes = with_number(alloc, &request, *place, *number)?;
        bytes.extend_from_slice(&[0])?;
        bytes.truncate(*length);
        let committed = hiding::commit::<BabyBear>(alloc, &bytes);
        if !is_refused_by(
            alloc,
            hiding::open::<BabyBear>(alloc, &bytes),
            *status,
            text,
        )? || (*status == MALFORMED && !is_refused_by(alloc, committed, MALFORMED, text)?)
        {
            return Ok(false);
        }
    }
    Ok(true)
}

#[test]
fn faulty_hiding_requests_are_refused(rt: HostRuntime) -> Result<(), FromHexError> {
    assert!(rt; each_request_is_refused(rt.alloc())?);
    Ok(())
}

/// Where counts stand in the statement of both columns: of the context's bytes, of claims,
/// matrices, points and values; of the random values' commitments, matrices, points and columns, of
/// both commitments; of the proof's commitments.
const COUNTS: [usize; 13] = [8, 40, 76, 88, 108, 212, 216, 220, 224, 228, 232, 236, 308];

/// Where random values stand: the first and the last coefficient.
const RANDOM_VALUES: [usize; 2] = [240, 300];

/// Where bytes are missing, of those of a statement.
fn missing_at(alloc: Global, statement: &[u8]) -> Option<usize> {
    match hiding::verify::<BabyBear>(alloc, statement) {
        Err(Failure::BytesMissing { at }) => Some(at),
        _ => None,
    }
}

/// Whether of each beginning bytes are missing, from a place in it on.
fn each_beginning_is_malformed(alloc: Global, statement: &[u8]) -> bool {
    for length in 0..statement.len() {
        match missing_at(alloc, &statement[..length]) {
            Some(at) if at <= length => {},
            _ => return false,
        }
    }
    true
}

/// Whether each count that is the greatest is refused where its entries begin, and each random
/// value that is no element's by its number.
fn each_number_is_read(alloc: Global, statement: &[u8]) -> Result<bool, AllocError> {
    for place in &COUNTS {
        let altered = with_number(alloc, statement, *place, u32::MAX)?;
        if missing_at(alloc, &altered) != Some(place.saturating_add(4)) {
            return Ok(false);
        }
    }
    let text = "Element: proof: expected a number below the field's order";
    for place in &RANDOM_VALUES {
        let altered = with_number(alloc, statement, *place, 2013265921)?;
        if !is_malformed(alloc, hiding::verify::<BabyBear>(alloc, &altered), text)? {
            return Ok(false);
        }
    }
    Ok(true)
}

/// Whether statements that aren't well formed are refused.
fn each_statement_is_malformed(alloc: Global) -> Result<bool, FromHexError> {
    let statement = hex::decode(alloc, BESIDE)?;
    let mut longer = statement.clone()?;
    longer.extend_from_slice(&[0])?;
    let text = "BytesLeft { at: 1252 }: bytes follow what is whole";
    Ok(
        each_beginning_is_malformed(alloc, &statement)
            && each_number_is_read(alloc, &statement)?
            && is_malformed(alloc, hiding::verify::<BabyBear>(alloc, &longer), text)?,
    )
}

/// Whether the outcome is a refusal of what is well formed.
fn is_refused(outcome: Result<Vec<u8>, Failure>) -> bool {
    match outcome {
        Err(failure) => failure.status() == REFUSED,
        Ok(_) => false,
    }
}

/// Places of numbers in the statement of both columns, and other numbers there: of random columns,
/// the index, a domain's size, claimed values and random ones.
const ALTERED: [(usize, u32); 10] = [
    (0, 5),
    (0, 3),
    (4, 1),
    (4, 2),
    (4, 4294967295),
    (168, 4),
    (112, 7),
    (196, 7),
    (240, 7),
    (300, 7),
];

/// Whether each altered statement is refused.
fn each_alteration_is_refused(alloc: Global) -> Result<bool, FromHexError> {
    let statement = hex::decode(alloc, BESIDE)?;
    for (place, number) in &ALTERED {
        let altered = with_number(alloc, &statement, *place, *number)?;
        if !is_refused(hiding::verify::<BabyBear>(alloc, &altered)) {
            return Ok(false);
        }
    }
    Ok(true)
}

/// Whether the statement is accepted once the lowest bit of a byte of the random values is turned.
fn some_byte_is_unread(alloc: Global) -> Result<bool, FromHexError> {
    let mut statement = hex::decode(alloc, ALONE)?;
    for place in 131..statement.len() {
        if place == 211 {
            return Ok(false);
        }
        let old = statement[place];
        statement[place] = old ^ 1;
        if hiding::verify::<BabyBear>(alloc, &statement).is_ok() {
            return Ok(true);
        }
        statement[place] = old;
    }
    Ok(false)
}

/// Whether an opening of one scheme is refused by the other, with the same claims and the proof
/// inside, and with no random values.
fn schemes_are_told_apart(alloc: Global) -> Result<bool, FromHexError> {
    let statement = hex::decode(alloc, BESIDE)?;
    let (Some(front), Some(proof)) = (statement.get(..PROOF), statement.get(INNER..)) else {
        return Ok(false);
    };
    let Some(claims) = front.get(8..) else {
        return Ok(false);
    };
    let mut plain = Vec::from_slice(alloc, claims)?;
    plain.extend_from_slice(proof)?;
    let mut bare = Vec::from_slice(alloc, front)?;
    bare.extend_from_slice(&[0; 4])?;
    bare.extend_from_slice(proof)?;
    Ok(
        is_refused(fri_flat::verify::<BabyBear>(alloc, &plain))
            && is_refused(hiding::verify::<BabyBear>(alloc, &bare))
            && fri_flat::verify::<BabyBear>(alloc, &statement).is_err(),
    )
}

#[test]
fn other_hiding_statements_are_refused(rt: HostRuntime) -> Result<(), FromHexError> {
    let alloc = rt.alloc();
    assert!(rt; each_statement_is_malformed(alloc)?);
    assert!(rt; each_alteration_is_refused(alloc)?);
    assert!(rt; !some_byte_is_unread(alloc)?);
    assert!(rt; schemes_are_told_apart(alloc)?);
    Ok(())
}
