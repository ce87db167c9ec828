//! The calls over KoalaBear and Goldilocks: what is answered, what isn't well formed, and that one
//! field's statements are none of another.

use crate::answered::is_answer;
use crate::malformed::is_malformed;
use crate::over_fields::{Answer, GOLDILOCKS, HIDING_GOLDILOCKS, HIDING_KOALA_BEAR, KOALA_BEAR};
use fri_flat::{Failure, SchemeField, challenge, hiding};
use hex::FromHexError;
use p3_baby_bear::BabyBear;
use p3_goldilocks::Goldilocks;
use p3_koala_bear::KoalaBear;
use std::alloc::Global;

/// The bytes of the answer of `open`, which those of `verify` begin.
fn answer_of(alloc: Global, expected: &Answer) -> Result<Vec<u8>, FromHexError> {
    let mut answer = hex::decode(alloc, expected.next_challenge)?;
    answer.extend_from_slice(&hex::decode(alloc, expected.statement)?)?;
    Ok(answer)
}

/// Whether the plain scheme answers so over the field.
fn is_answered<F: SchemeField>(alloc: Global, expected: &Answer) -> Result<bool, FromHexError> {
    let request = hex::decode(alloc, expected.request)?;
    let statement = hex::decode(alloc, expected.statement)?;
    let commitments = hex::decode(alloc, expected.commitments)?;
    let next_challenge = hex::decode(alloc, expected.next_challenge)?;
    let answer = answer_of(alloc, expected)?;
    Ok(
        is_answer(fri_flat::commit::<F>(alloc, &request), &commitments)
            && is_answer(fri_flat::open::<F>(alloc, &request), &answer)
            && is_answer(fri_flat::verify::<F>(alloc, &statement), &next_challenge),
    )
}

/// Whether the scheme that hides answers so over the field.
fn is_hidden<F: SchemeField>(alloc: Global, expected: &Answer) -> Result<bool, FromHexError> {
    let request = hex::decode(alloc, expected.request)?;
    let statement = hex::decode(alloc, expected.statement)?;
    let commitments = hex::decode(alloc, expected.commitments)?;
    let next_challenge = hex::decode(alloc, expected.next_challenge)?;
    let answer = answer_of(alloc, expected)?;
    Ok(
        is_answer(hiding::commit::<F>(alloc, &request), &commitments)
            && is_answer(hiding::open::<F>(alloc, &request), &answer)
            && is_answer(hiding::verify::<F>(alloc, &statement), &next_challenge),
    )
}

#[test]
fn requests_over_other_fields_are_answered(rt: HostRuntime) -> Result<(), FromHexError> {
    let alloc = rt.alloc();
    assert!(rt; is_answered::<KoalaBear>(alloc, &KOALA_BEAR)?);
    assert!(rt; is_answered::<Goldilocks>(alloc, &GOLDILOCKS)?);
    assert!(rt; is_hidden::<KoalaBear>(alloc, &HIDING_KOALA_BEAR)?);
    assert!(rt; is_hidden::<Goldilocks>(alloc, &HIDING_GOLDILOCKS)?);
    Ok(())
}

/// Whether this is drawn after the context over the field.
fn is_drawn<F: SchemeField>(
    alloc: Global,
    context: &[u8],
    expected: &str,
) -> Result<bool, FromHexError> {
    let expected = hex::decode(alloc, expected)?;
    Ok(is_answer(challenge::<F>(alloc, context), &expected))
}

#[test]
fn known_challenges_are_drawn_over_other_fields(rt: HostRuntime) -> Result<(), FromHexError> {
    let alloc = rt.alloc();
    assert!(rt; is_drawn::<KoalaBear>(alloc, b"abc", "6d4888536de898469cfc305e01f44637")?);
    assert!(rt; is_drawn::<Goldilocks>(alloc, b"abc", "1591ef91a1fe8f925451065715fcd454")?);
    assert!(rt; is_drawn::<Goldilocks>(alloc, b"", "a2478e0664a9ae45da51f5da03fe2d48")?);
    Ok(())
}

/// Where the proof begins in the statement over Goldilocks, and where numbers of it stand: its
/// witnesses, an opened value, and a sibling's last coefficient.
const PROOF: usize = 124;

const NUMBERS: [usize; 5] = [124, 172, 196, 380, 504];

/// Whether of each beginning of the statement bytes are missing, from a place in it on.
fn each_beginning_is_malformed(alloc: Global, statement: &[u8]) -> bool {
    for length in 0..statement.len() {
        match fri_flat::verify::<Goldilocks>(alloc, &statement[..length]) {
            Err(Failure::BytesMissing { at }) if at <= length => {},
            _ => return false,
        }
    }
    true
}

/// Whether each number of the proof is refused once it is the order, the least that is none of an
/// element, and once it is the greatest of eight bytes.
fn each_number_is_refused(alloc: Global, statement: &[u8]) -> Result<bool, FromHexError> {
    let text = "Element: proof: expected a number below the field's order";
    for number in [18446744069414584321u64, u64::MAX] {
        for place in &NUMBERS {
            let mut altered = Vec::from_slice(alloc, statement)?;
            for (index, byte) in number.to_le_bytes().iter().enumerate() {
                if let Some(old) = altered.get_mut(place.saturating_add(index)) {
                    *old = *byte;
                }
            }
            if !is_malformed(alloc, fri_flat::verify::<Goldilocks>(alloc, &altered), text)? {
                return Ok(false);
            }
        }
    }
    Ok(true)
}

/// Whether the statement isn't accepted once the lowest bit of a byte of the proof is turned, of
/// every seventh, and so of each of a number's eight.
fn each_byte_counts(alloc: Global, statement: &[u8]) -> Result<bool, FromHexError> {
    let mut altered = Vec::from_slice(alloc, statement)?;
    for place in PROOF..altered.len() {
        if place % 7 != 0 {
            continue;
        }
        let old = altered[place];
        altered[place] = old ^ 1;
        if fri_flat::verify::<Goldilocks>(alloc, &altered).is_ok() {
            return Ok(false);
        }
        altered[place] = old;
    }
    Ok(true)
}

#[test]
fn other_statements_over_goldilocks_are_refused(rt: HostRuntime) -> Result<(), FromHexError> {
    let alloc = rt.alloc();
    let statement = hex::decode(alloc, GOLDILOCKS.statement)?;
    assert!(rt; each_beginning_is_malformed(alloc, &statement));
    assert!(rt; each_number_is_refused(alloc, &statement)?);
    assert!(rt; each_byte_counts(alloc, &statement)?);
    Ok(())
}

/// Whether the statement is accepted over the field.
fn is_accepted<F: SchemeField>(alloc: Global, statement: &[u8]) -> bool {
    fri_flat::verify::<F>(alloc, statement).is_ok()
}

#[test]
fn fields_are_told_apart(rt: HostRuntime) -> Result<(), FromHexError> {
    let alloc = rt.alloc();
    let koala_bear = hex::decode(alloc, KOALA_BEAR.statement)?;
    let goldilocks = hex::decode(alloc, GOLDILOCKS.statement)?;
    assert!(rt; is_accepted::<KoalaBear>(alloc, &koala_bear));
    assert!(rt; !is_accepted::<BabyBear>(alloc, &koala_bear));
    assert!(rt; !is_accepted::<Goldilocks>(alloc, &koala_bear));
    assert!(rt; is_accepted::<Goldilocks>(alloc, &goldilocks));
    assert!(rt; !is_accepted::<KoalaBear>(alloc, &goldilocks));
    Ok(())
}
