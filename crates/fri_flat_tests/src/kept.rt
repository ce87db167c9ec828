//! What is committed to once and opened under several contexts, and what isn't what was committed
//! to.

use crate::answered::is_answer;
use crate::forms::{COMMITMENT, OPENED, REQUEST, bytes_of, statement_of};
use fri_flat::{Failure, MALFORMED, Prover};
use hex::FromHexError;
use p3_baby_bear::BabyBear;
use std::alloc::{AllocError, Global};

/// The number of commitments, the matrix, whose values aren't there, and its point.
const ASKED: [u32; 10] = [1, 1, 1, 1, 1, 1, 5, 0, 0, 0];

/// Other than what was committed to: another number of commitments or of matrices, another shift,
/// size or width, and no point.
const OTHERS: [[u32; 10]; 6] = [
    [0, 1, 1, 1, 1, 1, 5, 0, 0, 0],
    [1, 0, 1, 1, 1, 1, 5, 0, 0, 0],
    [1, 1, 2, 1, 1, 1, 5, 0, 0, 0],
    [1, 1, 1, 0, 1, 1, 5, 0, 0, 0],
    [1, 1, 1, 1, 2, 1, 5, 0, 0, 0],
    [1, 1, 1, 1, 1, 0, 5, 0, 0, 0],
];

/// Batches that are refused: the column's without its point's last number and with one more, on a
/// shift of zero, and with a value that is no element.
const REFUSED: [&[u32]; 4] = [
    &[1, 1, 1, 1, 1, 1, 3, 5, 0, 0],
    &[1, 1, 1, 1, 1, 1, 3, 5, 0, 0, 0, 0],
    &[1, 0, 1, 1, 1, 1, 3, 5, 0, 0, 0],
    &[1, 1, 1, 1, 1, 2013265921, 3, 5, 0, 0, 0],
];

/// Whether a prover commits to a batch of these numbers, by the known commitment.
fn is_committed(
    alloc: Global,
    prover: &mut Prover<BabyBear>,
    numbers: &[u32],
) -> Result<bool, AllocError> {
    let batch = bytes_of(alloc, numbers)?;
    match fri_flat::commit_kept::<BabyBear>(alloc, prover, &batch) {
        Ok(commitment) => Ok(commitment == COMMITMENT),
        Err(_) => Ok(false),
    }
}

/// A prover that has committed to the column so often, if each commitment is the known one.
fn committed(alloc: Global, count: usize) -> Result<Option<Prover<BabyBear>>, AllocError> {
    let parameters = bytes_of(alloc, &REQUEST[1..8])?;
    let Ok(mut prover) = fri_flat::prover::<BabyBear>(alloc, &parameters) else {
        return Ok(None);
    };
    for _ in 0..count {
        if !is_committed(alloc, &mut prover, &REQUEST[9..])? {
            return Ok(None);
        }
    }
    Ok(Some(prover))
}

/// What a prover answers to numbers that ask for what it keeps, under a context.
fn opened(
    alloc: Global,
    prover: &mut Prover<BabyBear>,
    context: &[u8],
    numbers: &[u32],
) -> Result<Vec<u8>, Failure> {
    let count = u32::try_from(context.len()).unwrap_or(u32::MAX);
    let mut asked = bytes_of(alloc, &[count])?;
    asked.extend_from_slice(context)?;
    asked.extend_from_slice(&bytes_of(alloc, numbers)?)?;
    fri_flat::open_kept::<BabyBear>(alloc, prover, &asked)
}

/// Whether what is asked for is refused as malformed.
fn is_malformed(answer: Result<Vec<u8>, Failure>) -> bool {
    match answer {
        Ok(_) => false,
        Err(failure) => failure.status() == MALFORMED,
    }
}

/// Whether what is committed to once is opened under each context as a request that commits to it
/// again, and twice.
fn each_is_opened(alloc: Global) -> Result<bool, FromHexError> {
    let Some(mut prover) = committed(alloc, 1)? else {
        return Ok(false);
    };
    for known in &OPENED {
        let proof = hex::decode(alloc, known.proof)?;
        let statement = statement_of(alloc, known.context, &proof)?;
        let mut expected = bytes_of(alloc, &known.next_challenge)?;
        expected.extend_from_slice(&statement)?;
        for _ in 0..2 {
            let answer = opened(alloc, &mut prover, known.context, &ASKED);
            if !is_answer(answer, &expected) {
                return Ok(false);
            }
        }
    }
    Ok(true)
}

#[test]
fn kept_matrices_are_opened(rt: HostRuntime) -> Result<(), FromHexError> {
    assert!(rt; each_is_opened(rt.alloc())?);
    Ok(())
}

/// Whether what isn't what was committed to is refused, and so are batches, and what was committed
/// to is opened after them.
fn others_are_refused(alloc: Global) -> Result<bool, AllocError> {
    let Some(mut prover) = committed(alloc, 1)? else {
        return Ok(false);
    };
    for numbers in &OTHERS {
        if !is_malformed(opened(alloc, &mut prover, &[], numbers)) {
            return Ok(false);
        }
    }
    for numbers in &REFUSED {
        if is_committed(alloc, &mut prover, *numbers)? {
            return Ok(false);
        }
    }
    Ok(opened(alloc, &mut prover, &[], &ASKED).is_ok())
}

#[test]
fn only_what_was_committed_to_is_opened(rt: HostRuntime) -> Result<(), AllocError> {
    assert!(rt; others_are_refused(rt.alloc())?);
    Ok(())
}

/// Whether two commitments are opened as a request of both commits to them and opens them.
fn both_are_opened(alloc: Global) -> Result<bool, AllocError> {
    let Some(mut prover) = committed(alloc, 2)? else {
        return Ok(false);
    };
    let mut request = bytes_of(alloc, &REQUEST[..8])?;
    request.extend_from_slice(&bytes_of(alloc, &[2])?)?;
    for _ in 0..2 {
        request.extend_from_slice(&bytes_of(alloc, &REQUEST[9..])?)?;
    }
    let Ok(expected) = fri_flat::open::<BabyBear>(alloc, &request) else {
        return Ok(false);
    };
    let asked = [2, 1, 1, 1, 1, 1, 5, 0, 0, 0, 1, 1, 1, 1, 1, 5, 0, 0, 0];
    let answer = opened(alloc, &mut prover, &[], &asked);
    Ok(is_answer(answer, &expected))
}

#[test]
fn two_commitments_are_opened(rt: HostRuntime) -> Result<(), AllocError> {
    assert!(rt; both_are_opened(rt.alloc())?);
    Ok(())
}
