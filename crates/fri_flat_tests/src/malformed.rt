//! What isn't well formed, and is refused by its text or offset.

use crate::forms::{REQUEST, bytes_of, empty_proof, statement_of};
use fri_flat::{Failure, MALFORMED};
use hex::FromHexError;
use p3_baby_bear::BabyBear;
use std::alloc::{AllocError, Global};

/// A request with one number changed, cut to so many bytes, or with one byte more, and what it is
/// refused with.
struct Case {
    number: usize,
    value: u32,
    length: usize,
    text: &'static str,
}

const CASES: [Case; 10] = [
    // the last byte is cut off, one is added, and all are cut off
    Case {
        number: 19,
        value: 0,
        length: 79,
        text: "BytesMissing { at: 64 }: fewer bytes are left than have to come",
    },
    Case {
        number: 19,
        value: 0,
        length: 81,
        text: "BytesLeft { at: 80 }: bytes follow what is whole",
    },
    Case {
        number: 19,
        value: 0,
        length: 0,
        text: "BytesMissing { at: 0 }: fewer bytes are left than have to come",
    },
    // a context of as many bytes as a number names, of one more than there are, and of all
    Case {
        number: 0,
        value: 4294967295,
        length: 80,
        text: "BytesMissing { at: 4 }: fewer bytes are left than have to come",
    },
    Case {
        number: 0,
        value: 77,
        length: 80,
        text: "BytesMissing { at: 4 }: fewer bytes are left than have to come",
    },
    Case {
        number: 0,
        value: 76,
        length: 80,
        text: "BytesMissing { at: 80 }: fewer bytes are left than have to come",
    },
    // as many commitments, points of a domain and columns as a number names
    Case {
        number: 8,
        value: 4294967295,
        length: 80,
        text: "BytesMissing { at: 36 }: fewer bytes are left than have to come",
    },
    Case {
        number: 11,
        value: 4294967295,
        length: 80,
        text: "BytesMissing { at: 56 }: fewer bytes are left than have to come",
    },
    Case {
        number: 12,
        value: 4294967295,
        length: 80,
        text: "BytesMissing { at: 56 }: fewer bytes are left than have to come",
    },
    // no query
    Case {
        number: 4,
        value: 0,
        length: 80,
        text: "NumQueries: parameters.num_queries: expected a number above 0",
    },
];

/// A statement of a context, cut to so many bytes or with one more, and what it is refused with.
struct Cut {
    context: &'static [u8],
    length: usize,
    text: &'static str,
}

const CUTS: [Cut; 3] = [
    // the proof is cut off, a context is cut, and a byte is added
    Cut {
        context: &[],
        length: 120,
        text: "BytesMissing { at: 120 }: fewer bytes are left than have to come",
    },
    Cut {
        context: &[1, 2, 3],
        length: 6,
        text: "BytesMissing { at: 4 }: fewer bytes are left than have to come",
    },
    Cut {
        context: &[],
        length: 489,
        text: "BytesLeft { at: 488 }: bytes follow what is whole",
    },
];

/// Where counts stand in the statement of no context: of the context's bytes, of claims, matrices,
/// points and values; in the proof of commitments and witnesses; of inputs, and there of queries,
/// matrices, values, queries and digests; of rounds, and there of queries, siblings, queries and
/// digests; of coefficients.
const COUNTS: [usize; 24] = [
    0, 32, 68, 80, 100, 124, 160, 168, 172, 176, 180, 188, 192, 200, 204, 272, 340, 344, 348, 368,
    388, 392, 428, 464,
];

/// Where numbers of the proof stand: witnesses, opened values, siblings and a coefficient.
const NUMBERS: [usize; 8] = [120, 164, 184, 196, 352, 384, 468, 484];

/// Numbers that are no element's.
const PAST_ORDER: [u32; 2] = [2013265921, 4294967295];

/// Whether this is refused as malformed, with this text.
pub fn is_malformed(
    alloc: Global,
    answer: Result<Vec<u8>, Failure>,
    text: &str,
) -> Result<bool, AllocError> {
    let Err(failure) = answer else {
        return Ok(false);
    };
    let said = format!(in alloc; "{failure}")?;
    Ok(failure.status() == MALFORMED && said.as_str() == text)
}

/// Whether each of the requests is refused so.
fn each_request_is_refused(alloc: Global) -> Result<bool, AllocError> {
    for case in &CASES {
        let mut numbers = REQUEST;
        if let Some(number) = numbers.get_mut(case.number) {
            *number = case.value;
        }
        let mut bytes = bytes_of(alloc, &numbers)?;
        bytes.push(0)?;
        bytes.truncate(case.length);
        if !is_malformed(alloc, fri_flat::open::<BabyBear>(alloc, &bytes), case.text)? {
            return Ok(false);
        }
    }
    Ok(true)
}

#[test]
fn malformed_requests_are_refused(rt: HostRuntime) -> Result<(), AllocError> {
    assert!(rt; each_request_is_refused(rt.alloc())?);
    Ok(())
}

/// Whether each of the cut statements with this proof is refused so.
fn each_cut_is_refused(alloc: Global, proof: &[u8]) -> Result<bool, AllocError> {
    for cut in &CUTS {
        let mut bytes = statement_of(alloc, cut.context, proof)?;
        bytes.push(0)?;
        bytes.truncate(cut.length);
        if !is_malformed(alloc, fri_flat::verify::<BabyBear>(alloc, &bytes), cut.text)? {
            return Ok(false);
        }
    }
    Ok(true)
}

/// Where bytes are missing, of those of a statement.
fn missing_at(alloc: Global, statement: &[u8]) -> Option<usize> {
    match fri_flat::verify::<BabyBear>(alloc, statement) {
        Err(Failure::BytesMissing { at }) => Some(at),
        _ => None,
    }
}

/// Whether of each beginning of a statement bytes are missing, from a place in it on.
fn each_beginning_is_refused(alloc: Global, statement: &[u8]) -> bool {
    for length in 0..statement.len() {
        match missing_at(alloc, &statement[..length]) {
            Some(at) if at <= length => {},
            _ => return false,
        }
    }
    true
}

/// The statement with this number at this place.
pub fn with_number(
    alloc: Global,
    statement: &[u8],
    place: usize,
    number: u32,
) -> Result<Vec<u8>, AllocError> {
    let mut altered = Vec::from_slice(alloc, statement)?;
    for (index, byte) in number.to_le_bytes().iter().enumerate() {
        if let Some(old) = altered.get_mut(place.saturating_add(index)) {
            *old = *byte;
        }
    }
    Ok(altered)
}

/// Whether each count is refused where its entries begin, once it is the greatest.
fn each_count_is_refused(alloc: Global, statement: &[u8]) -> Result<bool, AllocError> {
    for place in &COUNTS {
        let altered = with_number(alloc, statement, *place, u32::MAX)?;
        if missing_at(alloc, &altered) != Some(place.saturating_add(4)) {
            return Ok(false);
        }
    }
    Ok(true)
}

/// Whether each number of the proof is refused once it is no element's.
fn each_number_is_refused(alloc: Global, statement: &[u8]) -> Result<bool, AllocError> {
    let text = "Element: proof: expected a number below the field's order";
    for place in &NUMBERS {
        for number in &PAST_ORDER {
            let altered = with_number(alloc, statement, *place, *number)?;
            if !is_malformed(alloc, fri_flat::verify::<BabyBear>(alloc, &altered), text)? {
                return Ok(false);
            }
        }
    }
    Ok(true)
}

/// Whether statements that aren't well formed are refused.
fn each_statement_is_refused(alloc: Global) -> Result<bool, FromHexError> {
    let proof = empty_proof(alloc)?;
    let statement = statement_of(alloc, &[], &proof)?;
    let bound = statement_of(alloc, &[1, 2, 3], &proof)?;
    Ok(
        each_beginning_is_refused(alloc, &statement)
            && each_beginning_is_refused(alloc, &bound)
            && each_cut_is_refused(alloc, &proof)?
            && each_count_is_refused(alloc, &statement)?
            && each_number_is_refused(alloc, &statement)?,
    )
}

#[test]
fn malformed_statements_are_refused(rt: HostRuntime) -> Result<(), FromHexError> {
    assert!(rt; each_statement_is_refused(rt.alloc())?);
    Ok(())
}
