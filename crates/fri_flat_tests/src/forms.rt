//! Bytes of the column 1, 3 on the domain 1, -1, opened at 5, under several contexts. Expected
//! values are those that `flat_form.py` of tools/relation prints of `data/column.json` of `fri`
//! with these contexts.

use hex::FromHexError;
use std::alloc::{AllocError, Global};

/// The request of no context, number by number: the number of the context's bytes, parameters, one
/// commitment with one matrix, its values and point.
pub const REQUEST: [u32; 20] = [0, 1, 0, 1, 2, 0, 0, 0, 1, 1, 1, 1, 1, 1, 1, 3, 5, 0, 0, 0];

/// The parameters of the statement, and the number of commitments.
const PARAMETERS: [u32; 8] = [1, 0, 1, 2, 0, 0, 0, 1];

/// The commitment.
pub const COMMITMENT: [u8; 32] = [
    42, 164, 25, 245, 142, 161, 128, 45, 138, 113, 78, 136, 21, 121, 24, 213, 198, 76, 148, 140,
    187, 246, 213, 127, 168, 97, 97, 236, 222, 206, 114, 3,
];

/// What is claimed of it: one matrix, its domain, one point, one value there, -3.
const CLAIMS: [u32; 13] = [1, 1, 1, 1, 5, 0, 0, 0, 1, 2013265918, 0, 0, 0];

/// A context, and what comes of the request under it.
#[derive(Clone, Copy)]
pub struct Opened {
    pub context: &'static [u8],
    /// What the challenger draws after the proof.
    pub next_challenge: [u32; 4],
    /// The proof, in hex.
    pub proof: &'static str,
}

/// A context with more bytes than one byte counts.
const SEVENS: [u8; 300] = [7; 300];

/// Without a context, with some bytes and with many.
pub const OPENED: [Opened; 3] = [
    Opened {
        context: &[],
        next_challenge: [1575306697, 1677209360, 273931704, 799075703],
        proof: EMPTY_PROOF,
    },
    Opened {
        context: &[0, 1, 2, 3, 4, 5, 6, 7, 8, 9],
        next_challenge: [1611197663, 687690399, 772947763, 217598861],
        proof: SHORT_PROOF,
    },
    Opened {
        context: &SEVENS,
        next_challenge: [944552100, 641884498, 1316492725, 782360372],
        proof: LONG_PROOF,
    },
];

/// Numbers as bytes.
pub fn bytes_of(alloc: Global, numbers: &[u32]) -> Result<Vec<u8>, AllocError> {
    let mut bytes = Vec::new(alloc);
    for number in numbers {
        bytes.extend_from_slice(&number.to_le_bytes())?;
    }
    Ok(bytes)
}

/// A context's form, the number of its bytes and then these, and numbers after it.
fn after_context(alloc: Global, context: &[u8], numbers: &[u32]) -> Result<Vec<u8>, AllocError> {
    let count = u32::try_from(context.len()).unwrap_or(u32::MAX);
    let mut bytes = bytes_of(alloc, &[count])?;
    bytes.extend_from_slice(context)?;
    bytes.extend_from_slice(&bytes_of(alloc, numbers)?)?;
    Ok(bytes)
}

/// The request of this context.
pub fn request_of(alloc: Global, context: &[u8]) -> Result<Vec<u8>, AllocError> {
    after_context(alloc, context, &REQUEST[1..])
}

/// The statement of this context with this proof.
pub fn statement_of(alloc: Global, context: &[u8], proof: &[u8]) -> Result<Vec<u8>, AllocError> {
    let mut bytes = after_context(alloc, context, &PARAMETERS)?;
    bytes.extend_from_slice(&COMMITMENT)?;
    bytes.extend_from_slice(&bytes_of(alloc, &CLAIMS)?)?;
    bytes.extend_from_slice(proof)?;
    Ok(bytes)
}

/// The proof of no context.
pub fn empty_proof(alloc: Global) -> Result<Vec<u8>, FromHexError> {
    hex::decode(alloc, EMPTY_PROOF)
}

/// The proof of no context.
const EMPTY_PROOF: &str = "\
    000000000100000052d101b35620570de417d01f2b6f8efb7af41ad8970036c020fe03a6d7b4f67b010000000000\
    000001000000020000000100000001000000e4ffff7701000000010000002100000002000000020000001e3144d4\
    e28e34c9213c887875dcb9f5456c1c5880b09c07c9840425f4b3e84c44ec42dfa91c93be09ed145908a1879880ae\
    a4fa90a99b5d9b2f0ca1559e4854020000008916ac0f8d6a8afaa013eaf72da912063d36d80436a5a1f0deee5a3c\
    2264612d44ec42dfa91c93be09ed145908a1879880aea4fa90a99b5d9b2f0ca1559e485401000000020000000100\
    00000000007800000000000000000000000001000000000000780000000000000000000000000200000001000000\
    b72888178bbc22fc623b506384339cf5ac64b87658241520290542b156fb873401000000b72888178bbc22fc623b\
    506384339cf5ac64b87658241520290542b156fb8734010000000000007800000000000000000000000000000000";

/// The proof of the context 0 to 9.
const SHORT_PROOF: &str = "\
    000000000100000052d101b35620570de417d01f2b6f8efb7af41ad8970036c020fe03a6d7b4f67b010000000000\
    000001000000020000000100000001000000e727a6490100000001000000e727a64902000000020000004c730e8e\
    f32816454dd32bf68f333c0e9de6401d646d7aaa223cd14d6f4e2192c471ba76c8c3bf7fa4c8c59d43e4ae01e213\
    10ce940cd7549cba884aa15ccc66020000004c730e8ef32816454dd32bf68f333c0e9de6401d646d7aaa223cd14d\
    6f4e2192c471ba76c8c3bf7fa4c8c59d43e4ae01e21310ce940cd7549cba884aa15ccc6601000000020000000100\
    00000000007800000000000000000000000001000000000000780000000000000000000000000200000001000000\
    b72888178bbc22fc623b506384339cf5ac64b87658241520290542b156fb873401000000b72888178bbc22fc623b\
    506384339cf5ac64b87658241520290542b156fb8734010000000000007800000000000000000000000000000000";

/// The proof of the context of 300 sevens.
const LONG_PROOF: &str = "\
    000000000100000052d101b35620570de417d01f2b6f8efb7af41ad8970036c020fe03a6d7b4f67b010000000000\
    000001000000020000000100000001000000e4ffff770100000001000000e727a64902000000020000001e3144d4\
    e28e34c9213c887875dcb9f5456c1c5880b09c07c9840425f4b3e84c44ec42dfa91c93be09ed145908a1879880ae\
    a4fa90a99b5d9b2f0ca1559e4854020000004c730e8ef32816454dd32bf68f333c0e9de6401d646d7aaa223cd14d\
    6f4e2192c471ba76c8c3bf7fa4c8c59d43e4ae01e21310ce940cd7549cba884aa15ccc6601000000020000000100\
    00000000007800000000000000000000000001000000000000780000000000000000000000000200000001000000\
    b72888178bbc22fc623b506384339cf5ac64b87658241520290542b156fb873401000000b72888178bbc22fc623b\
    506384339cf5ac64b87658241520290542b156fb8734010000000000007800000000000000000000000000000000";
