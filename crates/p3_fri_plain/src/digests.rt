//! The plain form of a digest.

ghost use Rattle.std.specs.Prelude.{ℕ, List};
ghost use Rattle.p3_fri_plain.specs.Faults.{DigestFault};

use crate::error::PlainProofError;
use crate::plain::Plain;
use std::alloc::{AllocError, Global};

/// The bytes.
impl Plain for [u8; 32] {
    type Value = [u8; 32];

    type Form = Vec<u8>;

    ghost Seen = { List ℕ };

    ghost seen = { λ digest. digest };

    ghost Numbers = { List ℕ };

    ghost listed = { λ form. form.items };

    ghost numbers = { λ digest. digest };

    ghost has_fault = { DigestFault };

    fn to_plain(alloc: Global, value: &[u8; 32]) -> Result<Vec<u8>, AllocError> {
        Vec::from_slice(alloc, value)
    }

    fn from_plain(alloc: Global, form: &Vec<u8>) -> Result<[u8; 32], PlainProofError> {
        match form.as_slice().as_array::<32>() {
            Some(digest) => Ok(*digest),
            None => Err(PlainProofError::DigestLength),
        }
    }

    ghost told_apart = { λ a b same. same };
}
