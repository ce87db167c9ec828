//! Seeds of masks.

use crate::failure::Failure;

/// The seed of these bytes.
pub fn seed_of<E>(bytes: &[u8]) -> Result<[u8; 32], Failure<E>> {
    match <[u8; 32]>::try_from(bytes) {
        Ok(seed) => Ok(seed),
        Err(_) => Err(Failure::Seed),
    }
}
