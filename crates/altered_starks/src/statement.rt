//! What a verifier of a STARK knows by itself, as it stands in JSON.

use alterations::{number, place, read, read_plain};
use anyhow::Result;
use p3_air_plain::PlainAir;
use p3_uni_stark_statement::PlainStatement;
use p3_uni_stark_verifier::PreprocessedVerifierKey;
use serde_json::Value;
use std::alloc::Global;

/// The key of preprocessed columns.
type Key = PreprocessedVerifierKey<[u8; 32]>;

/// What a verifier knows by itself, in lists of its own.
#[derive(Drop)]
pub struct Known {
    air: PlainAir,
    preprocessed: Option<Key>,
    periodic: Vec<Vec<u64>>,
    public_values: Vec<u64>,
}

impl Known {
    /// The same, lent.
    pub fn statement(&self) -> PlainStatement<'_, [u8; 32]> {
        PlainStatement {
            air: &self.air,
            preprocessed: self.preprocessed,
            periodic: self.periodic.as_slice(),
            public_values: self.public_values.as_slice(),
        }
    }
}

/// The key, where there is one.
fn read_key(alloc: Global, key: &Value) -> Result<Option<Key>> {
    if key.is_null() {
        return Ok(None);
    }
    Ok(Some(PreprocessedVerifierKey {
        commitment: read_plain::<[u8; 32]>(alloc, key, "/commitment")?,
        log_height: number(key, "/log_height")?,
    }))
}

/// What a verifier knows of this STARK.
pub fn read_known(alloc: Global, stark: &Value) -> Result<Known> {
    Ok(Known {
        air: read(alloc, stark, "/system/air")?,
        preprocessed: read_key(alloc, place(stark, "/system/preprocessed")?)?,
        periodic: read(alloc, stark, "/system/periodic")?,
        public_values: read(alloc, stark, "/public_values")?,
    })
}
