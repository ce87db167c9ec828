//! Claims of openings as they stand in JSON, as numbers and lists.

use crate::answer::{Claim, Domain};
use alterations::{entries, number, read_plain};
use anyhow::{Context, Result};
use p3_field::{BabyBear, BabyBear4};
use p3_fri_plain::{Each, Element, ExtensionElement};
use p3_mmcs::{CommitmentOpening, MatrixOpening, PointOpening};
use serde_json::Value;
use std::alloc::Global;

/// Elements of the extension, by their coefficients.
type Coefficients = ExtensionElement<BabyBear, BabyBear4>;

/// What an entry of a list of claims says.
pub trait Read: Drop + Sized {
    fn read(alloc: Global, value: &Value) -> Result<Self>;
}

impl Read for PointOpening<BabyBear4> {
    fn read(alloc: Global, value: &Value) -> Result<Self> {
        Ok(PointOpening {
            point: read_plain::<Coefficients>(alloc, value, "/point")?,
            values: read_plain::<Each<Coefficients>>(alloc, value, "/values")?,
        })
    }
}

/// A matrix on the coset of a shift and of `2^log_size` points.
impl Read for MatrixOpening<BabyBear4, Domain> {
    fn read(alloc: Global, value: &Value) -> Result<Self> {
        let shift = read_plain::<Element<BabyBear>>(alloc, value, "/shift")?;
        let log_size = number(value, "/log_size")?;
        Ok(MatrixOpening {
            domain: Domain::new(shift, log_size).context("no such domain")?,
            points: read_list(alloc, value, "/points")?,
        })
    }
}

impl Read for Claim {
    fn read(alloc: Global, value: &Value) -> Result<Self> {
        Ok(CommitmentOpening {
            commitment: read_plain::<[u8; 32]>(alloc, value, "/commitment")?,
            matrices: read_list(alloc, value, "/matrices")?,
        })
    }
}

/// What the entries of the list at this place say.
pub fn read_list<T: Read>(alloc: Global, value: &Value, path: &str) -> Result<Vec<T>> {
    let mut list = Vec::new(alloc);
    for entry in entries(value, path)? {
        list.push(T::read(alloc, entry)?)?;
    }
    Ok(list)
}
