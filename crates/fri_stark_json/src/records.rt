//! The records of texts. An element is its canonical number.

ghost use Rattle.std.specs.Prelude.{◌≡◌, ℕ, List, IfErr};
ghost use Rattle.p3_uni_stark_system.specs.Systems.{numbers_of};
ghost use Rattle.fri_stark_json.specs.Systems.{numbers_in};
ghost use Rattle.fri_stark_json.specs.Verdicts.{IsOfText};

use crate::failure::Failure;
use fri_records::Parameters;
use p3_air_plain::PlainAir;
use p3_uni_stark_system::PlainSystem;
use serde::Deserialize;
use std::alloc::Global;

/// What both sides know of a computation: the constraint system with its preprocessed columns, row
/// by row, and its periodic ones, and the parameters of the scheme.
#[derive(Drop, Deserialize)]
pub struct System {
    pub parameters: Parameters,
    /// The number of random columns by which the hiding scheme masks a matrix.
    #[serde(default)]
    pub num_random_codewords: usize,
    pub air: PlainAir,
    #[serde(default)]
    pub preprocessed: Vec<Vec<u64>>,
    #[serde(default)]
    pub periodic: Vec<Vec<u64>>,
}

impl System {
    /// The system by its numbers.
    pub fn plain(&self) -> PlainSystem<'_>
        ensures { (values : List ℕ) → numbers_of result values ≡ numbers_in self.now values }
    {
        PlainSystem {
            air: &self.air,
            preprocessed: self.preprocessed.as_slice(),
            periodic: self.periodic.as_slice(),
        }
    }
}

/// The public values.
#[derive(Drop, Deserialize)]
pub struct PublicValues {
    pub public_values: Vec<u64>,
}

/// A trace, row by row, with the public values.
#[derive(Drop, Deserialize)]
pub struct Trace {
    pub public_values: Vec<u64>,
    pub trace: Vec<Vec<u64>>,
}

/// The record in a JSON text.
pub fn read<'de, T: Deserialize<'de>, E>(alloc: Global, text: &'de str) -> Result<T, Failure<E>>
    ensures { IfErr result IsOfText }
{
    match serde_json::from_str(alloc, text) {
        Ok(record) => Ok(record),
        Err(error) => Err(Failure::Json(error)),
    }
}
