//! What both sides know of a computation, by its numbers.

use p3_air_plain::PlainAir;

/// A constraint system with its preprocessed columns and its periodic ones. Elements are their
/// canonical numbers.
#[derive(Clone, Copy, Debug)]
pub struct PlainSystem<'a> {
    pub air: &'a PlainAir,
    /// The preprocessed columns, row by row.
    pub preprocessed: &'a [Vec<u64>],
    /// The periodic columns, each a list of entries that is gone through again and again.
    pub periodic: &'a [Vec<u64>],
}
