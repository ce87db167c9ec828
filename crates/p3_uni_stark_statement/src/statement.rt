//! What a verifier knows by itself, by its numbers.

use p3_air_plain::PlainAir;
use p3_uni_stark_verifier::PreprocessedVerifierKey;

/// What a verifier knows by itself: the constraint system, the key of its preprocessed columns, its
/// periodic columns, and the public values. Elements are their canonical numbers.
#[derive(Clone, Copy, Debug)]
pub struct PlainStatement<'a, Com> {
    pub air: &'a PlainAir,
    /// Where there are preprocessed columns.
    pub preprocessed: Option<PreprocessedVerifierKey<Com>>,
    pub periodic: &'a [Vec<u64>],
    pub public_values: &'a [u64],
}
