//! The parts of a statement.

use p3_field::{BabyBear, BabyBear4, TwoAdicMultiplicativeCoset};

/// A matrix of a statement, which is opened at points of the field `EF`.
#[derive(Drop)]
pub struct StatedMatrix<EF = BabyBear4, Domain = TwoAdicMultiplicativeCoset<BabyBear>> {
    /// Where its columns are functions on.
    pub domain: Domain,
    /// The number of its columns.
    pub width: usize,
    /// Where it is opened.
    pub points: Vec<EF>,
}

/// A commitment of a statement, and the matrices under it.
#[derive(Drop)]
pub struct StatedCommitment<EF = BabyBear4, Domain = TwoAdicMultiplicativeCoset<BabyBear>> {
    pub commitment: [u8; 32],
    pub matrices: Vec<StatedMatrix<EF, Domain>>,
}
