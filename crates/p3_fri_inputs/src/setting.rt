//! What the inputs are opened by.

use p3_field_core::{TwoAdicField, TwoAdicMultiplicativeCoset};
use p3_fri_relation::proof::BatchMultiOpening;
use p3_mmcs::{CommitmentOpening, Mmcs};

/// What the opening of the inputs stands on, the same for all queries of a proof: the blowup, the
/// greatest log height, the positions, and for each commitment what is claimed and what is opened.
#[derive(Drop)]
pub(crate) struct InputSetting<'a, F: TwoAdicField, EF, InputMmcs: Mmcs<F>> {
    /// The base-2 logarithm of the blowup.
    pub log_blowup: usize,
    /// The greatest log height of an input, at which each position reads.
    pub log_global_max_height: usize,
    /// The queries' positions.
    pub indices: &'a [usize],
    /// What is claimed of the matrices under each commitment.
    pub claims: &'a [CommitmentOpening<EF, InputMmcs::Commitment, TwoAdicMultiplicativeCoset<F>>],
    /// What is opened of each commitment, for all queries.
    pub openings: &'a [BatchMultiOpening<F, InputMmcs>],
}
