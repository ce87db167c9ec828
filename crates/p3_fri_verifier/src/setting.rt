//! What the openings of a proof are verified against.

use p3_field_core::{TwoAdicField, TwoAdicMultiplicativeCoset};
use p3_fri_folding::FriParameters;
use p3_mmcs::{CommitmentOpening, Mmcs};

/// What a verifier knows by itself, whatever the proof is.
#[derive(Drop)]
pub struct VerifierSetting<'a, F: TwoAdicField, EF: Copy, M, InputMmcs: Mmcs<F>, S> {
    /// How a row is folded.
    pub folding: &'a S,
    /// The parameters, with the commitment scheme of the rounds.
    pub params: &'a FriParameters<M>,
    /// The commitment scheme of the inputs.
    pub input_mmcs: &'a InputMmcs,
    /// What is claimed of committed matrices.
    pub claims: &'a [CommitmentOpening<EF, InputMmcs::Commitment, TwoAdicMultiplicativeCoset<F>>],
}

/// The rounds and the queries of a test, as they were planned and drawn.
#[derive(Drop)]
pub(crate) struct DrawnTest<'a, EF> {
    /// The base-2 logarithm of each round's arity: the schedule's.
    pub log_arities: &'a [usize],
    /// The greatest log height of a claimed matrix.
    pub log_global_max_height: usize,
    /// The folding challenge of each round.
    pub betas: &'a [EF],
    /// The position of each query.
    pub positions: &'a [usize],
}
