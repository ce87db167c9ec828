//! What all queries are folded by.

use p3_fri_relation::proof::CommitPhaseMultiStep;
use p3_mmcs::Mmcs;

/// What the folding of a query stands on, the same for all queries of a proof: how a row is folded,
/// the rounds, each with a challenge, a log arity and what it opens, and the log heights at which
/// the folds begin and end.
#[derive(Drop)]
pub struct QuerySetting<'a, EF: Copy, M: Mmcs<EF>, S> {
    /// How a row is folded.
    pub folding: &'a S,
    /// The folding challenge of each round.
    pub betas: &'a [EF],
    /// The base-2 logarithm of each round's arity.
    pub log_arities: &'a [usize],
    /// What each round opens, for all queries.
    pub openings: &'a [CommitPhaseMultiStep<EF, M>],
    /// The greatest log height of an input, at which each query begins.
    pub log_global_max_height: usize,
    /// The log height of the final polynomial's domain, at which each query ends.
    pub log_final_height: usize,
}
