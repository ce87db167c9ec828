//! What the queries fold.

ghost use Rattle.std.specs.Prelude.{◌≡◌, ◌<◌, [], length, slice_index_or};
ghost use Rattle.algebra.specs.Nested.{lists, nested};
ghost use Rattle.p3_fri_relation.specs.Views.{rows_collected};

/// What the queries fold.
#[derive(Drop)]
pub struct FoldedQueries<EF: Copy> {
    /// For each round and query the index of the query's row.
    pub group_indices_by_round: Vec<Vec<usize>>,
    /// For each round and query the row, as that of the one matrix.
    pub rows_by_round: Vec<Vec<Vec<Vec<EF>>>>,
}

impl<EF: Copy> FoldedQueries<EF> {
    /// The indices of a round's rows, by query.
    #[tactic(auto, using(algebra::proofs::Nested::lists_at))]
    pub(crate) fn group_indices(&self, round: usize) -> &[usize]
        requires { round < length self.now.group_indices_by_round.items }
        ensures { result.now
            ≡ slice_index_or (lists self.now.group_indices_by_round.items) round [] }
    {
        &self.group_indices_by_round[round]
    }

    /// The rows of a round, by query.
    pub(crate) fn rows(&self, round: usize) -> &[Vec<Vec<EF>>]
        requires { round < length self.now.rows_by_round.items }
        ensures { nested result.now
            ≡ slice_index_or (rows_collected self.now.rows_by_round.items) round [] }
    {
        &self.rows_by_round[round]
    }
}
