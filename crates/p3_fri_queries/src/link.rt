//! Where a query stands between its rounds, and what a round folds by.

/// Where a query stands: at an index of a word of this log height, with the value there.
#[derive(Clone, Copy)]
pub(crate) struct QueryLink<EF> {
    pub index: usize,
    pub log_height: usize,
    pub value: EF,
}

/// What a round folds by: the base-2 logarithm of its arity, and its challenge.
#[derive(Clone, Copy)]
pub(crate) struct FoldRound<EF> {
    pub log_arity: usize,
    pub beta: EF,
}
