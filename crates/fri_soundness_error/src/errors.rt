//! What one round, and one batch, adds to the error.

ghost use Rattle.std.specs.Prelude.{◌≡◌, ◌↔◌, ◌<◌, ◌≤◌, ◌*◌, ◌+◌, ◌^◌, IsTrue};
ghost use Rattle.fri_soundness_error.specs.Errors.{degree_of, HasRoundRoom, HasBatchRoom, HasRows};

/// What is counted of a round that folds to `log_height` by `log_arity`.
#[derive(Clone, Copy, Debug, PartialEq, Eq)]
pub struct RoundError {
    /// The logarithm of the folded word's height.
    pub log_height: usize,
    /// The logarithm of how many values a row has.
    pub log_arity: usize,
    /// The degree of the round's curve in the challenge.
    pub degree: usize,
    /// How many rows can fail.
    pub failing_rows: usize,
    /// How many challenges can be bad, at most.
    pub bad_challenges: u128,
}

/// What is counted of the batch of one log height.
#[derive(Clone, Copy, Debug, PartialEq, Eq)]
pub struct BatchError {
    /// The logarithm of the columns' height.
    pub log_height: usize,
    /// How many columns are batched, one for each point at which they are opened.
    pub columns: usize,
    /// How many rows can fail.
    pub failing_rows: usize,
    /// How many challenges can be bad, at most.
    pub bad_challenges: u128,
}

impl RoundError {
    /// Whether so many failing rows leave the round as many as the statement asks for.
    pub fn has_room(&self, log_blowup: usize) -> bool
        requires small { self.now.log_height < 64 }
        ensures { IsTrue result ↔ HasRoundRoom log_blowup self.now }
    {
        has_room(
            log_blowup,
            self.log_height,
            self.degree as u128 + 2,
            self.failing_rows,
        )
    }
}

impl BatchError {
    /// Whether so many failing rows leave the batch as many as the statement asks for.
    pub fn has_room(&self, log_blowup: usize) -> bool
        requires small { self.now.log_height < 64 }
        ensures { IsTrue result ↔ HasBatchRoom log_blowup self.now }
    {
        has_room(
            log_blowup,
            self.log_height,
            self.columns as u128 + 1,
            self.failing_rows,
        )
    }
}

/// Whether `2^log_height` rows are as many as `shares` of the failing ones and the degree bound.
#[tactic(auto, using(crate::proofs::Rooms::too_many))]
fn has_room(log_blowup: usize, log_height: usize, shares: u128, failing_rows: usize) -> bool
    requires small { log_height < 64 }
    requires some { 1 ≤ shares }
    requires few { shares ≤ 2 ^ 64 + 1 }
    ensures { IsTrue result ↔ HasRows log_blowup log_height shares failing_rows }
{
    if log_blowup > log_height {
        return false;
    }
    let rows = 1u128 << log_height;
    let failing = failing_rows as u128;
    if failing > rows {
        return false;
    }
    shares * failing + (1u128 << (log_height - log_blowup)) <= rows
}

/// The degree of the curve of a round, with an input rolled in or without.
pub(crate) fn degree(has_input: bool, log_arity: usize) -> usize
    requires small { log_arity < 64 }
    ensures { result ≡ degree_of has_input log_arity }
{
    let arity = 1usize << log_arity;
    if has_input { arity } else { arity - 1 }
}

/// How many challenges of a curve can be bad, where so many rows can fail.
pub(crate) fn bad_challenges(degree: usize, failing_rows: usize) -> u128
    ensures { result ≡ degree * (failing_rows + 1) }
{
    degree as u128 * (failing_rows as u128 + 1)
}
