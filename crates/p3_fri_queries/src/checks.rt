//! Whether a query that is folded by itself is in order.

ghost use Rattle.std.specs.Prelude.{◌≡◌, ◌-◌, ◌^◌, ◌<◌, ◌≤◌, ◌⊎◌, ◌↔◌, min};
ghost use Rattle.std.specs.Prelude.{[], map, length, sum, slice_index, slice_index_or};
ghost use Rattle.std.specs.Prelude.{IsTrue, IsNone, IfSome};
ghost use Rattle.algebra.specs.Nested.{lists};
ghost use Rattle.p3_fri_relation.specs.FoldedQuery.{AreInRange, HasRow, HaveRows, AreMet, reaches};
ghost use Rattle.p3_fri_relation.specs.Faults.{IsUnmet};
ghost use Rattle.p3_fri_relation.specs.Views.{siblings_opened};

use p3_fri_relation::proof::CommitPhaseMultiStep;
use p3_mmcs::Mmcs;

/// The first round whose log arity isn't from 1 to 63.
pub(crate) fn first_out_of_range(log_arities: &[usize]) -> Option<usize>
    ensures none { IsNone result ↔ AreInRange log_arities.now }
    ensures some { IfSome result (λ round. (round < length log_arities.now)
        × ((slice_index log_arities.now round ≡ 0) ⊎ (64 ≤ slice_index log_arities.now round))) }
{
    for (round, log_arity) in log_arities.iter().enumerate() {
        if *log_arity == 0 || *log_arity >= 64 {
            return Some(round);
        }
    }
    None
}

/// Whether a round of this log arity opens the query's row.
fn has_row<E: Copy>(query: usize, log_arity: usize, rows: &[Vec<E>]) -> bool
    requires positive { 0 < log_arity }
    requires small { log_arity < 64 }
    ensures { IsTrue result ↔ HasRow query log_arity (lists rows.now) }
{
    query < rows.len() && rows[query].len() == (1 << log_arity) - 1
}

/// The first round with a log arity that doesn't open the query's row.
pub(crate) fn first_without_row<E: Copy, M: Mmcs<E>>(
    query: usize,
    log_arities: &[usize],
    openings: &[CommitPhaseMultiStep<E, M>],
) -> Option<usize>
    requires { AreInRange log_arities.now }
    ensures none { IsNone result ↔ HaveRows query log_arities.now (siblings_opened openings.now) }
    ensures some { IfSome result (λ round.
        (round < length log_arities.now) × (round < length openings.now)
        × (¬ HasRow query (slice_index log_arities.now round)
        (slice_index_or (siblings_opened openings.now) round []))) }
{
    for round in 0..log_arities.len().min(openings.len()) {
        if !has_row(
            query,
            log_arities[round],
            openings[round].sibling_values.as_slice(),
        ) {
            return Some(round);
        }
    }
    None
}

/// Whether the sum is at most the limit.
pub(crate) fn sums_within(log_arities: &[usize], limit: usize) -> bool
    ensures { IsTrue result ↔ sum log_arities.now ≤ limit }
{
    let mut left = limit;
    for log_arity in log_arities {
        if *log_arity > left {
            return false;
        }
        left -= *log_arity;
    }
    true
}

/// The sum, or the greatest number where it passes that.
pub(crate) fn saturated_sum(log_arities: &[usize]) -> usize
    ensures { result ≡ min (sum log_arities.now) (2 ^ 64 - 1) }
{
    let mut total: usize = 0;
    for log_arity in log_arities {
        total = total.saturating_add(*log_arity);
    }
    total
}

/// The log height to which the rounds lead.
pub(crate) fn last_height(log_arities: &[usize], log_height: usize) -> usize
    requires { sum log_arities.now ≤ log_height }
    ensures { result ≡ log_height - sum log_arities.now }
{
    let mut height = log_height;
    for log_arity in log_arities {
        height -= *log_arity;
    }
    height
}

/// Whether a round folds to a log height.
fn is_reached(log_arities: &[usize], log_height: usize, wanted: usize) -> bool
    requires { sum log_arities.now ≤ log_height }
    ensures { result ≡ reaches log_arities.now log_height wanted }
{
    let mut height = log_height;
    for log_arity in log_arities {
        height -= *log_arity;
        if height == wanted {
            return true;
        }
    }
    false
}

/// The first input, of those after one at the log height, that the rounds don't meet: its log
/// height, and how many are left from it on.
pub(crate) fn first_unmet<E: Copy>(
    log_arities: &[usize],
    log_height: usize,
    inputs: &[(usize, E)],
) -> Option<(usize, usize)>
    requires { sum log_arities.now ≤ log_height }
    ensures none { IsNone result ↔ AreMet (reaches log_arities.now log_height) log_height
        (map (λ input. input.0) inputs.now) }
    ensures some { IfSome result (λ unmet.
        IsUnmet (reaches log_arities.now log_height) unmet.0 unmet.1 log_height
        (map (λ input. input.0) inputs.now)) }
{
    let mut last = log_height;
    for (k, input) in inputs.iter().enumerate() {
        if input.0 >= last || !is_reached(log_arities, log_height, input.0) {
            return Some((input.0, inputs.len() - k));
        }
        last = input.0;
    }
    None
}
