//! What the rounds' collectors gain at a query.

ghost use Rattle.std.specs.Prelude.{◌≡◌, ◌<◌, [], ◌∷◌, ◌++◌, length, IsOk, slice_set};
ghost use Rattle.std.specs.Prelude.{slice_index_or};
ghost use Rattle.algebra.specs.Nested.{lists};
ghost use Rattle.p3_fri_relation.specs.Views.{rows_collected};

use std::alloc::{AllocError, Global};

/// A round's collectors gain a row, by its index and by its values.
pub(crate) fn collect<E: Copy>(
    alloc: Global,
    round: usize,
    group_index: usize,
    row: Vec<E>,
    group_indices_by_round: &mut [Vec<usize>],
    rows_by_round: &mut [Vec<Vec<Vec<E>>>],
) -> Result<(), AllocError>
    requires indices { round < length group_indices_by_round.old }
    requires rows { round < length rows_by_round.old }
    ensures lengths { (length group_indices_by_round.new ≡ length group_indices_by_round.old)
        × (length rows_by_round.new ≡ length rows_by_round.old) }
    ensures indices { IsOk result → lists group_indices_by_round.new
        ≡ slice_set (lists group_indices_by_round.old) round
        (slice_index_or (lists group_indices_by_round.old) round [] ++ group_index ∷ []) }
    ensures rows { IsOk result → rows_collected rows_by_round.new
        ≡ slice_set (rows_collected rows_by_round.old) round
        (slice_index_or (rows_collected rows_by_round.old) round [] ++ (row.items ∷ []) ∷ []) }
{
    group_indices_by_round[round].push(group_index)?;
    rows_by_round[round].push(vec![in alloc; row]?)?;
    Ok(())
}
