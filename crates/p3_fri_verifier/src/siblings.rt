//! Whether the rounds open rows of siblings as their log arities ask for.

ghost use Rattle.std.specs.Prelude.{◌≡◌, ℕ, ◌+◌, ◌-◌, ◌^◌, ◌<◌, ◌↔◌, All, length, slice_index};
ghost use Rattle.std.specs.Prelude.{IsNone, IfSome, IsOk, IfErr};
ghost use Rattle.std.specs.List.{AllZip, Any};
ghost use Rattle.algebra.specs.Nested.{lists};
ghost use Rattle.p3_fri_relation.specs.TestRounds.{HasSiblings};
ghost use Rattle.p3_fri_pow.specs.Counts.{IsWrongCount};
ghost use Rattle.p3_fri_relation.specs.Faults.{At};
ghost use Rattle.p3_fri_relation.specs.Views.{round_opened, rounds_opened};
ghost use Rattle.p3_fri_verifier.specs.Counts.{SiblingFault};

use p3_fri_relation::error::FriError;
use p3_fri_relation::proof::CommitPhaseMultiStep;
use p3_mmcs::Mmcs;

/// The length of the first row that doesn't have the wanted one.
fn other_length<E: Copy>(rows: &[Vec<E>], wanted: usize) -> Option<usize>
    ensures none { IsNone result ↔ All (λ row. length row ≡ wanted) (lists rows.now) }
    ensures some { IfSome result (λ got.
        Any (λ row. IsWrongCount wanted (length row) wanted got) (lists rows.now)) }
{
    for row in rows {
        if row.len() != wanted {
            return Some(row.len());
        }
    }
    None
}

/// How many siblings a value has in a row of this arity.
fn siblings_in_row(log_arity: usize) -> usize
    requires small { log_arity < 64 }
    ensures { result + 1 ≡ 2 ^ log_arity }
{
    (1 << log_arity) - 1
}

/// Whether a round opens a row for each query, each of one value less than its arity.
fn check_round<E: Copy, M: Mmcs<E>, A, B>(
    num_queries: usize,
    log_arity: usize,
    round: usize,
    opening: &CommitPhaseMultiStep<E, M>,
) -> Result<(), FriError<A, B>>
    requires small { log_arity < 64 }
    ensures exact { IsOk result ↔ HasSiblings num_queries log_arity (round_opened opening.now) }
    ensures refusal { IfErr result
        (SiblingFault num_queries log_arity round (round_opened opening.now)) }
{
    let rows = opening.sibling_values.as_slice();
    if rows.len() != num_queries {
        return Err(FriError::CommitPhaseQueryCountMismatch {
            round,
            expected: num_queries,
            got: rows.len(),
        });
    }
    let expected = siblings_in_row(log_arity);
    match other_length(rows, expected) {
        None => Ok(()),
        Some(got) => Err(FriError::SiblingValuesLengthMismatch {
            round,
            expected,
            got,
        }),
    }
}

/// Whether each round does.
pub fn check_siblings<E: Copy, M: Mmcs<E>, A, B>(
    num_queries: usize,
    log_arities: &[usize],
    openings: &[CommitPhaseMultiStep<E, M>],
) -> Result<(), FriError<A, B>>
    requires small { All (λ log_arity. log_arity < 64) log_arities.now }
    requires count { length openings.now ≡ length log_arities.now }
    ensures exact { IsOk result
        ↔ AllZip (HasSiblings num_queries) log_arities.now (rounds_opened openings.now) }
    ensures refusal { IfErr result (λ e. (round : ℕ) × (round < length log_arities.now)
        × At round (λ r. SiblingFault num_queries (slice_index log_arities.now round) round r e)
        (rounds_opened openings.now)) }
{
    for round in 0..log_arities.len() {
        check_round(num_queries, log_arities[round], round, &openings[round])?;
    }
    Ok(())
}
