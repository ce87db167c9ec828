//! The rounds' words, opened to the rows that the queries fold.

ghost use Rattle.std.specs.Prelude.{◌≡◌, ◌^◌, ◌<◌, ◌≤◌, ◌↔◌, List, [], ◌∷◌, length, sum};
ghost use Rattle.std.specs.Prelude.{IsOk, IfErr, EachIndex, slice_index, slice_index_or};
ghost use Rattle.algebra.specs.Nested.{lists, nested};
ghost use Rattle.p3_mmcs.specs.Batch.{AreBelow};
ghost use Rattle.p3_fri_relation.specs.declared.error.FriError.TheVariants.{CommitPhaseMmcsError};
ghost use Rattle.p3_fri_relation.specs.Queries.{heights_after};
ghost use Rattle.p3_fri_relation.specs.Views.{rounds_opened, rows_collected};
ghost use Rattle.p3_fri_queries.specs.Opened.{RoundsOpenTo, SomeRoundFails};

use crate::folded::FoldedQueries;
use p3_fri_relation::error::FriError;
use p3_fri_relation::proof::CommitPhaseMultiStep;
use p3_matrix::Dimensions;
use p3_mmcs::Mmcs;

/// The dimensions of a round's word, in rows of `2^log_arity` values.
fn round_dimensions(log_arity: usize, log_height: usize) -> Dimensions
    requires log_arity { log_arity < 64 }
    requires log_height { log_height < 64 }
    ensures { result ≡ record { width = 2 ^ log_arity; height = 2 ^ log_height } }
{
    Dimensions {
        width: 1 << log_arity,
        height: 1 << log_height,
    }
}

/// Verifies that the rows at these indices are those of a round's word, in rows of `2^log_arity`
/// values, of which there are `2^log_height`.
fn verify_round<EF: Copy, M: Mmcs<EF>, B>(
    mmcs: &M,
    commitment: &M::Commitment,
    log_arity: usize,
    log_height: usize,
    indices: &[usize],
    rows: &[Vec<Vec<EF>>],
    proof: &M::MultiProof,
) -> Result<(), FriError<M::Error, B>>
    requires log_arity { log_arity < 64 }
    requires log_height { log_height < 64 }
    requires below { AreBelow (2 ^ log_height) indices.now }
    ensures exact { IsOk result ↔ M.opens mmcs.now commitment.now
        (record { width = 2 ^ log_arity; height = 2 ^ log_height } ∷ [])
        indices.now (nested rows.now) proof.now }
    ensures refusal { IfErr result (λ e. (error : M.Error) × (e ≡ CommitPhaseMmcsError error)) }
{
    let dimensions = round_dimensions(log_arity, log_height);
    match mmcs.verify_multi_batch(commitment, &[dimensions], indices, rows, proof) {
        Ok(()) => Ok(()),
        Err(error) => Err(FriError::CommitPhaseMmcsError(error)),
    }
}

/// Verifies the rows that the queries fold against the rounds' commitments, those of all queries at
/// once: the word of each round, in rows of its arity, is of its log height after folding.
///
/// There is a commitment, an opening, a list of indices and one of rows for each log arity. These
/// sum to at most the greatest log height, which is below 64, and the indices lie below the numbers
/// of rows.
///
/// # Errors
///
/// `CommitPhaseMmcsError`, with the scheme's own error, where the rows of some round aren't its
/// word's.
pub fn verify_rounds<EF: Copy, M: Mmcs<EF>, B>(
    mmcs: &M,
    commitments: &[M::Commitment],
    log_arities: &[usize],
    log_global_max_height: usize,
    openings: &[CommitPhaseMultiStep<EF, M>],
    folded: &FoldedQueries<EF>,
) -> Result<(), FriError<M::Error, B>>
    requires commitments { length commitments.now ≡ length log_arities.now }
    requires openings { length openings.now ≡ length log_arities.now }
    requires indices { length folded.now.group_indices_by_round.items ≡ length log_arities.now }
    requires rows { length folded.now.rows_by_round.items ≡ length log_arities.now }
    requires within { sum log_arities.now ≤ log_global_max_height }
    requires small { log_global_max_height < 64 }
    requires below { EachIndex log_arities.now (λ k.
        AreBelow (2 ^ slice_index (heights_after log_arities.now log_global_max_height) k)
        (slice_index_or (lists folded.now.group_indices_by_round.items) k [])) }
    ensures exact { IsOk result ↔ RoundsOpenTo (M.opens mmcs.now) log_arities.now
        log_global_max_height (lists folded.now.group_indices_by_round.items)
        (rows_collected folded.now.rows_by_round.items) commitments.now
        (rounds_opened openings.now) }
    ensures refusal { IfErr result (λ e. (error : M.Error) × (e ≡ CommitPhaseMmcsError error)
        × SomeRoundFails (M.opens mmcs.now) log_arities.now
        log_global_max_height (lists folded.now.group_indices_by_round.items)
        (rows_collected folded.now.rows_by_round.items) commitments.now
        (rounds_opened openings.now)) }
{
    let mut log_height = log_global_max_height;
    for round in 0..log_arities.len() {
        let log_arity = log_arities[round];
        log_height -= log_arity;
        verify_round(
            mmcs,
            &commitments[round],
            log_arity,
            log_height,
            folded.group_indices(round),
            folded.rows(round),
            &openings[round].opening_proof,
        )?;
    }
    Ok(())
}
