//! What is opened at the queries' positions.

ghost use Rattle.std.specs.Prelude.{◌≡◌, ◌<◌, ◌≤◌, ◌/◌, ◌%◌, ◌^◌, ◌∷◌, [], ℕ, List, All, IfOk};
ghost use Rattle.std.specs.Prelude.{length, map, remove, vec_len, slice_index, slice_index_or};
ghost use Rattle.std.specs.List.{AllZip};
ghost use Rattle.algebra.specs.Nested.{lists, nested};
ghost use Rattle.algebra.specs.Polynomial.{tabulate};
ghost use Rattle.p3_matrix.specs.declared.dense.RowMajorMatrix.{RowMajorMatrix};
ghost use Rattle.p3_mmcs.specs.Batch.{AreBelow, max_height, dimensions_of};
ghost use Rattle.p3_fri_relation.specs.Queries.{row_indices};
ghost use Rattle.p3_fri_prover.specs.Openings.{IsOneMatrix, OpensRows, OpensBatch, IsOpenable};
ghost use Rattle.p3_fri_prover.specs.Openings.{index_into};

use crate::prover::roll_in::arity_of;
use p3_field_core::log2_strict_usize;
use p3_fri_relation::proof::{BatchMultiOpening, CommitPhaseMultiStep};
use p3_mmcs::Mmcs;
use std::alloc::{AllocError, Global};

/// Committed matrices, and for each of them the points at which it is opened.
#[derive(Drop)]
pub struct ProverDataWithOpeningPoints<'a, EF, D> {
    pub prover_data: &'a D,
    pub points: &'a Vec<Vec<EF>>,
}

/// The committed inputs that the queries open, and where.
#[derive(Drop)]
pub(crate) struct QueriedInputs<'a, EF, D> {
    /// The data, with the points at which they are opened.
    pub data_with_points: &'a [ProverDataWithOpeningPoints<'a, EF, D>],
    /// The log height of the positions, the greatest of an input.
    pub log_global_max_height: usize,
    /// How many of an index's lowest bits aren't its position's.
    pub extra_bits: usize,
}

/// Each index without its lowest `bits` bits.
pub(crate) fn shifted(
    alloc: Global,
    indices: &[usize],
    bits: usize,
) -> Result<Vec<usize>, AllocError>
    requires below_64 { bits < 64 }
    ensures { IfOk result (λ shifted. shifted.items ≡ map (λ i. i / 2 ^ bits) indices.now) }
{
    let mut shifted = Vec::with_capacity(alloc, indices.len())?;
    for index in indices {
        shifted.push(*index >> bits)?;
    }
    Ok(shifted)
}

/// Takes the row of the only matrix out, and of it the entry at `place`.
fn siblings<EF: Copy>(rows: &mut Vec<Vec<EF>>, place: usize) -> Vec<EF>
    requires some_row { 0 < vec_len rows.old }
    requires within { place < length (slice_index_or (lists rows.old.items) 0 []) }
    ensures { result.items ≡ remove (slice_index_or (lists rows.old.items) 0 []) place }
{
    let mut row = rows.swap_remove(0);
    row.remove(place);
    row
}

/// The siblings of each index in its row of `arity` entries, which is taken out.
fn siblings_of_each<EF: Copy>(
    alloc: Global,
    opened: &mut [Vec<Vec<EF>>],
    indices: &[usize],
    arity: usize,
) -> Result<Vec<Vec<EF>>, AllocError>
    requires some_place { 0 < arity }
    requires count { length opened.old ≡ length indices.now }
    requires some_row { (j : ℕ) → j < length indices.now →
        0 < length (slice_index_or (nested opened.old) j []) }
    requires within { (j : ℕ) → j < length indices.now → slice_index indices.now j % arity
        < length (slice_index_or (slice_index_or (nested opened.old) j []) 0 []) }
    ensures { IfOk result (λ siblings. lists siblings.items
        ≡ tabulate (length indices.now) (λ j.
        remove (slice_index_or (slice_index_or (nested opened.old) j []) 0 [])
        (slice_index indices.now j % arity))) }
{
    let mut sibling_values = Vec::with_capacity(alloc, indices.len())?;
    for j in 0..indices.len() {
        sibling_values.push(siblings(&mut opened[j], indices[j] % arity))?;
    }
    Ok(sibling_values)
}

/// Opens the round's word at the row of each index, and keeps of each row the siblings of the
/// index.
fn open_round<EF: Copy, M: Mmcs<EF>>(
    alloc: Global,
    mmcs: &M,
    log_arity: usize,
    indices: &[usize],
    prover_data: &M::ProverData,
) -> Result<CommitPhaseMultiStep<EF, M>, AllocError>
    requires below_64 { log_arity < 64 }
    requires one_matrix { IsOneMatrix (2 ^ log_arity) (M.committed prover_data.now) }
    requires below { AreBelow (max_height (dimensions_of (M.committed prover_data.now)))
        (map (λ i. i / 2 ^ log_arity) indices.now) }
    ensures { IfOk result (λ opening. (matrix : RowMajorMatrix EF) →
        M.committed prover_data.now ≡ matrix ∷ [] →
        OpensRows (M.opens mmcs.now) log_arity matrix indices.now
        (M.commitment_of prover_data.now) (lists opening.sibling_values.items)
        opening.opening_proof) }
{
    let rows = shifted(alloc, indices, log_arity)?;
    let (mut opened, opening_proof) = mmcs.open_multi_batch(alloc, &rows, prover_data)?;
    let sibling_values = siblings_of_each(alloc, &mut opened, indices, arity_of(log_arity))?;
    Ok(CommitPhaseMultiStep {
        sibling_values,
        opening_proof,
    })
}

/// What each round opens.
pub(crate) fn answer_queries<EF: Copy, M: Mmcs<EF>>(
    alloc: Global,
    mmcs: &M,
    log_arities: &[usize],
    prover_data: &[M::ProverData],
    positions: &[usize],
) -> Result<Vec<CommitPhaseMultiStep<EF, M>>, AllocError>
    requires data_for_each { length prover_data.now ≡ length log_arities.now }
    requires openable { (k : ℕ) (datum : M.ProverData) → k < length log_arities.now →
        IsOpenable log_arities.now positions.now k
        (M.committed (slice_index_or prover_data.now k datum)) }
    ensures count { IfOk result (λ openings. vec_len openings ≡ length log_arities.now) }
    ensures each { IfOk result (λ openings. (k : ℕ) (o : _) (datum : M.ProverData)
        (matrix : RowMajorMatrix EF) → k < length log_arities.now →
        M.committed (slice_index_or prover_data.now k datum) ≡ matrix ∷ [] →
        OpensRows (M.opens mmcs.now) (slice_index log_arities.now k) matrix
        (map (λ q. index_into log_arities.now q k) positions.now)
        (M.commitment_of (slice_index_or prover_data.now k datum))
        (lists (slice_index_or openings.items k o).sibling_values.items)
        (slice_index_or openings.items k o).opening_proof) }
{
    let mut openings = Vec::with_capacity(alloc, log_arities.len())?;
    let mut indices = Vec::from_slice(alloc, positions)?;
    for round in 0..log_arities.len() {
        let log_arity = log_arities[round];
        openings.push(open_round(alloc, mmcs, log_arity, &indices, &prover_data[round])?)?;
        indices = shifted(alloc, &indices, log_arity)?;
    }
    Ok(openings)
}

/// Opens each of these batches at the positions, which are those of log height `log_max_height`.
pub(crate) fn open_inputs<EF, F: Copy, M: Mmcs<F>>(
    alloc: Global,
    mmcs: &M,
    log_max_height: usize,
    positions: &[usize],
    data_with_points: &[ProverDataWithOpeningPoints<'_, EF, M::ProverData>],
) -> Result<Vec<BatchMultiOpening<F, M>>, AllocError>
    requires below_64 { log_max_height < 64 }
    requires positions { All (λ q. q < 2 ^ log_max_height) positions.now }
    requires heights { All (λ datum. max_height (dimensions_of (M.committed datum.prover_data.now))
        ≤ 2 ^ log_max_height) data_with_points.now }
    ensures { IfOk result (λ openings. AllZip (λ datum o.
        OpensBatch (M.opens mmcs.now) log_max_height positions.now
        (M.committed datum.prover_data.now) (M.commitment_of datum.prover_data.now)
        (record { rows = nested o.opened_values.items; path = o.opening_proof }))
        data_with_points.now openings.items) }
{
    let mut openings = Vec::with_capacity(alloc, data_with_points.len())?;
    for datum in data_with_points {
        openings.push(open_input(alloc, mmcs, log_max_height, positions, datum.prover_data)?)?;
    }
    Ok(openings)
}

/// Opens a batch at the positions, which are those of log height `log_max_height`.
fn open_input<F: Copy, M: Mmcs<F>>(
    alloc: Global,
    mmcs: &M,
    log_max_height: usize,
    positions: &[usize],
    prover_data: &M::ProverData,
) -> Result<BatchMultiOpening<F, M>, AllocError>
    requires below_64 { log_max_height < 64 }
    requires positions { All (λ q. q < 2 ^ log_max_height) positions.now }
    requires height { max_height (dimensions_of (M.committed prover_data.now))
        ≤ 2 ^ log_max_height }
    ensures { IfOk result (λ o.
        OpensBatch (M.opens mmcs.now) log_max_height positions.now
        (M.committed prover_data.now) (M.commitment_of prover_data.now)
        (record { rows = nested o.opened_values.items; path = o.opening_proof })) }
{
    let log_height = log2_strict_usize(mmcs.get_max_height(prover_data));
    let indices = shifted(alloc, positions, log_max_height - log_height)?;
    let (opened_values, opening_proof) = mmcs.open_multi_batch(alloc, &indices, prover_data)?;
    Ok(BatchMultiOpening {
        opened_values,
        opening_proof,
    })
}
