//! What is opened, and the values that come of it.

ghost use Rattle.std.specs.Prelude.{◌≡◌, ◌+◌, ℕ, List, [], ◌∷◌, ◌++◌, map, replicate, length};
ghost use Rattle.std.specs.Prelude.{slice_index_or, IfOk, IfErr, OnOk, Some, None, if◌then◌else◌};
ghost use Rattle.std.specs.Option.{option_copied_mut, is_some};
ghost use Rattle.algebra.specs.Nested.{lists, nested};
ghost use Rattle.p3_pcs.specs.Claims.{opened_values};
ghost use Rattle.p3_pcs.specs.Requests.{Request, request};
ghost use Rattle.p3_uni_stark_verifier.specs.Claimed.{preprocessed_index, stark_claims};
ghost use Rattle.p3_uni_stark_opening.specs.Opened.{ask, ask_if, stark_requests, first_values};
ghost use Rattle.p3_uni_stark_opening.specs.Opened.{if_some, commitments_to, AreTakenFrom};
ghost use Rattle.p3_uni_stark_opening.specs.Opened.{AreOpenable, AreOpened};
ghost use Rattle.p3_uni_stark_phases.specs.Refusals.{OpeningRefusal};

use p3_mmcs::OpenedValues as OpenedBatches;
use p3_pcs::OpeningRequest;
use p3_stark_pcs::UnivariateStarkPcs;
use p3_uni_stark_phases::ProvingError;
use p3_uni_stark_verifier::OpenedValues;
use std::alloc::{AllocError, Global};

/// The data of all commitments of a proof.
#[derive(Drop)]
pub struct ColumnData<D> {
    /// Where there are preprocessed columns.
    pub preprocessed: Option<D>,
    pub trace: D,
    /// The chunks of the quotient.
    pub quotient: D,
    /// Where the scheme hides.
    pub random: Option<D>,
}

/// For each of so many matrices a list of these points.
fn points_for<EF: Copy>(
    alloc: Global,
    count: usize,
    points: &[EF],
) -> Result<Vec<Vec<EF>>, AllocError>
    ensures { IfOk result (λ all. lists all.items ≡ replicate count points.now) }
{
    let mut all = Vec::with_capacity(alloc, count)?;
    for _index in 0..count {
        all.push(Vec::from_slice(alloc, points)?)?;
    }
    Ok(all)
}

/// Asks for each of the datum's matrices, so many, at these points.
fn push_request<'a, D: Drop, EF: Copy>(
    requests: &mut Vec<OpeningRequest<'a, D, EF>>,
    alloc: Global,
    committed: &'a mut D,
    count: usize,
    points: &[EF],
) -> Result<(), AllocError>
    ensures { OnOk result (map request requests.new.items
        ≡ map request requests.old.items ++ ask count points.now committed.entry.now ∷ []) }
{
    let all = points_for(alloc, count, points)?;
    requests.push(OpeningRequest {
        prover_data: committed,
        points: all,
    })?;
    Ok(())
}

/// The same of the one matrix of a datum that there may be.
fn push_request_if<'a, D: Drop, EF: Copy>(
    requests: &mut Vec<OpeningRequest<'a, D, EF>>,
    alloc: Global,
    committed: Option<&'a mut D>,
    points: &[EF],
) -> Result<(), AllocError>
    ensures { OnOk result (map request requests.new.items
        ≡ map request requests.old.items
        ++ ask_if points.now (option_copied_mut committed.entry)) }
{
    match committed {
        Some(known) => push_request(requests, alloc, known, 1, points),
        None => Ok(()),
    }
}

/// The values of a batch's first matrix at the point of this place: none where there is no batch.
fn matrix_values<EF: Copy>(
    alloc: Global,
    values: &[Vec<Vec<Vec<EF>>>],
    batch: Option<usize>,
    point: usize,
) -> Result<Vec<EF>, AllocError>
    ensures { IfOk result (λ found.
        found.items ≡ first_values (opened_values values.now) batch point) }
{
    if let Some(place) = batch {
        if let Some(matrices) = values.get(place) {
            if let Some(points) = matrices.as_slice().first() {
                if let Some(found) = points.as_slice().get(point) {
                    return Vec::from_slice(alloc, found.as_slice());
                }
            }
        }
    }
    Ok(Vec::new(alloc))
}

/// The values of each matrix of a batch at its first point.
fn first_of_each<EF: Copy>(
    alloc: Global,
    matrices: &[Vec<Vec<EF>>],
) -> Result<Vec<Vec<EF>>, AllocError>
    ensures { IfOk result (λ all.
        lists all.items ≡ map (λ points. slice_index_or points 0 []) (nested matrices.now)) }
{
    let mut all = Vec::with_capacity(alloc, matrices.len())?;
    for index in 0..matrices.len() {
        all.push(first_or_empty(alloc, matrices[index].as_slice())?)?;
    }
    Ok(all)
}

/// The first of these lists, empty where there is none.
fn first_or_empty<EF: Copy>(alloc: Global, points: &[Vec<EF>]) -> Result<Vec<EF>, AllocError>
    ensures { IfOk result (λ found. found.items ≡ slice_index_or (lists points.now) 0 []) }
{
    match points.first() {
        Some(values) => Vec::from_slice(alloc, values.as_slice()),
        None => Ok(Vec::new(alloc)),
    }
}

/// A batch, empty past the last.
fn batch_or_empty<EF>(values: &[Vec<Vec<Vec<EF>>>], batch: usize) -> &[Vec<Vec<EF>>]
    ensures { nested result.now ≡ slice_index_or (opened_values values.now) batch [] }
{
    match values.get(batch) {
        Some(matrices) => matrices.as_slice(),
        None => &[],
    }
}

/// The place, if there is something at it.
fn place_if(present: bool, place: usize) -> Option<usize>
    ensures { result ≡ (if present then Some place else None) }
{
    if present { Some(place) } else { None }
}

/// The trace's place: preprocessed columns come before it, if there are such.
fn trace_place(preprocessed: bool) -> usize
    ensures { result ≡ (if preprocessed then 1 else 0) }
{
    if preprocessed { 1 } else { 0 }
}

/// The opened values of a proof, by those of all batches in their order.
fn opened_columns<EF: Copy>(
    alloc: Global,
    values: &[Vec<Vec<Vec<EF>>>],
    preprocessed: bool,
    random: bool,
) -> Result<OpenedValues<EF>, AllocError>
    ensures { IfOk result (λ opened. AreTakenFrom (opened_values values.now) preprocessed random
        opened) }
{
    let trace = trace_place(preprocessed);
    let first = place_if(preprocessed, 0);
    let second = place_if(true, trace);
    let last = place_if(random, trace + 2);
    let chunks = batch_or_empty(values, trace + 1);
    Ok(OpenedValues {
        trace_local: matrix_values(alloc, values, second, 0)?,
        trace_next: matrix_values(alloc, values, second, 1)?,
        preprocessed_local: matrix_values(alloc, values, first, 0)?,
        preprocessed_next: matrix_values(alloc, values, first, 1)?,
        quotient_chunks: first_of_each(alloc, chunks)?,
        random: matrix_values(alloc, values, last, 0)?,
    })
}

/// A point with the next one, and the point alone.
fn points_at<EF: Copy>(alloc: Global, point: EF, next: EF) -> Result<(Vec<EF>, Vec<EF>), AllocError>
    ensures both { IfOk result (λ lists. lists.0.items ≡ point ∷ next ∷ []) }
    ensures one { IfOk result (λ lists. lists.1.items ≡ point ∷ []) }
{
    let mut both = Vec::with_capacity(alloc, 2)?;
    both.push(point)?;
    both.push(next)?;
    let mut one = Vec::with_capacity(alloc, 1)?;
    one.push(point)?;
    Ok((both, one))
}

/// What is asked of the data, in order.
fn requests_of<'a, D: Drop, EF: Copy>(
    alloc: Global,
    committed: &'a mut ColumnData<D>,
    num_chunks: usize,
    both: &[EF],
    one: &[EF],
) -> Result<Vec<OpeningRequest<'a, D, EF>>, AllocError>
    ensures { (z y : EF) → both.now ≡ z ∷ y ∷ [] → one.now ≡ z ∷ [] → IfOk result (λ requests.
        map request requests.items ≡ stark_requests num_chunks z y committed.old) }
{
    let mut requests = Vec::with_capacity(alloc, 4)?;
    push_request_if(&mut requests, alloc, committed.preprocessed.as_mut(), both)?;
    push_request(&mut requests, alloc, &mut committed.trace, 1, both)?;
    push_request(
        &mut requests,
        alloc,
        &mut committed.quotient,
        num_chunks,
        one,
    )?;
    push_request_if(&mut requests, alloc, committed.random.as_mut(), one)?;
    Ok(requests)
}

/// Opens the data of all commitments: preprocessed columns and trace at both points, chunks of the
/// quotient and random polynomials at the first.
pub fn open_columns<EF: Copy, C, P: UnivariateStarkPcs<EF, C>>(
    scheme: &P,
    alloc: Global,
    committed: &mut ColumnData<P::ProverData>,
    num_chunks: usize,
    points: (EF, EF),
    challenger: &mut C,
) -> Result<(OpenedValues<EF>, P::Proof), ProvingError<P::ProverError>>
    requires range { (P.rules scheme.now).InProverRange }
    requires committed { (size : ℕ) × AreOpenable (P.rules scheme.now) (P.stark_rules scheme.now)
        num_chunks size committed.old }
    ensures values { IfOk result (λ opening.
        AreOpened (P.rules scheme.now) committed.old points.0 points.1 opening.0) }
    ensures accepted { let r = P.rules scheme.now in (size : ℕ)
        → AreOpenable r (P.stark_rules scheme.now) num_chunks size committed.old
        → (domain : P.Domain) → r.domain_size domain ≡ size
        → let known = if_some r.commitment_of committed.old.preprocessed in
        IfOk result (λ opening. r.Accepts (preprocessed_index known) challenger.old
        (stark_claims domain known (commitments_to r committed.old) opening.0 points.0 points.1)
        opening.1) }
    ensures state { let r = P.rules scheme.now in (size : ℕ)
        → AreOpenable r (P.stark_rules scheme.now) num_chunks size committed.old
        → (domain : P.Domain) → r.domain_size domain ≡ size
        → let known = if_some r.commitment_of committed.old.preprocessed in
        IfOk result (λ opening. challenger.new ≡ r.last_state (preprocessed_index known)
        challenger.old
        (stark_claims domain known (commitments_to r committed.old) opening.0 points.0 points.1)
        opening.1) }
    ensures refused { let r = P.rules scheme.now in
        let known = if_some r.commitment_of committed.old.preprocessed in
        IfErr result (OpeningRefusal (r.Refuses (preprocessed_index known) challenger.old
        (stark_requests num_chunks points.0 points.1 committed.old))) }
{
    let (point, next) = points;
    let preprocessed = committed.preprocessed.is_some();
    let random = committed.random.is_some();
    let (both, one) = points_at(alloc, point, next)?;
    let both_points = both.as_slice();
    let one_point = one.as_slice();
    let mut requests = requests_of(alloc, committed, num_chunks, both_points, one_point)?;
    let asked = requests.as_mut_slice();
    let index = place_if(preprocessed, 0);
    match scheme.open_with_preprocessing(alloc, asked, challenger, index) {
        Ok((values, proof)) => {
            let opened = opened_columns(alloc, values.as_slice(), preprocessed, random)?;
            Ok((opened, proof))
        },
        Err(error) => Err(ProvingError::Opening(error)),
    }
}
