//! Requests, read whole before anything is committed to.

ghost use Rattle.std.specs.Prelude.{◌≡◌, ◌≢◌, ◌≤◌, ◌↔◌, ℕ, [], All, IsTrue, IfOk, IfErr};
ghost use Rattle.std.specs.Prelude.{Ok, Option, string_bytes};
ghost use Rattle.std.specs.List.{AllZip, flat_map};
ghost use Rattle.algebra.specs.Nested.{nested};
ghost use Rattle.hex.specs.Hex.{decode_of};
ghost use Rattle.fri_schemes.specs.Rows.{FitsRows};
ghost use Rattle.fri_records.specs.Failures.{IfMalformed};
ghost use Rattle.fri_records.specs.Records.{AreProvers};
ghost use Rattle.algebra.specs.Field.{multiple};
ghost use Rattle.fri_commitments.specs.Committed.{ListsBy};
ghost use Rattle.fri_commitments.specs.Read.{AreRead, AreReadBy, ArePoints, ArePointsBy};
ghost use Rattle.fri_commitments.specs.Preprocessing.{NamesPreprocessed};
ghost use Rattle.fri_numbers.specs.Shapes.{IsMatrixBelow, HasPointsBy};
ghost use Rattle.fri_commitments.specs.Requests.{AllMatrices};
ghost use Rattle.fri_commitments.specs.Requests.{AreBatchesOf};
ghost use Rattle.fri_commitments.specs.Requests.{CanOpen};

use fri_numbers::{Numbered, batch_evaluations, batch_points};
use fri_records::{Batch, Fault, Misfit, Place, ReadError, Request};
use fri_schemes::{Coset, SchemeField, SchemeParts};
use fri_verification::context_of;
use p3_field::{PrimeField64, TwoAdicField};
use p3_matrix::RowMajorMatrix;
use std::alloc::Global;

/// The matrices of a batch, on the domains on which they are committed to.
#[derive(Drop)]
pub struct ListedBatch<F, Domain> {
    pub evaluations: Vec<(Domain, RowMajorMatrix<F>)>,
    pub preprocessed: bool,
}

/// The batches of a request.
#[derive(Drop)]
pub struct Batches<F, Domain> {
    pub all: Vec<ListedBatch<F, Domain>>,
    /// The place of the preprocessed batch, if there is one.
    pub preprocessing: Option<usize>,
}

/// What is to be opened of a request.
#[derive(Drop)]
pub struct Asked<F, EF, Domain> {
    pub batches: Batches<F, Domain>,
    /// Those of each matrix of each batch.
    pub points: Vec<Vec<Vec<EF>>>,
    /// The context's bytes.
    pub context: Vec<u8>,
}

/// The place of a batch.
fn place_of(index: usize) -> Place {
    Place {
        commitment: Some(index),
        ..Place::NONE
    }
}

/// The place of the preprocessed batch, if there is one, and no other is.
fn preprocessing_of(batches: &[Batch]) -> Result<Option<usize>, Misfit>
    ensures named { IfOk result (λ index. NamesPreprocessed index batches.now) }
    ensures refused { IfErr result (λ _.
        ¬ ((index : Option ℕ) × NamesPreprocessed index batches.now)) }
{
    let mut found = None;
    for (index, batch) in batches.iter().enumerate() {
        if batch.preprocessed {
            if found.is_some() {
                return Err(place_of(index).lacks(Fault::Preprocessed));
            }
            found = Some(index);
        }
    }
    Ok(found)
}

/// The matrices of each batch.
fn listed_batches<F: PrimeField64 + TwoAdicField>(
    alloc: Global,
    batches: &[Batch],
    log_blowup: usize,
    hides: bool,
) -> Result<Vec<ListedBatch<F, Coset<F>>>, ReadError>
    requires blowup { log_blowup ≤ F.TWO_ADICITY }
    ensures listed { IfOk result (λ all. AllZip (ListsBy (λ number. multiple F.ops number)
        (λ d. F.canonical d.shift) (λ d. d.log_size) hides) all.items batches.now) }
    ensures fit { IfOk result (λ all. All (λ b. All (λ e. FitsRows F.TWO_ADICITY hides log_blowup
        e.0.log_size e.1) b.evaluations.items) all.items) }
    ensures well_formed { IfOk result (λ _. AllMatrices
        (IsMatrixBelow F.ORDER_U64 F.TWO_ADICITY hides log_blowup) batches.now) }
    ensures refused { IfErr result (IfMalformed (¬ AllMatrices
        (IsMatrixBelow F.ORDER_U64 F.TWO_ADICITY hides log_blowup) batches.now)) }
{
    let mut all = Vec::with_capacity(alloc, batches.len())?;
    for (index, batch) in batches.iter().enumerate() {
        let place = place_of(index);
        all.push(ListedBatch {
            evaluations: batch_evaluations::<F>(alloc, batch, log_blowup, hides, place)?,
            preprocessed: batch.preprocessed,
        })?;
    }
    Ok(all)
}

/// What batches list.
pub(crate) fn read_batches<F: PrimeField64 + TwoAdicField>(
    alloc: Global,
    batches: &[Batch],
    log_blowup: usize,
    hides: bool,
) -> Result<Batches<F, Coset<F>>, ReadError>
    requires blowup { log_blowup ≤ F.TWO_ADICITY }
    ensures read { IfOk result (λ b. AreReadBy (λ number. multiple F.ops number)
        (λ d. F.canonical d.shift) (λ d. d.log_size) F.TWO_ADICITY hides log_blowup batches.now
        b.preprocessing b.all.items) }
    ensures well_formed { IfOk result (λ _. AreBatchesOf
        (IsMatrixBelow F.ORDER_U64 F.TWO_ADICITY hides log_blowup) batches.now) }
    ensures refused { IfErr result (IfMalformed (¬ AreBatchesOf
        (IsMatrixBelow F.ORDER_U64 F.TWO_ADICITY hides log_blowup) batches.now)) }
{
    let preprocessing = preprocessing_of(batches)?;
    Ok(Batches {
        all: listed_batches::<F>(alloc, batches, log_blowup, hides)?,
        preprocessing,
    })
}

/// The points of each matrix of each batch. `Malformed` names the first matrix without any, or the
/// first that isn't one.
pub(crate) fn points_of<EF: Copy, D: Copy, N: Numbered<EF, D>>(
    alloc: Global,
    batches: &[Batch],
) -> Result<Vec<Vec<Vec<EF>>>, ReadError>
    ensures points { IfOk result (λ all.
        ArePointsBy N.numbers_of (nested all.items) batches.now) }
    ensures refused { IfErr result (IfMalformed
        (¬ AllMatrices (HasPointsBy N.IsPoint) batches.now)) }
{
    let mut all = Vec::with_capacity(alloc, batches.len())?;
    for (index, batch) in batches.iter().enumerate() {
        all.push(batch_points::<EF, D, N>(alloc, batch, place_of(index))?)?;
    }
    Ok(all)
}

/// Whether some batch has a matrix.
pub fn have_matrix(batches: &[Batch]) -> bool
    ensures { IsTrue result ↔ (flat_map (λ b. b.matrices.items) batches.now ≢ []) }
{
    for batch in batches {
        if !batch.matrices.is_empty() {
            return true;
        }
    }
    false
}

/// What is to be opened of a request of a prover's parameters.
pub fn read_request<F: SchemeField>(
    alloc: Global,
    request: &Request,
    hides: bool,
) -> Result<Asked<F, F::Extension, Coset<F>>, ReadError>
    requires provers { AreProvers F.TWO_ADICITY request.now.parameters }
    ensures read { IfOk result (λ a. AreRead ⟦<F as SchemeParts>⟧.fields hides (λ d. d.shift)
        (λ d. d.log_size) request.now.parameters.log_blowup request.now.commitments.items
        a.batches.preprocessing a.batches.all.items) }
    ensures points { IfOk result (λ a. ArePoints ⟦<F as SchemeParts>⟧.fields
        (nested a.points.items) request.now.commitments.items) }
    ensures context { IfOk result (λ a.
        decode_of (string_bytes request.now.context) ≡ Ok a.context.items) }
    ensures well_formed { IfOk result (λ _.
        CanOpen ⟦<F as SchemeParts>⟧.fields hides request.now) }
    ensures refused { IfErr result (IfMalformed
        (¬ CanOpen ⟦<F as SchemeParts>⟧.fields hides request.now)) }
{
    let points = points_of::<F::Extension, Coset<F>, F>(alloc, &request.commitments)?;
    let log_blowup = request.parameters.log_blowup;
    let batches = read_batches::<F>(alloc, &request.commitments, log_blowup, hides)?;
    let context = context_of(alloc, &request.context)?;
    if !have_matrix(&request.commitments) {
        return Err(Place::NONE.lacks(Fault::Matrices).into());
    }
    Ok(Asked {
        batches,
        points,
        context,
    })
}
