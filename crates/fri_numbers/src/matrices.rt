//! The matrices of a request, and the points at which they are to be opened.

ghost use Rattle.std.specs.Prelude.{◌≡◌, ◌≢◌, ◌↔◌, ◌+◌, ◌*◌, ◌^◌, ◌<◌, ◌≤◌, All, IsTrue, IfOk};
ghost use Rattle.std.specs.Prelude.{ℕ, [], length, map, vec_len, false, IfErr, IsNone, IfSome};
ghost use Rattle.algebra.specs.Nested.{lists};
ghost use Rattle.p3_matrix.specs.Matrix.{rows, matrix_width};
ghost use Rattle.p3_matrix.specs.Rows.{rows_of};
ghost use Rattle.fri_schemes.specs.Rows.{log_committed, FitsRows};
ghost use Rattle.algebra.specs.Field.{multiple};
ghost use Rattle.fri_numbers.specs.Listed.{IsListedBy, AreListedBy};
ghost use Rattle.fri_records.specs.Failures.{IfMalformed};
ghost use Rattle.fri_numbers.specs.Elements.{batch_of, record_of};
ghost use Rattle.fri_numbers.specs.Shapes.{HasShape, HasPointsBy, IsMatrixBelow};

use crate::elements::{Numbered, coset, elements};
use fri_records::{Batch, Domain, Fault, Matrix, Misfit, Place, ReadError};
use fri_schemes::Coset;
use p3_field::{PrimeField64, TwoAdicField, TwoAdicMultiplicativeCoset};
use p3_matrix::RowMajorMatrix;
use std::alloc::Global;

/// A matrix on its domain, row by row in the order of the domain's points.
pub type Evaluations<F> = (Coset<F>, RowMajorMatrix<F>);

/// What a `Matrix` lists, by elements in place of their numbers.
#[derive(Drop)]
pub struct ElementMatrix<F: Copy> {
    pub domain: Domain,
    /// The number of columns.
    pub width: usize,
    /// Row by row, a row for each point of the domain.
    pub values: Vec<F>,
    /// Each by its coefficients' numbers.
    pub points: Vec<Vec<u64>>,
}

/// Whether `count` is the product of the width and `2^log_size`.
fn is_count(count: usize, width: usize, log_size: usize) -> bool
    requires some { 0 < width }
    requires low { log_size < 64 }
    ensures { IsTrue result ↔ (count ≡ width * 2 ^ log_size) }
{
    count % width == 0 && count / width == 1 << log_size
}

/// The matrix of these values.
fn matrix_of<V: Copy>(values: Vec<V>, width: usize, log_size: usize) -> RowMajorMatrix<V>
    requires some { 0 < width }
    requires size { vec_len values ≡ width * 2 ^ log_size }
    ensures height { length (rows result) ≡ 2 ^ log_size }
    ensures rows { rows result ≡ rows_of width values.items }
    ensures width { matrix_width result ≡ width }
{
    RowMajorMatrix::new(values, width)
}

/// The logarithm of the greatest size of a domain on which a matrix may be listed, so that the
/// domain on which it is committed to has room for its extension.
fn room_of<F: TwoAdicField>(log_blowup: usize, hides: bool) -> Option<usize>
    requires blowup { log_blowup ≤ F.TWO_ADICITY }
    ensures none { IsNone result
        → (log_size : ℕ) → ¬ (log_committed hides log_size + log_blowup ≤ F.TWO_ADICITY) }
    ensures low { IfSome result (λ most. most ≤ F.TWO_ADICITY) }
    ensures some { IfSome result (λ most. (log_size : ℕ)
        → (log_size ≤ most) ↔ (log_committed hides log_size + log_blowup ≤ F.TWO_ADICITY)) }
{
    let room = F::TWO_ADICITY - log_blowup;
    if hides {
        room.checked_sub(1)
    } else {
        Some(room)
    }
}

/// The domain on which a matrix is committed to that is listed on this one.
fn domain_committed<F: TwoAdicField>(domain: Coset<F>, hides: bool) -> Coset<F>
    requires room { log_committed hides domain.log_size ≤ F.TWO_ADICITY }
    ensures shift { result.shift ≡ domain.shift }
    ensures size { result.log_size ≡ log_committed hides domain.log_size }
{
    if hides {
        TwoAdicMultiplicativeCoset {
            shift: domain.shift,
            log_size: domain.log_size + 1,
        }
    } else {
        domain
    }
}

/// The coset on which a matrix of this shape is listed, with room for its extension.
fn coset_of<F: PrimeField64 + TwoAdicField>(
    domain: &Domain,
    width: usize,
    count: usize,
    log_blowup: usize,
    hides: bool,
    place: Place,
) -> Result<Coset<F>, Misfit>
    requires blowup { log_blowup ≤ F.TWO_ADICITY }
    ensures shift { IfOk result (λ c. F.canonical c.shift ≡ domain.now.shift) }
    ensures size { IfOk result (λ c. c.log_size ≡ domain.now.log_size) }
    ensures fits { IfOk result (λ _.
        HasShape F.ORDER_U64 F.TWO_ADICITY hides log_blowup domain.now width count) }
    ensures refused { IfErr result (λ _.
        ¬ HasShape F.ORDER_U64 F.TWO_ADICITY hides log_blowup domain.now width count) }
{
    let Some(most) = room_of::<F>(log_blowup, hides) else {
        return Err(place.lacks(Fault::LogSize));
    };
    let coset = coset::<F>(domain, most, place)?;
    if width == 0 {
        return Err(place.lacks(Fault::Width));
    }
    if !is_count(count, width, coset.log_size()) {
        return Err(place.lacks(Fault::Values));
    }
    Ok(coset)
}

/// A matrix on the domain on which it is committed to, with room for its extension.
fn evaluations<F: PrimeField64 + TwoAdicField>(
    alloc: Global,
    matrix: &Matrix,
    log_blowup: usize,
    hides: bool,
    place: Place,
) -> Result<Evaluations<F>, ReadError>
    requires blowup { log_blowup ≤ F.TWO_ADICITY }
    ensures fits { IfOk result (λ e. FitsRows F.TWO_ADICITY hides log_blowup e.0.log_size e.1) }
    ensures listed { IfOk result (λ e. IsListedBy (λ number. multiple F.ops number)
        (λ d. F.canonical d.shift) (λ d. d.log_size) hides e matrix.now) }
    ensures well_formed { IfOk result (λ _.
        IsMatrixBelow F.ORDER_U64 F.TWO_ADICITY hides log_blowup matrix.now) }
    ensures refused { IfErr result (IfMalformed
        (¬ IsMatrixBelow F.ORDER_U64 F.TWO_ADICITY hides log_blowup matrix.now)) }
{
    let (width, count) = (matrix.width, matrix.values.len());
    let domain = coset_of::<F>(&matrix.domain, width, count, log_blowup, hides, place)?;
    let values = elements(alloc, &matrix.values, place)?;
    let rows = matrix_of(values, width, domain.log_size());
    Ok((domain_committed(domain, hides), rows))
}

/// A matrix of elements, on the domain on which it is committed to as it is.
fn evaluations_of<F: PrimeField64 + TwoAdicField>(
    matrix: ElementMatrix<F>,
    log_blowup: usize,
    place: Place,
) -> Result<Evaluations<F>, Misfit>
    requires blowup { log_blowup ≤ F.TWO_ADICITY }
    ensures fits { IfOk result (λ e. FitsRows F.TWO_ADICITY false log_blowup e.0.log_size e.1) }
    ensures listed { IfOk result (λ e. IsListedBy (λ number. multiple F.ops number)
        (λ d. F.canonical d.shift) (λ d. d.log_size) false e (record_of F.canonical matrix)) }
    ensures well_formed { IfOk result (λ _. IsMatrixBelow F.ORDER_U64 F.TWO_ADICITY false
        log_blowup (record_of F.canonical matrix)) }
    ensures refused { IfErr result (λ _. ¬ IsMatrixBelow F.ORDER_U64 F.TWO_ADICITY false
        log_blowup (record_of F.canonical matrix)) }
{
    let ElementMatrix {
        domain,
        width,
        values,
        points: _points,
    } = matrix;
    let coset = coset_of::<F>(&domain, width, values.len(), log_blowup, false, place)?;
    let rows = matrix_of(values, width, coset.log_size());
    Ok((coset, rows))
}

/// The matrices of the commitment at this place, on the domains on which they are committed to.
/// `Malformed` names the first that isn't well formed, or has no room for its extension.
pub fn batch_evaluations<F: PrimeField64 + TwoAdicField>(
    alloc: Global,
    batch: &Batch,
    log_blowup: usize,
    hides: bool,
    place: Place,
) -> Result<Vec<Evaluations<F>>, ReadError>
    requires blowup { log_blowup ≤ F.TWO_ADICITY }
    ensures fit { IfOk result (λ all.
        All (λ e. FitsRows F.TWO_ADICITY hides log_blowup e.0.log_size e.1) all.items) }
    ensures listed { IfOk result (λ all. AreListedBy (λ number. multiple F.ops number)
        (λ d. F.canonical d.shift) (λ d. d.log_size) hides all.items batch.now) }
    ensures well_formed { IfOk result (λ _. All
        (IsMatrixBelow F.ORDER_U64 F.TWO_ADICITY hides log_blowup) batch.now.matrices.items) }
    ensures refused { IfErr result (IfMalformed (¬ All
        (IsMatrixBelow F.ORDER_U64 F.TWO_ADICITY hides log_blowup) batch.now.matrices.items)) }
{
    let mut all = Vec::with_capacity(alloc, batch.matrices.len())?;
    for (index, matrix) in batch.matrices.iter().enumerate() {
        let place = Place {
            matrix: Some(index),
            ..place
        };
        all.push(evaluations(alloc, matrix, log_blowup, hides, place)?)?;
    }
    Ok(all)
}

/// The same of matrices of elements, which a scheme that doesn't hide commits to.
pub fn evaluations_of_all<F: PrimeField64 + TwoAdicField>(
    alloc: Global,
    matrices: Vec<ElementMatrix<F>>,
    log_blowup: usize,
) -> Result<Vec<Evaluations<F>>, ReadError>
    requires blowup { log_blowup ≤ F.TWO_ADICITY }
    ensures fit { IfOk result (λ all.
        All (λ e. FitsRows F.TWO_ADICITY false log_blowup e.0.log_size e.1) all.items) }
    ensures listed { IfOk result (λ all. AreListedBy (λ number. multiple F.ops number)
        (λ d. F.canonical d.shift) (λ d. d.log_size) false all.items
        (batch_of F.canonical matrices)) }
    ensures well_formed { IfOk result (λ _. All (IsMatrixBelow F.ORDER_U64 F.TWO_ADICITY false
        log_blowup) (batch_of F.canonical matrices).matrices.items) }
    ensures refused { IfErr result (IfMalformed (¬ All (IsMatrixBelow F.ORDER_U64 F.TWO_ADICITY
        false log_blowup) (batch_of F.canonical matrices).matrices.items)) }
{
    let mut all = Vec::with_capacity(alloc, matrices.len())?;
    for matrix in matrices {
        let place = Place {
            matrix: Some(all.len()),
            ..Place::NONE
        };
        all.push(evaluations_of(matrix, log_blowup, place)?)?;
    }
    Ok(all)
}

/// The points of a matrix, of which there are some.
fn points<EF: Copy, D: Copy, N: Numbered<EF, D>>(
    alloc: Global,
    matrix: &Matrix,
    place: Place,
) -> Result<Vec<EF>, ReadError>
    ensures some { IfOk result (λ v. v.items ≢ []) }
    ensures numbers { IfOk result (λ v.
        map N.numbers_of v.items ≡ lists matrix.now.points.items) }
    ensures refused { IfErr result (IfMalformed (¬ HasPointsBy N.IsPoint matrix.now)) }
{
    if matrix.points.is_empty() {
        return Err(place.lacks(Fault::Points).into());
    }
    let mut all = Vec::with_capacity(alloc, matrix.points.len())?;
    for (index, point) in matrix.points.iter().enumerate() {
        let place = Place {
            point: Some(index),
            ..place
        };
        all.push(N::read_point(point, place)?)?;
    }
    Ok(all)
}

/// The points of each matrix of the commitment at this place. `Malformed` names the first matrix
/// without any, or the first that isn't one.
pub fn batch_points<EF: Copy, D: Copy, N: Numbered<EF, D>>(
    alloc: Global,
    batch: &Batch,
    place: Place,
) -> Result<Vec<Vec<EF>>, ReadError>
    ensures some { IfOk result (λ all. All (λ zs. zs ≢ []) (lists all.items)) }
    ensures numbers { IfOk result (λ all. map (map N.numbers_of) (lists all.items)
        ≡ map (λ m. lists m.points.items) batch.now.matrices.items) }
    ensures refused { IfErr result (IfMalformed
        (¬ All (HasPointsBy N.IsPoint) batch.now.matrices.items)) }
{
    let mut all = Vec::with_capacity(alloc, batch.matrices.len())?;
    for (index, matrix) in batch.matrices.iter().enumerate() {
        let place = Place {
            matrix: Some(index),
            ..place
        };
        all.push(points::<EF, D, N>(alloc, matrix, place)?)?;
    }
    Ok(all)
}
