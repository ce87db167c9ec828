//! The chunks of a quotient.

ghost use Rattle.std.specs.Prelude.{◌≡◌, ◌≢◌, ◌<◌, ◌≤◌, ◌+◌, ◌^◌, ℕ, All, IfOk, length, map};
ghost use Rattle.std.specs.Prelude.{[], slice_index_or, ◌==◌, if◌then◌else◌, MatchBool};
ghost use Rattle.algebra.specs.Cosets.{vanishing};
ghost use Rattle.algebra.specs.Nested.{lists};
ghost use Rattle.algebra.specs.Polynomial.{tabulate, sum_below};
ghost use Rattle.algebra.specs.RecombinedQuotients.{chunk_factor};
ghost use Rattle.p3_field_core.specs.Basis.{unit_vector};
ghost use Rattle.p3_uni_stark_identity.specs.Chunks.{chunk_shifts, AreChunkDomains, quotient_at};

use p3_field_core::{ExtensionField, Field, TwoAdicField, TwoAdicMultiplicativeCoset};
use std::alloc::{AllocError, Global};

/// The cosets of `2^log_size` points into which the coset of `shift` of `2^log_num_pieces` times as
/// many points is split. Point `j` of the piece at `i` is the point `i + j * 2^log_num_pieces` of
/// the whole.
pub fn split_coset<F: TwoAdicField>(
    alloc: Global,
    shift: F,
    log_size: usize,
    log_num_pieces: usize,
) -> Result<Vec<TwoAdicMultiplicativeCoset<F>>, AllocError>
    requires nonzero { shift ≢ F.ops.zero }
    requires within_two_adicity { log_size + log_num_pieces ≤ F.TWO_ADICITY }
    ensures shifts { IfOk result (λ pieces. map (λ d. d.shift) pieces.items
        ≡ chunk_shifts F.ops F.root shift log_size log_num_pieces) }
    ensures sizes { IfOk result (λ pieces.
        All (λ n. n ≡ log_size) (map (λ d. d.log_size) pieces.items)) }
    ensures disjoint { IfOk result (λ pieces. AreChunkDomains F.ops
        (map (λ d. d.log_size) pieces.items) (map (λ d. d.shift) pieces.items)) }
{
    let generator = F::two_adic_generator(log_size + log_num_pieces);
    let mut pieces = Vec::with_capacity(alloc, 1 << log_num_pieces)?;
    let mut first = shift;
    for _ in 0..1usize << log_num_pieces {
        pieces.push(TwoAdicMultiplicativeCoset {
            shift: first,
            log_size,
        })?;
        first = first * generator;
    }
    Ok(pieces)
}

/// The domains of a quotient's chunks: the cosets of `2^log_size` points into which the coset of
/// the field's `GENERATOR` of `2^log_num_chunks` times as many points is split.
pub fn quotient_chunk_domains<F: TwoAdicField>(
    alloc: Global,
    log_size: usize,
    log_num_chunks: usize,
) -> Result<Vec<TwoAdicMultiplicativeCoset<F>>, AllocError>
    requires within_two_adicity { log_size + log_num_chunks ≤ F.TWO_ADICITY }
    ensures shifts { IfOk result (λ domains. map (λ d. d.shift) domains.items
        ≡ chunk_shifts F.ops F.root F.GENERATOR log_size log_num_chunks) }
    ensures sizes { IfOk result (λ domains.
        All (λ n. n ≡ log_size) (map (λ d. d.log_size) domains.items)) }
    ensures disjoint { IfOk result (λ domains. AreChunkDomains F.ops
        (map (λ d. d.log_size) domains.items) (map (λ d. d.shift) domains.items)) }
{
    let generator = F::GENERATOR;
    split_coset(alloc, generator, log_size, log_num_chunks)
}

/// The values at a point of the polynomials that vanish on these domains.
fn vanishing_values<F: TwoAdicField, EF: ExtensionField<F>>(
    alloc: Global,
    domains: &[TwoAdicMultiplicativeCoset<F>],
    point: EF,
) -> Result<Vec<EF>, AllocError>
    ensures { IfOk result (λ values. values.items ≡ tabulate (length domains.now) (λ j.
        vanishing EF.ops (slice_index_or (map EF.lift (map (λ d. d.shift) domains.now)) j
        EF.ops.zero) (slice_index_or (map (λ d. d.log_size) domains.now) j 0) point)) }
{
    let mut values = Vec::with_capacity(alloc, domains.len())?;
    for j in 0..domains.len() {
        values.push(domains[j].vanishing_poly_at_point(point))?;
    }
    Ok(values)
}

/// What the polynomial that vanishes on the domain at `other` gives to the factor of the chunk at
/// `index`: its value at a point over that at the chunk's first point, and one where they are one.
fn factor_by<F: TwoAdicField, EF: ExtensionField<F>>(
    domains: &[TwoAdicMultiplicativeCoset<F>],
    index: usize,
    other: usize,
    at_point: EF,
) -> EF
    requires index_there { index < length domains.now }
    requires other_there { other < length domains.now }
    requires disjoint { AreChunkDomains F.ops
        (map (λ d. d.log_size) domains.now) (map (λ d. d.shift) domains.now) }
    ensures { let shifts = map EF.lift (map (λ d. d.shift) domains.now) in
        let k = slice_index_or (map (λ d. d.log_size) domains.now) 0 0 in
        result ≡ (if other == index then EF.ops.one else EF.ops.mul at_point (EF.ops.inv
        (vanishing EF.ops (slice_index_or shifts other EF.ops.zero) k
        (slice_index_or shifts index EF.ops.zero)))) }
{
    if other == index {
        return EF::ONE;
    }
    let first = domains[index].first_point();
    let at_first: F = domains[other].vanishing_poly_at_point(first);
    at_point.scale(at_first.inverse())
}

/// What the values of the chunk at `index` count in the recombined quotient at the point at which
/// the polynomials that vanish on the domains have these values: the product over the other chunks
/// of their polynomials' values there, each over that at this chunk's first point.
fn factor_of_chunk<F: TwoAdicField, EF: ExtensionField<F>>(
    domains: &[TwoAdicMultiplicativeCoset<F>],
    index: usize,
    vanishing_at_point: &[EF],
) -> EF
    requires index_there { index < length domains.now }
    requires values { length vanishing_at_point.now ≡ length domains.now }
    requires disjoint { AreChunkDomains F.ops
        (map (λ d. d.log_size) domains.now) (map (λ d. d.shift) domains.now) }
    ensures { let shifts = map EF.lift (map (λ d. d.shift) domains.now) in
        let k = slice_index_or (map (λ d. d.log_size) domains.now) 0 0 in (z : EF)
        → vanishing_at_point.now ≡ tabulate (length domains.now) (λ j.
        vanishing EF.ops (slice_index_or shifts j EF.ops.zero)
        (slice_index_or (map (λ d. d.log_size) domains.now) j 0) z)
        → result ≡ chunk_factor EF.ops (length domains.now) k
        (λ j. slice_index_or shifts j EF.ops.zero) index z }
{
    let mut factor = EF::ONE;
    for other in 0..domains.len() {
        let at_point = vanishing_at_point[other];
        factor = factor * factor_by(domains, index, other, at_point);
    }
    factor
}

/// The sum of the chunks' values in this column, each times the factor beside it.
fn recombine_column<EF: Field>(chunks: &[Vec<EF>], factors: &[EF], column: usize) -> EF
    requires count { length factors.now ≡ length chunks.now }
    requires widths { All (λ values. column < length values) (lists chunks.now) }
    ensures { result ≡ sum_below EF.ops (length chunks.now) (λ i. EF.ops.mul
        (slice_index_or (slice_index_or (lists chunks.now) i []) column EF.ops.zero)
        (slice_index_or factors.now i EF.ops.zero)) }
{
    let mut sum = EF::ZERO;
    for i in 0..chunks.len() {
        let values = chunks[i].as_slice();
        sum = sum + values[column] * factors[i];
    }
    sum
}

/// The sum of the recombined columns, each times the element of the basis at its place.
fn combine_columns<F: Field, EF: ExtensionField<F>>(chunks: &[Vec<EF>], factors: &[EF]) -> EF
    requires count { length factors.now ≡ length chunks.now }
    requires widths { All (λ values. length values ≡ EF.DIMENSION) (lists chunks.now) }
    ensures { result ≡ sum_below EF.ops EF.DIMENSION (λ e. EF.ops.mul
        (EF.of_coefficients (unit_vector F.ops EF.DIMENSION e))
        (sum_below EF.ops (length chunks.now) (λ i. EF.ops.mul
        (slice_index_or (slice_index_or (lists chunks.now) i []) e EF.ops.zero)
        (slice_index_or factors.now i EF.ops.zero)))) }
{
    let mut quotient = EF::ZERO;
    for column in 0..EF::DIMENSION {
        let element = EF::ith_basis_element(column);
        quotient = quotient + element * recombine_column(chunks, factors, column);
    }
    quotient
}

/// Whether each chunk has as many values as an element has coefficients over the base field.
pub fn have_dimension<F: Field, EF: ExtensionField<F>>(chunks: &[Vec<EF>]) -> bool
    ensures { MatchBool result
        (All (λ values. length values ≡ EF.DIMENSION) (lists chunks.now))
        (¬ All (λ values. length values ≡ EF.DIMENSION) (lists chunks.now)) }
{
    for i in 0..chunks.len() {
        if chunks[i].len() != EF::DIMENSION {
            return false;
        }
    }
    true
}

/// The quotient's value at a point, where the chunks' columns have these values there, a list to a
/// chunk and a value to each coefficient over the base field. There is a chunk, and the domains are
/// disjoint and have one size. A point on the domains isn't special.
pub fn recombine_quotient<F: TwoAdicField, EF: ExtensionField<F>>(
    alloc: Global,
    domains: &[TwoAdicMultiplicativeCoset<F>],
    chunks: &[Vec<EF>],
    point: EF,
) -> Result<EF, AllocError>
    requires some_chunk { 0 < length chunks.now }
    requires count { length chunks.now ≡ length domains.now }
    requires widths { All (λ values. length values ≡ EF.DIMENSION) (lists chunks.now) }
    requires disjoint { AreChunkDomains F.ops
        (map (λ d. d.log_size) domains.now) (map (λ d. d.shift) domains.now) }
    ensures { IfOk result (λ quotient. quotient ≡ quotient_at EF.ops EF.DIMENSION
        (λ e. EF.of_coefficients (unit_vector F.ops EF.DIMENSION e))
        (slice_index_or (map (λ d. d.log_size) domains.now) 0 0)
        (map EF.lift (map (λ d. d.shift) domains.now)) (lists chunks.now) point) }
{
    let vanishing = vanishing_values(alloc, domains, point)?;
    let vanishing_at_point = vanishing.as_slice();
    let mut factors = Vec::with_capacity(alloc, domains.len())?;
    for index in 0..domains.len() {
        let factor = factor_of_chunk(domains, index, vanishing_at_point);
        factors.push(factor)?;
    }
    let all_factors = factors.as_slice();
    let quotient = combine_columns::<F, EF>(chunks, all_factors);
    Ok(quotient)
}
