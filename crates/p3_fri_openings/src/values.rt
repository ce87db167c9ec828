//! The values of the committed polynomials at a point off the coset, by barycentric sums.

ghost use Rattle.std.specs.Prelude.{◌≡◌, ◌≤◌, ◌<◌, ◌+◌, ◌^◌, ℕ, List, [], IfOk, length};
ghost use Rattle.std.specs.Prelude.{slice_index_or};
ghost use Rattle.algebra.specs.Polynomial.{tabulate};
ghost use Rattle.algebra.specs.Barycentric.{barycentric_factor};
ghost use Rattle.p3_matrix.specs.Matrix.{rows, matrix_width};
ghost use Rattle.p3_fri_openings.specs.Rounds.{HasCoset, log_height};
ghost use Rattle.p3_fri_openings.specs.Refusals.{IsOff};
ghost use Rattle.p3_fri_openings.specs.Committed.{coset_of, inverse_differences, committed_values};
ghost use Rattle.p3_fri_openings.specs.Sums.{StartsWith, weighted_sum};

use p3_field_core::{
    ExtensionField, Field, TwoAdicField, TwoAdicMultiplicativeCoset, log2_strict_usize,
};
use p3_fri_relation::setting::ChallengeField;
use p3_matrix::RowMajorMatrix;
use std::alloc::{AllocError, Global};

/// How many rows' weights are made at once.
const BLOCK: usize = 128;

/// So many zeros.
fn zeros<F: Field>(alloc: Global, count: usize) -> Result<Vec<F>, AllocError>
    ensures { IfOk result (λ values. values.items ≡ tabulate count (λ _. F.ops.zero)) }
{
    let mut values = Vec::with_capacity(alloc, count)?;
    for _ in 0..count {
        values.push(F::ZERO)?;
    }
    Ok(values)
}

/// Each value times the factor.
fn scale_all<F: Field>(values: &mut [F], factor: F)
    ensures { (j : ℕ) (d : F) → j < length values.old → slice_index_or values.new j d
        ≡ F.ops.mul factor (slice_index_or values.old j d) }
{
    for j in 0..values.len() {
        values[j] = factor * values[j];
    }
}

/// Writes what the entries of rows are multiplied by: each inverse difference times the coset's
/// point beside it.
fn write_weights<F: Field, EF: ExtensionField<F>>(weights: &mut [EF], coset: &[F], inverses: &[EF])
    requires coset { length coset.now ≡ length weights.old }
    requires inverses { length inverses.now ≡ length weights.old }
    ensures { (i : ℕ) (d : EF) → i < length weights.old → slice_index_or weights.new i d
        ≡ EF.ops.mul (slice_index_or inverses.now i EF.ops.zero)
        (EF.lift (slice_index_or coset.now i F.ops.zero)) }
{
    for i in 0..weights.len() {
        weights[i] = inverses[i].scale(coset[i]);
    }
}

/// Adds the rows from `start` on, before `end`, to sums of each column's first `start` entries,
/// each times the inverse difference and the coset's point beside it. Overwrites `weights`.
fn add_block<F: TwoAdicField, EF: ExtensionField<F>>(
    sums: &mut [EF],
    weights: &mut [EF],
    matrix: &RowMajorMatrix<F>,
    coset: &[F],
    inverses: &[EF],
    start: usize,
    end: usize,
)
    requires order { start ≤ end }
    requires few { end ≤ start + length weights.old }
    requires width { length sums.old ≡ matrix_width matrix.now }
    requires rows { end ≤ length (rows matrix.now) }
    requires coset { end ≤ length coset.now }
    requires inverses { end ≤ length inverses.now }
    ensures { (j : ℕ) (d before : EF) → j < length sums.old
        → slice_index_or sums.old j d ≡ EF.ops.add before (weighted_sum F.ops EF.ops EF.lift start
        coset.now inverses.now (rows matrix.now) j)
        → slice_index_or sums.new j d ≡ EF.ops.add before (weighted_sum F.ops EF.ops EF.lift end
        coset.now inverses.now (rows matrix.now) j) }
{
    let weights = &mut weights[..end - start];
    write_weights(weights, &coset[start..end], &inverses[start..end]);
    EF::add_weighted_rows(sums, matrix.row_block(start, end), weights);
}

/// Adds to each column's sum its first `count` entries, each times the inverse difference and the
/// coset's point beside it. Overwrites `weights`.
fn add_weighted_rows<F: TwoAdicField, EF: ExtensionField<F>>(
    sums: &mut [EF],
    weights: &mut [EF],
    matrix: &RowMajorMatrix<F>,
    count: usize,
    coset: &[F],
    inverses: &[EF],
)
    requires weights { length weights.old ≡ 128 }
    requires width { length sums.old ≡ matrix_width matrix.now }
    requires rows { count ≤ length (rows matrix.now) }
    requires coset { count ≤ length coset.now }
    requires inverses { count ≤ length inverses.now }
    ensures { (j : ℕ) (d : EF) → j < length sums.old → slice_index_or sums.new j d
        ≡ EF.ops.add (slice_index_or sums.old j d) (weighted_sum F.ops EF.ops EF.lift count
        coset.now inverses.now (rows matrix.now) j) }
{
    let blocks = count / BLOCK;
    for block in 0..blocks {
        let start = BLOCK * block;
        add_block(sums, weights, matrix, coset, inverses, start, start + BLOCK);
    }
    let start = BLOCK * blocks;
    add_block(sums, weights, matrix, coset, inverses, start, count);
}

/// `((point / g)^n - 1) / n`, for the coset of the shift `g` and `n = 2^log_size` points.
fn barycentric_factor<F: TwoAdicField, EF: ExtensionField<F>>(log_size: usize, point: EF) -> EF
    requires within_two_adicity { log_size ≤ F.TWO_ADICITY }
    ensures { result
        ≡ barycentric_factor F.ops EF.ops EF.lift F.root F.GENERATOR log_size point }
{
    let coset = TwoAdicMultiplicativeCoset {
        shift: F::GENERATOR,
        log_size,
    };
    let size = EF::from_u64(coset.size() as u64);
    coset.vanishing_poly_at_point(point) * size.inverse()
}

/// The values at `point` of the polynomials of a matrix's columns: of the first entries, which
/// determine them, without a division by the point. `coset` and `inverses` begin with
/// the points of the matrix's coset, in bit-reversed order, and the inverses of what `point` is
/// above them.
pub fn values_at_point<F: TwoAdicField, EF: ExtensionField<F>>(
    alloc: Global,
    log_blowup: usize,
    matrix: &RowMajorMatrix<F>,
    coset: &[F],
    inverses: &[EF],
    point: EF,
) -> Result<Vec<EF>, AllocError>
    requires height { HasCoset F.TWO_ADICITY matrix.now }
    requires off { IsOff ⟦<EF as ChallengeField<F>>⟧.fields (log_height matrix.now) point }
    requires coset { StartsWith coset.now
        (coset_of ⟦<EF as ChallengeField<F>>⟧.fields (length (rows matrix.now))) }
    requires inverses { StartsWith inverses.now (inverse_differences
        ⟦<EF as ChallengeField<F>>⟧.fields point (length (rows matrix.now))) }
    ensures { IfOk result (λ values. values.items ≡ committed_values
        ⟦<EF as ChallengeField<F>>⟧.fields log_blowup matrix.now point) }
{
    let log_height = log2_strict_usize(matrix.height());
    if log_height < log_blowup {
        return zeros(alloc, matrix.width());
    }
    let count = matrix.height() >> log_blowup;
    let mut weights = zeros(alloc, BLOCK)?;
    let mut values = zeros(alloc, matrix.width())?;
    add_weighted_rows(&mut values, &mut weights, matrix, count, coset, inverses);
    scale_all(
        &mut values,
        barycentric_factor::<F, EF>(log_height - log_blowup, point),
    );
    Ok(values)
}
