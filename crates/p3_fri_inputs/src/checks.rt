//! What is claimed of each matrix: at some point, and as many values at each.

ghost use Rattle.std.specs.Prelude.{◌≡◌, ◌≢◌, ◌<◌, ℕ, [], length, map, All, MatchOption};
ghost use Rattle.std.specs.Prelude.{slice_index_or};
ghost use Rattle.p3_fri_pow.specs.Counts.{IsWrongCount};
ghost use Rattle.p3_fri_relation.specs.Faults.{At};
ghost use Rattle.p3_fri_relation.specs.Heights.{matrices_of, width};
ghost use Rattle.p3_fri_inputs.specs.Claims.{IsEven};
ghost use Rattle.p3_fri_relation.specs.Views.{claims_of, matrix_claim};

use p3_field_core::{Field, TwoAdicField, TwoAdicMultiplicativeCoset};
use p3_mmcs::{CommitmentOpening, MatrixOpening, PointOpening};

/// A point at which a matrix isn't claimed as many values as at its first.
#[derive(Drop)]
pub struct Uneven {
    pub batch: usize,
    pub matrix: usize,
    pub point: usize,
    pub expected: usize,
    pub got: usize,
}

/// The first matrix without points.
fn matrix_without_points<F: TwoAdicField, EF: Field>(
    matrices: &[MatrixOpening<EF, TwoAdicMultiplicativeCoset<F>>],
) -> Option<usize>
    ensures { MatchOption result
        (All (λ m. m.points ≢ []) (map (matrix_claim (λ domain. domain.log_size)) matrices.now))
        (λ k. At k (λ m. m.points ≡ [])
        (map (matrix_claim (λ domain. domain.log_size)) matrices.now)) }
{
    for k in 0..matrices.len() {
        if matrices[k].points.is_empty() {
            return Some(k);
        }
    }
    None
}

/// The commitment and the number under it of the first matrix without points.
pub fn first_without_points<F: TwoAdicField, EF: Field, Com>(
    claims: &[CommitmentOpening<EF, Com, TwoAdicMultiplicativeCoset<F>>],
) -> Option<(usize, usize)>
    ensures { let cs = claims_of (λ domain. domain.log_size) claims.now in MatchOption result
        (All (λ m. m.points ≢ []) (matrices_of cs))
        (λ place. At place.0 (λ c. At place.1 (λ m. m.points ≡ []) c.matrices) cs) }
{
    for batch in 0..claims.len() {
        if let Some(matrix) = matrix_without_points(&claims[batch].matrices) {
            return Some((batch, matrix));
        }
    }
    None
}

/// As many columns as values are claimed at a matrix's first point, 0 without points.
pub fn claimed_width<F: TwoAdicField, EF: Field>(
    matrix: &MatrixOpening<EF, TwoAdicMultiplicativeCoset<F>>,
) -> usize
    ensures { result ≡ width (matrix_claim (λ domain. domain.log_size) matrix.now) }
{
    if matrix.points.is_empty() {
        0
    } else {
        matrix.points[0].values.len()
    }
}

/// A point with another number of values than `width`, and that number.
fn uneven_point<EF: Field>(points: &[PointOpening<EF>], width: usize) -> Option<(usize, usize)>
    ensures { MatchOption result
        ((k : ℕ) (d : PointOpening EF) → k < length points.now →
        length (slice_index_or points.now k d).values.items ≡ width)
        (λ found. (found.0 < length points.now) × (found.1 ≢ width)
        × ((d : PointOpening EF) →
        found.1 ≡ length (slice_index_or points.now found.0 d).values.items)) }
{
    for k in 0..points.len() {
        let got = points[k].values.len();
        if got != width {
            return Some((k, got));
        }
    }
    None
}

/// Of these matrices, which all have points, the first point with another number of values than
/// the matrix's first: the matrix, the point, the first's number and its own.
fn uneven_matrix<F: TwoAdicField, EF: Field>(
    matrices: &[MatrixOpening<EF, TwoAdicMultiplicativeCoset<F>>],
) -> Option<(usize, usize, usize, usize)>
    ensures { MatchOption result
        (All IsEven (map (matrix_claim (λ domain. domain.log_size)) matrices.now))
        (λ found. At found.0 (λ m. At found.1 (λ z.
        IsWrongCount (width m) (length z.values) found.2 found.3) m.points)
        (map (matrix_claim (λ domain. domain.log_size)) matrices.now)) }
{
    for k in 0..matrices.len() {
        let expected = claimed_width(&matrices[k]);
        if let Some((point, got)) = uneven_point(&matrices[k].points, expected) {
            return Some((k, point, expected, got));
        }
    }
    None
}

/// The first point of all with another number of values than its matrix's first.
pub fn first_uneven<F: TwoAdicField, EF: Field, Com>(
    claims: &[CommitmentOpening<EF, Com, TwoAdicMultiplicativeCoset<F>>],
) -> Option<Uneven>
    ensures { let cs = claims_of (λ domain. domain.log_size) claims.now in MatchOption result
        (All IsEven (matrices_of cs))
        (λ found. At found.batch (λ c. At found.matrix (λ m. At found.point (λ z.
        IsWrongCount (width m) (length z.values) found.expected found.got) m.points) c.matrices)
        cs) }
{
    for batch in 0..claims.len() {
        if let Some((matrix, point, expected, got)) = uneven_matrix(&claims[batch].matrices) {
            return Some(Uneven {
                batch,
                matrix,
                point,
                expected,
                got,
            });
        }
    }
    None
}
