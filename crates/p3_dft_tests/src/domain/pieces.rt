//! Domains that are split, values on them, and chunks that recombine.

ghost use Rattle.std.specs.Prelude.{◌<◌, length};

use crate::column::column_of;
use crate::domain::numbers::{Domain, domain, extension, numbers};
use p3_domain::PolynomialSpace;
use p3_field::{BabyBear, BabyBear4, ExtensionField, Field, PrimeField64};
use p3_matrix::RowMajorMatrix;
use std::process::Abort;

/// Of the domain of eight points of shift 31: for a number of chunks, each one's shift, and the
/// value at `2 + 7X + X^2 + 8X^3` of the polynomial that has on its domain the values of one of
/// degree 7.
static CHUNKS: [(usize, &[(u64, [u64; 4])]); 3] = [
    (1, &[(31, [602296648, 1380251527, 461173315, 1565730881])]),
    (
        2,
        &[
            (31, [192093465, 209939697, 743672428, 1875177471]),
            (1044970530, [1821247072, 1803480388, 1269616025, 138119976]),
        ],
    ),
    (
        4,
        &[
            (31, [366702762, 1094556581, 1306802895, 388093555]),
            (1044970530, [1843296127, 933023809, 1571336202, 491094090]),
            (1235625957, [1689045135, 1035073000, 723086406, 1758159406]),
            (523621251, [127487838, 963878480, 425306343, 1389184823]),
        ],
    ),
];

/// That polynomial's value there.
static WHOLE: [u64; 4] = [602296648, 1380251527, 461173315, 1565730881];

/// What a chunk's value counts at the point: the product over the other pieces of what vanishes on
/// them there, over that at this piece's first point.
fn factor(rt: &impl Abort, pieces: &[Domain], index: usize, point: BabyBear4) -> BabyBear4
    requires { index < length pieces.now }
{
    let first = PolynomialSpace::first_point(&pieces[index]);
    let mut factor = BabyBear4::ONE;
    for (other, piece) in pieces.iter().enumerate() {
        if other != index {
            let at_first: BabyBear = PolynomialSpace::vanishing_poly_at_point(piece, first);
            let at_point = PolynomialSpace::vanishing_poly_at_point(piece, point);
            factor = factor * at_point.scale(at_first.try_inverse().expect(rt, "pieces meet"));
        }
    }
    factor
}

/// Whether the pieces have the shifts of these chunks, whose values recombine to that of `WHOLE`.
fn recombine(rt: &impl Abort, pieces: &[Domain], chunks: &[(u64, [u64; 4])]) -> bool {
    let point = extension([2, 7, 1, 8]);
    let mut sum = extension([0; 4]);
    for (index, (shift, value)) in chunks.iter().enumerate() {
        if index >= pieces.len() || pieces[index].shift().as_canonical_u64() != *shift {
            return false;
        }
        sum = sum + extension(*value) * factor(rt, pieces, index, point);
    }
    numbers(sum) == WHOLE
}

#[test]
fn chunks_recombine(rt: HostRuntime) {
    let whole = domain(&rt, 31, 3);
    for (num_chunks, chunks) in &CHUNKS {
        assert!(rt; num_chunks.is_power_of_two() && *num_chunks <= whole.size());
        let pieces = whole
            .split_domains(rt.alloc(), *num_chunks)
            .expect(&rt, "memory");
        let agree = pieces.len() == *num_chunks && recombine(&rt, &pieces, *chunks);
        assert!(rt; agree, "{num_chunks} chunks");
    }
}

/// Of four rows of two values on a domain: for a number of chunks, each chunk's values.
static ROWS: [(usize, &[&[u64]]); 3] = [
    (1, &[&[0, 1, 2, 3, 4, 5, 6, 7]]),
    (2, &[&[0, 1, 4, 5], &[2, 3, 6, 7]]),
    (4, &[&[0, 1], &[2, 3], &[4, 5], &[6, 7]]),
];

/// Whether the chunk's rows of two values hold these numbers, one after another.
fn holds(chunk: &RowMajorMatrix<BabyBear>, numbers: &[u64]) -> bool {
    let mut same = chunk.width() == 2 && chunk.height() == numbers.len() / 2;
    for (index, number) in numbers.iter().enumerate() {
        same = same && chunk.get(index / 2, index % 2) == Some(BabyBear::from_u64(*number));
    }
    same
}

/// Whether the chunks are as many as these rows of numbers, and hold them.
fn hold(chunks: &[RowMajorMatrix<BabyBear>], wanted: &[&[u64]]) -> bool {
    let mut same = chunks.len() == wanted.len();
    for (chunk, numbers) in chunks.iter().zip(wanted) {
        same = same && holds(chunk, *numbers);
    }
    same
}

#[test]
fn rows_by_domains(rt: HostRuntime) {
    let alloc = rt.alloc();
    let whole = domain(&rt, 31, 2);
    let values = column_of(&rt, alloc, &[0, 1, 2, 3, 4, 5, 6, 7]);
    assert!(rt; values.len() == 8);
    let evals = RowMajorMatrix::new(values, 2);
    assert!(rt; evals.height() == whole.size());
    for (num_chunks, wanted) in &ROWS {
        assert!(rt; num_chunks.is_power_of_two() && *num_chunks <= whole.size());
        let chunks = whole
            .split_evals(alloc, *num_chunks, &evals)
            .expect(&rt, "memory");
        assert!(rt; hold(&chunks, *wanted), "{num_chunks} chunks");
    }
}
