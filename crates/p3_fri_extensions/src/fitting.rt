//! Coefficients as many as the points of a domain, with the same values there.

ghost use Rattle.std.specs.Prelude.{◌≡◌, ◌≤◌, ◌<◌, ◌+◌, ◌*◌, ◌^◌, ℕ, IfOk, length, vec_len};
ghost use Rattle.std.specs.Prelude.{slice_index_or};
ghost use Rattle.std.specs.Int.{IsPowerOfTwo};
ghost use Rattle.algebra.specs.Field.{pow};
ghost use Rattle.algebra.specs.Polynomial.{val};
ghost use Rattle.p3_matrix.specs.Matrix.{rows};
ghost use Rattle.p3_dft.specs.Strided.{strided};
ghost use Rattle.p3_fri_extensions.specs.Committed.{AreFitted};

use p3_field_core::{Field, TwoAdicField, TwoAdicMultiplicativeCoset, log2_strict_usize};
use p3_matrix::RowMajorMatrix;
use std::alloc::AllocError;

/// Adds to each entry of the first half `factor` times the one as far on in the second half.
fn add_second_half<F: Field>(values: &mut [F], half: usize, factor: F)
    requires halves { length values.old ≡ half + half }
    ensures { (n : ℕ) (d : F) → n < half → slice_index_or values.new n d
        ≡ F.ops.add (slice_index_or values.old n d)
        (F.ops.mul (slice_index_or values.old (n + half) d) factor) }
{
    let prepared = factor.prepare();
    for n in 0..half {
        values[n] = values[n] + values[n + half].times(prepared);
    }
}

/// The first half of `2^(log_size + 1)` rows, with the second half times `factor` added.
fn halved<F: Field>(mut values: Vec<F>, width: usize, log_size: usize, factor: F) -> Vec<F>
    requires log_size { log_size < 63 }
    requires rows { vec_len values ≡ 2 ^ (log_size + 1) * width }
    ensures len { vec_len result ≡ 2 ^ log_size * width }
    ensures values { (j : ℕ) (x : F) → j < width → pow F.ops x (2 ^ log_size) ≡ factor
        → val F.ops (strided F.ops width (2 ^ log_size) result.items j) x
        ≡ val F.ops (strided F.ops width (2 ^ (log_size + 1)) values.items j) x }
{
    let half = (1 << log_size) * width;
    add_second_half(&mut values, half, factor);
    values.truncate(half);
    values
}

/// From `2^log_height` rows of coefficients those modulo `X^(2^log_size) - shift^(2^log_size)`.
fn reduced<F: Field>(
    values: Vec<F>,
    width: usize,
    log_height: usize,
    shift: F,
    log_size: usize,
) -> Vec<F>
    requires log_height { log_height < 64 }
    requires smaller { log_size ≤ log_height }
    requires rows { vec_len values ≡ 2 ^ log_height * width }
    ensures len { vec_len result ≡ 2 ^ log_size * width }
    ensures values { (j : ℕ) (x : F) → j < width
        → pow F.ops x (2 ^ log_size) ≡ pow F.ops shift (2 ^ log_size)
        → val F.ops (strided F.ops width (2 ^ log_size) result.items j) x
        ≡ val F.ops (strided F.ops width (2 ^ log_height) values.items j) x }
{
    let mut reduced = values;
    let mut rows = log_height;
    while log_size < rows {
        rows -= 1;
        reduced = halved(reduced, width, rows, shift.exp_power_of_2(rows));
    }
    reduced
}

/// From `2^log_height` rows of coefficients `2^log_size`, with zeros for those that are new.
fn padded<F: Field>(
    mut values: Vec<F>,
    width: usize,
    log_height: usize,
    log_size: usize,
) -> Result<Vec<F>, AllocError>
    requires log_size { log_size < 64 }
    requires larger { log_height ≤ log_size }
    requires rows { vec_len values ≡ 2 ^ log_height * width }
    ensures len { IfOk result (λ padded. vec_len padded ≡ 2 ^ log_size * width) }
    ensures values { IfOk result (λ padded. (j : ℕ) (x : F) → j < width
        → val F.ops (strided F.ops width (2 ^ log_size) padded.items j) x
        ≡ val F.ops (strided F.ops width (2 ^ log_height) values.items j) x) }
{
    let Some(size) = width.checked_mul(1 << log_size) else {
        return Err(AllocError);
    };
    values.resize(size, F::ZERO)?;
    Ok(values)
}

/// From `2^log_height` rows of coefficients as many as the domain has points.
fn fit_rows<F: TwoAdicField>(
    values: Vec<F>,
    width: usize,
    log_height: usize,
    domain: TwoAdicMultiplicativeCoset<F>,
) -> Result<Vec<F>, AllocError>
    requires log_height { log_height < 64 }
    requires rows { vec_len values ≡ 2 ^ log_height * width }
    ensures len { IfOk result (λ fitted. vec_len fitted ≡ 2 ^ domain.log_size * width) }
    ensures values { IfOk result (λ fitted. (j : ℕ) (x : F) → j < width
        → pow F.ops x (2 ^ domain.log_size) ≡ pow F.ops domain.shift (2 ^ domain.log_size)
        → val F.ops (strided F.ops width (2 ^ domain.log_size) fitted.items j) x
        ≡ val F.ops (strided F.ops width (2 ^ log_height) values.items j) x) }
{
    let log_size = domain.log_size();
    if log_size < log_height {
        Ok(reduced(values, width, log_height, domain.shift(), log_size))
    } else {
        let fitted = padded(values, width, log_height, log_size)?;
        Ok(fitted)
    }
}

/// Coefficients as many as the domain has points, of polynomials with the same values there: with
/// zeros above on a domain that is larger than they are many, and reduced on a smaller one.
pub(crate) fn fit_to_domain<F: TwoAdicField>(
    coefficients: RowMajorMatrix<F>,
    domain: TwoAdicMultiplicativeCoset<F>,
) -> Result<RowMajorMatrix<F>, AllocError>
    requires { IsPowerOfTwo (length (rows coefficients)) }
    ensures { IfOk result (AreFitted F.ops domain.shift domain.log_size coefficients) }
{
    let width = coefficients.width();
    let log_height = log2_strict_usize(coefficients.height());
    let fitted = fit_rows(coefficients.into_values(), width, log_height, domain)?;
    Ok(RowMajorMatrix::new(fitted, width))
}
