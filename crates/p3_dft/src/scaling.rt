//! Rows times powers.

ghost use Rattle.std.specs.Prelude.{◌≡◌, ◌<◌, ◌+◌, ◌*◌, ◌^◌, ℕ, length, slice_index_or, IfOk};
ghost use Rattle.algebra.specs.Field.{pow, multiple};
ghost use Rattle.algebra.specs.Polynomial.{tabulate};

use p3_field_core::{ExtensionField, Field};
use std::alloc::{AllocError, Global};

/// The first `count` powers of the base, from one on.
pub(crate) fn powers<F: Field>(alloc: Global, base: F, count: usize) -> Result<Vec<F>, AllocError>
    ensures { IfOk result (λ powers. powers.items ≡ tabulate count (λ i. pow F.ops base i)) }
{
    let mut powers = Vec::with_capacity(alloc, count)?;
    let mut power = F::ONE;
    for _ in 0..count {
        powers.push(power)?;
        power = base * power;
    }
    Ok(powers)
}

/// One divided by `2^log_size`.
pub(crate) fn inverse_of_size<F: Field>(log_size: usize) -> F
    ensures { F.ops.mul (multiple F.ops (2 ^ log_size)) result ≡ F.ops.one }
{
    let mut inverse = F::ONE;
    for _ in 0..log_size {
        inverse = inverse.halve();
    }
    inverse
}

/// Each entry times the factor.
fn scale_row<F: Field, EF: ExtensionField<F>>(entries: &mut [EF], factor: F)
    ensures { (k : ℕ) (d : EF) → k < length entries.old
        → slice_index_or entries.new k d
        ≡ EF.ops.mul (slice_index_or entries.old k d) (EF.lift factor) }
{
    let prepared = factor.prepare();
    for k in 0..entries.len() {
        entries[k] = entries[k].scale_prepared(prepared);
    }
}

/// Row `i` times `first * ratio^i`.
pub(crate) fn scale_rows<F: Field, EF: ExtensionField<F>>(
    values: &mut [EF],
    width: usize,
    height: usize,
    first: F,
    ratio: F,
)
    requires { length values.old ≡ height * width }
    ensures { (i j : ℕ) (d : EF) → i < height → j < width
        → slice_index_or values.new (i * width + j) d
        ≡ EF.ops.mul (slice_index_or values.old (i * width + j) d)
        (EF.lift (F.ops.mul first (pow F.ops ratio i))) }
{
    let mut factor = first;
    for i in 0..height {
        let start = i * width;
        scale_row(&mut values[start..start + width], factor);
        factor = factor * ratio;
    }
}
