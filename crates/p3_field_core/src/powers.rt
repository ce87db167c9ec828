//! Powers of an element as lists.

ghost use Rattle.std.specs.Prelude.{◌≡◌, ◌<◌, ◌^◌, ℕ, IfOk};
ghost use Rattle.algebra.specs.Digits.{rev};
ghost use Rattle.algebra.specs.Field.{pow};
ghost use Rattle.algebra.specs.Polynomial.{tabulate};

use crate::field::Field;
use crate::index::reverse_slice_index_bits;
use std::alloc::{AllocError, Global};

/// The first `count` powers of `base`, from one on.
pub fn powers<F: Field>(alloc: Global, base: F, count: usize) -> Result<Vec<F>, AllocError>
    ensures { IfOk result (λ powers. powers.items ≡ tabulate count (λ i. pow F.ops base i)) }
{
    shifted_powers(alloc, F::ONE, base, count)
}

/// The products of `first` with the first `count` powers of `base`: `first`, `first * base` and so
/// on.
pub fn shifted_powers<F: Field>(
    alloc: Global,
    first: F,
    base: F,
    count: usize,
) -> Result<Vec<F>, AllocError>
    ensures { IfOk result (λ powers. powers.items
        ≡ tabulate count (λ i. F.ops.mul first (pow F.ops base i))) }
{
    let mut powers = Vec::with_capacity(alloc, count)?;
    let mut power = first;
    for _ in 0..count {
        powers.push(power)?;
        power = power * base;
    }
    Ok(powers)
}

/// The products of `first` with the first `2^log_count` powers of `base`, in bit-reversed order.
pub fn bit_reversed_powers<F: Field>(
    alloc: Global,
    first: F,
    base: F,
    log_count: usize,
) -> Result<Vec<F>, AllocError>
    requires count_fits { log_count < 64 }
    ensures { IfOk result (λ powers. powers.items
        ≡ tabulate (2 ^ log_count) (λ i. F.ops.mul first (pow F.ops base (rev log_count i)))) }
{
    let mut powers = shifted_powers(alloc, first, base, 1 << log_count)?;
    reverse_slice_index_bits(&mut powers);
    Ok(powers)
}
