//! Undoing the batching of columns.

ghost use Rattle.std.specs.Prelude.{◌≡◌, ◌<◌, length, vec_len, All, IfOk};
ghost use Rattle.algebra.specs.Interpolation.{AreDistinct};
ghost use Rattle.p3_converse.specs.Batching.{unbatched, IsUnbatching};
ghost use Rattle.algebra.specs.Nested.{lists};
ghost use Rattle.p3_converse.specs.Unfolding.{common_length};

use crate::by_position::{interpolate_positions, stepped};
use p3_field_core::Field;
use std::alloc::{AllocError, Global};

/// The polynomials that sum, with the powers of each `alphas[t]`, to `polys[t]`: the converse of
/// batching with the powers of one challenge. Wherever values at a point sum, with the powers of
/// each alpha, to the value of the polynomial beside it, they are these polynomials' values
/// there, the one without a factor first.
///
/// There is at least one alpha, no two of them are equal, and there are as many polynomials of one
/// length, as coefficients, the constant first; the answer has as many polynomials of that length.
/// `Err` means that memory was wanting.
///
/// Coefficient `s` of the polynomial through the points `(alphas[t], polys[t][m])` becomes
/// coefficient `m` of polynomial `s`. For `n` alphas that takes some `d * n^2` multiplications and
/// one inversion.
pub fn unbatch<EF: Field>(
    alloc: Global,
    alphas: &[EF],
    polys: &[Vec<EF>],
) -> Result<Vec<Vec<EF>>, AllocError>
    requires some { 0 < length alphas.now }
    requires distinct { AreDistinct alphas.now }
    requires as_many { length polys.now ≡ length alphas.now }
    requires one_length { All (λ p. vec_len p ≡ common_length polys.now) polys.now }
    ensures count { IfOk result (λ ps. vec_len ps ≡ length alphas.now) }
    ensures lengths { IfOk result
        (λ ps. All (λ p. vec_len p ≡ common_length polys.now) ps.items) }
    ensures coefficients { IfOk result (λ ps. lists ps.items
        ≡ unbatched EF.ops alphas.now (lists polys.now) (common_length polys.now)) }
    ensures values { IfOk result
        (λ ps. IsUnbatching EF.ops alphas.now (lists polys.now) (lists ps.items)) }
{
    let degree_bound = polys[0].len();
    let count = alphas.len();
    let capacity = degree_bound.saturating_mul(count);
    let entries = interpolate_positions(alloc, alphas, polys, degree_bound, capacity)?;
    let mut unbatched = Vec::with_capacity(alloc, count)?;
    for s in 0..count {
        unbatched.push(stepped(alloc, &entries, s, count, degree_bound)?)?;
    }
    Ok(unbatched)
}
