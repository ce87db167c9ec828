//! Polynomials of one length, position by position.

ghost use Rattle.std.specs.Prelude.{◌≡◌, ◌+◌, ◌*◌, ◌<◌, [], ◌++◌, length, vec_len, All, IfOk, OnOk};
ghost use Rattle.algebra.specs.Interpolation.{AreDistinct};
ghost use Rattle.p3_converse.specs.Positions.{coefficients_at, interleaved, interpolated, stepped};
ghost use Rattle.algebra.specs.Nested.{lists};

use crate::newton::{interpolate_each, newton_weights};
use p3_field_core::Field;
use std::alloc::{AllocError, Global};

/// For each position of the polynomials, of `degree_bound` coefficients each, the coefficients of
/// the one polynomial through the points and what the polynomials have there, one position after
/// another. `capacity` is how many that are.
pub fn interpolate_positions<F: Field>(
    alloc: Global,
    points: &[F],
    polys: &[Vec<F>],
    degree_bound: usize,
    capacity: usize,
) -> Result<Vec<F>, AllocError>
    requires distinct { AreDistinct points.now }
    requires as_many { length polys.now ≡ length points.now }
    requires one_length { All (λ p. vec_len p ≡ degree_bound) polys.now }
    ensures { IfOk result
        (λ v. v.items ≡ interpolated F.ops points.now (lists polys.now) degree_bound) }
{
    let mut entries = Vec::with_capacity(alloc, capacity)?;
    let weights = newton_weights(alloc, points, &mut entries)?;
    interleave(polys, degree_bound, &mut entries)?;
    interpolate_each(points, &weights, degree_bound, &mut entries);
    Ok(entries)
}

/// Appends what the polynomials, of `degree_bound` coefficients each, have at position 0, then what
/// they have at position 1, and so on.
#[tactic(auto, using(crate::proofs::Concatenated::concatenated_next))]
pub fn interleave<F: Field>(
    polys: &[Vec<F>],
    degree_bound: usize,
    entries: &mut Vec<F>,
) -> Result<(), AllocError>
    requires one_length { All (λ p. vec_len p ≡ degree_bound) polys.now }
    requires empty { entries.old.items ≡ [] }
    ensures { OnOk result (entries.new.items ≡ interleaved F.ops (lists polys.now) degree_bound) }
{
    for position in 0..degree_bound {
        push_coefficients_at(polys, position, entries)?;
    }
    Ok(())
}

/// Appends what each of the polynomials has at this position.
fn push_coefficients_at<F: Field>(
    polys: &[Vec<F>],
    position: usize,
    entries: &mut Vec<F>,
) -> Result<(), AllocError>
    requires { All (λ p. position < vec_len p) polys.now }
    ensures { OnOk result (entries.new.items
        ≡ entries.old.items ++ coefficients_at F.ops (lists polys.now) position) }
{
    for poly in polys {
        entries.push(poly[position])?;
    }
    Ok(())
}

/// The entries at `start`, `start + step` and so on, `count` of them.
pub fn stepped<F: Field>(
    alloc: Global,
    entries: &[F],
    start: usize,
    step: usize,
    count: usize,
) -> Result<Vec<F>, AllocError>
    requires start { start < step }
    requires count { length entries.now ≡ count * step }
    ensures { IfOk result (λ v. v.items ≡ stepped F.ops entries.now start step count) }
{
    let mut picked = Vec::with_capacity(alloc, count)?;
    for m in 0..count {
        picked.push(entries[m * step + start])?;
    }
    Ok(picked)
}
