//! Undoing the fold of rows.

ghost use Rattle.std.specs.Prelude.{◌≡◌, ◌<◌, ◌+◌, ◌*◌, ◌^◌, [], ◌∷◌, length, vec_len, All, IfOk};
ghost use Rattle.std.specs.Prelude.{true, false};
ghost use Rattle.algebra.specs.Interpolation.{AreDistinct};
ghost use Rattle.p3_converse.specs.Branches.{IsTreeUnfolding};
ghost use Rattle.p3_converse.specs.Trees.{one_round};
ghost use Rattle.algebra.specs.Nested.{lists};
ghost use Rattle.p3_converse.specs.Unfolding.{common_length};
ghost use Rattle.p3_converse.specs.Positions.{interpolated};
ghost use Rattle.p3_converse.specs.Unfolding.{IsUnfolding, IsUnfoldingWithInput};
ghost use Rattle.p3_converse.specs.Unfolding.{unfolded_word, unfolded_input};

use crate::batching::unbatch;
use crate::by_position::{interleave, interpolate_positions};
use p3_field_core::Field;
use std::alloc::{AllocError, Global};

/// The polynomial that folds to `polys[t]` at each `betas[t]`: the converse of folding (of FRI's
/// folding step, ICALP 2018, at arity `2^log_arity`). Wherever a row of `2^log_arity` values
/// folds at each of the betas to the value of the polynomial beside it at the row's point in the
/// folded domain, the row has this polynomial's values at its own points. It depends on the betas
/// and the polynomials alone, so one serves the rows of a word all together.
///
/// There are `2^log_arity` betas, no two of them equal, and as many polynomials of one length
/// `d`, as coefficients, the constant first; the answer has `d * 2^log_arity` coefficients. `Err`
/// means that memory was wanting.
///
/// Coefficient `j` of the polynomial through the points `(betas[t], polys[t][m])` becomes
/// coefficient `m * 2^log_arity + j`. That takes some `d * 4^log_arity` multiplications and one
/// inversion, and besides the answer one list of a weight for each beta.
pub fn unfold<EF: Field>(
    alloc: Global,
    log_arity: usize,
    betas: &[EF],
    polys: &[Vec<EF>],
) -> Result<Vec<EF>, AllocError>
    requires arity { length betas.now ≡ 2 ^ log_arity }
    requires distinct { AreDistinct betas.now }
    requires as_many { length polys.now ≡ 2 ^ log_arity }
    requires one_length { All (λ p. vec_len p ≡ common_length polys.now) polys.now }
    requires fits { common_length polys.now * 2 ^ log_arity < 2 ^ 64 }
    ensures length { IfOk result (λ p. vec_len p ≡ common_length polys.now * 2 ^ log_arity) }
    ensures coefficients { IfOk result (λ p. p.items
        ≡ interpolated EF.ops betas.now (lists polys.now) (common_length polys.now)) }
    ensures rows { IfOk result
        (λ p. IsUnfolding EF.ops log_arity betas.now (lists polys.now) p.items) }
    ensures one_round { IfOk result (λ p. IsTreeUnfolding EF.ops ((log_arity, false) ∷ [])
        (one_round betas.now (lists polys.now)) p.items []) }
{
    let arity = 1 << log_arity;
    let degree_bound = polys[0].len();
    interpolate_positions(alloc, betas, polys, degree_bound, degree_bound * arity)
}

/// The same with an input that is rolled in after the fold: wherever a row of `2^log_arity`
/// values and the value `u` of an input are such that the row's fold at each beta plus
/// `beta^(2^log_arity) * u` is the value of the polynomial beside it at the row's point in the
/// folded domain, the row has the values of one polynomial at its own points, and `u` is that of
/// another at the folded point. The answer is the word's polynomial and the input's.
///
/// There are `2^log_arity + 1` betas, no two of them equal, and as many polynomials of one length
/// `d`, as coefficients, the constant first; the word's polynomial has `d * 2^log_arity`
/// coefficients, the input's `d`. `Err` means that memory was wanting.
///
/// The input's polynomial is the part of `unbatch` that stands beside the highest power of a beta;
/// the word's has the coefficients of the others, position by position. That takes some
/// `d * 4^log_arity` multiplications and one inversion.
pub fn unfold_with_input<EF: Field>(
    alloc: Global,
    log_arity: usize,
    betas: &[EF],
    polys: &[Vec<EF>],
) -> Result<(Vec<EF>, Vec<EF>), AllocError>
    requires arity { length betas.now ≡ 2 ^ log_arity + 1 }
    requires distinct { AreDistinct betas.now }
    requires as_many { length polys.now ≡ 2 ^ log_arity + 1 }
    requires one_length { All (λ p. vec_len p ≡ common_length polys.now) polys.now }
    requires fits { common_length polys.now * 2 ^ log_arity < 2 ^ 64 }
    ensures word_length { IfOk result
        (λ u. vec_len u.0 ≡ common_length polys.now * 2 ^ log_arity) }
    ensures input_length { IfOk result (λ u. vec_len u.1 ≡ common_length polys.now) }
    ensures word_coefficients { IfOk result (λ u. u.0.items
        ≡ unfolded_word EF.ops log_arity betas.now (lists polys.now) (common_length polys.now)) }
    ensures input_coefficients { IfOk result (λ u. u.1.items
        ≡ unfolded_input EF.ops log_arity betas.now (lists polys.now) (common_length polys.now)) }
    ensures rows { IfOk result (λ u. IsUnfoldingWithInput EF.ops log_arity betas.now
        (lists polys.now) u.0.items u.1.items) }
    ensures one_round { IfOk result (λ u. IsTreeUnfolding EF.ops ((log_arity, true) ∷ [])
        (one_round betas.now (lists polys.now)) u.0.items (u.1.items ∷ [])) }
{
    let arity = 1 << log_arity;
    let degree_bound = polys[0].len();
    let mut parts = unbatch(alloc, betas, polys)?;
    let input = parts.pop().unwrap();
    let mut word = Vec::with_capacity(alloc, degree_bound * arity)?;
    interleave(&parts, degree_bound, &mut word)?;
    Ok((word, input))
}
