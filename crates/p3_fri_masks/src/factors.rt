//! The factors of masks.

ghost use Rattle.std.specs.Prelude.{◌≡◌, ◌-◌, ◌<◌, ℕ, All, IfOk, length, map};
ghost use Rattle.std.specs.Prelude.{slice_index_or};
ghost use Rattle.algebra.specs.Cosets.{vanishing};
ghost use Rattle.algebra.specs.Products.{product};
ghost use Rattle.algebra.specs.RecombinedQuotients.{product_but};
ghost use Rattle.p3_fri_masks.specs.QuotientMasks.{AreDisjoint, mask_factors};

use p3_field_core::{TwoAdicField, TwoAdicMultiplicativeCoset, batch_multiplicative_inverse};
use p3_matrix::RowMajorMatrix;
use std::alloc::{AllocError, Global};

/// The product over these chunks of the polynomials that vanish on their cosets, at a point.
fn vanishing_product<F: TwoAdicField>(
    chunks: &[(TwoAdicMultiplicativeCoset<F>, RowMajorMatrix<F>)],
    point: F,
) -> F
    ensures { result ≡ product F.ops
        (map (λ e. vanishing F.ops e.0.shift e.0.log_size point) chunks.now) }
{
    let mut product = F::ONE;
    for chunk in chunks {
        product = product * chunk.0.vanishing_poly_at_point(point);
    }
    product
}

/// The same over the other chunks, at the first point of the coset of the chunk at `index`.
fn product_over_others<F: TwoAdicField>(
    chunks: &[(TwoAdicMultiplicativeCoset<F>, RowMajorMatrix<F>)],
    index: usize,
) -> F
    requires { index < length chunks.now }
    ensures { (k : ℕ) → All (λ n. n ≡ k) (map (λ e. e.0.log_size) chunks.now) → result
        ≡ product_but F.ops (length chunks.now) index (λ j. vanishing F.ops
        (slice_index_or (map (λ e. e.0.shift) chunks.now) j F.ops.zero) k
        (slice_index_or (map (λ e. e.0.shift) chunks.now) index F.ops.zero)) }
{
    let point = chunks[index].0.first_point();
    let (before, _) = chunks.split_at(index);
    let (_, after) = chunks.split_at(index + 1);
    vanishing_product(before, point) * vanishing_product(after, point)
}

/// For each chunk but the last the factor of its mask in the last one's, `c_i / c_last`, where
/// `c_i` is the inverse of the product over the other chunks of the polynomials that vanish on
/// their cosets, at the first point of chunk `i`'s. There is a chunk, and the cosets are disjoint
/// and have one size. It takes one inversion beside those of the shifts.
pub fn mask_factors<F: TwoAdicField>(
    alloc: Global,
    chunks: &[(TwoAdicMultiplicativeCoset<F>, RowMajorMatrix<F>)],
) -> Result<Vec<F>, AllocError>
    requires some { 0 < length chunks.now }
    requires disjoint { AreDisjoint F.ops (map (λ e. e.0.log_size) chunks.now)
        (map (λ e. e.0.shift) chunks.now) }
    ensures { IfOk result (λ factors. factors.items ≡ mask_factors F.ops (length chunks.now - 1)
        (slice_index_or (map (λ e. e.0.log_size) chunks.now) 0 0)
        (map (λ e. e.0.shift) chunks.now)) }
{
    let last = chunks.len() - 1;
    let mut products = Vec::with_capacity(alloc, chunks.len())?;
    for index in 0..chunks.len() {
        products.push(product_over_others(chunks, index))?;
    }
    let weights = batch_multiplicative_inverse(alloc, &products)?;
    let mut factors = Vec::with_capacity(alloc, last)?;
    for chunk in 0..last {
        factors.push(weights[chunk] * products[last])?;
    }
    Ok(factors)
}
