//! What all queries share: the claimed values, combined point by point.

ghost use Rattle.std.specs.Prelude.{◌≡◌, ◌≤◌, map, All, ◌++◌, IfOk, vec_len};
ghost use Rattle.algebra.specs.Nested.{lists};
ghost use Rattle.algebra.specs.Polynomial.{val};
ghost use Rattle.p3_fri_relation.specs.Heights.{matrices_of, width};
ghost use Rattle.p3_fri_relation.specs.Views.{claims_of, matrix_claim};
ghost use Rattle.p3_fri_inputs.specs.Claims.{combined_values, IsWithin};

use crate::checks::claimed_width;
use p3_field_core::{Field, TwoAdicField, TwoAdicMultiplicativeCoset};
use p3_fri_relation::Ladder;
use p3_mmcs::{CommitmentOpening, MatrixOpening};
use std::alloc::{AllocError, Global};

/// The greatest width of these matrices.
fn greatest_width_of<F: TwoAdicField, EF: Field>(
    matrices: &[MatrixOpening<EF, TwoAdicMultiplicativeCoset<F>>],
) -> usize
    ensures { All (λ m. width m ≤ result)
        (map (matrix_claim (λ domain. domain.log_size)) matrices.now) }
{
    let mut greatest = 0;
    for k in 0..matrices.len() {
        greatest = claimed_width(&matrices[k]).max(greatest);
    }
    greatest
}

/// The greatest width of all claimed matrices.
pub fn greatest_width<F: TwoAdicField, EF: Field, Com>(
    claims: &[CommitmentOpening<EF, Com, TwoAdicMultiplicativeCoset<F>>],
) -> usize
    ensures { All (λ m. width m ≤ result)
        (matrices_of (claims_of (λ domain. domain.log_size) claims.now)) }
{
    let mut greatest = 0;
    for batch in 0..claims.len() {
        greatest = greatest_width_of(&claims[batch].matrices).max(greatest);
    }
    greatest
}

/// Adds to `combined` what is claimed of a matrix at each point, combined by the ladder.
fn push_combined<F: TwoAdicField, EF: Field>(
    combined: &mut Vec<EF>,
    ladder: &Ladder<EF>,
    matrix: &MatrixOpening<EF, TwoAdicMultiplicativeCoset<F>>,
) -> Result<(), AllocError>
    requires within { IsWithin (vec_len ladder.now.powers)
        (matrix_claim (λ domain. domain.log_size) matrix.now) }
    ensures { IfOk result (λ _. combined.new.items ≡ combined.old.items
        ++ map (λ z. val EF.ops z.values ladder.now.alpha)
        (matrix_claim (λ domain. domain.log_size) matrix.now).points) }
{
    for k in 0..matrix.points.len() {
        combined.push(ladder.combine(&matrix.points[k].values))?;
    }
    Ok(())
}

/// The same for all matrices under a commitment.
fn combine_claim<F: TwoAdicField, EF: Field>(
    alloc: Global,
    ladder: &Ladder<EF>,
    matrices: &[MatrixOpening<EF, TwoAdicMultiplicativeCoset<F>>],
) -> Result<Vec<EF>, AllocError>
    requires within { All (IsWithin (vec_len ladder.now.powers))
        (map (matrix_claim (λ domain. domain.log_size)) matrices.now) }
    ensures { IfOk result (λ combined. combined.items ≡ combined_values EF.ops ladder.now.alpha
        (map (matrix_claim (λ domain. domain.log_size)) matrices.now)) }
{
    let mut combined = Vec::new(alloc);
    for k in 0..matrices.len() {
        push_combined(&mut combined, ladder, &matrices[k])?;
    }
    Ok(combined)
}

/// And for each commitment.
pub fn combine_claims<F: TwoAdicField, EF: Field, Com>(
    alloc: Global,
    ladder: &Ladder<EF>,
    claims: &[CommitmentOpening<EF, Com, TwoAdicMultiplicativeCoset<F>>],
) -> Result<Vec<Vec<EF>>, AllocError>
    requires { All (IsWithin (vec_len ladder.now.powers))
        (matrices_of (claims_of (λ domain. domain.log_size) claims.now)) }
    ensures { IfOk result (λ combined. lists combined.items
        ≡ map (λ c. combined_values EF.ops ladder.now.alpha c.matrices)
        (claims_of (λ domain. domain.log_size) claims.now)) }
{
    let mut combined = Vec::with_capacity(alloc, claims.len())?;
    for batch in 0..claims.len() {
        combined.push(combine_claim(alloc, ladder, &claims[batch].matrices)?)?;
    }
    Ok(combined)
}
