//! Random matrices beside the domains of their values.

ghost use Rattle.std.specs.Prelude.{◌≡◌, ◌<◌, ◌^◌, IfOk};
ghost use Rattle.p3_matrix.specs.Words.{past};
ghost use Rattle.p3_fri_masks.specs.Draws.{AreRandom, random_words};

use crate::draws::random_matrix;
use p3_field_core::{SampleField, TwoAdicField, TwoAdicMultiplicativeCoset};
use p3_matrix::RowMajorMatrix;
use rand_core::Rng;
use std::alloc::{AllocError, Global};

/// Beside each of these domains, in order, a random matrix with a row for each of its points and
/// `width` columns. There is at least one column.
pub fn random_matrices<F: SampleField + TwoAdicField, R: Rng>(
    alloc: Global,
    domains: Vec<TwoAdicMultiplicativeCoset<F>>,
    width: usize,
    rng: &mut R,
) -> Result<Vec<(TwoAdicMultiplicativeCoset<F>, RowMajorMatrix<F>)>, AllocError>
    requires has_columns { 0 < width }
    ensures random { IfOk result (λ matrices. AreRandom F.from_word (λ d. 2 ^ d.log_size) width
        domains.items (R.stream rng.old) matrices.items) }
    ensures past { IfOk result (λ _. R.stream rng.new
        ≡ past (random_words F.from_word (λ d. 2 ^ d.log_size) width domains.items)
        (R.stream rng.old)) }
{
    let mut matrices = Vec::with_capacity(alloc, domains.len())?;
    for domain in domains {
        matrices.push((domain, random_matrix(alloc, domain.size(), width, rng)?))?;
    }
    Ok(matrices)
}
