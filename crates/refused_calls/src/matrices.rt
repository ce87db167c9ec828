//! What the calls are made on.

ghost use Rattle.std.specs.Prelude.{◌≡◌, ◌<◌, ◌≤◌, ◌^◌, IfOk, length};
ghost use Rattle.p3_matrix.specs.Matrix.{rows, matrix_width};

use crate::answer::{Fault, Result};
use p3_field::{
    BabyBear, BabyBear4, ExtensionField, Field, TwoAdicMultiplicativeCoset, shifted_powers,
};
use p3_matrix::RowMajorMatrix;
use std::alloc::{AllocError, Global};

pub type Domain = TwoAdicMultiplicativeCoset<BabyBear>;

/// Matrices, each beside the coset that its columns are functions on.
pub type Evaluations = Vec<(Domain, RowMajorMatrix<BabyBear>)>;

/// `2^log_height` rows of this width, of powers of the generator.
pub fn matrix(alloc: Global, log_height: usize, width: usize) -> Result<RowMajorMatrix<BabyBear>>
    requires wide { 0 < width }
    requires narrow { width ≤ 8 }
    requires low { log_height ≤ 8 }
    ensures height { IfOk result (λ m. length (rows m) ≡ 2 ^ log_height) }
    ensures width { IfOk result (λ m. matrix_width m ≡ width) }
{
    let (height, generator) = (1 << log_height, BabyBear::GENERATOR);
    let values = shifted_powers(alloc, generator, generator, height * width)?;
    Ok(RowMajorMatrix::new(values, width))
}

/// The coset of this shift of `2^log_size` points.
pub fn coset(shift: u64, log_size: usize) -> Result<Domain>
    ensures { IfOk result (λ domain. domain.log_size ≡ log_size) }
{
    match Domain::new(BabyBear::from_u64(shift), log_size) {
        Some(domain) => Ok(domain),
        None => Err(Fault::Inputs),
    }
}

/// For each of so many matrices so many points, which lie in no coset of the base field.
pub fn points(
    alloc: Global,
    num_matrices: usize,
    num_points: usize,
) -> std::result::Result<Vec<Vec<BabyBear4>>, AllocError>
    ensures { IfOk result (λ all. length all.items ≡ num_matrices) }
{
    let point = BabyBear4::GENERATOR;
    let mut all = Vec::with_capacity(alloc, num_matrices)?;
    for _matrix in 0..num_matrices {
        all.push(shifted_powers(alloc, point, point, num_points)?)?;
    }
    Ok(all)
}
