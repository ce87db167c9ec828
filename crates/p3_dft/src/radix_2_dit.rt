//! The transform by layers of butterflies.

ghost use Rattle.std.specs.Prelude.{◌≡◌, ◌≢◌, ◌≤◌, ◌+◌, ◌*◌, ◌^◌, ℕ, IfOk, length, vec_len};
ghost use Rattle.std.specs.Int.{IsPowerOfTwo};
ghost use Rattle.algebra.specs.Interpolation.{Interpolates};
ghost use Rattle.p3_field_core.specs.Coset.{coset_points};
ghost use Rattle.p3_matrix.specs.Matrix.{rows};
ghost use Rattle.p3_dft.specs.Evaluations.{subgroup_points, AreEvaluations};
ghost use Rattle.p3_dft.specs.Evaluations.{extension, AreCosetExtensions};

use crate::scaling::scale_rows;
use crate::traits::TwoAdicSubgroupDft;
use crate::transform::{interpolate, transform};
use p3_field_core::{ExtensionField, TwoAdicField, log2_strict_usize};
use p3_matrix::RowMajorMatrix;
use std::alloc::{AllocError, Global};
use std::marker::PhantomData;

/// A transform of radix 2 by decimation in time, two layers in a pass. It works on whole rows, and
/// takes a second buffer of the result's size and a table of roots of unity, one for two rows.
#[derive(Clone, Copy, Debug)]
pub struct Radix2Dit<F>(PhantomData<F>);

impl<F> Default for Radix2Dit<F> {
    fn default() -> Self {
        Radix2Dit(PhantomData)
    }
}

impl<F: TwoAdicField> TwoAdicSubgroupDft<F> for Radix2Dit<F> {
    fn dft_batch(
        &self,
        alloc: Global,
        coefficients: RowMajorMatrix<F>,
    ) -> Result<RowMajorMatrix<F>, AllocError>
        requires power_of_two { IsPowerOfTwo (length (rows coefficients)) }
        requires within_two_adicity { length (rows coefficients) ≤ 2 ^ F.TWO_ADICITY }
        ensures { (k : ℕ) → length (rows coefficients) ≡ 2 ^ k → IfOk result (λ values.
            AreEvaluations F.ops (subgroup_points F.ops (F.root k) k) coefficients values) }
    {
        let width = coefficients.width();
        let log_height = log2_strict_usize(coefficients.height());
        let root = F::two_adic_generator(log_height);
        let values = transform(alloc, coefficients.into_values(), width, log_height, root)?;
        Ok(RowMajorMatrix::new(values, width))
    }

    fn coset_dft_batch(
        &self,
        alloc: Global,
        coefficients: RowMajorMatrix<F>,
        shift: F,
    ) -> Result<RowMajorMatrix<F>, AllocError>
        requires power_of_two { IsPowerOfTwo (length (rows coefficients)) }
        requires within_two_adicity { length (rows coefficients) ≤ 2 ^ F.TWO_ADICITY }
        ensures { (k : ℕ) → length (rows coefficients) ≡ 2 ^ k → IfOk result (λ values.
            AreEvaluations F.ops (coset_points F.ops (F.root k) shift k) coefficients values) }
    {
        let width = coefficients.width();
        let height = coefficients.height();
        let log_height = log2_strict_usize(height);
        let root = F::two_adic_generator(log_height);
        let mut scaled = coefficients.into_values();
        scale_rows(&mut scaled, width, height, F::ONE, shift);
        let values = transform(alloc, scaled, width, log_height, root)?;
        Ok(RowMajorMatrix::new(values, width))
    }

    fn coset_idft_batch(
        &self,
        alloc: Global,
        values: RowMajorMatrix<F>,
        shift: F,
    ) -> Result<RowMajorMatrix<F>, AllocError>
        requires power_of_two { IsPowerOfTwo (length (rows values)) }
        requires within_two_adicity { length (rows values) ≤ 2 ^ F.TWO_ADICITY }
        requires nonzero { shift ≢ F.ops.zero }
        ensures { (k : ℕ) → length (rows values) ≡ 2 ^ k → IfOk result (λ coefficients.
            AreEvaluations F.ops (coset_points F.ops (F.root k) shift k) coefficients values) }
    {
        let width = values.width();
        let log_height = log2_strict_usize(values.height());
        let coefficients = interpolate(
            alloc,
            values.into_values(),
            width,
            log_height,
            shift.inverse(),
        )?;
        Ok(RowMajorMatrix::new(coefficients, width))
    }

    fn coset_lde_batch(
        &self,
        alloc: Global,
        values: RowMajorMatrix<F>,
        added_bits: usize,
        shift: F,
    ) -> Result<RowMajorMatrix<F>, AllocError>
        requires power_of_two { IsPowerOfTwo (length (rows values)) }
        requires within_two_adicity { length (rows values) * 2 ^ added_bits ≤ 2 ^ F.TWO_ADICITY }
        ensures { (k : ℕ) → length (rows values) ≡ 2 ^ k → IfOk result (λ extended.
            AreCosetExtensions F.ops F.root shift k added_bits values extended) }
    {
        let width = values.width();
        let log_height = log2_strict_usize(values.height());
        let log_extended = log_height + added_bits;
        let Some(size) = width.checked_mul(1 << log_extended) else {
            return Err(AllocError);
        };
        let mut coefficients = interpolate(alloc, values.into_values(), width, log_height, shift)?;
        coefficients.resize(size, F::ZERO)?;
        let root = F::two_adic_generator(log_extended);
        let extended = transform(alloc, coefficients, width, log_extended, root)?;
        Ok(RowMajorMatrix::new(extended, width))
    }

    fn coset_lde(
        &self,
        alloc: Global,
        column: Vec<F>,
        added_bits: usize,
        shift: F,
    ) -> Result<Vec<F>, AllocError>
        requires power_of_two { IsPowerOfTwo (vec_len column) }
        requires within_two_adicity { vec_len column * 2 ^ added_bits ≤ 2 ^ F.TWO_ADICITY }
        ensures { (k : ℕ) → vec_len column ≡ 2 ^ k → IfOk result (λ extended.
            extended.items ≡ extension F.ops (subgroup_points F.ops (F.root k) k)
            (coset_points F.ops (F.root (k + added_bits)) shift (k + added_bits)) column.items) }
    {
        let matrix = RowMajorMatrix::new(column, 1);
        let extended = self.coset_lde_batch(alloc, matrix, added_bits, shift)?;
        Ok(extended.into_values())
    }

    fn idft_algebra<EF: ExtensionField<F>>(
        &self,
        alloc: Global,
        values: Vec<EF>,
    ) -> Result<Vec<EF>, AllocError>
        requires power_of_two { IsPowerOfTwo (vec_len values) }
        requires within_two_adicity { vec_len values ≤ 2 ^ F.TWO_ADICITY }
        ensures { (k : ℕ) → vec_len values ≡ 2 ^ k → IfOk result (λ coefficients.
            Interpolates EF.ops (subgroup_points EF.ops (EF.lift (F.root k)) k)
            values.items coefficients.items) }
    {
        let log_height = log2_strict_usize(values.len());
        interpolate(alloc, values, 1, log_height, F::ONE)
    }
}
