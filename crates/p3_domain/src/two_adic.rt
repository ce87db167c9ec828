//! Two-adic cosets as domains.

ghost use Rattle.std.specs.Prelude.{◌≡◌, ◌≢◌, ◌≤◌};

use crate::ceil_log::log2_ceil_usize;
use crate::space::PolynomialSpace;
use crate::strided::split_rows;
use p3_field_core::{
    ExtensionField, Field, TwoAdicField, TwoAdicMultiplicativeCoset, log2_strict_usize,
};
use p3_matrix::RowMajorMatrix;
use p3_uni_stark_identity::{LagrangeSelectors, selectors_at_point, split_coset};
use p3_uni_stark_quotient::{is_off_subgroups, selectors_on_coset};
use std::alloc::{AllocError, Global};

impl<F: TwoAdicField> PolynomialSpace for TwoAdicMultiplicativeCoset<F> {
    type Val = F;

    ghost log_size = { λ coset. coset.log_size };

    ghost shift = { λ coset. coset.shift };

    fn size(&self) -> usize {
        1 << self.log_size
    }

    fn first_point(&self) -> F {
        self.shift
    }

    fn next_point<EF: ExtensionField<F>>(&self, point: EF) -> Option<EF> {
        let generator = F::two_adic_generator(self.log_size);
        Some(point.scale(generator))
    }

    fn create_disjoint_domain(&self, min_size: usize) -> Option<Self> {
        let log_size = log2_ceil_usize(min_size);
        let turn = TwoAdicMultiplicativeCoset::new(F::GENERATOR, log_size)?;
        if is_off_subgroups(turn) {
            let other = TwoAdicMultiplicativeCoset {
                shift: self.shift * F::GENERATOR,
                log_size,
            };
            return Some(other);
        }
        None
    }

    fn split_domains(&self, alloc: Global, num_chunks: usize) -> Result<Vec<Self>, AllocError> {
        let log_num_chunks = log2_strict_usize(num_chunks);
        let log_chunk_size = self.log_size - log_num_chunks;
        let pieces = split_coset(alloc, self.shift, log_chunk_size, log_num_chunks)?;
        Ok(pieces)
    }

    fn split_evals(
        &self,
        alloc: Global,
        num_chunks: usize,
        evals: &RowMajorMatrix<F>,
    ) -> Result<Vec<RowMajorMatrix<F>>, AllocError> {
        split_rows(alloc, num_chunks, evals)
    }

    fn vanishing_poly_at_point<EF: ExtensionField<F>>(&self, point: EF) -> EF {
        TwoAdicMultiplicativeCoset::vanishing_poly_at_point(self, point)
    }

    fn selectors_at_point<EF: ExtensionField<F>>(&self, point: EF) -> LagrangeSelectors<EF> {
        let unshifted = point.scale(self.shift.inverse());
        selectors_at_point::<F, EF>(self.log_size, unshifted)
    }

    fn selectors_on_coset(
        &self,
        alloc: Global,
        coset: Self,
    ) -> Result<Vec<LagrangeSelectors<F>>, AllocError> {
        let shift = coset.shift * self.shift.inverse();
        let unshifted = TwoAdicMultiplicativeCoset {
            shift,
            log_size: coset.log_size,
        };
        let selectors = selectors_on_coset(alloc, self.log_size, unshifted)?;
        Ok(selectors)
    }

    ghost size_law = { λ coset. coset.within_two_adicity };

    ghost shift_law = { λ coset. coset.nonzero };
}
