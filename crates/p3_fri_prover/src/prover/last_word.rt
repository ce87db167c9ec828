//! The final polynomial of the last word.

ghost use Rattle.std.specs.Prelude.{◌≡◌, ◌<◌, ◌≤◌, ◌^◌, ℕ, IfOk, vec_len};
ghost use Rattle.algebra.specs.Rounds.{final_polynomial};

use p3_dft::{Radix2Dit, TwoAdicSubgroupDft};
use p3_field_core::{ExtensionField, TwoAdicField, reverse_slice_index_bits};
use p3_fri_folding::FriParameters;
use std::alloc::{AllocError, Global};

/// The coefficients, as many as the parameters say, of the polynomial whose word the first entries,
/// as many, are: these, put into natural order, go through the inverse transform of that size.
pub(crate) fn final_polynomial<F: TwoAdicField, EF: ExtensionField<F>, M>(
    alloc: Global,
    params: &FriParameters<M>,
    mut word: Vec<EF>,
) -> Result<Vec<EF>, AllocError>
    requires below_64 { params.now.log_final_poly_len < 64 }
    requires long_enough { 2 ^ params.now.log_final_poly_len ≤ vec_len word }
    requires within_two_adicity { params.now.log_final_poly_len ≤ F.TWO_ADICITY }
    ensures { IfOk result (λ polynomial. polynomial.items
        ≡ final_polynomial EF.ops (λ k. EF.lift (F.root k)) params.now.log_final_poly_len
        word.items) }
{
    word.truncate(params.final_poly_len());
    reverse_slice_index_bits(&mut word);
    Radix2Dit::<F>::default().idft_algebra(alloc, word)
}
