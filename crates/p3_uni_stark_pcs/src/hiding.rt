//! The hiding scheme as one of a STARK.

ghost use Rattle.std.proofs.Common.{ap};
ghost use Rattle.p3_field_core.specs.Basis.{unit_vector};
ghost use Rattle.p3_pcs.specs.Claims.{opened_values};
ghost use Rattle.p3_fri_relation.specs.Views.{proof_of};
ghost use Rattle.p3_uni_stark_pcs.specs.HidingLaws.{hiding_polynomials, hiding_room};

use crate::two_adic::TwoAdicStarkPcs;
use p3_challenger_core::{CanObserve, FieldChallenger, GrindingChallenger};
use p3_dft::TwoAdicSubgroupDft;
use p3_field_core::{
    PackableExtension, PackableField, SampleField, TwoAdicField, TwoAdicMultiplicativeCoset,
};
use p3_fri_hiding::HidingFriPcs;
use p3_fri_hiding_openings::OpensTwoAdic;
use p3_mmcs::Mmcs;
use rand_core::CryptoRng;

/// A word is `2^log_blowup` times as long as its polynomial, of the scheme's parameters.
impl<
    F: TwoAdicField + PackableField + SampleField,
    EF: PackableExtension<F>,
    Dft: TwoAdicSubgroupDft<F>,
    InputMmcs: Mmcs<F>,
    M: Mmcs<EF>,
    R: CryptoRng,
    C: FieldChallenger<F> + GrindingChallenger<Witness = F> + CanObserve<M::Commitment>,
> TwoAdicStarkPcs<EF, C, TwoAdicMultiplicativeCoset<F>> for HidingFriPcs<F, Dft, InputMmcs, M, R> {
    ghost log_blowup = { λ s. s.fri.log_blowup };

    fn log_blowup(&self) -> usize {
        self.parameters().log_blowup
    }

    ghost blowup_law = { λ old new kept. ap (λ s. s.fri.log_blowup) kept };

    ghost polynomials_law = { λ s. hiding_polynomials
        (λ e. EF.of_coefficients (unit_vector F.ops EF.DIMENSION e)) F.canonical
        (λ d. d.shift) (λ d. d.log_size)
        (λ proof. opened_values proof.0.items) (λ proof. proof_of proof.1)
        s.num_random_codewords F.from_word
        (⟦<C as OpensTwoAdic<F, EF, InputMmcs, M>>⟧.parts s.mmcs s.fri)
        F.Field.laws F.roots_law (λ d. d.nonzero) (λ d. d.within_two_adicity) };

    ghost room_law = { λ s k log within extended. hiding_room
        (λ e. EF.of_coefficients (unit_vector F.ops EF.DIMENSION e)) F.canonical
        (λ d. d.shift) (λ d. d.log_size)
        (λ proof. opened_values proof.0.items) (λ proof. proof_of proof.1)
        s.num_random_codewords F.from_word
        (⟦<C as OpensTwoAdic<F, EF, InputMmcs, M>>⟧.parts s.mmcs s.fri)
        F.Field.laws F.roots_law F.generator_law k log within extended };
}
