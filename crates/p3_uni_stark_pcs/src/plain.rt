//! The plain scheme as one of a STARK.

ghost use Rattle.std.proofs.Common.{ap};
ghost use Rattle.p3_field_core.specs.Basis.{unit_vector};
ghost use Rattle.p3_uni_stark_pcs.specs.PlainLaws.{plain_polynomials};
ghost use Rattle.p3_uni_stark_pcs.specs.PlainRoomLaws.{plain_room};

use crate::two_adic::TwoAdicStarkPcs;
use p3_challenger_core::{CanObserve, FieldChallenger, GrindingChallenger};
use p3_dft::TwoAdicSubgroupDft;
use p3_field_core::{
    PackableExtension, PackableField, PrimeField64, TwoAdicField, TwoAdicMultiplicativeCoset,
};
use p3_fri_two_adic::TwoAdicFriPcs;
use p3_fri_two_adic::rules::OpensTwoAdic;
use p3_mmcs::Mmcs;

/// A word is `2^log_blowup` times as long as its polynomial, of the scheme's parameters.
impl<
    F: TwoAdicField + PackableField + PrimeField64,
    EF: PackableExtension<F>,
    Dft: TwoAdicSubgroupDft<F>,
    InputMmcs: Mmcs<F>,
    M: Mmcs<EF>,
    C: FieldChallenger<F> + GrindingChallenger<Witness = F> + CanObserve<M::Commitment>,
> TwoAdicStarkPcs<EF, C, TwoAdicMultiplicativeCoset<F>> for TwoAdicFriPcs<F, Dft, InputMmcs, M> {
    ghost log_blowup = { λ s. s.fri.log_blowup };

    fn log_blowup(&self) -> usize {
        self.parameters().log_blowup
    }

    ghost blowup_law = { λ old new kept. ap (λ s. s.fri.log_blowup) kept };

    ghost polynomials_law = { λ s. plain_polynomials
        (λ e. EF.of_coefficients (unit_vector F.ops EF.DIMENSION e)) F.canonical
        (λ d. d.shift) (λ d. d.log_size)
        (⟦<C as OpensTwoAdic<F, EF, InputMmcs, M>>⟧.parts s.mmcs s.fri)
        F.Field.laws F.roots_law (λ d. d.nonzero) (λ d. d.within_two_adicity) };

    ghost room_law = { λ s k log within extended. plain_room
        (λ e. EF.of_coefficients (unit_vector F.ops EF.DIMENSION e)) F.canonical
        (λ d. d.shift) (λ d. d.log_size)
        (⟦<C as OpensTwoAdic<F, EF, InputMmcs, M>>⟧.parts s.mmcs s.fri) k log extended };
}
