//! What the scheme's openings stand on, named once.

ghost use Rattle.p3_fri_folding.specs.declared.config.FriParameters.{FriParameters};
ghost use Rattle.p3_fri_relation.specs.Views.{parameters_of};
ghost use Rattle.p3_fri_opening_prover.specs.Setting.{OpeningSetting};

use p3_challenger_core::{CanObserve, FieldChallenger, GrindingChallenger};
use p3_field_core::{ExtensionField, TwoAdicField};
use p3_fri_folding::FriParameters;
use p3_fri_opening_verifier::setting::PlaysTwoAdic;
use p3_mmcs::Mmcs;

/// A challenger of the scheme, with the record of all that its openings stand on. Each has it, as
/// `⟦<C as OpensTwoAdic<F, EF, InputMmcs, M>>⟧.parts mmcs parameters`.
pub trait OpensTwoAdic<
    F: TwoAdicField,
    EF: ExtensionField<F>,
    InputMmcs: Mmcs<F>,
    M: Mmcs<EF>,
>: FieldChallenger<F>
    + GrindingChallenger<Witness = F>
    + CanObserve<M::Commitment> {
    /// What an opening stands on.
    ghost parts: { InputMmcs → FriParameters M → OpeningSetting F EF Self InputMmcs.ProverData
        M.ProverData M.Commitment M.MultiProof InputMmcs.Commitment InputMmcs.MultiProof };
}

impl<
    F: TwoAdicField,
    EF: ExtensionField<F>,
    InputMmcs: Mmcs<F>,
    M: Mmcs<EF>,
    C: FieldChallenger<F> + GrindingChallenger<Witness = F> + CanObserve<M::Commitment>,
> OpensTwoAdic<F, EF, InputMmcs, M> for C {
    ghost parts = { λ mmcs fri. record {
      setting = ⟦<C as PlaysTwoAdic<F, EF, InputMmcs, M>>⟧.setting mmcs fri.mmcs;
      parameters = parameters_of fri;
      committed = InputMmcs.committed;
      commitment_of = InputMmcs.commitment_of;
      round_committed = M.committed;
      round_commitment_of = M.commitment_of;
      solution = C.solution;
      most_bits = C.MAX_SAMPLE_BITS;
      max_log_height = F.TWO_ADICITY;
    } };
}
