//! What an opening stands on, named once.

ghost use Rattle.p3_fri_folding.specs.declared.config.FriParameters.{FriParameters};
ghost use Rattle.p3_fri_relation.specs.Views.{parameters_of};
ghost use Rattle.p3_fri_opening_prover.specs.Setting.{OpeningSetting};

use p3_challenger_core::{CanObserve, FieldChallenger, GrindingChallenger};
use p3_field_core::{ExtensionField, TwoAdicField};
use p3_fri_folding::{FriFoldingStrategy, FriParameters};
use p3_fri_relation::setting::PlaysFri;
use p3_mmcs::Mmcs;

/// What a prover works by, the same for all that it opens: how a row is folded, the parameters with
/// the scheme of the rounds, and the scheme of the inputs.
#[derive(Drop)]
pub(crate) struct ProverSetting<'a, S, M, InputMmcs> {
    /// How a row is folded.
    pub folding: &'a S,
    /// The parameters, with the scheme that commits to the folded words.
    pub params: &'a FriParameters<M>,
    /// The scheme that the matrices are committed by.
    pub input_mmcs: &'a InputMmcs,
}

/// A challenger of openings, with the record of all that an opening stands on: the strategy, the
/// parameters with the scheme of the rounds, and that of the inputs. Each has it, as `⟦<C as
/// OpensFri<F, EF, S, M, InputMmcs>>⟧.parts folding parameters mmcs`.
pub trait OpensFri<
    F: TwoAdicField,
    EF: ExtensionField<F>,
    S: FriFoldingStrategy<F, EF>,
    M: Mmcs<EF>,
    InputMmcs: Mmcs<F>,
>: FieldChallenger<F>
    + GrindingChallenger<Witness = F>
    + CanObserve<M::Commitment> {
    /// What an opening stands on.
    ghost parts: { S → FriParameters M → InputMmcs → OpeningSetting F EF Self
        InputMmcs.ProverData M.ProverData M.Commitment M.MultiProof InputMmcs.Commitment
        InputMmcs.MultiProof };
}

impl<
    F: TwoAdicField,
    EF: ExtensionField<F>,
    S: FriFoldingStrategy<F, EF>,
    M: Mmcs<EF>,
    InputMmcs: Mmcs<F>,
    C: FieldChallenger<F> + GrindingChallenger<Witness = F> + CanObserve<M::Commitment>,
> OpensFri<F, EF, S, M, InputMmcs> for C {
    ghost parts = { λ folding params mmcs. record {
      setting = ⟦<C as PlaysFri<F, EF, S, M, InputMmcs>>⟧.setting folding params.mmcs mmcs;
      parameters = parameters_of params;
      committed = InputMmcs.committed;
      commitment_of = InputMmcs.commitment_of;
      round_committed = M.committed;
      round_commitment_of = M.commitment_of;
      solution = C.solution;
      most_bits = C.MAX_SAMPLE_BITS;
      max_log_height = S.max_log_height folding;
    } };
}
