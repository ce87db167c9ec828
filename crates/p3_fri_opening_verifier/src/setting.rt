//! What an opening of two-adic words stands on, in either scheme, named once.

ghost use Rattle.p3_fri_relation.specs.Setting.{Setting};
ghost use Rattle.p3_fri_opening_verifier.specs.Accepted.{two_adic};

use p3_challenger_core::{CanObserve, FieldChallenger, Plays};
use p3_field_core::{ExtensionField, TwoAdicField};
use p3_fri_folding::TwoAdicFriFolding;
use p3_fri_relation::proof::BatchMultiOpening;
use p3_fri_relation::setting::ChallengeField;
use p3_mmcs::Mmcs;

/// The folding of two-adic words inside the scheme, whose inputs are opened by `M`.
pub type TwoAdicFriFoldingForMmcs<F, M> = TwoAdicFriFolding<
    Vec<BatchMultiOpening<F, M>>,
    <M as Mmcs<F>>::Error,
>;

/// A challenger of a scheme, with the record of all that an opening stands on: both fields, the
/// challenger's moves, and the relations of the commitments to matrices and to rounds. Each has it,
/// as `⟦<C as PlaysTwoAdic<F, EF, InputMmcs, M>>⟧.setting mmcs round_mmcs`.
pub trait PlaysTwoAdic<
    F: TwoAdicField,
    EF: ExtensionField<F>,
    InputMmcs: Mmcs<F>,
    M: Mmcs<EF>,
>: FieldChallenger<F>
    + CanObserve<M::Commitment> {
    /// What an opening stands on.
    ghost setting: { InputMmcs → M → Setting F EF Self
        M.Commitment M.MultiProof InputMmcs.Commitment InputMmcs.MultiProof };
}

impl<
    F: TwoAdicField,
    EF: ExtensionField<F>,
    InputMmcs: Mmcs<F>,
    M: Mmcs<EF>,
    C: FieldChallenger<F> + CanObserve<M::Commitment>,
> PlaysTwoAdic<F, EF, InputMmcs, M> for C {
    ghost setting = { λ mmcs round_mmcs. two_adic ⟦<EF as ChallengeField<F>>⟧.fields
        ⟦<C as Plays<F, EF, M::Commitment>>⟧.moves (InputMmcs.opens mmcs) (M.opens round_mmcs) };
}
