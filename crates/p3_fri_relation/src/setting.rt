//! What the layers below a low-degree test compute and accept, named once.

ghost use Rattle.std.specs.Prelude.{ℕ, List};
ghost use Rattle.p3_fri_relation.specs.Setting.{Fields, Setting};

use p3_challenger_core::{CanObserve, FieldChallenger, Plays};
use p3_field_core::{ExtensionField, TwoAdicField};
use p3_fri_folding::FriFoldingStrategy;
use p3_mmcs::Mmcs;

/// An extension of a two-adic field. Each has the record of both; a contract takes it from here, as
/// `⟦<EF as ChallengeField<F>>⟧.fields`, and a bound needn't name it.
pub trait ChallengeField<F: TwoAdicField>: ExtensionField<F> {
    ghost fields: { Fields F Self };
}

impl<F: TwoAdicField, EF: ExtensionField<F>> ChallengeField<F> for EF {
    ghost fields = { record {
      base = F.ops;
      ext = EF.ops;
      lift = EF.lift;
      coefficients = EF.coefficients;
      degree = EF.DIMENSION;
      root = F.root;
      two_adicity = F.TWO_ADICITY;
      shift = F.GENERATOR;
    } };
}

/// A challenger of a low-degree test, with the record of all that the test stands on: the strategy,
/// the scheme of its rounds and that of its inputs. Each has it, as `⟦<C as PlaysFri<F, EF, S, M,
/// InputMmcs>>⟧.setting folding mmcs input_mmcs`.
pub trait PlaysFri<
    F: TwoAdicField,
    EF: ExtensionField<F>,
    S: FriFoldingStrategy<F, EF>,
    M: Mmcs<EF>,
    InputMmcs: Mmcs<F>,
>: FieldChallenger<F>
    + CanObserve<M::Commitment> {
    ghost setting: { S → M → InputMmcs → Setting F EF Self
        M.Commitment M.MultiProof InputMmcs.Commitment InputMmcs.MultiProof };
}

impl<
    F: TwoAdicField,
    EF: ExtensionField<F>,
    S: FriFoldingStrategy<F, EF>,
    M: Mmcs<EF>,
    InputMmcs: Mmcs<F>,
    C: FieldChallenger<F> + CanObserve<M::Commitment>,
> PlaysFri<F, EF, S, M, InputMmcs> for C {
    ghost setting = { λ folding mmcs input_mmcs. record {
      fields = ⟦<EF as ChallengeField<F>>⟧.fields;
      fold = S.row_fold folding;
      extra_bits = S.extra_query_index_bits folding;
      moves = ⟦<C as Plays<F, EF, M::Commitment>>⟧.moves;
      opens_input = InputMmcs.opens input_mmcs;
      opens_round = M.opens mmcs;
    } };
}
