//! What the calls of the scheme that hides answer, over a field.

ghost use Rattle.std.specs.Prelude.{ℕ, List};
ghost use Rattle.p3_fri_plain.specs.Views.{hiding_seen};
ghost use Rattle.fri_flat.specs.HidingAnswers.{CommitsHiding, AnswersHiding};
ghost use Rattle.fri_flat.specs.HidingAnswers.{AnswersHidingStatement};

use fri_requests::{HidingScheme, MadeScheme, SchemeField};
use fri_schemes::{Coset, SchemeParts};
use p3_challenger_sha256::Sha256Challenger;
use p3_pcs::Pcs;
use p3_stark_pcs::UnivariateStarkPcs;

/// A field, with which bytes answer others in the scheme that hides over it. Each field of schemes
/// has it, as `⟦<F as HidingParts>⟧.Commits`, and a bound needn't name it.
pub trait HidingParts: SchemeField {
    // bytes are a request, and others the commitments to its batches
    ghost Commits: { List ℕ → List ℕ → Type 0 };

    // bytes are a request, and others an answer of `open` to it
    ghost Opens: { List ℕ → List ℕ → Type 0 };

    // bytes are a statement that is accepted, and others what is drawn after it
    ghost Verifies: { List ℕ → List ℕ → Type 0 };
}

impl<F: SchemeField> HidingParts for F {
    ghost Commits = { CommitsHiding ⟦<F as SchemeParts>⟧.fields
        ⟦<HidingScheme<F> as Pcs<F::Extension, Sha256Challenger<F>>>⟧.rules (λ d. d.shift)
        (λ d. d.log_size) hiding_seen
        ⟦<HidingScheme<F> as MadeScheme<F, F::Extension, Coset<F>>>⟧.IsMade
        ⟦<HidingScheme<F> as UnivariateStarkPcs<F::Extension, Sha256Challenger<F>>>⟧.stark_rules
        ⟦<HidingScheme<F> as Pcs<F::Extension, Sha256Challenger<F>>>⟧.Keeps };

    ghost Opens = { AnswersHiding ⟦<F as SchemeParts>⟧.fields
        ⟦<HidingScheme<F> as Pcs<F::Extension, Sha256Challenger<F>>>⟧.rules (λ d. d.shift)
        (λ d. d.log_size) hiding_seen
        ⟦<HidingScheme<F> as MadeScheme<F, F::Extension, Coset<F>>>⟧.IsMade
        ⟦<HidingScheme<F> as UnivariateStarkPcs<F::Extension, Sha256Challenger<F>>>⟧.stark_rules
        ⟦<HidingScheme<F> as Pcs<F::Extension, Sha256Challenger<F>>>⟧.Keeps };

    ghost Verifies = { AnswersHidingStatement ⟦<F as SchemeParts>⟧.fields
        ⟦<HidingScheme<F> as Pcs<F::Extension, Sha256Challenger<F>>>⟧.rules (λ d. d.shift)
        (λ d. d.log_size) hiding_seen
        ⟦<HidingScheme<F> as MadeScheme<F, F::Extension, Coset<F>>>⟧.IsMade };
}
