//! The plain scheme, made of parameters.

ghost use Rattle.std.proofs.Common.{ap, refl, sym, subst, ◌∙◌};
ghost use Rattle.std.specs.Prelude.{◌≡◌};
ghost use Rattle.p3_challenger_sha256.specs.Sha256.{start};
ghost use Rattle.p3_fri_folding.specs.declared.error.FriProverError.TheVariants.{OutOfMemory};
ghost use Rattle.p3_fri_relation.specs.Setting.{Parameters as TestParameters};
ghost use Rattle.p3_fri_relation.specs.Views.{parameters_of, proof_of};
ghost use Rattle.p3_fri_openings.specs.SchemeClaims.{relation_claims};
ghost use Rattle.p3_fri_two_adic.specs.Ranges.{InProverRange, InVerifierRange};
ghost use Rattle.fri_schemes.specs.Alike.{same_alike};
ghost use Rattle.fri_schemes.specs.RangeLaws.{verifier_range};
ghost use Rattle.fri_schemes.specs.RowLaws.{plain_rows, plain_columns};

use crate::scheme::{Coset, Inputs, MadeScheme};
use crate::scheme_field::SchemeField;
use fri_records::Rounds;
use p3_challenger_sha256::Sha256Challenger;
use p3_dft::Radix2Dit;
use p3_field::BabyBear;
use p3_fri_folding::{FriParameters, FriProverError};
use p3_fri_two_adic::TwoAdicFriPcs;
use p3_mmcs::Sha256Mmcs;
use std::alloc::{AllocError, Global};

/// The plain scheme.
pub type PlainScheme<F = BabyBear> = TwoAdicFriPcs<
    F,
    Radix2Dit<F>,
    Inputs<F>,
    Rounds<<F as SchemeField>::Extension>,
>;

/// It draws nothing, and its challenger is fresh.
impl<F: SchemeField> MadeScheme<F, F::Extension, Coset<F>> for PlainScheme<F> {
    ghost IsMade = { λ p n seed s. parameters_of s.fri ≡ p };

    ghost begun = { λ n index. start };

    ghost IsMemory = { λ e. e ≡ OutOfMemory };

    fn made(
        fri: FriParameters<Rounds<F::Extension>>,
        _num_random_codewords: usize,
        _seed: [u8; 32],
    ) -> Self
        ensures { parameters_of result.fri ≡ parameters_of fri }
    {
        TwoAdicFriPcs::new(Radix2Dit::default(), Sha256Mmcs::new(), fri)
    }

    fn begin(
        _alloc: Global,
        _num_random_codewords: usize,
        _preprocessing: Option<usize>,
    ) -> Result<Sha256Challenger<F>, AllocError> {
        Ok(Sha256Challenger::over_field())
    }

    fn is_out_of_memory(error: &FriProverError) -> bool {
        matches!(error, FriProverError::OutOfMemory)
    }

    ghost verifier_law = { λ p n seed s made range.
        subst (λ q. InVerifierRange q F.TWO_ADICITY 63) (sym made) range };

    ghost prover_law = { λ p n seed s made range.
        subst (λ q. InProverRange q F.TWO_ADICITY 63) (sym made) range };

    ghost blowup_law = { λ p n seed s made. ap (λ (q : TestParameters). q.log_blowup) made };

    ghost commit_law = { λ p n seed s made evaluations fit.
        plain_rows F.TWO_ADICITY (λ d. d.log_size) p.log_blowup s.fri.log_blowup
        (sym (ap (λ (q : TestParameters). q.log_blowup) made)) evaluations fit };

    ghost columns_law = { λ s m e h z.
        plain_columns _ e.0.shift e.0.log_size e.1 m h z };

    ghost accepted_law = { λ p n seed s made range index c claims proof holds.
        verifier_range _ F.two_adicity_law p (parameters_of s.fri) (sym made)
        (relation_claims (λ d. d.log_size) claims) (proof_of proof) c range holds };

    ghost memory_law = { λ s. refl };

    ghost keeps_since_law = { λ old new later kept since. since ∙ kept };

    ghost alike_law = { λ old new kept. same_alike old new kept (λ s. Self.rules s) };
}
