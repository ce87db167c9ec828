//! The scheme that hides, made of parameters.

ghost use Rattle.std.proofs.Common.{ap, refl, sym, subst, ◌∙◌};
ghost use Rattle.std.specs.Prelude.{◌≡◌};
ghost use Rattle.p3_challenger_sha256.specs.Sha256.{start};
ghost use Rattle.p3_fri_folding.specs.declared.error.FriProverError.TheVariants.{OutOfMemory};
ghost use Rattle.p3_fri_masks.specs.declared.error.HidingFriProverError.TheVariants.{Fri};
ghost use Rattle.p3_fri_relation.specs.Setting.{Parameters as TestParameters};
ghost use Rattle.p3_fri_relation.specs.Views.{parameters_of, proof_of};
ghost use Rattle.p3_fri_openings.specs.SchemeClaims.{relation_claims};
ghost use Rattle.p3_fri_hiding_openings.specs.RandomValues.{with_random_values};
ghost use Rattle.p3_fri_two_adic.specs.Ranges.{InProverRange, InVerifierRange};
ghost use Rattle.p3_pcs.specs.Claims.{opened_values};
ghost use Rattle.rand_chacha.specs.ChaCha.{of_seed};
ghost use Rattle.fri_statement.specs.Hiding.{hiding_absorbed};
ghost use Rattle.fri_schemes.specs.Alike.{same_alike};
ghost use Rattle.fri_schemes.specs.RangeLaws.{verifier_range};
ghost use Rattle.fri_schemes.specs.RowLaws.{hiding_rows};

use crate::scheme::{Coset, Inputs, MadeScheme};
use crate::scheme_field::SchemeField;
use fri_records::Rounds;
use fri_statement::absorb_hiding;
use p3_challenger_sha256::Sha256Challenger;
use p3_dft::Radix2Dit;
use p3_field::BabyBear;
use p3_fri_folding::{FriParameters, FriProverError};
use p3_fri_hiding::HidingFriPcs;
use p3_fri_masks::HidingFriProverError;
use p3_mmcs::Sha256Mmcs;
use rand_chacha::ChaCha20Rng;
use rand_core::SeedableRng;
use std::alloc::{AllocError, Global};

/// The scheme that hides.
pub type HidingScheme<F = BabyBear> = HidingFriPcs<
    F,
    Radix2Dit<F>,
    Inputs<F>,
    Rounds<<F as SchemeField>::Extension>,
    ChaCha20Rng,
>;

/// Its masks are drawn from the seed, and its challenger has absorbed by what it hides.
impl<F: SchemeField> MadeScheme<F, F::Extension, Coset<F>> for HidingScheme<F> {
    ghost IsMade = { λ p n seed s. (parameters_of s.fri ≡ p) × (s.num_random_codewords ≡ n)
        × (s.rng ≡ of_seed seed) };

    ghost begun = { λ n index. hiding_absorbed F.ORDER_U64 F.canonical F.ops start n index };

    ghost IsMemory = { λ e. e ≡ Fri OutOfMemory };

    fn made(
        fri: FriParameters<Rounds<F::Extension>>,
        num_random_codewords: usize,
        seed: [u8; 32],
    ) -> Self
        ensures { (parameters_of result.fri ≡ parameters_of fri)
            × (result.num_random_codewords ≡ num_random_codewords)
            × (result.rng ≡ of_seed seed) }
    {
        let generator = ChaCha20Rng::from_seed(seed);
        HidingFriPcs::new(
            Radix2Dit::default(),
            Sha256Mmcs::new(),
            fri,
            num_random_codewords,
            generator,
        )
    }

    fn begin(
        alloc: Global,
        num_random_codewords: usize,
        preprocessing: Option<usize>,
    ) -> Result<Sha256Challenger<F>, AllocError> {
        let mut challenger = Sha256Challenger::over_field();
        absorb_hiding(alloc, &mut challenger, num_random_codewords, preprocessing)?;
        Ok(challenger)
    }

    fn is_out_of_memory(error: &HidingFriProverError) -> bool {
        matches!(
            error,
            HidingFriProverError::Fri(FriProverError::OutOfMemory)
        )
    }

    ghost verifier_law = { λ p n seed s made range.
        subst (λ q. InVerifierRange q F.TWO_ADICITY 63) (sym made.0) range };

    ghost prover_law = { λ p n seed s made range.
        subst (λ q. InProverRange q F.TWO_ADICITY 63) (sym made.0) range };

    ghost blowup_law = { λ p n seed s made. ap (λ (q : TestParameters). q.log_blowup) made.0 };

    ghost commit_law = { λ p n seed s made evaluations fit.
        hiding_rows F.TWO_ADICITY (λ d. d.log_size) p.log_blowup s.fri.log_blowup
        (sym (ap (λ (q : TestParameters). q.log_blowup) made.0)) evaluations fit };

    ghost columns_law = { λ s m e h z. h.columns z };

    ghost accepted_law = { λ p n seed s made range index c claims proof holds.
        verifier_range _ F.two_adicity_law p (parameters_of s.fri) (sym made.0)
        (with_random_values (relation_claims (λ d. d.log_size) claims)
        (opened_values proof.0.items)) (proof_of proof.1) c range holds.accepts };

    ghost memory_law = { λ s. refl };

    ghost keeps_since_law = { λ old new later kept since.
        since ∙ ap (λ (s : Self). record s { rng = later.rng }) kept };

    ghost alike_law = { λ old new kept.
        same_alike (record old { rng = new.rng }) new kept (λ s. Self.rules s) };
}
