//! The hiding scheme of a setting, as tests run by it, and the plain one.

ghost use Rattle.std.proofs.Common.{refl, sym, subst};
ghost use Rattle.std.specs.Prelude.{◌≡◌, ◌<◌, All, length};
ghost use Rattle.p3_fri_relation.specs.Views.{parameters_of};
ghost use Rattle.p3_fri_two_adic.specs.Ranges.{InProverRange, InVerifierRange};
ghost use Rattle.p3_fri_two_adic.specs.Ldes.{HasLdeHeight};
ghost use Rattle.p3_fri_hiding.specs.Quotients.{CanExtend};
ghost use Rattle.p3_fri_hiding_tests.specs.FitLaws.{domains, masked};
ghost use Rattle.p3_fri_hiding_tests.specs.OfSetting.{IsOfSetting, kept};
ghost use Rattle.p3_fri_hiding_tests.specs.OpenLaws.{all_private, first_preprocessed, shown};
ghost use Rattle.p3_fri_hiding_tests.specs.OpenLaws.{whole};

use crate::scheme::{Inputs, Proof, Rounds, Setting, generator, parameters};
use crate::tested::Tested;
use p3_dft::Radix2Dit;
use p3_field::{BabyBear, BabyBear4, Field};
use p3_fri_hiding::HidingFriPcs;
use p3_fri_two_adic::TwoAdicFriPcs;
use p3_mmcs::{OpenedValues, Sha256Mmcs};
use rand_chacha::ChaCha20Rng;
use std::alloc::AllocError;

pub(crate) type Scheme = HidingFriPcs<BabyBear, Radix2Dit<BabyBear>, Inputs, Rounds, ChaCha20Rng>;

type PlainScheme = TwoAdicFriPcs<BabyBear, Radix2Dit<BabyBear>, Inputs, Rounds>;

/// The plain scheme of that setting, which has no random codewords.
pub(crate) fn plain_scheme_of(setting: Setting) -> PlainScheme
    ensures log_blowup { result.fri.log_blowup ≡ 2 }
    ensures prover_range { 0 < setting.num_queries
        → InProverRange (parameters_of result.fri) 27 63 }
{
    TwoAdicFriPcs::new(Radix2Dit::default(), Sha256Mmcs::new(), parameters(setting))
}

impl Tested for Scheme {
    ghost IsOf = { λ setting s. IsOfSetting s.fri.log_blowup s.num_random_codewords
        (InProverRange (parameters_of s.fri) 27 63) (InVerifierRange (parameters_of s.fri) 27 63)
        setting.num_random_codewords setting.num_queries setting.log_final_poly_len };

    fn of(setting: Setting) -> Self {
        HidingFriPcs::new(
            Radix2Dit::default(),
            Sha256Mmcs::new(),
            parameters(setting),
            setting.num_random_codewords,
            generator(),
        )
    }

    fn forked(&mut self) -> Result<Self, AllocError> {
        self.fork()
    }

    fn random_values(proof: &mut Proof) -> &mut OpenedValues<BabyBear4> {
        &mut proof.0
    }

    ghost kept_law = { λ setting old new same is. kept (record old { rng = new.rng }) new same
        (λ s. IsOfSetting s.fri.log_blowup s.num_random_codewords
        (InProverRange (parameters_of s.fri) 27 63) (InVerifierRange (parameters_of s.fri) 27 63)
        setting.num_random_codewords setting.num_queries setting.log_final_poly_len) is };

    ghost prover_law = { λ setting s is. is.prover };

    ghost verifier_law = { λ setting s is. is.verifier };

    ghost commits_law = { λ setting s is. record {
      columns = masked (λ d. d.log_size) s.fri.log_blowup is.blowup;
      words = λ ws high. subst (λ b. All (HasLdeHeight 27 b) ws) (sym is.blowup) high;
      chunks = λ es can. subst (λ b. CanExtend ⟦<BabyBear as Field>⟧.ops (λ d. d.shift)
          (λ d. d.log_size) 27 b es (length es)) (sym is.blowup) can;
      random = domains (λ d. d.log_size) s.fri.log_blowup is.blowup;
      sizes = refl;
      hides = refl;
    } };

    ghost opens_law = { λ setting s is. record {
      private = λ requests fresh.
          all_private _ _ _ _ _ refl is.blowup is.as_many requests fresh;
      preprocessed = λ requests fresh.
          first_preprocessed _ _ _ _ _ refl is.blowup is.as_many requests fresh;
      shown = λ d index domain held below wider.
          shown _ _ _ _ _ refl is.blowup is.as_many d held index below wider;
      whole = λ d index domain held below.
          whole _ _ _ _ _ refl is.blowup is.as_many d held index below;
    } };
}
