//! Schemes that tests run by. What commits, opens and verifies is written for any of them, and is
//! called at the hiding scheme. What they commit to, open and read are laws of them, so that tests
//! look at data alone.

ghost use Rattle.std.specs.Prelude.{◌<◌, ◌≤◌, IfOk};
ghost use Rattle.p3_mmcs.specs.ProverData.{matrices_of};
ghost use Rattle.p3_fri_hiding_tests.specs.Commits.{Commits};
ghost use Rattle.p3_fri_hiding_tests.specs.Openable.{Opens};
ghost use Rattle.p3_fri_hiding_tests.specs.declared.scheme.Setting.{Setting};

use crate::scheme::{Data, Domain, Setting, VerifierError};
use p3_challenger::Sha256Challenger;
use p3_field::{BabyBear, BabyBear4, Field};
use p3_fri_masks::HidingFriProverError;
use p3_mmcs::OpenedValues;
use p3_stark_pcs::UnivariateStarkPcs;
use std::alloc::AllocError;

/// A scheme that tests run by.
pub(crate) trait Tested: UnivariateStarkPcs<
    BabyBear4,
    Sha256Challenger,
    Val = BabyBear,
    Domain = Domain,
    Commitment = [u8; 32],
    ProverData = Data,
    Error = VerifierError,
    ProverError = HidingFriProverError,
>
    + Drop {
    /// It is of a setting, but for its generator.
    ghost IsOf: { Setting → Self → Type 0 };

    /// The scheme of a setting.
    fn of(setting: Setting) -> Self
        ensures { IsOf setting result };

    /// The same scheme with a generator of its own.
    fn forked(&mut self) -> Result<Self, AllocError>
        ensures kept { (setting : _) → IsOf setting self.old → IsOf setting self.new }
        ensures forked { IfOk result (λ forked.
            (setting : _) → IsOf setting self.old → IsOf setting forked) };

    /// The random values beside the proof.
    fn random_values(proof: &mut Self::Proof) -> &mut OpenedValues<BabyBear4>;

    ghost kept_law: { (setting : Setting) (old new : Self) → Self.Keeps old new
        → IsOf setting old → IsOf setting new };

    ghost prover_law: { (setting : Setting) (s : Self) → IsOf setting s
        → 0 < setting.num_queries → (Self.rules s).InProverRange };

    ghost verifier_law: { (setting : Setting) (s : Self) → IsOf setting s
        → setting.log_final_poly_len ≤ 31 → (Self.rules s).InVerifierRange };

    ghost commits_law: { (setting : Setting) (s : Self) → IsOf setting s
        → Commits (Self.rules s) (Self.stark_rules s) Self.ZK ⟦<BabyBear as Field>⟧.ops
        (λ d. d.shift) (λ d. d.log_size) };

    ghost opens_law: { (setting : Setting) (s : Self) → IsOf setting s
        → Opens setting.num_random_codewords matrices_of
        (Self.rules s) (Self.stark_rules s) };
}
