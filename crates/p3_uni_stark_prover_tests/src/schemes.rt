//! Both schemes at BabyBear, its quartic extension, SHA-256 and ChaCha.

ghost use Rattle.std.proofs.Common.{ap};
ghost use Rattle.std.specs.Prelude.{◌≡◌};
ghost use Rattle.p3_fri_relation.specs.Views.{parameters_of};
ghost use Rattle.p3_fri_two_adic.specs.Ranges.{InProverRange, InVerifierRange};

use p3_challenger_sha256::Sha256Challenger;
use p3_dft::Radix2Dit;
use p3_field::{BabyBear, BabyBear4, TwoAdicMultiplicativeCoset};
use p3_fri_folding::FriParameters;
use p3_fri_hiding::HidingFriPcs;
use p3_fri_two_adic::TwoAdicFriPcs;
use p3_mmcs::Sha256Mmcs;
use p3_uni_stark_pcs::TwoAdicStarkPcs;
use rand_chacha::ChaCha20Rng;
use rand_core::SeedableRng;

pub(crate) type Domain = TwoAdicMultiplicativeCoset<BabyBear>;

type Inputs = Sha256Mmcs<BabyBear>;

type Rounds = Sha256Mmcs<BabyBear4>;

pub(crate) type Plain = TwoAdicFriPcs<BabyBear, Radix2Dit<BabyBear>, Inputs, Rounds>;

pub(crate) type Hiding = HidingFriPcs<BabyBear, Radix2Dit<BabyBear>, Inputs, Rounds, ChaCha20Rng>;

/// A blowup of 2, two queries, folds by up to four to a constant, and proofs of work of one bit and
/// of two.
fn parameters() -> FriParameters<Rounds>
    ensures log_blowup { result.log_blowup ≡ 1 }
    ensures prover_range { InProverRange (parameters_of result) 27 63 }
    ensures verifier_range { InVerifierRange (parameters_of result) 27 63 }
{
    FriParameters {
        log_blowup: 1,
        log_final_poly_len: 0,
        max_log_arity: 2,
        num_queries: 2,
        batch_proof_of_work_bits: 1,
        commit_proof_of_work_bits: 1,
        query_proof_of_work_bits: 2,
        mmcs: Sha256Mmcs::new(),
    }
}

/// A scheme that tests prove by.
pub(crate) trait Tested: TwoAdicStarkPcs<BabyBear4, Sha256Challenger, Domain, Commitment = [u8; 32]>
    + Drop {
    /// The scheme, always the same.
    fn made() -> Self
        ensures log_blowup { Self.log_blowup result ≡ 1 }
        ensures prover_range { (Self.rules result).InProverRange }
        ensures verifier_range { (Self.rules result).InVerifierRange };

    /// A commitment leaves the blowup as it is.
    ghost blowup_law: { (old new : Self) → Self.Keeps old new
        → Self.log_blowup new ≡ Self.log_blowup old };
}

impl Tested for Plain {
    ghost blowup_law = { λ _ _ kept. ap (λ s. s.fri.log_blowup) kept };

    fn made() -> Self {
        TwoAdicFriPcs::new(Radix2Dit::default(), Sha256Mmcs::new(), parameters())
    }
}

/// With four random codewords.
impl Tested for Hiding {
    ghost blowup_law = { λ _ _ kept. ap (λ s. s.fri.log_blowup) kept };

    fn made() -> Self {
        HidingFriPcs::new(
            Radix2Dit::default(),
            Sha256Mmcs::new(),
            parameters(),
            4,
            ChaCha20Rng::from_seed([8; 32]),
        )
    }
}
