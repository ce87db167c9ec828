//! Schemes that tests run by. What commits, opens and reads is written for any of them, so that it
//! asks for nothing of its callers, and is called at the scheme over two-adic fields.

ghost use Rattle.std.specs.Prelude.{◌≡◌, IsTrue, false};
ghost use Rattle.p3_stark_pcs_tests.specs.Room.{HasRoom};

use crate::scheme::Domain;
use p3_challenger::Sha256Challenger;
use p3_field::{BabyBear, BabyBear4};
use p3_stark_pcs::UnivariateStarkPcs;

/// A scheme that tests run by. It doesn't hide.
pub(crate) trait Tested: UnivariateStarkPcs<
    BabyBear4,
    Sha256Challenger,
    Val = BabyBear,
    Domain = Domain,
    Commitment = [u8; 32],
>
    + Drop {
    /// It has a blowup of 2.
    ghost IsTested: { Self → Type 0 };

    /// The scheme of a blowup of 2 and two queries, that folds to a constant by two.
    fn made() -> Self
        ensures tested { IsTested result }
        ensures prover { (Self.rules result).InProverRange }
        ensures verifier { (Self.rules result).InVerifierRange };

    /// Whether the data has a matrix of this index.
    fn can_read(&self, held: &Self::ProverData, index: usize) -> bool
        requires { (Self.stark_rules self.now).IsReadable held.now }
        ensures shown { IsTrue result → (domain : _)
            → (Self.stark_rules self.now).CanEvaluate held.now index domain }
        ensures whole { IsTrue result → (domain : _)
            → (Self.stark_rules self.now).CanEvaluateWhole held.now index domain };

    /// Whether the matrices of the data are columns of these numbers.
    fn holds(held: &Self::ProverData, each: &[&[u64]]) -> bool;

    ghost hides_nothing_law: { Self.ZK ≡ false };

    ghost room_law: { (s : Self) → IsTested s
        → HasRoom (Self.rules s) (Self.stark_rules s) (λ d. d.log_size) };
}
