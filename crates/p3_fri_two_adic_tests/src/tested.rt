//! Schemes that tests run by. What commits, opens and verifies is written for any of them, and is
//! called at the scheme over two-adic fields.

ghost use Rattle.std.specs.Prelude.{◌<◌, ◌≤◌, IsTrue, map};
ghost use Rattle.p3_pcs.specs.Requests.{request};
ghost use Rattle.p3_pcs.specs.Scheme.{CanBeOpened};
ghost use Rattle.p3_fri_two_adic_tests.specs.Room.{HasRoom};

use crate::scheme::{Domain, Proof, Setting, VerifierError};
use p3_challenger::Sha256Challenger;
use p3_field::{BabyBear, BabyBear4};
use p3_fri_folding::FriProverError;
use p3_pcs::{OpeningRequest, Pcs};

/// A scheme that tests run by.
pub(crate) trait Tested: Pcs<
    BabyBear4,
    Sha256Challenger,
    Val = BabyBear,
    Domain = Domain,
    Commitment = [u8; 32],
    Error = VerifierError,
    ProverError = FriProverError,
>
    + Drop {
    /// It has a blowup of 2.
    ghost IsTested: { Self → Type 0 };

    /// The scheme of a setting.
    fn of(setting: Setting) -> Self
        ensures tested { IsTested result }
        ensures prover { 0 < setting.max_log_arity → (Self.rules result).InProverRange }
        ensures verifier { setting.log_final_poly_len ≤ 31
            → (Self.rules result).InVerifierRange };

    /// The proof, as one of the scheme over two-adic fields.
    fn lent(proof: &mut Self::Proof) -> &mut Proof;

    /// Whether the requests may be opened.
    fn are_openable(&self, requests: &[OpeningRequest<'_, Self::ProverData, BabyBear4>]) -> bool
        ensures { IsTrue result → CanBeOpened (Self.rules self.now) (map request requests.now) };

    ghost room_law: { (s : Self) → IsTested s → HasRoom (Self.rules s) (λ d. d.log_size) };
}
