//! The scheme at these instances, as tests run by it.

ghost use Rattle.std.proofs.Common.{refl};
ghost use Rattle.std.specs.Prelude.{◌≡◌, ◌<◌, ◌≤◌};
ghost use Rattle.p3_fri_relation.specs.Views.{parameters_of};
ghost use Rattle.p3_fri_two_adic.specs.Ranges.{InProverRange, InVerifierRange};
ghost use Rattle.p3_fri_two_adic_tests.specs.RoomLaws.{has_room};

use crate::tested::Tested;
use p3_dft::Radix2Dit;
use p3_field::{BabyBear, BabyBear4, TwoAdicMultiplicativeCoset};
use p3_fri_folding::{FriParameters, PowPhase};
use p3_fri_openings::are_openable;
use p3_fri_relation::error::FriError;
use p3_fri_relation::proof::{BatchMultiOpening, CommitPhaseMultiStep, FriProof};
use p3_fri_two_adic::TwoAdicFriPcs;
use p3_mmcs::{CommitmentOpening, Mmcs, Sha256Mmcs};
use p3_pcs::OpeningRequest;

type Inputs = Sha256Mmcs<BabyBear>;

type Rounds = Sha256Mmcs<BabyBear4>;

pub(crate) type Scheme = TwoAdicFriPcs<BabyBear, Radix2Dit<BabyBear>, Inputs, Rounds>;

pub(crate) type Domain = TwoAdicMultiplicativeCoset<BabyBear>;

pub(crate) type Claims = Vec<CommitmentOpening<BabyBear4, [u8; 32], Domain>>;

pub(crate) type RoundOpening = CommitPhaseMultiStep<BabyBear4, Rounds>;

pub(crate) type InputOpening = BatchMultiOpening<BabyBear, Inputs>;

pub(crate) type Proof = FriProof<BabyBear4, Rounds, BabyBear, Vec<InputOpening>>;

/// Why a verifier refuses.
pub(crate) type VerifierError = FriError<
    <Rounds as Mmcs<BabyBear4>>::Error,
    <Inputs as Mmcs<BabyBear>>::Error,
>;

/// What a row sets: words are twice as long as their polynomials, and two queries are made.
#[derive(Clone, Copy)]
pub(crate) struct Setting {
    pub log_final_poly_len: usize,
    pub max_log_arity: usize,
    /// Where a proof of work of 3 bits is asked for.
    pub work: Option<PowPhase>,
}

/// Folds by two to a constant, and no proof of work.
pub(crate) const PLAIN: Setting = Setting {
    log_final_poly_len: 0,
    max_log_arity: 1,
    work: None,
};

/// Rounds that fold by up to four, and by up to eight.
pub(crate) const BY_FOUR: Setting = Setting {
    max_log_arity: 2,
    ..PLAIN
};

pub(crate) const BY_EIGHT: Setting = Setting {
    max_log_arity: 3,
    ..PLAIN
};

/// A final polynomial of two coefficients.
pub(crate) const LONGER: Setting = Setting {
    log_final_poly_len: 1,
    ..PLAIN
};

/// The difficulty of that phase.
fn bits(setting: Setting, phase: PowPhase) -> usize
    ensures { result ≤ 3 }
{
    if setting.work == Some(phase) { 3 } else { 0 }
}

/// The parameters of a row.
pub(crate) fn parameters(setting: Setting) -> FriParameters<Rounds>
    ensures log_blowup { result.log_blowup ≡ 1 }
    ensures log_final_poly_len { result.log_final_poly_len ≡ setting.log_final_poly_len }
    ensures batch_bits { result.batch_proof_of_work_bits ≤ 3 }
    ensures commit_bits { result.commit_proof_of_work_bits ≤ 3 }
    ensures query_bits { result.query_proof_of_work_bits ≤ 3 }
    ensures prover_range { 0 < setting.max_log_arity
        → InProverRange (parameters_of result) 27 63 }
    ensures verifier_range { setting.log_final_poly_len ≤ 31
        → InVerifierRange (parameters_of result) 27 63 }
{
    FriParameters {
        log_blowup: 1,
        log_final_poly_len: setting.log_final_poly_len,
        max_log_arity: setting.max_log_arity,
        num_queries: 2,
        batch_proof_of_work_bits: bits(setting, PowPhase::Batch),
        commit_proof_of_work_bits: bits(setting, PowPhase::CommitPhase),
        query_proof_of_work_bits: bits(setting, PowPhase::Query),
        mmcs: Sha256Mmcs::new(),
    }
}

impl Tested for Scheme {
    ghost IsTested = { λ s. s.fri.log_blowup ≡ 1 };

    fn of(setting: Setting) -> Self {
        TwoAdicFriPcs::new(Radix2Dit::default(), Sha256Mmcs::new(), parameters(setting))
    }

    fn lent(proof: &mut Self::Proof) -> &mut Proof {
        proof
    }

    fn are_openable(
        &self,
        requests: &[OpeningRequest<'_, <Inputs as Mmcs<BabyBear>>::ProverData, BabyBear4>],
    ) -> bool {
        are_openable::<BabyBear, BabyBear4, Inputs>(&Inputs::new(), requests)
    }

    ghost room_law = { λ s is. has_room s.fri.log_blowup is _ (λ d. d.log_size) (λ d. refl)
        (λ d. record { log_size = d.log_size; size = refl; within = d.within_two_adicity })
        (λ es h. h) };
}
