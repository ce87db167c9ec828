//! Settings of the schemes that tests run by, at BabyBear, its quartic extension, SHA-256 and
//! ChaCha, and the types of what they give.

ghost use Rattle.std.specs.Prelude.{◌≡◌, ◌<◌, ◌≤◌};
ghost use Rattle.p3_fri_relation.specs.Views.{parameters_of};
ghost use Rattle.p3_fri_two_adic.specs.Ranges.{InProverRange, InVerifierRange};

use p3_field::{BabyBear, BabyBear4, TwoAdicMultiplicativeCoset};
use p3_fri_folding::{FriParameters, PowPhase};
use p3_fri_hiding::HidingFriPcsProverData;
use p3_fri_relation::error::FriError;
use p3_fri_relation::proof::{BatchMultiOpening, FriProof};
use p3_matrix::RowMajorMatrix;
use p3_mmcs::{Mmcs, OpenedValues, Sha256Mmcs};
use rand_chacha::ChaCha20Rng;
use rand_core::SeedableRng;

pub(crate) type Inputs = Sha256Mmcs<BabyBear>;

pub(crate) type Rounds = Sha256Mmcs<BabyBear4>;

pub(crate) type Domain = TwoAdicMultiplicativeCoset<BabyBear>;

/// What the committing side keeps.
pub(crate) type Data = HidingFriPcsProverData<<Inputs as Mmcs<BabyBear>>::ProverData>;

/// A matrix beside a domain.
pub(crate) type Evaluation = (Domain, RowMajorMatrix<BabyBear>);

/// The random values, and the proof beside them.
pub(crate) type Proof = (
    OpenedValues<BabyBear4>,
    FriProof<BabyBear4, Rounds, BabyBear, Vec<BatchMultiOpening<BabyBear, Inputs>>>,
);

/// Why a verifier refuses.
pub(crate) type VerifierError = FriError<
    <Rounds as Mmcs<BabyBear4>>::Error,
    <Inputs as Mmcs<BabyBear>>::Error,
>;

/// The generator that the scheme begins with.
pub(crate) fn generator() -> ChaCha20Rng {
    ChaCha20Rng::from_seed([8; 32])
}

/// What tests set of a scheme of a blowup of 4 that folds by two.
#[derive(Clone, Copy)]
pub(crate) struct Setting {
    pub num_random_codewords: usize,
    pub num_queries: usize,
    pub log_final_poly_len: usize,
    /// Where a proof of work of 3 bits is asked for.
    pub work: Option<PowPhase>,
}

/// Four random codewords, two queries, folds to a constant, and no proof of work.
pub(crate) const SMALL: Setting = Setting {
    num_random_codewords: 4,
    num_queries: 2,
    log_final_poly_len: 0,
    work: None,
};

/// The difficulty of that phase.
fn bits(setting: Setting, phase: PowPhase) -> usize
    ensures { result ≤ 3 }
{
    if setting.work == Some(phase) { 3 } else { 0 }
}

/// The parameters of both schemes.
pub(crate) fn parameters(setting: Setting) -> FriParameters<Rounds>
    ensures log_blowup { result.log_blowup ≡ 2 }
    ensures prover_range { 0 < setting.num_queries → InProverRange (parameters_of result) 27 63 }
    ensures verifier_range { setting.log_final_poly_len ≤ 31
        → InVerifierRange (parameters_of result) 27 63 }
{
    FriParameters {
        log_blowup: 2,
        log_final_poly_len: setting.log_final_poly_len,
        max_log_arity: 1,
        num_queries: setting.num_queries,
        batch_proof_of_work_bits: bits(setting, PowPhase::Batch),
        commit_proof_of_work_bits: bits(setting, PowPhase::CommitPhase),
        query_proof_of_work_bits: bits(setting, PowPhase::Query),
        mmcs: Sha256Mmcs::new(),
    }
}
