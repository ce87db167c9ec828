//! What the verifier answers.

ghost use Rattle.std.specs.Prelude.{◌≡◌};

use p3_challenger::{CanObserve, Sha256Challenger};
use p3_field::{BabyBear, BabyBear4, ExtensionField, Field, TwoAdicMultiplicativeCoset};
use p3_fri_folding::{FriParameters, TwoAdicFriFolding, WithExtraBits};
use p3_fri_relation::proof::{BatchMultiOpening, CommitPhaseMultiStep, FriProof};
use p3_fri_verifier::verify_fri;
use p3_mmcs::{CommitmentOpening, Sha256Mmcs, Sha256MmcsError};
use std::alloc::Global;
use std::marker::PhantomData;
use std::process::Abort;

pub(crate) type Inputs = Sha256Mmcs<BabyBear>;

pub(crate) type Rounds = Sha256Mmcs<BabyBear4>;

pub(crate) type Parameters = FriParameters<Rounds>;

pub(crate) type InputOpening = BatchMultiOpening<BabyBear, Inputs>;

pub(crate) type RoundOpening = CommitPhaseMultiStep<BabyBear4, Rounds>;

pub(crate) type Proof = FriProof<BabyBear4, Rounds, BabyBear, Vec<InputOpening>>;

pub(crate) type Domain = TwoAdicMultiplicativeCoset<BabyBear>;

pub(crate) type Claims = Vec<CommitmentOpening<BabyBear4, [u8; 32], Domain>>;

type Plain = TwoAdicFriFolding<(), Sha256MmcsError>;

type Folding = WithExtraBits<Plain>;

/// A blowup and a cap of 2, a constant as final polynomial, two queries, no proof of work.
pub(crate) fn plain_parameters() -> Parameters
    ensures { result.log_final_poly_len ≡ 0 }
{
    FriParameters {
        log_blowup: 1,
        log_final_poly_len: 0,
        max_log_arity: 1,
        num_queries: 2,
        batch_proof_of_work_bits: 0,
        commit_proof_of_work_bits: 0,
        query_proof_of_work_bits: 0,
        mmcs: Sha256Mmcs::new(),
    }
}

/// An element of the extension that is a number.
pub(crate) fn constant(number: u64) -> BabyBear4 {
    BabyBear4::from_base(BabyBear::from_u64(number))
}

/// A challenger that has absorbed this number.
pub(crate) fn challenger_after(number: u64) -> Sha256Challenger {
    let mut challenger = Sha256Challenger::new();
    challenger.observe(BabyBear::from_u64(number));
    challenger
}

/// A proof with what it is of, the number that its challenger absorbed first, and how that ends.
#[derive(Drop)]
pub(crate) struct Made {
    pub proof: Proof,
    pub claims: Claims,
    pub start: u64,
    pub last: Sha256Challenger,
}

/// Where an answer leaves the challenger.
#[derive(Clone, Copy)]
pub(crate) enum Left {
    Anywhere,
    /// As the proof's.
    AtTheEnd,
    Unmoved,
}

/// Whether this is the answer to a proof, as text, or whatever refusal, where the strategy draws so
/// many extra bits with each index.
pub(crate) fn is_answer(
    rt: &impl Abort,
    alloc: Global,
    parameters: &Parameters,
    extra_bits: usize,
    made: &Made,
    expected: Option<&str>,
    left: Left,
) -> bool {
    assert!(rt;
        parameters.log_blowup <= 31
            && parameters.log_final_poly_len <= 31
            && parameters.commit_proof_of_work_bits <= 63
            && parameters.query_proof_of_work_bits <= 63
            && extra_bits <= 3,
        "not in the verifier's range"
    );
    let plain: Plain = TwoAdicFriFolding(PhantomData);
    let folding = WithExtraBits::new(plain, extra_bits);
    let mut challenger = challenger_after(made.start);
    let answer = verify_fri::<BabyBear, BabyBear4, Rounds, Inputs, Folding, Sha256Challenger>(
        alloc,
        &folding,
        parameters,
        &made.proof,
        &mut challenger,
        &made.claims,
        &Inputs::new(),
        constant(7),
    );
    let is_left = match left {
        Left::Anywhere => true,
        Left::AtTheEnd => challenger == made.last,
        Left::Unmoved => challenger == challenger_after(made.start),
    };
    let is_expected = match answer {
        Ok(()) => expected == Some("accepted"),
        Err(refusal) => match expected {
            Some(name) => {
                let text = format!(in alloc; "{refusal:?}").expect(rt, "memory");
                text.as_str() == name
            },
            None => true,
        },
    };
    is_left && is_expected
}
