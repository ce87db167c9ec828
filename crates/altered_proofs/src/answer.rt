//! What the schemes answer about an opening, as a text.

ghost use Rattle.p3_fri_relation.specs.Views.{parameters_of};
ghost use Rattle.p3_fri_two_adic.specs.Ranges.{InVerifierRange};

use crate::opening::read_list;
use alterations::parameters::{Rounds, read_parameters};
use alterations::{Answers, number, place, read};
use p3_challenger::{CanSampleBits, Sha256Challenger};
use p3_dft::Radix2Dit;
use p3_field::{BabyBear, BabyBear4, TwoAdicMultiplicativeCoset};
use p3_fri_folding::FriParameters;
use p3_fri_hiding::HidingFriPcs;
use p3_fri_plain::{PlainHidingProof, from_plain, hiding_from_plain};
use p3_fri_relation::error::FriError;
use p3_fri_two_adic::TwoAdicFriPcs;
use p3_mmcs::{CommitmentOpening, Sha256Mmcs, Sha256MmcsError};
use p3_stark_pcs::UnivariateStarkPcs;
use rand_chacha::ChaCha20Rng;
use rand_core::SeedableRng;
use serde_json::Value;
use std::alloc::{AllocError, Global};

type Inputs = Sha256Mmcs<BabyBear>;

pub type Domain = TwoAdicMultiplicativeCoset<BabyBear>;

pub type Claim = CommitmentOpening<BabyBear4, [u8; 32], Domain>;

type Scheme = TwoAdicFriPcs<BabyBear, Radix2Dit<BabyBear>, Inputs, Rounds>;

type HidingScheme = HidingFriPcs<BabyBear, Radix2Dit<BabyBear>, Inputs, Rounds, ChaCha20Rng>;

type Refusal = FriError<Sha256MmcsError, Sha256MmcsError>;

/// Whether a refusal promises that the challenger is as it was.
fn leaves_challenger(refusal: &Refusal) -> bool {
    match refusal {
        FriError::NonCanonicalPowWitness { phase: _ }
        | FriError::HidingRandomOpeningRoundCountMismatch { .. }
        | FriError::HidingRandomOpeningMatrixCountMismatch { .. }
        | FriError::HidingRandomOpeningPointCountMismatch { .. }
        | FriError::HidingRandomOpeningValueCountMismatch { .. }
        | FriError::HidingPreprocessedCommitmentOutOfBounds { .. }
        | FriError::InsufficientHidingRandomCodewords { .. }
        | FriError::HidingBudgetExceeded { .. } => true,
        _ => false,
    }
}

/// A verifier's answer, and the challenger that it leaves, which was a new one.
#[derive(Drop)]
struct Verdict<E> {
    answer: Result<(), E>,
    challenger: Sha256Challenger,
}

/// A verdict as a text, and of an accepted opening what is drawn next from the challenger.
fn told(alloc: Global, verdict: Verdict<Refusal>) -> Result<String, AllocError> {
    let Verdict {
        answer,
        mut challenger,
    } = verdict;
    match answer {
        Ok(()) => {
            let drawn = challenger.sample_bits(63);
            format!(in alloc; "accepted {drawn}")
        }
        Err(refusal) if leaves_challenger(&refusal) && challenger != Sha256Challenger::new() => {
            format!(in alloc; "{refusal:?}, with another challenger")
        }
        Err(refusal) => format!(in alloc; "{refusal:?}"),
    }
}

/// Any scheme's verdict. Where an index names preprocessed columns, the verifier that knows of them
/// is asked.
fn judged<P: UnivariateStarkPcs<BabyBear4, Sha256Challenger>>(
    alloc: Global,
    scheme: &P,
    claims: Vec<CommitmentOpening<BabyBear4, P::Commitment, P::Domain>>,
    proof: &P::Proof,
    preprocessing: Option<usize>,
) -> Verdict<P::Error>
    requires range { (P.rules scheme.now).InVerifierRange }
{
    let mut challenger = Sha256Challenger::new();
    let answer = match preprocessing {
        None => scheme.verify(alloc, claims, proof, &mut challenger),
        index => scheme.verify_with_preprocessing(alloc, claims, proof, &mut challenger, index),
    };
    Verdict { answer, challenger }
}

/// What the plain scheme answers, or why the plain form is refused.
fn plain_answer(
    alloc: Global,
    opening: &Value,
    parameters: FriParameters<Rounds>,
) -> anyhow::Result<String>
    requires range { InVerifierRange (parameters_of parameters) 27 63 }
{
    let claims: Vec<Claim> = read_list(alloc, opening, "/claims")?;
    let proof = match from_plain::<BabyBear, BabyBear4>(alloc, read(alloc, opening, "/proof")?) {
        Ok(proof) => proof,
        Err(refusal) => return Ok(format!(in alloc; "{refusal:?}")?),
    };
    let scheme = Scheme::new(Radix2Dit::default(), Inputs::new(), parameters);
    let verdict = judged(alloc, &scheme, claims, &proof, None);
    Ok(told(alloc, verdict)?)
}

/// The form of a proof by the hiding scheme.
fn hiding_form(alloc: Global, opening: &Value, hiding: &Value) -> anyhow::Result<PlainHidingProof> {
    Ok(PlainHidingProof {
        random_values: read(alloc, hiding, "/random_values")?,
        proof: read(alloc, opening, "/proof")?,
    })
}

/// What the hiding scheme answers, or why the plain form is refused.
fn hiding_answer(
    alloc: Global,
    opening: &Value,
    hiding: &Value,
    parameters: FriParameters<Rounds>,
) -> anyhow::Result<String>
    requires range { InVerifierRange (parameters_of parameters) 27 63 }
{
    let codewords = number(hiding, "/num_random_codewords")?;
    let preprocessing = read(alloc, hiding, "/preprocessing")?;
    let claims: Vec<Claim> = read_list(alloc, opening, "/claims")?;
    let proof = match hiding_from_plain::<BabyBear, BabyBear4>(
        alloc,
        hiding_form(alloc, opening, hiding)?,
    ) {
        Ok(proof) => proof,
        Err(refusal) => return Ok(format!(in alloc; "{refusal:?}")?),
    };
    let rng = ChaCha20Rng::from_seed([0; 32]);
    let dft = Radix2Dit::default();
    let scheme = HidingScheme::new(dft, Inputs::new(), parameters, codewords, rng);
    let verdict = judged(alloc, &scheme, claims, &proof, preprocessing);
    Ok(told(alloc, verdict)?)
}

/// Both schemes, asked about openings.
pub struct Schemes;

impl Answers for Schemes {
    /// What the opening's scheme answers about it.
    fn answer(alloc: Global, opening: &Value) -> anyhow::Result<String> {
        let parameters = read_parameters(place(opening, "/parameters")?)?;
        let hiding = place(opening, "/hiding")?;
        if hiding.is_null() {
            plain_answer(alloc, opening, parameters)
        } else {
            hiding_answer(alloc, opening, hiding, parameters)
        }
    }
}
