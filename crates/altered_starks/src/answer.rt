//! What the verifier answers about a STARK, as a text.

ghost use Rattle.p3_fri_relation.specs.Views.{parameters_of};
ghost use Rattle.p3_fri_two_adic.specs.Ranges.{InVerifierRange};

use crate::statement::read_known;
use alterations::parameters::{Rounds, read_parameters};
use alterations::{Answers, number, place, read};
use p3_challenger_core::CanSampleBits;
use p3_challenger_sha256::Sha256Challenger;
use p3_dft::Radix2Dit;
use p3_field::{BabyBear, BabyBear4, TwoAdicMultiplicativeCoset};
use p3_fri_folding::FriParameters;
use p3_fri_hiding::HidingFriPcs;
use p3_fri_plain::{HidingFriProof, Plain, TwoAdicFriProof};
use p3_fri_relation::error::FriError;
use p3_fri_two_adic::TwoAdicFriPcs;
use p3_mmcs::{Sha256Mmcs, Sha256MmcsError};
use p3_stark_pcs::UnivariateStarkPcs;
use p3_uni_stark_plain::{PlainStarkProof, stark_from_plain};
use p3_uni_stark_statement::verify_plain;
use rand_chacha::ChaCha20Rng;
use rand_core::SeedableRng;
use serde::DeserializeOwned;
use serde_json::Value;
use std::alloc::Global;

type Inputs = Sha256Mmcs<BabyBear>;

type Coset = TwoAdicMultiplicativeCoset<BabyBear>;

type Dft = Radix2Dit<BabyBear>;

type Scheme = TwoAdicFriPcs<BabyBear, Dft, Inputs, Rounds>;

type HidingScheme = HidingFriPcs<BabyBear, Dft, Inputs, Rounds, ChaCha20Rng>;

type Refusal = FriError<Sha256MmcsError, Sha256MmcsError>;

/// What the verifier over this scheme answers about the STARK. Of an accepted one it is what is
/// drawn next from the challenger, else the refusal, or why the plain form is no proof's.
fn answer_over<
    P: UnivariateStarkPcs<
        BabyBear4,
        Sha256Challenger,
        Val = BabyBear,
        Domain = Coset,
        Commitment = [u8; 32],
        Error = Refusal,
    >,
>(alloc: Global, scheme: &P, stark: &Value) -> anyhow::Result<String>
where
    P::Proof: Plain<Value = P::Proof>,
    <P::Proof as Plain>::Form: DeserializeOwned,
    requires range { (P.rules scheme.now).InVerifierRange }
{
    let form: PlainStarkProof<<P::Proof as Plain>::Form> = read(alloc, stark, "/proof")?;
    let proof = match stark_from_plain::<P::Proof>(alloc, &form) {
        Ok(proof) => proof,
        Err(fault) => return Ok(format!(in alloc; "{fault:?}")?),
    };
    let known = read_known(alloc, stark)?;
    let mut challenger = Sha256Challenger::new();
    let verified = verify_plain::<BabyBear, BabyBear4, [u8; 32], Sha256Challenger, Dft, P>(
        scheme,
        alloc,
        &known.statement(),
        &proof,
        &mut challenger,
    );
    match verified {
        Ok(()) => {
            let drawn = challenger.sample_bits(63);
            Ok(format!(in alloc; "accepted {drawn}")?)
        }
        Err(refusal) => Ok(format!(in alloc; "{refusal:?}")?),
    }
}

/// What the verifier answers over the plain scheme.
fn plain_answer(
    alloc: Global,
    stark: &Value,
    parameters: FriParameters<Rounds>,
) -> anyhow::Result<String>
    requires range { InVerifierRange (parameters_of parameters) 27 63 }
{
    let scheme = Scheme::new(Dft::default(), Inputs::new(), parameters);
    answer_over(alloc, &scheme, stark)
}

/// What the verifier answers over the hiding scheme.
fn hiding_answer(
    alloc: Global,
    stark: &Value,
    parameters: FriParameters<Rounds>,
) -> anyhow::Result<String>
    requires range { InVerifierRange (parameters_of parameters) 27 63 }
{
    let codewords = number(stark, "/system/num_random_codewords")?;
    // a verifier draws nothing from it
    let rng = ChaCha20Rng::from_seed([0; 32]);
    let scheme = HidingScheme::new(Dft::default(), Inputs::new(), parameters, codewords, rng);
    answer_over(alloc, &scheme, stark)
}

/// The verifier over both schemes.
pub struct Schemes;

impl Answers for Schemes {
    /// What the verifier answers over the STARK's scheme.
    fn answer(alloc: Global, stark: &Value) -> anyhow::Result<String> {
        let parameters = read_parameters(place(stark, "/system/parameters")?)?;
        if place(stark, "/hiding")?.as_bool() == Some(true) {
            hiding_answer(alloc, stark, parameters)
        } else {
            plain_answer(alloc, stark, parameters)
        }
    }
}
