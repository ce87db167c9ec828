//! Times the schemes: a commitment to one matrix, its opening at a point, and the verification of
//! that, or a STARK's prover and verifier.

ghost use Rattle.std.specs.Prelude.{◌≡◌, [], ◌∷◌};

use crate::matrices::matrix_of;
use crate::stark::{mixing, time_both};
use crate::watch::{Fault, Result, Watch, now};
use p3_challenger::Sha256Challenger;
use p3_dft::Radix2Dit;
use p3_field::{BabyBear, BabyBear4, Field, TwoAdicMultiplicativeCoset};
use p3_fri_folding::FriParameters;
use p3_fri_hiding::HidingFriPcs;
use p3_fri_masks::random_values;
use p3_fri_two_adic::TwoAdicFriPcs;
use p3_matrix::RowMajorMatrix;
use p3_mmcs::Sha256Mmcs;
use p3_pcs::{KnownCommitment, OpeningRequest, Pcs, claims_of};
use p3_test_openings::listed::{alone, listed};
use rand_chacha::ChaCha20Rng;
use rand_core::SeedableRng;
use std::slice;

pub type Domain = TwoAdicMultiplicativeCoset<BabyBear>;

pub type Inputs = Sha256Mmcs<BabyBear>;

type Rounds = Sha256Mmcs<BabyBear4>;

type Plain = TwoAdicFriPcs<BabyBear, Radix2Dit<BabyBear>, Inputs, Rounds>;

type Hiding = HidingFriPcs<BabyBear, Radix2Dit<BabyBear>, Inputs, Rounds, ChaCha20Rng>;

/// The least times of as many calls as there are at most.
pub type Watches = [Watch; 3];

/// The logarithm of the height, the width, the logarithm of the blowup, how many queries, and the
/// logarithm of the arity at most.
pub type Sizes = [usize; 5];

/// What is timed.
#[derive(Clone, Copy)]
pub enum Timed {
    /// The plain scheme.
    Plain,
    /// The hiding one, with a blowup of 2 and so many random columns.
    Hiding(usize),
    /// The drawing of so many random elements.
    Words(usize),
    /// A STARK's prover and verifier over the plain scheme.
    Stark,
}

/// The generator of all that is random.
fn generator() -> ChaCha20Rng {
    ChaCha20Rng::from_seed([7; 32])
}

/// The parameters of so many queries, with a constant as final polynomial and no proofs of work.
fn parameters(log_blowup: usize, queries: usize, log_cap: usize) -> FriParameters<Rounds>
    ensures log_blowup { result.log_blowup ≡ log_blowup }
    ensures log_final_poly_len { result.log_final_poly_len ≡ 0 }
    ensures max_log_arity { result.max_log_arity ≡ log_cap }
    ensures num_queries { result.num_queries ≡ queries }
    ensures batch_bits { result.batch_proof_of_work_bits ≡ 0 }
    ensures commit_bits { result.commit_proof_of_work_bits ≡ 0 }
    ensures query_bits { result.query_proof_of_work_bits ≡ 0 }
{
    FriParameters {
        log_blowup,
        log_final_poly_len: 0,
        max_log_arity: log_cap,
        num_queries: queries,
        batch_proof_of_work_bits: 0,
        commit_proof_of_work_bits: 0,
        query_proof_of_work_bits: 0,
        mmcs: Rounds::new(),
    }
}

/// Times all three calls over one matrix.
fn time_calls<P: Pcs<BabyBear4, Sha256Challenger, Domain = Domain, Commitment = [u8; 32]>>(
    rt: &HostRuntime,
    watches: &mut Watches,
    scheme: &mut P,
    evaluation: (Domain, RowMajorMatrix<P::Val>),
) -> Result<()>
    requires committable { (P.rules scheme.old).CanCommit (evaluation ∷ []) }
    requires prover { (P.rules scheme.old).InProverRange }
    requires verifier { (P.rules scheme.old).InVerifierRange }
{
    let alloc = rt.alloc();
    let domain = evaluation.0;
    let evaluations = listed(alloc, evaluation)?;
    let start = now(rt);
    let Ok(committed) = scheme.commit(alloc, evaluations) else {
        return Err(Fault::Refused);
    };
    watches[0].see(rt, start);
    let (commitment, mut held) = committed;
    let known = KnownCommitment {
        commitment,
        domains: listed(alloc, domain)?,
    };
    let request = OpeningRequest {
        prover_data: &mut held,
        points: alone(alloc, BabyBear4::GENERATOR)?,
    };
    let mut requests = listed(alloc, request)?;
    let mut challenger = Sha256Challenger::new();
    let start = now(rt);
    let opened = scheme.open(alloc, requests.as_mut_slice(), &mut challenger);
    let Ok((values, proof)) = opened else {
        return Err(Fault::Refused);
    };
    watches[1].see(rt, start);
    let claims = claims_of(alloc, slice::from_ref(&known), &requests, &values)?;
    let mut challenger = Sha256Challenger::new();
    let start = now(rt);
    let verified = scheme.verify(alloc, claims, &proof, &mut challenger);
    watches[2].see(rt, start);
    verified.or(Err(Fault::Refused))
}

/// Times it once. No other function names the schemes, since what names one takes long to prove.
fn time_once(rt: &HostRuntime, watches: &mut Watches, timed: Timed, sizes: Sizes) -> Result<()> {
    let [log_height, width, log_blowup, queries, log_cap] = sizes;
    if log_blowup == 0 || log_blowup > 3 || queries == 0 || log_cap == 0 {
        return Err(Fault::Sizes);
    }
    let matrix = matrix_of(rt.alloc(), log_height, width)?;
    let (dft, fri) = (
        Radix2Dit::default(),
        parameters(log_blowup, queries, log_cap),
    );
    match timed {
        Timed::Plain | Timed::Stark => {
            let Some(domain) = Domain::new(BabyBear::ONE, log_height) else {
                return Err(Fault::Sizes);
            };
            let fri = parameters(log_blowup, queries, log_cap);
            let mut scheme = Plain::new(dft, Inputs::new(), fri);
            if let Timed::Plain = timed {
                return time_calls(rt, watches, &mut scheme, (domain, matrix));
            }
            let air = mixing(rt.alloc(), width, matrix.height(), log_blowup)?;
            time_both(rt, watches, &mut scheme, &air, matrix)
        }
        Timed::Hiding(codewords) => {
            let Some(domain) = Domain::new(BabyBear::ONE, log_height + 1) else {
                return Err(Fault::Sizes);
            };
            let fri = parameters(1, queries, log_cap);
            let mut scheme = Hiding::new(dft, Inputs::new(), fri, codewords, generator());
            time_calls(rt, watches, &mut scheme, (domain, matrix))
        }
        Timed::Words(count) => {
            let mut rng = generator();
            let start = now(rt);
            let _drawn: Vec<BabyBear> = random_values(rt.alloc(), count, &mut rng)?;
            watches[0].see(rt, start);
            Ok(())
        }
    }
}

/// Prints the least times of all of these, which take turns: each line names the sizes too.
pub fn print(rt: &HostRuntime, all: &[(Timed, Sizes)], repeats: usize) -> Result<()> {
    let mut watches = [[Watch::UNSEEN; 3]; 3];
    for _ in 0..repeats {
        for ((timed, sizes), watches) in all.iter().zip(&mut watches) {
            time_once(rt, watches, *timed, *sizes)?;
        }
    }
    for ((timed, sizes), watches) in all.iter().zip(&watches) {
        let (name, calls): (&'static str, &'static [&'static str]) = match timed {
            Timed::Plain => ("scheme", &["commit", "open", "verify"]),
            Timed::Hiding(_) => ("hiding", &["commit", "open", "verify"]),
            Timed::Words(_) => ("words", &["draw"]),
            Timed::Stark => ("stark", &["prove", "verify"]),
        };
        print!(rt; "{name} {sizes:?}")?;
        for (call, watch) in calls.iter().zip(watches) {
            print!(rt; ", {call} {watch}")?;
        }
        println!(rt; "")?;
    }
    Ok(())
}
