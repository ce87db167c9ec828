//! Committed words and preprocessed columns opened.

ghost use Rattle.std.specs.Prelude.{◌≡◌, length};

use crate::columns::listed;
use crate::scheme::Domain;
use crate::tested::Tested;
use crate::values::{MINUS_THREE, are_opened_alike, element};
use p3_challenger::Sha256Challenger;
use p3_pcs::{KnownCommitment, OpeningRequest, claims_of};
use std::alloc::Global;
use std::process::Abort;

/// Whether one column on two points, opened at 5 with one index, is -3 there, and is accepted with
/// the other by a verifier that ends as the prover.
pub(crate) fn is_opened<P: Tested>(
    rt: &impl Abort,
    alloc: Global,
    scheme: &P,
    known: KnownCommitment<[u8; 32], Domain>,
    held: P::ProverData,
    index: Option<usize>,
    verified: Option<usize>,
) -> bool
    requires prover { (P.rules scheme.now).InProverRange }
    requires verifier { (P.rules scheme.now).InVerifierRange }
    requires openable { (P.rules scheme.now).CanOpen held }
    requires matrices { length ((P.rules scheme.now).committed_polynomials held) ≡ 1 }
{
    let mut held = held;
    let known = listed(rt, alloc, known);
    let request = OpeningRequest {
        prover_data: &mut held,
        points: listed(rt, alloc, listed(rt, alloc, element([5, 0, 0, 0]))),
    };
    let mut requests = listed(rt, alloc, request);
    let mut challenger = Sha256Challenger::new();
    let answer = scheme.open_with_preprocessing(
        alloc,
        requests.as_mut_slice(),
        &mut challenger,
        index,
    );
    let Ok((values, proof)) = answer else {
        panic!(rt; "the opening is refused")
    };
    let claims = claims_of(alloc, &known, &requests, &values).expect(rt, "memory");
    let mut verifier = Sha256Challenger::new();
    let answer = scheme.verify_with_preprocessing(alloc, claims, &proof, &mut verifier, verified);
    answer.is_ok() && are_opened_alike(&values, MINUS_THREE, &challenger, &verifier)
}
