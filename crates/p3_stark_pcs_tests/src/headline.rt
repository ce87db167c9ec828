//! The headline with preprocessing: a preprocessed column is opened and verified, with whatever
//! index.

ghost use Rattle.std.specs.Prelude.{◌≡◌, length, map};

use crate::columns::listed;
use crate::scheme::Domain;
use crate::tested::Tested;
use crate::values::{MINUS_THREE, are_opened_alike, element};
use p3_challenger::Sha256Challenger;
use p3_pcs::{KnownCommitment, OpeningRequest};
use p3_stark_pcs::open_and_verify_with_preprocessing;
use std::alloc::Global;
use std::process::Abort;

/// Whether one column is shown to be -3 at 5, and both sides end in one state that isn't the first.
pub(crate) fn is_shown<P: Tested>(
    rt: &impl Abort,
    alloc: Global,
    scheme: &P,
    known: KnownCommitment<[u8; 32], Domain>,
    held: P::ProverData,
    index: Option<usize>,
) -> bool
    requires prover { (P.rules scheme.now).InProverRange }
    requires verifier { (P.rules scheme.now).InVerifierRange }
    requires openable { (P.rules scheme.now).CanOpen held }
    requires honest { (P.rules scheme.now).IsHonest held }
    requires commitment { known.commitment ≡ (P.rules scheme.now).commitment_of held }
    requires sizes { map (P.rules scheme.now).domain_size known.domains.items
        ≡ map (λ m. m.size) ((P.rules scheme.now).committed_polynomials held) }
    requires matrices { length ((P.rules scheme.now).committed_polynomials held) ≡ 1 }
{
    let mut held = held;
    let known = listed(rt, alloc, known);
    let request = OpeningRequest {
        prover_data: &mut held,
        points: listed(rt, alloc, listed(rt, alloc, element([5, 0, 0, 0]))),
    };
    let mut requests = listed(rt, alloc, request);
    let mut challenger = Sha256Challenger::new();
    let opened = open_and_verify_with_preprocessing(
        scheme,
        alloc,
        &known,
        requests.as_mut_slice(),
        &mut challenger,
        index,
    );
    let Ok(verified) = opened else {
        panic!(rt; "not accepted")
    };
    are_opened_alike(
        &verified.values,
        MINUS_THREE,
        &challenger,
        &verified.challenger,
    )
}
