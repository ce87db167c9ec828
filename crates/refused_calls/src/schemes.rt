//! Calls of any scheme.

ghost use Rattle.std.specs.Prelude.{◌≡◌, length, IfOk};

use crate::answer::{Fault, Name, Result, drawn, kept, tell, tell_commitment, tell_left};
use crate::call::SchemeCall;
use crate::matrices::{Domain, Evaluations, coset, points};
use p3_challenger::Sha256Challenger;
use p3_field::{BabyBear, BabyBear4};
use p3_pcs::{KnownCommitment, OpeningRequest, claims_of};
use p3_stark_pcs::UnivariateStarkPcs;
use p3_test_openings::listed::{listed, pair};
use std::alloc::Global;
use std::fmt::Debug;

/// A scheme with what its calls are made on.
#[derive(Drop)]
pub struct Made<P> {
    pub scheme: P,
    /// What it commits to.
    pub columns: Evaluations,
    /// Chunks of a quotient.
    pub chunks: Evaluations,
}

/// A scheme whose calls are made. What makes them is written for any scheme of this trait, so that
/// it asks for nothing of its caller.
pub trait Called: UnivariateStarkPcs<
    BabyBear4,
    Sha256Challenger,
    Val = BabyBear,
    Domain = Domain,
    Commitment = [u8; 32],
>
    + Drop {
    /// The scheme with what its calls are made on.
    fn made(alloc: Global) -> Result<Made<Self>>
        ensures columns { IfOk result (λ made.
            (Self.rules made.scheme).CanCommit made.columns.items) }
        ensures two { IfOk result (λ made. length made.columns.items ≡ 2) }
        ensures chunks { IfOk result (λ made. (Self.stark_rules made.scheme).CanExtend
            made.chunks.items (length made.chunks.items)) }
        ensures prover { IfOk result (λ made. (Self.rules made.scheme).InProverRange) }
        ensures verifier { IfOk result (λ made. (Self.rules made.scheme).InVerifierRange) };

    /// Whether an opening marked the data, in words.
    fn mark(data: &Self::ProverData) -> &'static str;
}

/// `open` of two matrices, at a point or two of each, or `verify` of that.
fn open<P: Called>(
    rt: &HostRuntime,
    name: Name,
    call: &SchemeCall,
    scheme: &P,
    known: KnownCommitment<[u8; 32], Domain>,
    held: &mut P::ProverData,
) -> Result<()>
where
    P::ProverError: Debug,
    P::Error: Debug,
    requires prover { (P.rules scheme.now).InProverRange }
    requires verifier { (P.rules scheme.now).InVerifierRange }
    requires openable { (P.rules scheme.now).CanOpen held.old }
    requires two { length ((P.rules scheme.now).committed_polynomials held.old) ≡ 2 }
{
    let alloc = rt.alloc();
    let num_points = match call {
        SchemeCall::OpenAtTwoPoints => 2,
        _ => 1,
    };
    let known = listed(alloc, known)?;
    let request = OpeningRequest {
        prover_data: &mut *held,
        points: points(alloc, 2, num_points)?,
    };
    let mut requests = listed(alloc, request)?;
    let mut challenger = Sha256Challenger::new();
    let answer = match scheme.open(alloc, requests.as_mut_slice(), &mut challenger) {
        Ok((values, proof)) => {
            let claims = claims_of(alloc, &known, &requests, &values)?;
            Ok((values, proof, claims))
        }
        Err(refusal) => Err(refusal),
    };
    drop(requests);
    if let SchemeCall::Verify = call {
        let Ok((_values, proof, claims)) = answer else {
            return Err(Fault::Memory);
        };
        let mut verifier = Sha256Challenger::new();
        let verified = scheme.verify(alloc, claims, &proof, &mut verifier);
        return tell(rt, name, &verified.and(Ok(drawn(&mut verifier))));
    }
    let left = [P::mark(held), kept(&challenger)];
    let answer = match answer {
        Ok((values, _proof, _claims)) => Ok((values, drawn(&mut challenger))),
        Err(refusal) => Err(refusal),
    };
    tell_left(rt, name, &answer, left)
}

/// Makes a call of a new scheme. Columns are read on a domain of four points.
pub fn make<P: Called>(rt: &HostRuntime, name: Name, call: &SchemeCall) -> Result<()>
where
    P::ProverError: Debug,
    P::Error: Debug,
{
    let (alloc, domain) = (rt.alloc(), coset(5, 2)?);
    let Made {
        mut scheme,
        columns,
        chunks,
    } = P::made(alloc)?;
    match call {
        SchemeCall::Commit => tell_commitment(rt, name, scheme.commit(alloc, columns)),
        SchemeCall::GetQuotientLdes | SchemeCall::CommitLdes => {
            let count = chunks.len();
            let answer = scheme.get_quotient_ldes(alloc, chunks, count);
            if let SchemeCall::GetQuotientLdes = call {
                return tell(rt, name, &answer);
            }
            match answer {
                Ok(words) => tell_commitment(rt, name, scheme.commit_ldes(alloc, words)),
                Err(_refusal) => Err(Fault::Memory),
            }
        }
        _ => {
            let domains = pair(alloc, columns[0].0, columns[1].0)?;
            let Ok(committed) = scheme.commit(alloc, columns) else {
                return Err(Fault::Memory);
            };
            let (commitment, mut held) = committed;
            if let SchemeCall::GetEvaluationsOnDomain = call {
                let first = scheme.get_evaluations_on_domain(alloc, &held, 0, domain);
                return tell(rt, name, &first);
            }
            let known = KnownCommitment {
                commitment,
                domains,
            };
            open(rt, name, call, &scheme, known, &mut held)
        }
    }
}
