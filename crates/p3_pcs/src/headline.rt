//! The headline of every scheme.

ghost use Rattle.std.specs.Prelude.{◌≡◌, ⊤, None, map, IsOk, IfOk, IfErr, MatchResult};
ghost use Rattle.p3_pcs.specs.Claims.{opened_values};
ghost use Rattle.p3_pcs.specs.Requests.{request, with_data};
ghost use Rattle.p3_pcs.specs.Scheme.{CanBeOpened, AreHonestIn, values_asked, FitRequests};
ghost use Rattle.p3_pcs.specs.Scheme.{claims_asked};
ghost use Rattle.p3_pcs.specs.Headline.{MatchOpenAndVerifyError};

use crate::claims::{KnownCommitment, claims_of};
use crate::requests::OpeningRequest;
use crate::scheme::Pcs;
use p3_mmcs::OpenedValues;
use std::alloc::Global;

/// An opening that was verified, with the challenger that the verifier used.
#[derive(Drop)]
pub struct Verified<EF, Proof, C> {
    /// By commitment, matrix, point and column.
    pub values: OpenedValues<EF>,
    pub proof: Proof,
    /// The verifier's challenger, after the proof.
    pub challenger: C,
}

/// Why an opening wasn't shown to be accepted.
#[derive(Debug, Drop)]
pub enum OpenAndVerifyError<ProverError, Error> {
    /// The opening was refused.
    Open(ProverError),
    /// The proof was refused.
    Verify(Error),
    /// Memory was refused to the claims or to the copy of the challenger.
    OutOfMemory,
}

/// Opens, and verifies what comes of it from a copy of the challenger that `open` began with.
/// `known` has for each request its data's commitment and domains of its matrices' sizes.
///
/// What is opened are the values of the committed polynomials, the proof is accepted of them, and
/// prover and verifier end in the last state of that proof. It refuses only what `open` refuses,
/// and for want of memory.
///
/// The proof is bound to the challenger's state: the caller has absorbed what is public and each
/// commitment before, and has drawn the points after. From a fresh challenger it shows nothing to
/// others, since commitments could be made after the queries.
pub fn open_and_verify<EF: Copy, C: Clone, P: Pcs<EF, C>>(
    scheme: &P,
    alloc: Global,
    known: &[KnownCommitment<P::Commitment, P::Domain>],
    requests: &mut [OpeningRequest<'_, P::ProverData, EF>],
    challenger: &mut C,
) -> Result<Verified<EF, P::Proof, C>, OpenAndVerifyError<P::ProverError, P::Error>>
    requires copies { (x y : C) → C.is_clone x y → y ≡ x }
    requires prover { (P.rules scheme.now).InProverRange }
    requires verifier { (P.rules scheme.now).InVerifierRange }
    requires shape { CanBeOpened (P.rules scheme.now) (map request requests.old) }
    requires honest { AreHonestIn (P.rules scheme.now) (map request requests.old) }
    requires commitments { let r = P.rules scheme.now in map (λ k. k.commitment) known.now
        ≡ map (λ o. r.commitment_of o.prover_data.now) requests.old }
    requires domains { FitRequests (P.rules scheme.now) (map (λ k. k.domains.items) known.now)
        (map request requests.old) }
    ensures values { IfOk result (λ verified. opened_values verified.values.items
        ≡ values_asked (P.rules scheme.now) (map request requests.old)) }
    ensures accepted { let r = P.rules scheme.now in
        let claims = claims_asked r (map (λ k. k.domains.items) known.now)
        (map request requests.old) in
        IfOk result (λ verified. r.Accepts None challenger.old claims verified.proof) }
    ensures prover_state { let r = P.rules scheme.now in
        let claims = claims_asked r (map (λ k. k.domains.items) known.now)
        (map request requests.old) in
        IfOk result (λ verified.
        challenger.new ≡ r.last_state None challenger.old claims verified.proof) }
    ensures verifier_state { IfOk result (λ verified. verified.challenger ≡ challenger.new) }
    ensures checked { IsOk result
        → (P.rules scheme.now).PassesChecks None (map request requests.old) }
    ensures opened { let r = P.rules scheme.now in
        let left = map (with_data r.after_opening) requests.old in
        MatchResult result (λ _. requests.new ≡ left) (MatchOpenAndVerifyError
        (λ _. r.PassesChecks None (map request requests.old) → requests.new ≡ left)
        (λ _. requests.new ≡ left)) }
    ensures unopened { ¬ (P.rules scheme.now).PassesChecks None (map request requests.old)
        → requests.new ≡ requests.old }
    ensures refused { let r = P.rules scheme.now in IfErr result (MatchOpenAndVerifyError
        (r.Refuses None challenger.old (map request requests.old))
        (λ e. e ≡ r.out_of_memory)) }
    ensures unmoved { IfErr result (MatchOpenAndVerifyError
        (λ e. (P.rules scheme.now).LeavesState e → challenger.new ≡ challenger.old) (λ _. ⊤)) }
    ensures untouched { IfErr result (MatchOpenAndVerifyError
        (λ e. (P.rules scheme.now).LeavesState e → requests.new ≡ requests.old) (λ _. ⊤)) }
{
    let mut verifier = match challenger.clone() {
        Ok(copy) => copy,
        Err(_) => return Err(OpenAndVerifyError::OutOfMemory),
    };
    let (values, proof) = match scheme.open(alloc, &mut *requests, challenger) {
        Ok(opening) => opening,
        Err(error) => return Err(OpenAndVerifyError::Open(error)),
    };
    let claims = match claims_of(alloc, known, &*requests, values.as_slice()) {
        Ok(claims) => claims,
        Err(_) => return Err(OpenAndVerifyError::OutOfMemory),
    };
    match scheme.verify(alloc, claims, &proof, &mut verifier) {
        Ok(()) => Ok(Verified {
            values,
            proof,
            challenger: verifier,
        }),
        Err(error) => Err(OpenAndVerifyError::Verify(error)),
    }
}
