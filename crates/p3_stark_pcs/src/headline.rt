//! The headline of every scheme that a STARK prover uses, with preprocessing.

ghost use Rattle.std.specs.Prelude.{◌≡◌, ⊤, map, IsOk, IfOk, IfErr, MatchResult};
ghost use Rattle.p3_pcs.specs.Claims.{opened_values};
ghost use Rattle.p3_pcs.specs.Requests.{request, with_data};
ghost use Rattle.p3_pcs.specs.Scheme.{AreHonestIn, values_asked, FitRequests, claims_asked};
ghost use Rattle.p3_pcs.specs.Headline.{MatchOpenAndVerifyError};

use crate::univariate::UnivariateStarkPcs;
use p3_pcs::{KnownCommitment, OpenAndVerifyError, OpeningRequest, Verified, claims_of};
use std::alloc::Global;

/// Opens, where the index names the request of preprocessed columns, and verifies what comes of it
/// with the same index, from a copy of the challenger that the opening began with. `known` has for
/// each request its data's commitment and domains of its matrices' sizes.
///
/// What is opened are the values of the committed polynomials, the proof is accepted of them, and
/// prover and verifier end in the last state of that proof. It refuses only what the opening
/// refuses, and for want of memory.
pub fn open_and_verify_with_preprocessing<EF: Copy, C: Clone, P: UnivariateStarkPcs<EF, C>>(
    scheme: &P,
    alloc: Global,
    known: &[KnownCommitment<P::Commitment, P::Domain>],
    requests: &mut [OpeningRequest<'_, P::ProverData, EF>],
    challenger: &mut C,
    preprocessing: Option<usize>,
) -> Result<Verified<EF, P::Proof, C>, OpenAndVerifyError<P::ProverError, P::Error>>
    requires copies { (x y : C) → C.is_clone x y → y ≡ x }
    requires prover { (P.rules scheme.now).InProverRange }
    requires verifier { (P.rules scheme.now).InVerifierRange }
    requires shape { (P.stark_rules scheme.now).CanOpenAt preprocessing
        (map request requests.old) }
    requires honest { AreHonestIn (P.rules scheme.now) (map request requests.old) }
    requires commitments { let r = P.rules scheme.now in map (λ k. k.commitment) known.now
        ≡ map (λ o. r.commitment_of o.prover_data.now) requests.old }
    requires domains { FitRequests (P.rules scheme.now) (map (λ k. k.domains.items) known.now)
        (map request requests.old) }
    ensures values { IfOk result (λ verified. opened_values verified.values.items
        ≡ values_asked (P.rules scheme.now) (map request requests.old)) }
    ensures accepted { let r = P.rules scheme.now in
        let claims = claims_asked r (map (λ k. k.domains.items) known.now)
        (map request requests.old) in
        IfOk result (λ verified. r.Accepts preprocessing challenger.old claims verified.proof) }
    ensures prover_state { let r = P.rules scheme.now in
        let claims = claims_asked r (map (λ k. k.domains.items) known.now)
        (map request requests.old) in
        IfOk result (λ verified.
        challenger.new ≡ r.last_state preprocessing challenger.old claims verified.proof) }
    ensures verifier_state { IfOk result (λ verified. verified.challenger ≡ challenger.new) }
    ensures checked { IsOk result
        → (P.rules scheme.now).PassesChecks preprocessing (map request requests.old) }
    ensures opened { let r = P.rules scheme.now in
        let left = map (with_data r.after_opening) requests.old in
        MatchResult result (λ _. requests.new ≡ left) (MatchOpenAndVerifyError
        (λ _. r.PassesChecks preprocessing (map request requests.old) → requests.new ≡ left)
        (λ _. requests.new ≡ left)) }
    ensures unopened { ¬ (P.rules scheme.now).PassesChecks preprocessing (map request requests.old)
        → requests.new ≡ requests.old }
    ensures refused { let r = P.rules scheme.now in IfErr result (MatchOpenAndVerifyError
        (r.Refuses preprocessing challenger.old (map request requests.old))
        (λ e. e ≡ r.out_of_memory)) }
    ensures unmoved { IfErr result (MatchOpenAndVerifyError
        (λ e. (P.rules scheme.now).LeavesState e → challenger.new ≡ challenger.old) (λ _. ⊤)) }
    ensures untouched { IfErr result (MatchOpenAndVerifyError
        (λ e. (P.rules scheme.now).LeavesState e → requests.new ≡ requests.old) (λ _. ⊤)) }
{
    let mut verifier = match challenger.clone() {
        Ok(copy) => copy,
        Err(_) => return Err(OpenAndVerifyError::OutOfMemory),
    };
    let opened = scheme.open_with_preprocessing(alloc, &mut *requests, challenger, preprocessing);
    let (values, proof) = match opened {
        Ok(opening) => opening,
        Err(error) => return Err(OpenAndVerifyError::Open(error)),
    };
    let claims = match claims_of(alloc, known, &*requests, values.as_slice()) {
        Ok(claims) => claims,
        Err(_) => return Err(OpenAndVerifyError::OutOfMemory),
    };
    let verified = scheme.verify_with_preprocessing(
        alloc,
        claims,
        &proof,
        &mut verifier,
        preprocessing,
    );
    match verified {
        Ok(()) => Ok(Verified {
            values,
            proof,
            challenger: verifier,
        }),
        Err(error) => Err(OpenAndVerifyError::Verify(error)),
    }
}
