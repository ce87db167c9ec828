//! Openings of requests.

ghost use Rattle.std.specs.Prelude.{◌≡◌, ◌⊎◌, IfOk, IfErr, map, string_bytes};
ghost use Rattle.algebra.specs.Nested.{nested};
ghost use Rattle.p3_pcs.specs.Claims.{claim};
ghost use Rattle.p3_pcs.specs.Requests.{request, with_data};
ghost use Rattle.p3_pcs.specs.Scheme.{AreHonestIn, FitRequests, claims_asked};
ghost use Rattle.fri_records.specs.Failures.{MatchRequestError};
ghost use Rattle.fri_statement.specs.Numbers.{coefficient_numbers};
ghost use Rattle.fri_statement.specs.Setting.{prime_fields, sha256_moves};
ghost use Rattle.fri_numbers.specs.Claims.{batch_listed, batch_numbers};
ghost use Rattle.fri_opening.specs.Openings.{requests_for};
ghost use Rattle.fri_commitments.specs.Preprocessing.{NamesPreprocessed};
ghost use Rattle.fri_opening.specs.OpenRefusals.{IsUnopened};
ghost use Rattle.fri_commitments.specs.Requests.{CanOpen};
ghost use Rattle.fri_verification.specs.Verdicts.{IsMadeWith, IsSchemeOf, IsAcceptedBy};
ghost use Rattle.fri_opening.specs.Openings.{AreOpenings};

use crate::prepared::prepare;
use fri_commitments::{Committed, Masking, refusal};
use fri_numbers::{Claims, claims_out};
use fri_records::{BatchClaims, Request, RequestError, prover_parameters};
use fri_schemes::{Coset, MadeScheme, SchemeField, SchemeParts};
use fri_verification::next_drawn;
use p3_challenger_sha256::Sha256Challenger;
use p3_pcs::{KnownCommitment, OpeningRequest, claims_of};
use std::alloc::{AllocError, Global};

/// Requests to open committed data at these points, one for each commitment, in order.
pub fn requests_of<'a, D, Domain, EF: Drop>(
    alloc: Global,
    all: &'a mut [Committed<D, Domain>],
    points: Vec<Vec<Vec<EF>>>,
) -> Result<Vec<OpeningRequest<'a, D, EF>>, AllocError>
    ensures { IfOk result (λ requests. map request requests.items
        ≡ requests_for all.old (nested points.items)) }
{
    let mut requests = Vec::with_capacity(alloc, all.len())?;
    for (committed, points) in all.iter_mut().zip(points) {
        requests.push(OpeningRequest {
            prover_data: &mut committed.data,
            points,
        })?;
    }
    Ok(requests)
}

/// Answers requests, of whose data a verifier knows these commitments and domains, and of which the
/// index names the one of preprocessing.
pub fn open_requests<F: SchemeField, P: MadeScheme<F, F::Extension, Coset<F>>>(
    alloc: Global,
    scheme: &P,
    known: &[KnownCommitment<[u8; 32], Coset<F>>],
    requests: &mut [OpeningRequest<'_, P::ProverData, F::Extension>],
    preprocessing: Option<usize>,
    challenger: &mut Sha256Challenger<F>,
) -> Result<(Claims<F>, P::Proof), RequestError<P::ProverError>>
    requires range { (P.rules scheme.now).InProverRange }
    requires shape { (P.stark_rules scheme.now).CanOpenAt preprocessing
        (map request requests.old) }
    // where the data is honest, and of these commitments and domains
    ensures claims { let r = P.rules scheme.now in AreHonestIn r (map request requests.old)
        → map (λ k. k.commitment) known.now
        ≡ map (λ o. r.commitment_of o.prover_data.now) requests.old
        → IfOk result (λ o. map claim o.0.items ≡ claims_asked r
        (map (λ k. k.domains.items) known.now) (map request requests.old)) }
    ensures accepted { let r = P.rules scheme.now in AreHonestIn r (map request requests.old)
        → map (λ k. k.commitment) known.now
        ≡ map (λ o. r.commitment_of o.prover_data.now) requests.old
        → FitRequests r (map (λ k. k.domains.items) known.now) (map request requests.old)
        → IfOk result (λ o. r.Accepts preprocessing challenger.old (map claim o.0.items) o.1) }
    ensures state { let r = P.rules scheme.now in AreHonestIn r (map request requests.old)
        → map (λ k. k.commitment) known.now
        ≡ map (λ o. r.commitment_of o.prover_data.now) requests.old
        → FitRequests r (map (λ k. k.domains.items) known.now) (map request requests.old)
        → IfOk result (λ o. challenger.new
        ≡ r.last_state preprocessing challenger.old (map claim o.0.items) o.1) }
    ensures refused { IfErr result (MatchRequestError ⊥ (λ e. (P.rules scheme.now).Refuses
        preprocessing challenger.old (map request requests.old) e × (¬ P.IsMemory e))) }
    // where what refuses either comes after the checks or leaves what was
    ensures lent { let r = P.rules scheme.now in let asked = map request requests.old in
        ((e : P.ProverError) → r.Refuses preprocessing challenger.old asked e
        → r.PassesChecks preprocessing asked ⊎ r.LeavesState e)
        → (requests.new ≡ map (with_data r.after_opening) requests.old)
        ⊎ (requests.new ≡ requests.old) }
{
    let opened = scheme.open_with_preprocessing(alloc, &mut *requests, challenger, preprocessing);
    let (values, proof) = match opened {
        Ok(opening) => opening,
        Err(error) => return Err(refusal::<F, P>(error)),
    };
    let claims = claims_of(alloc, known, &*requests, values.as_slice())?;
    Ok((claims, proof))
}

/// Opens what is kept under commitments, as a verifier knows them, at these points.
fn open_committed<F: SchemeField, P: MadeScheme<F, F::Extension, Coset<F>>>(
    alloc: Global,
    scheme: &P,
    known: &[KnownCommitment<[u8; 32], Coset<F>>],
    all: &mut [Committed<P::ProverData, Coset<F>>],
    points: Vec<Vec<Vec<F::Extension>>>,
    preprocessing: Option<usize>,
    challenger: &mut Sha256Challenger<F>,
) -> Result<(Claims<F>, P::Proof), RequestError<P::ProverError>>
    requires range { (P.rules scheme.now).InProverRange }
    requires shape { (P.stark_rules scheme.now).CanOpenAt preprocessing
        (requests_for all.old (nested points.items)) }
    requires honest { AreHonestIn (P.rules scheme.now)
        (requests_for all.old (nested points.items)) }
    requires commitments { let r = P.rules scheme.now in map (λ k. k.commitment) known.now
        ≡ map (λ q. r.commitment_of q.datum) (requests_for all.old (nested points.items)) }
    requires domains { FitRequests (P.rules scheme.now) (map (λ k. k.domains.items) known.now)
        (requests_for all.old (nested points.items)) }
    ensures claims { IfOk result (λ o. map claim o.0.items ≡ claims_asked (P.rules scheme.now)
        (map (λ k. k.domains.items) known.now) (requests_for all.old (nested points.items))) }
    ensures accepted { IfOk result (λ o. (P.rules scheme.now).Accepts preprocessing
        challenger.old (map claim o.0.items) o.1) }
    ensures state { IfOk result (λ o. challenger.new ≡ (P.rules scheme.now).last_state
        preprocessing challenger.old (map claim o.0.items) o.1) }
    ensures refused { IfErr result (MatchRequestError ⊥ (λ e. (P.rules scheme.now).Refuses
        preprocessing challenger.old (requests_for all.old (nested points.items)) e
        × (¬ P.IsMemory e))) }
{
    let mut requests = requests_of(alloc, all, points)?;
    open_requests::<F, P>(
        alloc,
        scheme,
        known,
        requests.as_mut_slice(),
        preprocessing,
        challenger,
    )
}

/// Claims as records, and the numbers of what the challenger draws next.
pub fn answered<F: SchemeField>(
    alloc: Global,
    claims: &Claims<F>,
    challenger: &mut Sha256Challenger<F>,
) -> Result<(Vec<BatchClaims>, Vec<u64>), AllocError>
    ensures claims { IfOk result (λ answered. map batch_listed answered.0.items
        ≡ map (batch_numbers ⟦<F as SchemeParts>⟧.fields (λ d. d.shift) (λ d. d.log_size))
        (map claim claims.now.items)) }
    ensures next { let f = prime_fields ⟦<F as SchemeParts>⟧.fields in
        IfOk result (λ answered. answered.1.items
        ≡ coefficient_numbers f ((sha256_moves f).draw_element challenger.old).value) }
{
    let records = claims_out::<F::Extension, Coset<F>, F>(alloc, claims)?;
    let next_challenge = next_drawn::<F, F::Extension>(alloc, challenger)?;
    Ok((records, next_challenge))
}

/// What comes of opening a request.
#[derive(Drop)]
pub struct Opening<Proof> {
    pub claims: Vec<BatchClaims>,
    pub proof: Proof,
    /// The place of the preprocessed batch, if there is one.
    pub preprocessing: Option<usize>,
    /// The coefficients' numbers of the element of the extension that the challenger draws next:
    /// both sides end in one state, so that a verifier's is the same.
    pub next_challenge: Vec<u64>,
}

/// Commits to a request's matrices and opens them at its points. The challenger begins with the
/// whole statement: by what the scheme hides, if it does, the context, the parameters, and the
/// commitments with the domains, widths and points of their matrices. `verify` accepts what comes
/// of it under that context. In a scheme that hides, a claim names the domain on which the masked
/// matrix was committed to, which has twice as many points as the listed one, those at even places.
pub fn open<F: SchemeField, P: MadeScheme<F, F::Extension, Coset<F>>>(
    alloc: Global,
    request: &Request,
    masking: Masking,
) -> Result<Opening<P::Proof>, RequestError<P::ProverError>>
    ensures accepted { IfOk result (λ o. IsAcceptedBy ⟦<F as SchemeParts>⟧.fields P.rules
        (λ d. d.shift) (λ d. d.log_size)
        (IsMadeWith P.IsMade request.now.parameters masking.num_random_codewords masking.seed)
        (P.begun masking.num_random_codewords o.preprocessing)
        (string_bytes request.now.context) request.now.parameters o.preprocessing o.claims.items
        o.proof o.next_challenge.items) }
    ensures opened { IfOk result (λ o. AreOpenings ⟦<F as SchemeParts>⟧.fields P.rules
        (λ d. d.shift) (λ d. d.log_size)
        (IsSchemeOf (IsMadeWith P.IsMade request.now.parameters masking.num_random_codewords
        masking.seed) P.Keeps) P.ZK P.stark_rules request.now.commitments.items
        o.claims.items) }
    ensures named { IfOk result (λ o.
        NamesPreprocessed o.preprocessing request.now.commitments.items) }
    ensures well_formed { IfOk result (λ _.
        CanOpen ⟦<F as SchemeParts>⟧.fields P.ZK request.now) }
    // where it can't be opened, where the scheme refuses it
    ensures refused { IfErr result (MatchRequestError
        (¬ CanOpen ⟦<F as SchemeParts>⟧.fields P.ZK request.now)
        (IsUnopened ⟦<F as SchemeParts>⟧.fields P.rules P.stark_rules P.IsMemory
        (IsSchemeOf (IsMadeWith P.IsMade request.now.parameters masking.num_random_codewords
        masking.seed) P.Keeps) P.ZK (λ d. d.shift) (λ d. d.log_size)
        (λ index. P.begun masking.num_random_codewords index) request.now)) }
{
    let fri = match prover_parameters::<F, F::Extension>(&request.parameters) {
        Ok(fri) => fri,
        Err(misfit) => return Err(RequestError::Malformed(misfit)),
    };
    let mut scheme = P::made(fri, masking.num_random_codewords, masking.seed);
    let codewords = masking.num_random_codewords;
    let mut prepared = prepare::<F, P>(alloc, &mut scheme, request, codewords)?;
    let points = prepared.points;
    let (claims, proof) = open_committed::<F, P>(
        alloc,
        &scheme,
        &prepared.known,
        prepared.committed.as_mut_slice(),
        points,
        prepared.preprocessing,
        &mut prepared.challenger,
    )?;
    let (records, next_challenge) = answered::<F>(alloc, &claims, &mut prepared.challenger)?;
    Ok(Opening {
        claims: records,
        proof,
        preprocessing: prepared.preprocessing,
        next_challenge,
    })
}
