//! Requests whose matrices are committed to and whose statement is absorbed.

ghost use Rattle.std.specs.Prelude.{◌≡◌, IfOk, IfErr, map};
ghost use Rattle.fri_schemes.specs.Rows.{CommitsRows};
ghost use Rattle.fri_records.specs.Failures.{MatchRequestError};
ghost use Rattle.fri_records.specs.Records.{AreProvers};
ghost use Rattle.fri_opening.specs.Prepared.{IsPrepared};
ghost use Rattle.fri_commitments.specs.Refusals.{RefusesBatch};
ghost use Rattle.fri_commitments.specs.Requests.{CanOpen};

use fri_commitments::{Committed, commit_all, read_request};
use fri_records::{Request, RequestError};
use fri_schemes::{Coset, MadeScheme, SchemeField, SchemeParts};
use fri_verification::{batches_stated, bound_challenger};
use p3_challenger_sha256::Sha256Challenger;
use p3_pcs::KnownCommitment;
use std::alloc::{AllocError, Global};

/// What is to be opened of a request.
#[derive(Drop)]
pub(crate) struct Prepared<D, Domain, EF, C> {
    pub committed: Vec<Committed<D, Domain>>,
    /// What a verifier knows of these.
    pub known: Vec<KnownCommitment<[u8; 32], Domain>>,
    /// Those of each matrix of each commitment.
    pub points: Vec<Vec<Vec<EF>>>,
    /// The place of the preprocessed batch, if there is one.
    pub preprocessing: Option<usize>,
    /// It has absorbed the statement.
    pub challenger: C,
}

/// What is to be opened over a field and its extension, of data of type `D`.
type PreparedOver<F, D> = Prepared<D, Coset<F>, <F as SchemeField>::Extension, Sha256Challenger<F>>;

/// What a verifier knows of what is kept: the commitments and the domains, in order.
pub fn known_of<D, Domain: Copy>(
    alloc: Global,
    all: &[Committed<D, Domain>],
) -> Result<Vec<KnownCommitment<[u8; 32], Domain>>, AllocError>
    ensures commitments { IfOk result (λ known.
        map (λ k. k.commitment) known.items ≡ map (λ c. c.commitment) all.now) }
    ensures domains { IfOk result (λ known.
        map (λ k. k.domains.items) known.items ≡ map (λ c. c.domains.items) all.now) }
{
    let mut known = Vec::with_capacity(alloc, all.len())?;
    for committed in all {
        known.push(KnownCommitment {
            commitment: committed.commitment,
            domains: Vec::from_slice(alloc, &committed.domains)?,
        })?;
    }
    Ok(known)
}

/// Commits to a request's matrices and absorbs its statement: by what the scheme hides, if it does,
/// the context, the parameters, and the commitments with the domains, widths and points of their
/// matrices.
pub(crate) fn prepare<F: SchemeField, P: MadeScheme<F, F::Extension, Coset<F>>>(
    alloc: Global,
    scheme: &mut P,
    request: &Request,
    num_random_codewords: usize,
) -> Result<PreparedOver<F, P::ProverData>, RequestError<P::ProverError>>
    requires provers { AreProvers F.TWO_ADICITY request.now.parameters }
    requires room { CommitsRows (P.rules scheme.old) F.TWO_ADICITY (λ d. d.log_size)
        P.ZK request.now.parameters.log_blowup }
    ensures kept { P.Keeps scheme.old scheme.new }
    ensures prepared { IfOk result (λ p. IsPrepared ⟦<F as SchemeParts>⟧.fields
        (P.rules scheme.new) (P.stark_rules scheme.new) P.ZK (λ d. d.shift) (λ d. d.log_size)
        (λ index. P.begun num_random_codewords index) request.now p) }
    ensures refused { IfErr result (MatchRequestError
        (¬ CanOpen ⟦<F as SchemeParts>⟧.fields P.ZK request.now)
        (λ e. CanOpen ⟦<F as SchemeParts>⟧.fields P.ZK request.now × RefusesBatch
        ⟦<F as SchemeParts>⟧.fields P.rules P.stark_rules P.IsMemory (λ s. P.Keeps scheme.old s)
        P.ZK (λ d. d.shift) (λ d. d.log_size) request.now.commitments.items e)) }
{
    let hides = P::ZK;
    let asked = read_request(alloc, request, hides)?;
    let preprocessing = asked.batches.preprocessing;
    let committed = commit_all::<F, P>(alloc, scheme, asked.batches.all)?;
    let known = known_of(alloc, &committed)?;
    let stated = batches_stated::<F::Extension, Coset<F>, F>(
        alloc,
        hides,
        &known,
        &asked.points,
        &request.commitments,
    )?;
    let begun = P::begin(alloc, num_random_codewords, preprocessing)?;
    let challenger = bound_challenger(alloc, begun, &asked.context, &request.parameters, &stated)?;
    Ok(Prepared {
        committed,
        known,
        points: asked.points,
        preprocessing,
        challenger,
    })
}
