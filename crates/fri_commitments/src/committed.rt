//! Commitments to the matrices of a request.

ghost use Rattle.std.specs.Prelude.{◌≡◌, IfOk, IfErr, map};
ghost use Rattle.std.specs.List.{AllZip};
ghost use Rattle.fri_records.specs.Failures.{MatchRequestError};
ghost use Rattle.fri_commitments.specs.Committed.{CommitsEach, CommitsTo, KeepsRead};
ghost use Rattle.fri_commitments.specs.Committed.{RefusesMatrices};
ghost use Rattle.fri_commitments.specs.Refusals.{RefusesRead, IsUncommitted};
ghost use Rattle.fri_commitments.specs.Requests.{CanCommit};
ghost use Rattle.fri_verification.specs.Verdicts.{IsMadeWith, IsSchemeOf};
ghost use Rattle.fri_commitments.specs.Outcomes.{AreCommitments};

use crate::masking::Masking;
use crate::reading::{ListedBatch, read_batches};
use crate::refusals::refusal;
use fri_records::{Request, RequestError, prover_parameters};
use fri_schemes::{Coset, MadeScheme, SchemeField, SchemeParts};
use p3_challenger_sha256::Sha256Challenger;
use p3_matrix::RowMajorMatrix;
use p3_stark_pcs::UnivariateStarkPcs;
use std::alloc::{AllocError, Global};

/// The matrices under one commitment, with their domains.
#[derive(Drop)]
pub struct Committed<D, Domain> {
    pub commitment: [u8; 32],
    pub data: D,
    pub domains: Vec<Domain>,
}

/// The domains of matrices.
fn domains_of<D: Copy, V>(
    alloc: Global,
    evaluations: &[(D, RowMajorMatrix<V>)],
) -> Result<Vec<D>, AllocError>
    ensures { IfOk result (λ ds. ds.items ≡ map (λ e. e.0) evaluations.now) }
{
    let mut domains = Vec::with_capacity(alloc, evaluations.len())?;
    for evaluation in evaluations {
        domains.push(evaluation.0)?;
    }
    Ok(domains)
}

/// Commits to matrices, as preprocessing or as they are.
fn commit_matrices<EF: Copy, C, P: UnivariateStarkPcs<EF, C, Commitment = [u8; 32]>>(
    alloc: Global,
    scheme: &mut P,
    evaluations: Vec<(P::Domain, RowMajorMatrix<P::Val>)>,
    preprocessed: bool,
) -> Result<([u8; 32], P::ProverData), P::ProverError>
    requires room { (P.rules scheme.old).CanCommit evaluations.items }
    ensures kept { P.Keeps scheme.old scheme.new }
    ensures commits { IfOk result (λ pair. CommitsTo (P.rules scheme.new)
        (P.stark_rules scheme.new) pair.0 pair.1 preprocessed evaluations.items) }
    ensures refused { IfErr result (RefusesMatrices (P.rules scheme.old)
        (P.stark_rules scheme.old) preprocessed evaluations.items) }
{
    if preprocessed {
        scheme.commit_preprocessing(alloc, evaluations)
    } else {
        scheme.commit(alloc, evaluations)
    }
}

/// Commits to a batch, of matrices with room for their extension. What the scheme refuses for, want
/// of memory too, is a refusal.
fn commit_batch<EF: Copy, C, P: UnivariateStarkPcs<EF, C, Commitment = [u8; 32]>>(
    alloc: Global,
    scheme: &mut P,
    batch: ListedBatch<P::Val, P::Domain>,
) -> Result<Committed<P::ProverData, P::Domain>, RequestError<P::ProverError>>
    requires room { (P.rules scheme.old).CanCommit batch.evaluations.items }
    ensures kept { P.Keeps scheme.old scheme.new }
    ensures committed { IfOk result (λ c.
        KeepsRead (P.rules scheme.new) (P.stark_rules scheme.new) c batch) }
    ensures refused { IfErr result (MatchRequestError ⊥ (RefusesMatrices (P.rules scheme.old)
        (P.stark_rules scheme.old) batch.preprocessed batch.evaluations.items)) }
{
    let ListedBatch {
        evaluations,
        preprocessed,
    } = batch;
    let domains = domains_of(alloc, &evaluations)?;
    let (commitment, data) = match commit_matrices::<EF, C, P>(
        alloc,
        scheme,
        evaluations,
        preprocessed,
    ) {
        Ok(committed) => committed,
        Err(error) => return Err(RequestError::Refused(error)),
    };
    Ok(Committed {
        commitment,
        data,
        domains,
    })
}

/// Commits to each batch. Whatever the scheme refuses for, want of memory too, it is a refusal.
fn commit_each<EF: Copy, C, P: UnivariateStarkPcs<EF, C, Commitment = [u8; 32]>>(
    alloc: Global,
    scheme: &mut P,
    batches: Vec<ListedBatch<P::Val, P::Domain>>,
) -> Result<Vec<Committed<P::ProverData, P::Domain>>, RequestError<P::ProverError>>
    requires room { CommitsEach (P.rules scheme.old) batches.items }
    requires since { (old new later : P)
        → P.Keeps old new → P.Keeps new later → P.Keeps old later }
    ensures kept { P.Keeps scheme.old scheme.new }
    ensures committed { IfOk result (λ all. AllZip
        (KeepsRead (P.rules scheme.new) (P.stark_rules scheme.new)) all.items batches.items) }
    ensures refused { IfErr result (MatchRequestError ⊥ (RefusesRead P.rules P.stark_rules
        (λ _. ⊥) (λ s. P.Keeps scheme.old s) batches.items)) }
{
    let mut all = Vec::with_capacity(alloc, batches.len())?;
    for batch in batches {
        all.push(commit_batch::<EF, C, P>(alloc, scheme, batch)?)?;
    }
    Ok(all)
}

/// Commits to each batch, in order, of matrices with room for their extension. Want of memory is
/// told from all else that the scheme refuses for.
pub fn commit_all<F: SchemeField, P: MadeScheme<F, F::Extension, Coset<F>>>(
    alloc: Global,
    scheme: &mut P,
    batches: Vec<ListedBatch<F, Coset<F>>>,
) -> Result<Vec<Committed<P::ProverData, Coset<F>>>, RequestError<P::ProverError>>
    requires room { CommitsEach (P.rules scheme.old) batches.items }
    requires since { (old new later : P)
        → P.Keeps old new → P.Keeps new later → P.Keeps old later }
    ensures kept { P.Keeps scheme.old scheme.new }
    ensures committed { IfOk result (λ all. AllZip
        (KeepsRead (P.rules scheme.new) (P.stark_rules scheme.new)) all.items batches.items) }
    ensures refused { IfErr result (MatchRequestError ⊥ (RefusesRead P.rules P.stark_rules
        P.IsMemory (λ s. P.Keeps scheme.old s) batches.items)) }
{
    match commit_each::<F::Extension, Sha256Challenger<F>, P>(alloc, scheme, batches) {
        Ok(all) => Ok(all),
        Err(RequestError::Refused(error)) => Err(refusal::<F, P>(error)),
        Err(RequestError::Malformed(misfit)) => Err(RequestError::Malformed(misfit)),
        Err(RequestError::OutOfMemory) => Err(RequestError::OutOfMemory),
    }
}

/// The same of one batch.
pub fn commit_one<F: SchemeField, P: MadeScheme<F, F::Extension, Coset<F>>>(
    alloc: Global,
    scheme: &mut P,
    batch: ListedBatch<F, Coset<F>>,
) -> Result<Committed<P::ProverData, Coset<F>>, RequestError<P::ProverError>>
    requires room { (P.rules scheme.old).CanCommit batch.evaluations.items }
    ensures kept { P.Keeps scheme.old scheme.new }
    ensures committed { IfOk result (λ c.
        KeepsRead (P.rules scheme.new) (P.stark_rules scheme.new) c batch) }
    ensures refused { IfErr result (MatchRequestError ⊥ (λ e. RefusesMatrices
        (P.rules scheme.old) (P.stark_rules scheme.old) batch.preprocessed
        batch.evaluations.items e × (¬ P.IsMemory e))) }
{
    match commit_batch::<F::Extension, Sha256Challenger<F>, P>(alloc, scheme, batch) {
        Ok(committed) => Ok(committed),
        Err(RequestError::Refused(error)) => Err(refusal::<F, P>(error)),
        Err(RequestError::Malformed(misfit)) => Err(RequestError::Malformed(misfit)),
        Err(RequestError::OutOfMemory) => Err(RequestError::OutOfMemory),
    }
}

/// The commitments of a request, each 32 bytes, in order. Its points aren't read.
///
/// A scheme that hides draws the masks from the seed, so that with the same seed `open` has these
/// commitments.
pub fn commit<F: SchemeField, P: MadeScheme<F, F::Extension, Coset<F>>>(
    alloc: Global,
    request: &Request,
    masking: Masking,
) -> Result<Vec<[u8; 32]>, RequestError<P::ProverError>>
    ensures committed { IfOk result (λ commitments. AreCommitments ⟦<F as SchemeParts>⟧.fields
        P.rules (λ d. d.shift) (λ d. d.log_size) (IsSchemeOf (IsMadeWith P.IsMade
        request.now.parameters masking.num_random_codewords masking.seed) P.Keeps) P.ZK
        P.stark_rules request.now.commitments.items commitments.items) }
    ensures well_formed { IfOk result (λ _.
        CanCommit ⟦<F as SchemeParts>⟧.fields P.ZK request.now) }
    // where it isn't well formed, where the scheme refuses a batch
    ensures refused { IfErr result (MatchRequestError
        (¬ CanCommit ⟦<F as SchemeParts>⟧.fields P.ZK request.now)
        (IsUncommitted ⟦<F as SchemeParts>⟧.fields P.rules P.stark_rules P.IsMemory
        (IsSchemeOf (IsMadeWith P.IsMade request.now.parameters masking.num_random_codewords
        masking.seed) P.Keeps) P.ZK (λ d. d.shift) (λ d. d.log_size) request.now)) }
{
    let fri = match prover_parameters::<F, F::Extension>(&request.parameters) {
        Ok(fri) => fri,
        Err(misfit) => return Err(RequestError::Malformed(misfit)),
    };
    let hides = P::ZK;
    let log_blowup = request.parameters.log_blowup;
    let batches = read_batches(alloc, &request.commitments, log_blowup, hides)?;
    let mut scheme = P::made(fri, masking.num_random_codewords, masking.seed);
    let all = commit_all::<F, P>(alloc, &mut scheme, batches.all)?;
    Ok(commitments_of(alloc, &all)?)
}

/// The commitments alone.
fn commitments_of<D, Domain>(
    alloc: Global,
    all: &[Committed<D, Domain>],
) -> Result<Vec<[u8; 32]>, AllocError>
    ensures { IfOk result (λ commitments.
        commitments.items ≡ map (λ c. c.commitment) all.now) }
{
    let mut commitments = Vec::with_capacity(alloc, all.len())?;
    for committed in all {
        commitments.push(committed.commitment)?;
    }
    Ok(commitments)
}
