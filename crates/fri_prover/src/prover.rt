//! A prover of the plain scheme that keeps what it committed to, so that nothing is committed to
//! twice.

ghost use Rattle.std.specs.Prelude.{◌≡◌, ◌≢◌, ◌++◌, ◌∷◌, [], IfOk, IfErr};
ghost use Rattle.std.specs.Prelude.{None, List, Ok, All, map, false};
ghost use Rattle.std.specs.List.{AllZip};
ghost use Rattle.algebra.specs.Nested.{nested};
ghost use Rattle.p3_pcs.specs.Claims.{claim};
ghost use Rattle.p3_pcs.specs.Requests.{request};
ghost use Rattle.p3_pcs.specs.Scheme.{AreHonestIn, CanBeOpened, FitRequests, claims_asked};
ghost use Rattle.p3_fri_folding.specs.declared.error.FriProverError.TheVariants.{OutOfMemory};
ghost use Rattle.p3_fri_relation.specs.Views.{parameters_of, proof_of};
ghost use Rattle.p3_fri_two_adic.specs.Ranges.{InProverRange};
ghost use Rattle.fri_records.specs.Failures.{MatchRequestError};
ghost use Rattle.fri_records.specs.Records.{AreProvers, parameters_in};
ghost use Rattle.fri_schemes.specs.Rows.{FitsRows};
ghost use Rattle.fri_requests.specs.Accepted.{IsAccepted};
ghost use Rattle.fri_numbers.specs.Claims.{batch_listed};
ghost use Rattle.fri_requests.specs.Commitments.{IsCommitmentTo};
ghost use Rattle.fri_commitments.specs.Committed.{Lists};
ghost use Rattle.fri_numbers.specs.Elements.{batch_of};
ghost use Rattle.fri_prover.specs.Keeping.{HasCommitted, CommitsBatch, batches_at, CanAsk};
ghost use Rattle.fri_prover.specs.Keeping.{RefusesAsked};
ghost use Rattle.fri_requests.specs.Opened.{IsOpened};
ghost use Rattle.fri_opening.specs.Openings.{requests_for};
ghost use Rattle.fri_prover.specs.Reopening.{OpensAsked};

use fri_commitments::{
    Committed, Data, ListedBatch, are_named, commit_one, have_matrix, read_asked,
};
use fri_numbers::{Claims, ElementMatrix, batch_evaluations, evaluations_of_all};
use fri_opening::{Opening, answered, known_of, open_requests, requests_of, spares, swap_data};
use fri_records::{Batch, Fault, Parameters, Place, RequestError, Rounds, prover_parameters};
use fri_requests::plain::Proof;
use fri_schemes::{Coset, Inputs, MadeScheme, PlainScheme, SchemeField, SchemeParts};
use p3_challenger_sha256::Sha256Challenger;
use p3_fri_folding::{FriParameters, FriProverError};
use p3_fri_openings::are_openable;
use p3_mmcs::Sha256Mmcs;
use p3_pcs::{KnownCommitment, OpeningRequest, Pcs};
use std::alloc::Global;

/// What the plain scheme over the field `F` committed to, and keeps to open it.
#[derive(Drop)]
pub struct Prover<F: SchemeField> {
    parameters: Parameters,
    committed: Vec<Committed<Data<F>, Coset<F>>>,
}

/// Opens what is lent under commitments, as a verifier knows them.
fn open_lent<F: SchemeField>(
    alloc: Global,
    scheme: &PlainScheme<F>,
    known: &[KnownCommitment<[u8; 32], Coset<F>>],
    requests: &mut [OpeningRequest<'_, Data<F>, F::Extension>],
    challenger: &mut Sha256Challenger<F>,
) -> Result<(Claims<F>, Proof<F>), RequestError<FriProverError>>
    requires range { InProverRange (parameters_of scheme.now.fri) F.TWO_ADICITY 63 }
    // where what is lent is honest, and of these commitments and domains
    ensures claims { let r =
        ⟦<PlainScheme<F> as Pcs<F::Extension, Sha256Challenger<F>>>⟧.rules scheme.now in
        AreHonestIn r (map request requests.old)
        → map (λ k. k.commitment) known.now
        ≡ map (λ o. r.commitment_of o.prover_data.now) requests.old
        → IfOk result (λ o. map claim o.0.items ≡ claims_asked r
        (map (λ k. k.domains.items) known.now) (map request requests.old)) }
    ensures accepted { let r =
        ⟦<PlainScheme<F> as Pcs<F::Extension, Sha256Challenger<F>>>⟧.rules scheme.now in
        AreHonestIn r (map request requests.old)
        → map (λ k. k.commitment) known.now
        ≡ map (λ o. r.commitment_of o.prover_data.now) requests.old
        → FitRequests r (map (λ k. k.domains.items) known.now) (map request requests.old)
        → IfOk result (λ o. r.Accepts None challenger.old (map claim o.0.items) o.1) }
    ensures state { let r =
        ⟦<PlainScheme<F> as Pcs<F::Extension, Sha256Challenger<F>>>⟧.rules scheme.now in
        AreHonestIn r (map request requests.old)
        → map (λ k. k.commitment) known.now
        ≡ map (λ o. r.commitment_of o.prover_data.now) requests.old
        → FitRequests r (map (λ k. k.domains.items) known.now) (map request requests.old)
        → IfOk result (λ o. challenger.new
        ≡ r.last_state None challenger.old (map claim o.0.items) o.1) }
    // where it can't be opened, where the scheme refuses it
    ensures refused { let r =
        ⟦<PlainScheme<F> as Pcs<F::Extension, Sha256Challenger<F>>>⟧.rules scheme.now in
        IfErr result (MatchRequestError (¬ CanBeOpened r (map request requests.old))
        (λ e. r.Refuses None challenger.old (map request requests.old) e × e ≢ OutOfMemory)) }
    ensures kept { requests.new ≡ requests.old }
{
    let inputs: Inputs<F> = Sha256Mmcs::new();
    if !are_openable::<F, F::Extension, Inputs<F>>(&inputs, &*requests) {
        return Err(RequestError::Malformed(Place::NONE.lacks(Fault::Points)));
    }
    open_requests::<F, PlainScheme<F>>(alloc, scheme, known, requests, None, challenger)
}

/// Opens what is kept under commitments, as a verifier knows them, at these points.
fn open_kept<F: SchemeField>(
    alloc: Global,
    scheme: &PlainScheme<F>,
    known: &[KnownCommitment<[u8; 32], Coset<F>>],
    all: &mut [Committed<Data<F>, Coset<F>>],
    points: Vec<Vec<Vec<F::Extension>>>,
    challenger: &mut Sha256Challenger<F>,
) -> Result<(Claims<F>, Proof<F>), RequestError<FriProverError>>
    requires range { InProverRange (parameters_of scheme.now.fri) F.TWO_ADICITY 63 }
    // where what is kept is honest, and of these commitments and domains
    ensures claims { let r =
        ⟦<PlainScheme<F> as Pcs<F::Extension, Sha256Challenger<F>>>⟧.rules scheme.now in
        let asked = requests_for all.old (nested points.items) in AreHonestIn r asked
        → map (λ k. k.commitment) known.now ≡ map (λ q. r.commitment_of q.datum) asked
        → IfOk result (λ o. map claim o.0.items ≡ claims_asked r
        (map (λ k. k.domains.items) known.now) asked) }
    ensures accepted { let r =
        ⟦<PlainScheme<F> as Pcs<F::Extension, Sha256Challenger<F>>>⟧.rules scheme.now in
        let asked = requests_for all.old (nested points.items) in AreHonestIn r asked
        → map (λ k. k.commitment) known.now ≡ map (λ q. r.commitment_of q.datum) asked
        → FitRequests r (map (λ k. k.domains.items) known.now) asked
        → IfOk result (λ o. r.Accepts None challenger.old (map claim o.0.items) o.1) }
    ensures state { let r =
        ⟦<PlainScheme<F> as Pcs<F::Extension, Sha256Challenger<F>>>⟧.rules scheme.now in
        let asked = requests_for all.old (nested points.items) in AreHonestIn r asked
        → map (λ k. k.commitment) known.now ≡ map (λ q. r.commitment_of q.datum) asked
        → FitRequests r (map (λ k. k.domains.items) known.now) asked
        → IfOk result (λ o. challenger.new
        ≡ r.last_state None challenger.old (map claim o.0.items) o.1) }
    // where it can't be opened, where the scheme refuses it
    ensures refused { let r =
        ⟦<PlainScheme<F> as Pcs<F::Extension, Sha256Challenger<F>>>⟧.rules scheme.now in
        let asked = requests_for all.old (nested points.items) in
        IfErr result (MatchRequestError (¬ CanBeOpened r asked)
        (λ e. r.Refuses None challenger.old asked e × e ≢ OutOfMemory)) }
    ensures kept { all.new ≡ all.old }
{
    let mut spares = spares::<F, Coset<F>>(alloc, all.len())?;
    let mut requests = requests_of(alloc, spares.as_mut_slice(), points)?;
    let lent = requests.as_mut_slice();
    swap_data(all, &mut *lent);
    let opened = open_lent::<F>(alloc, scheme, known, &mut *lent, challenger);
    swap_data(all, lent);
    opened
}

/// Opens all that is kept, as `Prover::open` says.
fn open_all<F: SchemeField>(
    alloc: Global,
    parameters: &Parameters,
    all: &mut [Committed<Data<F>, Coset<F>>],
    context: &str,
    asked: &[Batch],
) -> Result<Opening<Proof<F>>, RequestError<FriProverError>>
    ensures opened { (batches : List Batch)
        → HasCommitted ⟦<F as SchemeParts>⟧.fields F.LEN (λ d. d.shift)
        (λ d. d.log_size) parameters.now all.old batches
        → IfOk result (λ o. OpensAsked ⟦<F as SchemeParts>⟧.fields parameters.now
        (map (λ c. c.commitment) all.old) batches context.now asked.now o.claims.items
        (proof_of o.proof) o.next_challenge.items) }
    // where it can't be opened, where the scheme refuses it
    ensures refused { (batches : List Batch)
        → HasCommitted ⟦<F as SchemeParts>⟧.fields F.LEN (λ d. d.shift)
        (λ d. d.log_size) parameters.now all.old batches
        → IfErr result (MatchRequestError
        (¬ CanAsk ⟦<F as SchemeParts>⟧.fields batches context.now asked.now)
        (RefusesAsked ⟦<F as SchemeParts>⟧.fields F.LEN F.Extension.LEN parameters.now all.old
        context.now asked.now)) }
    ensures kept { all.new ≡ all.old }
{
    let fri = match prover_parameters::<F, F::Extension>(parameters) {
        Ok(fri) => fri,
        Err(misfit) => return Err(RequestError::Malformed(misfit)),
    };
    let scheme = PlainScheme::<F>::made(fri, 0, [0; 32]);
    let known = known_of(alloc, &*all)?;
    if !are_named::<F::Extension, Coset<F>, F, F>(&known, &*all, asked) {
        return Err(RequestError::Malformed(Place::NONE.lacks(Fault::Kept)));
    }
    if !have_matrix(asked) {
        return Err(RequestError::Malformed(Place::NONE.lacks(Fault::Matrices)));
    }
    let (points, mut challenger) = read_asked::<F, F::Extension>(
        alloc, parameters, &known, context, asked,
    )?;
    let (claims, proof) = open_kept::<F>(alloc, &scheme, &known, all, points, &mut challenger)?;
    let (records, next_challenge) = answered::<F>(alloc, &claims, &mut challenger)?;
    Ok(Opening {
        claims: records,
        proof,
        preprocessing: None,
        next_challenge,
    })
}

impl<F: SchemeField> Prover<F> {
    /// A prover of these parameters, that has committed to nothing.
    pub fn new(
        alloc: Global,
        parameters: &Parameters,
    ) -> Result<Prover<F>, RequestError<FriProverError>>
        ensures committed { IfOk result (λ prover. HasCommitted ⟦<F as SchemeParts>⟧.fields F.LEN
            (λ d. d.shift) (λ d. d.log_size) prover.parameters prover.committed.items []) }
        ensures parameters { IfOk result (λ prover. prover.parameters ≡ parameters.now) }
        ensures refused { IfErr result
            (MatchRequestError (¬ AreProvers F.TWO_ADICITY parameters.now) (λ _. ⊥)) }
    {
        match prover_parameters::<F, F::Extension>(parameters) {
            Ok(_) => Ok(Prover {
                parameters: *parameters,
                committed: Vec::new(alloc),
            }),
            Err(misfit) => Err(RequestError::Malformed(misfit)),
        }
    }

    /// The parameters.
    pub fn parameters(&self) -> Parameters
        ensures { result ≡ self.now.parameters }
    {
        self.parameters
    }

    /// Commits to what a batch lists, and keeps what opens it.
    fn keep(
        &mut self,
        alloc: Global,
        fri: FriParameters<Rounds<F::Extension>>,
        read: ListedBatch<F, Coset<F>>,
    ) -> Result<[u8; 32], RequestError<FriProverError>>
        requires parameters { parameters_of fri ≡ parameters_in self.old.parameters }
        requires fit { All (λ e. FitsRows F.TWO_ADICITY false self.old.parameters.log_blowup
            e.0.log_size e.1) read.evaluations.items }
        ensures committed { (batch : Batch) → Lists ⟦<F as SchemeParts>⟧.fields false
            (λ d. d.shift) (λ d. d.log_size) read batch
            → IfOk result (λ commitment. IsCommitmentTo ⟦<F as SchemeParts>⟧.fields
            self.old.parameters.log_blowup commitment batch) }
        ensures kept { (batches : List Batch) (batch : Batch)
            → HasCommitted ⟦<F as SchemeParts>⟧.fields F.LEN (λ d. d.shift) (λ d. d.log_size)
            self.old.parameters self.old.committed.items batches
            → Lists ⟦<F as SchemeParts>⟧.fields false (λ d. d.shift) (λ d. d.log_size) read batch
            → IfOk result (λ _. HasCommitted ⟦<F as SchemeParts>⟧.fields F.LEN (λ d. d.shift)
            (λ d. d.log_size) self.new.parameters self.new.committed.items
            (batches ++ batch ∷ [])) }
        ensures commitments { IfOk result (λ commitment.
            map (λ c. c.commitment) self.new.committed.items
            ≡ map (λ c. c.commitment) self.old.committed.items ++ commitment ∷ []) }
        ensures parameters { self.new.parameters ≡ self.old.parameters }
        ensures unchanged { IfErr result (λ _.
            self.new.committed.items ≡ self.old.committed.items) }
        // the scheme itself refuses for want of memory alone
        ensures refused { IfErr result (MatchRequestError ⊥ (λ _. ⊥)) }
    {
        let mut scheme = PlainScheme::<F>::made(fri, 0, [0; 32]);
        let committed = commit_one::<F, PlainScheme<F>>(alloc, &mut scheme, read)?;
        let commitment = committed.commitment;
        self.committed.push(committed)?;
        Ok(commitment)
    }

    /// Commits to a batch and keeps what opens it; answers the commitment, 32 bytes. The batch's
    /// points aren't read. What is refused isn't kept.
    pub fn commit(
        &mut self,
        alloc: Global,
        batch: &Batch,
    ) -> Result<[u8; 32], RequestError<FriProverError>>
        ensures committed { IfOk result (λ commitment.
            IsCommitmentTo ⟦<F as SchemeParts>⟧.fields self.old.parameters.log_blowup commitment
            batch.now) }
        ensures kept { (batches : List Batch) → HasCommitted ⟦<F as SchemeParts>⟧.fields
            F.LEN (λ d. d.shift) (λ d. d.log_size) self.old.parameters self.old.committed.items
            batches
            → IfOk result (λ _. HasCommitted ⟦<F as SchemeParts>⟧.fields F.LEN (λ d. d.shift)
            (λ d. d.log_size) self.new.parameters self.new.committed.items
            (batches ++ batch.now ∷ [])) }
        ensures commitments { IfOk result (λ commitment.
            map (λ c. c.commitment) self.new.committed.items
            ≡ map (λ c. c.commitment) self.old.committed.items ++ commitment ∷ []) }
        ensures parameters { self.new.parameters ≡ self.old.parameters }
        ensures unchanged { IfErr result (λ _.
            self.new.committed.items ≡ self.old.committed.items) }
        ensures refused { IfErr result (MatchRequestError
            (¬ CommitsBatch ⟦<F as SchemeParts>⟧.fields self.old.parameters batch.now) (λ _. ⊥)) }
    {
        let fri = match prover_parameters::<F, F::Extension>(&self.parameters) {
            Ok(fri) => fri,
            Err(misfit) => return Err(RequestError::Malformed(misfit)),
        };
        let log_blowup = self.parameters.log_blowup;
        let evaluations = batch_evaluations::<F>(alloc, batch, log_blowup, false, Place::NONE)?;
        let read = ListedBatch {
            evaluations,
            preprocessed: batch.preprocessed,
        };
        self.keep(alloc, fri, read)
    }

    /// The same for matrices of elements, as the batch that lists their numbers.
    pub fn commit_elements(
        &mut self,
        alloc: Global,
        matrices: Vec<ElementMatrix<F>>,
    ) -> Result<[u8; 32], RequestError<FriProverError>>
        ensures committed { IfOk result (λ commitment.
            IsCommitmentTo ⟦<F as SchemeParts>⟧.fields self.old.parameters.log_blowup commitment
            (batch_of F.canonical matrices)) }
        ensures kept { (batches : List Batch) → HasCommitted ⟦<F as SchemeParts>⟧.fields
            F.LEN (λ d. d.shift) (λ d. d.log_size) self.old.parameters self.old.committed.items
            batches
            → IfOk result (λ _. HasCommitted ⟦<F as SchemeParts>⟧.fields F.LEN (λ d. d.shift)
            (λ d. d.log_size) self.new.parameters self.new.committed.items
            (batches ++ batch_of F.canonical matrices ∷ [])) }
        ensures commitments { IfOk result (λ commitment.
            map (λ c. c.commitment) self.new.committed.items
            ≡ map (λ c. c.commitment) self.old.committed.items ++ commitment ∷ []) }
        ensures parameters { self.new.parameters ≡ self.old.parameters }
        ensures unchanged { IfErr result (λ _.
            self.new.committed.items ≡ self.old.committed.items) }
        ensures refused { IfErr result (MatchRequestError (¬ CommitsBatch
            ⟦<F as SchemeParts>⟧.fields self.old.parameters (batch_of F.canonical matrices))
            (λ _. ⊥)) }
    {
        let fri = match prover_parameters::<F, F::Extension>(&self.parameters) {
            Ok(fri) => fri,
            Err(misfit) => return Err(RequestError::Malformed(misfit)),
        };
        let evaluations = evaluations_of_all(alloc, matrices, self.parameters.log_blowup)?;
        let read = ListedBatch {
            evaluations,
            preprocessed: false,
        };
        self.keep(alloc, fri, read)
    }

    /// Opens all that was committed to, each matrix at the points of the record in its place. A
    /// record names the matrix's domain, width and points; its values aren't read, so that none
    /// have to be there. What comes of it is what `plain::open` answers of the same matrices with
    /// these points: the challenger begins with the whole statement of the context, the parameters,
    /// the commitments, the domains, the widths and the points.
    ///
    /// What is kept stays as it was, so that it may be opened again.
    pub fn open(
        &mut self,
        alloc: Global,
        context: &str,
        asked: &[Batch],
    ) -> Result<Opening<Proof<F>>, RequestError<FriProverError>>
        ensures accepted { (batches : List Batch) → HasCommitted ⟦<F as SchemeParts>⟧.fields
            F.LEN (λ d. d.shift) (λ d. d.log_size) self.old.parameters self.old.committed.items
            batches
            → IfOk result (λ o. IsAccepted ⟦<F as SchemeParts>⟧.fields context.now
            self.old.parameters o.claims.items (proof_of o.proof) o.next_challenge.items) }
        ensures opened { (batches : List Batch) → HasCommitted ⟦<F as SchemeParts>⟧.fields
            F.LEN (λ d. d.shift) (λ d. d.log_size) self.old.parameters self.old.committed.items
            batches
            → IfOk result (λ o. AllZip (IsOpened ⟦<F as SchemeParts>⟧.fields
            self.old.parameters.log_blowup)
            (map batch_listed o.claims.items) (batches_at batches asked.now)) }
        ensures well_formed { (batches : List Batch) → HasCommitted ⟦<F as SchemeParts>⟧.fields
            F.LEN (λ d. d.shift) (λ d. d.log_size) self.old.parameters self.old.committed.items
            batches
            → IfOk result (λ _.
            CanAsk ⟦<F as SchemeParts>⟧.fields batches context.now asked.now) }
        ensures commitments { (batches : List Batch) → HasCommitted ⟦<F as SchemeParts>⟧.fields
            F.LEN (λ d. d.shift) (λ d. d.log_size) self.old.parameters self.old.committed.items
            batches
            → IfOk result (λ o. map (λ b. b.commitment) (map batch_listed o.claims.items)
            ≡ map (λ k. Ok k) (map (λ c. c.commitment) self.old.committed.items)) }
        ensures kept { self.new.committed.items ≡ self.old.committed.items }
        ensures parameters { self.new.parameters ≡ self.old.parameters }
        // where it can't be opened, where the scheme refuses it
        ensures refused { (batches : List Batch) → HasCommitted ⟦<F as SchemeParts>⟧.fields
            F.LEN (λ d. d.shift) (λ d. d.log_size) self.old.parameters self.old.committed.items
            batches
            → IfErr result (MatchRequestError
            (¬ CanAsk ⟦<F as SchemeParts>⟧.fields batches context.now asked.now)
            (RefusesAsked ⟦<F as SchemeParts>⟧.fields F.LEN F.Extension.LEN self.old.parameters
            self.old.committed.items context.now asked.now)) }
    {
        let parameters = self.parameters;
        open_all(
            alloc,
            &parameters,
            self.committed.as_mut_slice(),
            context,
            asked,
        )
    }
}
