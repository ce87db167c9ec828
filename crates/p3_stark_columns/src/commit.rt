//! Commitments to the columns of a STARK, and to random polynomials where the scheme hides.

ghost use Rattle.std.specs.Prelude.{◌≡◌, ◌*◌, map, length, if◌then◌else◌, true, Ok, Err};
ghost use Rattle.std.specs.Prelude.{IfOk, IfErr, IfSome, option_map};
ghost use Rattle.p3_pcs.specs.Scheme.{AreKept};
ghost use Rattle.p3_stark_pcs.specs.Scheme.{AreKeptStark};
ghost use Rattle.p3_stark_columns.specs.Stark.{IsBatch, IsRandom, AreCommitted, CommitsRefuse};
ghost use Rattle.p3_stark_columns.specs.Stark.{IsCommitRefusal};

use crate::error::StarkError;
use p3_matrix::RowMajorMatrix;
use p3_pcs::KnownCommitment;
use p3_stark_pcs::UnivariateStarkPcs;
use std::alloc::{AllocError, Global};

/// The columns of a STARK, each matrix on its domain, and domains for the claims on the quotient.
#[derive(Drop)]
pub struct StarkColumns<Domain, Val> {
    pub preprocessed: Vec<(Domain, RowMajorMatrix<Val>)>,
    pub trace: Vec<(Domain, RowMajorMatrix<Val>)>,
    /// The chunks of the quotient.
    pub quotient: Vec<(Domain, RowMajorMatrix<Val>)>,
    /// For each chunk a domain of the size of the polynomials that are committed to for it: the
    /// chunk's, and twice that where the scheme hides.
    pub quotient_domains: Vec<Domain>,
}

/// A commitment with its data.
#[derive(Drop)]
pub(crate) struct Batch<Com, Domain, D> {
    pub known: KnownCommitment<Com, Domain>,
    pub prover_data: D,
}

/// The batches of a STARK.
#[derive(Drop)]
pub(crate) struct Batches<Com, Domain, D> {
    pub preprocessed: Batch<Com, Domain, D>,
    pub trace: Batch<Com, Domain, D>,
    pub quotient: Batch<Com, Domain, D>,
    /// Random polynomials, where the scheme hides.
    pub random: Option<Batch<Com, Domain, D>>,
}

/// The domains of matrices.
fn domains_of<Domain: Copy, Val>(
    alloc: Global,
    evaluations: &[(Domain, RowMajorMatrix<Val>)],
) -> Result<Vec<Domain>, AllocError>
    ensures { IfOk result (λ domains. domains.items ≡ map (λ e. e.0) evaluations.now) }
{
    let mut domains = Vec::with_capacity(alloc, evaluations.len())?;
    for evaluation in evaluations {
        domains.push(evaluation.0)?;
    }
    Ok(domains)
}

/// The batch of a commitment on these domains, or its refusal.
fn batch_of<Com, Domain: Drop, D, ProverError, Error>(
    committed: Result<(Com, D), ProverError>,
    domains: Vec<Domain>,
) -> Result<Batch<Com, Domain, D>, StarkError<ProverError, Error>>
    ensures committed { IfOk result (λ b. committed ≡ Ok (b.known.commitment, b.prover_data)) }
    ensures domains { IfOk result (λ b. b.known.domains.items ≡ domains.items) }
    ensures refused { IfErr result (IsCommitRefusal (λ e. committed ≡ Err e)) }
{
    match committed {
        Ok((commitment, prover_data)) => Ok(Batch {
            known: KnownCommitment {
                commitment,
                domains,
            },
            prover_data,
        }),
        Err(error) => Err(StarkError::Commit(error)),
    }
}

/// Commits to random polynomials on these domains, where the scheme hides.
fn commit_random<EF: Copy, C, P: UnivariateStarkPcs<EF, C>>(
    scheme: &mut P,
    alloc: Global,
    domains: &[P::Domain],
) -> Result<
    Option<Batch<P::Commitment, P::Domain, P::ProverData>>,
    StarkError<P::ProverError, P::Error>,
>
    requires { P.ZK ≡ true → (P.stark_rules scheme.old).CanRandomize domains.now }
    ensures kept { AreKept (P.rules scheme.old) (P.rules scheme.new) }
    ensures kept_stark { AreKeptStark (P.stark_rules scheme.old) (P.stark_rules scheme.new) }
    ensures batch { IfOk result (λ random. IfSome random (λ b.
        IsBatch (P.rules scheme.new) b.known b.prover_data)) }
    ensures openable { IfOk result (λ random. IfSome random (λ b.
        (P.rules scheme.new).CanOpen b.prover_data)) }
    ensures polynomials { IfOk result (λ random.
        IsRandom (P.rules scheme.new) (P.stark_rules scheme.new) P.ZK domains.now
        (option_map (λ b. b.prover_data) random)) }
    ensures refused { IfErr result (IsCommitRefusal (λ e. (P.ZK ≡ true)
        × (P.stark_rules scheme.old).RandomizationRefuses domains.now e)) }
{
    if !P::ZK {
        return Ok(None);
    }
    let known_domains = Vec::from_slice(alloc, domains)?;
    let random_domains = Vec::from_slice(alloc, domains)?;
    match scheme.get_opt_randomization_poly_commitment(alloc, random_domains) {
        Ok(Some((commitment, prover_data))) => Ok(Some(Batch {
            known: KnownCommitment {
                commitment,
                domains: known_domains,
            },
            prover_data,
        })),
        Ok(None) => Ok(None),
        Err(error) => Err(StarkError::Commit(error)),
    }
}

/// Commits to the columns of a STARK, one batch after another, and then to random polynomials on
/// the trace's domains, where the scheme hides.
pub(crate) fn commit_columns<EF: Copy, C, P: UnivariateStarkPcs<EF, C>>(
    scheme: &mut P,
    alloc: Global,
    columns: StarkColumns<P::Domain, P::Val>,
) -> Result<Batches<P::Commitment, P::Domain, P::ProverData>, StarkError<P::ProverError, P::Error>>
    requires preprocessed { (P.rules scheme.old).CanCommit columns.preprocessed.items }
    requires trace { (P.rules scheme.old).CanCommit columns.trace.items }
    requires quotient { (P.stark_rules scheme.old).CanExtend columns.quotient.items
        (length columns.quotient.items) }
    requires quotient_domains { map (P.rules scheme.old).domain_size columns.quotient_domains.items
        ≡ map (λ e. (if P.ZK then 2 else 1) *
        (P.rules scheme.old).domain_size e.0) columns.quotient.items }
    requires random { P.ZK ≡ true
        → (P.stark_rules scheme.old).CanRandomize (map (λ e. e.0) columns.trace.items) }
    ensures kept { AreKept (P.rules scheme.old) (P.rules scheme.new) }
    ensures committed { IfOk result (AreCommitted (P.rules scheme.new) (P.stark_rules scheme.new)
        P.ZK columns.preprocessed.items columns.trace.items) }
    ensures recombined { let domains = map (λ e. e.0) columns.quotient.items in
        IfOk result (λ b. (z : EF) → P.recombined domains (map (λ m. m.values_at z)
        ((P.rules scheme.new).committed_polynomials b.quotient.prover_data)) z
        ≡ P.recombined domains
        (map (λ e. (P.chunk_polynomials e).values_at z) columns.quotient.items) z) }
    ensures refused { IfErr result (IsCommitRefusal (CommitsRefuse (P.rules scheme.old)
        (P.stark_rules scheme.old) P.ZK columns.preprocessed.items columns.trace.items
        columns.quotient.items)) }
{
    let StarkColumns {
        preprocessed,
        trace,
        quotient,
        quotient_domains,
    } = columns;
    let preprocessed_domains = domains_of(alloc, &preprocessed)?;
    let trace_domains = domains_of(alloc, &trace)?;
    let first = batch_of(
        scheme.commit_preprocessing(alloc, preprocessed),
        preprocessed_domains,
    )?;
    let second = batch_of(scheme.commit(alloc, trace), trace_domains)?;
    let count = quotient.len();
    let ldes = match scheme.get_quotient_ldes(alloc, quotient, count) {
        Ok(ldes) => ldes,
        Err(error) => return Err(StarkError::Commit(error)),
    };
    let third = batch_of(scheme.commit_ldes(alloc, ldes), quotient_domains)?;
    let random = commit_random(scheme, alloc, second.known.domains.as_slice())?;
    Ok(Batches {
        preprocessed: first,
        trace: second,
        quotient: third,
        random,
    })
}
