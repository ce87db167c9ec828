//! Commitments to the trace, to the quotient's chunks and to random polynomials.

ghost use Rattle.std.specs.Prelude.{◌≡◌, ◌⊎◌, [], ◌∷◌, List, length, IfOk, IfErr};
ghost use Rattle.p3_matrix.specs.declared.dense.RowMajorMatrix.{RowMajorMatrix};
ghost use Rattle.p3_uni_stark_phases.specs.Commits.{HoldsTrace, HoldsChunks, IsRandom};
ghost use Rattle.p3_uni_stark_phases.specs.Refusals.{TraceRefusal, QuotientRefusal};
ghost use Rattle.p3_uni_stark_phases.specs.Refusals.{RandomizationRefusal};

use crate::error::ProvingError;
use p3_matrix::RowMajorMatrix;
use p3_stark_pcs::UnivariateStarkPcs;
use std::alloc::{AllocError, Global};

/// A commitment with its data.
#[derive(Drop)]
pub struct Committed<Com, D> {
    pub commitment: Com,
    pub prover_data: D,
}

/// A list of one.
fn one<T: Drop>(alloc: Global, value: T) -> Result<Vec<T>, AllocError>
    ensures { IfOk result (λ all. all.items ≡ value ∷ []) }
{
    let mut all = Vec::with_capacity(alloc, 1)?;
    all.push(value)?;
    Ok(all)
}

/// Commits to a trace on its domain.
pub fn commit_trace<EF: Copy, C, P: UnivariateStarkPcs<EF, C>>(
    scheme: &mut P,
    alloc: Global,
    domain: P::Domain,
    trace: RowMajorMatrix<P::Val>,
) -> Result<Committed<P::Commitment, P::ProverData>, ProvingError<P::ProverError>>
    requires room { (P.rules scheme.old).CanCommit ((domain, trace) ∷ []) }
    ensures kept { P.Keeps scheme.old scheme.new }
    ensures trace { IfOk result (λ b.
        HoldsTrace (P.rules scheme.new) domain trace b.commitment b.prover_data) }
    ensures refused { IfErr result
        (TraceRefusal ((P.rules scheme.old).CommitRefuses ((domain, trace) ∷ []))) }
{
    let evaluations = one(alloc, (domain, trace))?;
    match scheme.commit(alloc, evaluations) {
        Ok((commitment, prover_data)) => Ok(Committed {
            commitment,
            prover_data,
        }),
        Err(error) => Err(ProvingError::Trace(error)),
    }
}

/// Commits to the chunks of a quotient, by the words that the scheme extends them to.
pub fn commit_chunks<EF: Copy, C, P: UnivariateStarkPcs<EF, C>>(
    scheme: &mut P,
    alloc: Global,
    chunks: Vec<(P::Domain, RowMajorMatrix<P::Val>)>,
) -> Result<Committed<P::Commitment, P::ProverData>, ProvingError<P::ProverError>>
    requires room { (P.stark_rules scheme.old).CanExtend chunks.items (length chunks.items) }
    ensures kept { P.Keeps scheme.old scheme.new }
    ensures chunks { IfOk result (λ b. HoldsChunks (P.rules scheme.new) (P.stark_rules scheme.new)
        P.ZK P.recombined P.chunk_polynomials chunks.items b.commitment b.prover_data) }
    ensures refused { let t = P.stark_rules scheme.old in IfErr result (QuotientRefusal
        (λ e. t.QuotientsRefuse chunks.items e
        ⊎ ((ldes : List (RowMajorMatrix P.Val)) × t.LdesRefuse ldes e))) }
{
    let count = chunks.len();
    let ldes = match scheme.get_quotient_ldes(alloc, chunks, count) {
        Ok(ldes) => ldes,
        Err(error) => return Err(ProvingError::Quotient(error)),
    };
    match scheme.commit_ldes(alloc, ldes) {
        Ok((commitment, prover_data)) => Ok(Committed {
            commitment,
            prover_data,
        }),
        Err(error) => Err(ProvingError::Quotient(error)),
    }
}

/// Commits to random polynomials on the domain, where the scheme hides.
pub fn commit_random<EF: Copy, C, P: UnivariateStarkPcs<EF, C>>(
    scheme: &mut P,
    alloc: Global,
    domain: P::Domain,
) -> Result<Option<Committed<P::Commitment, P::ProverData>>, ProvingError<P::ProverError>>
    requires room { (P.stark_rules scheme.old).CanRandomize (domain ∷ []) }
    ensures kept { P.Keeps scheme.old scheme.new }
    ensures random { IfOk result
        (IsRandom (P.rules scheme.new) (P.stark_rules scheme.new) P.ZK domain) }
    ensures refused { IfErr result (RandomizationRefusal
        ((P.stark_rules scheme.old).RandomizationRefuses (domain ∷ []))) }
{
    let domains = one(alloc, domain)?;
    match scheme.get_opt_randomization_poly_commitment(alloc, domains) {
        Ok(Some((commitment, prover_data))) => Ok(Some(Committed {
            commitment,
            prover_data,
        })),
        Ok(None) => Ok(None),
        Err(error) => Err(ProvingError::Randomization(error)),
    }
}
