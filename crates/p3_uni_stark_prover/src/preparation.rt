//! What a prover knows before it commits to anything.

ghost use Rattle.std.specs.Prelude.{◌≡◌, ◌≤◌, ◌+◌, ◌^◌, ℕ, length, IfOk, IfErr};
ghost use Rattle.p3_uni_stark_verifier.specs.Chunks.{hiding_bits, NeedsChunks};
ghost use Rattle.p3_uni_stark_prover.specs.Prepared.{IsPrepared};
ghost use Rattle.p3_uni_stark_prover.specs.Provable.{IsProvable};
ghost use Rattle.p3_uni_stark_prover.specs.Refused.{PreparationRefusal};

use crate::steps::{log_chunks_of, quotient_coset};
use p3_field_core::{
    ExtensionField, Field, PrimeField64, TwoAdicField, TwoAdicMultiplicativeCoset,
};
use p3_matrix::RowMajorMatrix;
use p3_uni_stark_pcs::TwoAdicStarkPcs;
use p3_uni_stark_phases::{ProvingError, periodic_on_coset};
use p3_uni_stark_verifier::Statement;
use p3_uni_stark_verifier::chunks::with_hiding;
use p3_uni_stark_verifier::opened::subgroup;
use p3_uni_stark_verifier::setting::StarkField;
use std::alloc::Global;

/// What is known of a trace's quotient before anything is committed to.
#[derive(Drop)]
pub struct Preparation<Val, Domain> {
    /// The base-2 logarithm of the number of the trace's rows.
    pub log_height: usize,
    /// That of the number of the quotient's chunks.
    pub log_num_chunks: usize,
    /// Where the quotient's values are computed.
    pub coset: Domain,
    /// The periodic columns there, if there are any.
    pub periodic: Option<RowMajorMatrix<Val>>,
}

/// How many chunks the quotient of the statement's constraints has, the coset on which its values
/// are computed, and the periodic columns there.
///
/// # Errors
///
/// `DegreeTooLarge`, `InvalidGenerator` and `InvalidPeriodicColumns`, each where it is so.
pub fn prepare<
    F: TwoAdicField + PrimeField64,
    EF: ExtensionField<F>,
    Com: Copy,
    C,
    P: TwoAdicStarkPcs<EF, C, TwoAdicMultiplicativeCoset<F>, Commitment = Com>,
>(
    scheme: &P,
    alloc: Global,
    statement: &Statement<'_, F, Com>,
    log_height: usize,
) -> Result<Preparation<F, TwoAdicMultiplicativeCoset<F>>, ProvingError<P::ProverError>>
    requires statement { IsProvable statement.now }
    requires room { (log : ℕ) → NeedsChunks P.ZK statement.now.air.now log
        → log_height + (log + hiding_bits P.ZK) ≤ F.TWO_ADICITY }
    ensures height { IfOk result (λ prepared. prepared.log_height ≡ log_height) }
    ensures prepared { IfOk result (λ prepared. (log : ℕ)
        × IsPrepared ⟦<EF as StarkField<F>>⟧.fields (λ d. d.shift) (λ d. d.log_size) P.ZK
        statement.now log prepared) }
    ensures refused { IfErr result
        (PreparationRefusal ⟦<EF as StarkField<F>>⟧.fields statement.now log_height) }
{
    let log_chunks = log_chunks_of::<F, P::ProverError>(alloc, statement.air, P::ZK)?;
    let log_num_chunks = with_hiding(log_chunks, P::ZK);
    let coset = quotient_coset::<F, P::ProverError>(log_height + log_num_chunks)?;
    let rows = subgroup::<F>(log_height);
    let periodic = periodic_on_coset(scheme, alloc, statement.periodic, rows, coset)?;
    Ok(Preparation {
        log_height,
        log_num_chunks,
        coset,
        periodic,
    })
}
