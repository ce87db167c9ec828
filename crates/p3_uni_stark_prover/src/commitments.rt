//! The commitments that a prover makes before the point is drawn.

ghost use Rattle.std.specs.Prelude.{◌≡◌, ◌≢◌, ◌≤◌, ◌+◌, ◌^◌, ℕ, [], ◌∷◌, length, IfOk, IfErr};
ghost use Rattle.algebra.specs.Field.{pow};
ghost use Rattle.p3_matrix.specs.Matrix.{rows, matrix_width};
ghost use Rattle.p3_periodic.specs.Views.{rows_if_any as owned_rows};
ghost use Rattle.p3_pcs.specs.Scheme.{AreKept};
ghost use Rattle.p3_stark_pcs.specs.Scheme.{AreKeptStark};
ghost use Rattle.p3_uni_stark_pcs.specs.Rooms.{AreChunksOf};
ghost use Rattle.p3_uni_stark_phases.specs.Refusals.{EvaluationRefusal};
ghost use Rattle.p3_uni_stark_verifier.specs.Chunks.{hiding_bits};
ghost use Rattle.p3_uni_stark_prover.specs.Committed.{AreCommitted};
ghost use Rattle.p3_uni_stark_prover.specs.Held.{HoldPreprocessed};
ghost use Rattle.p3_uni_stark_prover.specs.Prepared.{IsPrepared};
ghost use Rattle.p3_uni_stark_prover.specs.Provable.{IsProvable};
ghost use Rattle.p3_uni_stark_prover.specs.Quotients.{FitReadings, IsQuotientOn};
ghost use Rattle.p3_uni_stark_prover.specs.Refused.{CommitRefusal};

use crate::preparation::Preparation;
use crate::steps::{begin, split};
use p3_challenger_core::{CanObserve, FieldChallenger, Plays};
use p3_field_core::{
    ExtensionField, Field, PackableField, PrimeField64, TwoAdicField, TwoAdicMultiplicativeCoset,
};
use p3_matrix::RowMajorMatrix;
use p3_stark_pcs::UnivariateStarkPcs;
use p3_uni_stark_opening::ColumnData;
use p3_uni_stark_pcs::TwoAdicStarkPcs;
use p3_uni_stark_phases::{
    ProvingError, chunks_on_coset, commit_chunks, commit_random, commit_trace, evaluate,
    evaluate_if,
};
use p3_uni_stark_quotient::CosetColumns;
use p3_uni_stark_verifier::chunks::with_hiding;
use p3_uni_stark_verifier::opened::subgroup;
use p3_uni_stark_verifier::setting::StarkField;
use p3_uni_stark_verifier::{Commitments, Statement};
use std::alloc::Global;

/// The domain on which the columns of a trace are committed to. The scheme has room for them there,
/// and for random polynomials, also once it has committed twice.
fn column_domain<
    F: TwoAdicField + PrimeField64,
    EF: ExtensionField<F>,
    Com: Copy,
    C,
    P: TwoAdicStarkPcs<EF, C, TwoAdicMultiplicativeCoset<F>, Commitment = Com>,
>(scheme: &P, log_height: usize, trace: &RowMajorMatrix<F>) -> TwoAdicMultiplicativeCoset<F>
    requires height { length (rows trace.now) ≡ 2 ^ log_height }
    requires room { log_height + hiding_bits P.ZK + P.log_blowup scheme.now ≤ F.TWO_ADICITY }
    ensures shift { result.shift ≡ F.ops.one }
    ensures size { result.log_size ≡ log_height + hiding_bits P.ZK }
    ensures committable { (P.rules scheme.now).CanCommit ((result, trace.now) ∷ []) }
    ensures randomizable { (first second : P) → P.Keeps first second → P.Keeps scheme.now first
        → (P.stark_rules second).CanRandomize (result ∷ []) }
{
    let log_size = with_hiding(log_height, P::ZK);
    subgroup::<F>(log_size)
}

/// The chunks of the quotient, by the committed columns' values on the coset.
fn quotient_of<
    F: TwoAdicField + PackableField + PrimeField64,
    EF: ExtensionField<F>,
    Com: Copy,
    C,
    P: UnivariateStarkPcs<EF, C, Val = F, Domain = TwoAdicMultiplicativeCoset<F>, Commitment = Com>,
>(
    scheme: &P,
    alloc: Global,
    statement: &Statement<'_, F, Com>,
    prepared: &Preparation<F, TwoAdicMultiplicativeCoset<F>>,
    trace: &P::ProverData,
    preprocessed: &Option<P::ProverData>,
    alpha: EF,
) -> Result<Vec<(TwoAdicMultiplicativeCoset<F>, RowMajorMatrix<F>)>, ProvingError<P::ProverError>>
    requires readings { FitReadings (P.rules scheme.now) (P.stark_rules scheme.now)
        prepared.now.coset (2 ^ prepared.now.coset.log_size) statement.now
        (owned_rows prepared.now.periodic) trace.now preprocessed.now }
    requires size { prepared.now.coset.log_size
        ≡ prepared.now.log_height + prepared.now.log_num_chunks }
    requires shift { prepared.now.coset.shift ≡ F.GENERATOR }
    requires off { pow F.ops F.GENERATOR (2 ^ F.TWO_ADICITY) ≢ F.ops.one }
    requires room { (chunks : _) → AreChunksOf ⟦<EF as StarkField<F>>⟧.fields (λ d. d.shift)
        (λ d. d.log_size) prepared.now.log_height prepared.now.log_num_chunks chunks
        → (P.stark_rules scheme.now).CanExtend chunks (length chunks) }
    ensures quotient { IfOk result (λ chunks. IsQuotientOn ⟦<EF as StarkField<F>>⟧.fields
        EF.coefficients (λ d. d.shift) (λ d. d.log_size) (P.rules scheme.now) P.embed P.point
        prepared.now.coset statement.now (owned_rows prepared.now.periodic) trace.now
        preprocessed.now prepared.now.log_height prepared.now.log_num_chunks alpha
        chunks.items) }
    ensures extendable { IfOk result (λ chunks.
        (P.stark_rules scheme.now).CanExtend chunks.items (length chunks.items)) }
    ensures refused { IfErr result (EvaluationRefusal P.EvaluationRefuses) }
{
    let trace_rows = evaluate(scheme, alloc, trace, prepared.coset)?;
    let preprocessed_rows = evaluate_if(scheme, alloc, preprocessed, prepared.coset)?;
    let columns = CosetColumns {
        trace: &trace_rows,
        preprocessed: preprocessed_rows.as_ref(),
        periodic: prepared.periodic.as_ref(),
        public_values: statement.public_values,
    };
    let chunks = chunks_on_coset::<F, EF>(
        alloc,
        statement.air,
        &columns,
        prepared.log_height,
        prepared.log_num_chunks,
        prepared.coset,
        alpha,
    )?;
    Ok(chunks)
}

/// Commits to the trace, draws the first challenge, and commits to the chunks of the quotient and,
/// where the scheme hides, to random polynomials.
///
/// # Errors
///
/// `Trace`, `Evaluation`, `Quotient` and `Randomization`, where the scheme refuses.
pub fn commit_columns<
    F: TwoAdicField + PackableField + PrimeField64,
    EF: ExtensionField<F>,
    Com: Copy,
    C: FieldChallenger<F> + CanObserve<Com>,
    P: TwoAdicStarkPcs<EF, C, TwoAdicMultiplicativeCoset<F>, Commitment = Com>,
>(
    scheme: &mut P,
    alloc: Global,
    statement: &Statement<'_, F, Com>,
    prepared: &Preparation<F, TwoAdicMultiplicativeCoset<F>>,
    trace: RowMajorMatrix<F>,
    preprocessed: Option<P::ProverData>,
    challenger: &mut C,
) -> Result<(Commitments<Com>, ColumnData<P::ProverData>), ProvingError<P::ProverError>>
    requires statement { IsProvable statement.now }
    requires prepared { (log : ℕ) × IsPrepared ⟦<EF as StarkField<F>>⟧.fields (λ d. d.shift)
        (λ d. d.log_size) P.ZK statement.now log prepared.now }
    requires height { length (rows trace) ≡ 2 ^ prepared.now.log_height }
    requires width { matrix_width trace ≡ statement.now.air.now.layout.width }
    requires room { prepared.now.log_height + hiding_bits P.ZK + P.log_blowup scheme.old
        ≤ F.TWO_ADICITY }
    requires preprocessed { HoldPreprocessed (P.rules scheme.old) (P.stark_rules scheme.old)
        (λ d. (d.shift ≡ F.ONE) × (d.log_size ≡ prepared.now.log_height + hiding_bits P.ZK))
        prepared.now.log_height statement.now.air.now.layout.preprocessed_width
        statement.now.preprocessed preprocessed }
    ensures kept { AreKept (P.rules scheme.old) (P.rules scheme.new) }
    ensures kept_for_stark { AreKeptStark (P.stark_rules scheme.old) (P.stark_rules scheme.new) }
    ensures committed { IfOk result (λ pair. AreCommitted ⟦<EF as StarkField<F>>⟧.fields
        EF.coefficients ⟦<C as Plays<F, EF, Com>>⟧.moves (λ d. d.shift) (λ d. d.log_size) P.ZK
        (P.rules scheme.new) (P.stark_rules scheme.new) P.embed P.point P.recombined
        P.chunk_polynomials statement.now prepared.now trace preprocessed challenger.old
        challenger.new pair.0 pair.1) }
    ensures refused { IfErr result (CommitRefusal ⟦<EF as StarkField<F>>⟧.fields (λ d. d.shift)
        (λ d. d.log_size) P.ZK (P.rules scheme.old) (P.stark_rules scheme.old)
        P.EvaluationRefuses prepared.now.log_height trace) }
{
    let hides = P::ZK;
    let log_height = prepared.log_height;
    let domain = column_domain(&*scheme, log_height, &trace);
    let first = commit_trace(scheme, alloc, domain, trace)?;
    let hash = first.commitment;
    let alpha = begin::<F, EF, Com, C>(alloc, statement, log_height, hides, hash, challenger)?;
    let chunks = quotient_of(
        &*scheme,
        alloc,
        statement,
        prepared,
        &first.prover_data,
        &preprocessed,
        alpha,
    )?;
    let second = commit_chunks(scheme, alloc, chunks)?;
    let found = commit_random(scheme, alloc, domain)?;
    let (random, random_data) = split(found);
    let commitments = Commitments {
        trace: hash,
        quotient_chunks: second.commitment,
        random,
    };
    let committed = ColumnData {
        preprocessed,
        trace: first.prover_data,
        quotient: second.prover_data,
        random: random_data,
    };
    Ok((commitments, committed))
}
