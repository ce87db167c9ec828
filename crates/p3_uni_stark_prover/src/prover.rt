//! The prover.

ghost use Rattle.std.specs.Prelude.{◌≡◌, ◌⊎◌, ◌+◌, ◌^◌, ℕ, List, length, IfOk, IfErr};
ghost use Rattle.p3_matrix.specs.Matrix.{rows, matrix_width};
ghost use Rattle.p3_air.specs.Satisfied.{IsSatisfied};
ghost use Rattle.p3_pcs.specs.Scheme.{AreKept};
ghost use Rattle.p3_stark_pcs.specs.Scheme.{AreKeptStark};
ghost use Rattle.p3_uni_stark_verifier.specs.Chunks.{hiding_bits};
ghost use Rattle.p3_uni_stark_verifier.specs.Relation.{drawn, StarkAccepts, IsLastState};
ghost use Rattle.p3_uni_stark_verifier.specs.Setting.{stark_setting};
ghost use Rattle.p3_uni_stark_prover.specs.Held.{assigned_to, HavePreprocessedRows};
ghost use Rattle.p3_uni_stark_prover.specs.Held.{HoldPreprocessed};
ghost use Rattle.p3_uni_stark_prover.specs.Provable.{IsProvable, FitsField};
ghost use Rattle.p3_uni_stark_prover.specs.Refused.{PreparationRefusal, CommitRefusal};
ghost use Rattle.p3_uni_stark_prover.specs.Refused.{IsRefusedAfter};

use crate::commitments::commit_columns;
use crate::preparation::prepare;
use crate::steps::finish;
use p3_challenger_core::{CanObserve, FieldChallenger, Plays};
use p3_field_core::{
    ExtensionField, Field, PackableField, PrimeField64, TwoAdicField, TwoAdicMultiplicativeCoset,
    log2_strict_usize,
};
use p3_matrix::RowMajorMatrix;
use p3_uni_stark_pcs::TwoAdicStarkPcs;
use p3_uni_stark_phases::ProvingError;
use p3_uni_stark_verifier::setting::StarkField;
use p3_uni_stark_verifier::{Proof, Statement};
use std::alloc::Global;

/// A proof that the trace satisfies the statement's constraint system, with the data of the
/// preprocessed columns, which `commit_preprocessing` of the scheme gives. The trace has a power of
/// two of rows, for which there has to be room in the field: `has_room` is the test.
///
/// Where the trace satisfies the constraints the verifier accepts what is returned, and both end in
/// one state of the challenger. Where it doesn't, something is returned too, which the verifier
/// refuses but for a small part of the challenges: `Air::check_trace` is the test.
///
/// # Errors
///
/// Before anything is absorbed `DegreeTooLarge`, `InvalidGenerator` and `InvalidPeriodicColumns`;
/// `Trace`, `Evaluation`, `Quotient`, `Randomization` and `Opening`, where the scheme refuses;
/// `PointOnTraceDomain`, where the challenge happens to be a point of the trace's domain.
pub fn prove<
    F: TwoAdicField + PackableField + PrimeField64,
    EF: ExtensionField<F>,
    Com: Copy,
    C: FieldChallenger<F> + CanObserve<Com>,
    P: TwoAdicStarkPcs<EF, C, TwoAdicMultiplicativeCoset<F>, Commitment = Com>,
>(
    scheme: &mut P,
    alloc: Global,
    statement: &Statement<'_, F, Com>,
    trace: RowMajorMatrix<F>,
    preprocessed: Option<P::ProverData>,
    challenger: &mut C,
) -> Result<Proof<EF, Com, P::Proof>, ProvingError<P::ProverError>>
    requires range { (P.rules scheme.old).InProverRange }
    requires statement { IsProvable statement.now }
    requires width { matrix_width trace ≡ statement.now.air.now.layout.width }
    requires room { FitsField F.TWO_ADICITY (P.log_blowup scheme.old) P.ZK statement.now.air.now
        (length (rows trace)) }
    requires preprocessed { (k : ℕ) → length (rows trace) ≡ 2 ^ k
        → HoldPreprocessed (P.rules scheme.old) (P.stark_rules scheme.old)
        (λ d. (d.shift ≡ F.ONE) × (d.log_size ≡ k + hiding_bits P.ZK)) k
        statement.now.air.now.layout.preprocessed_width statement.now.preprocessed preprocessed }
    ensures kept { AreKept (P.rules scheme.old) (P.rules scheme.new) }
    ensures kept_for_stark { AreKeptStark (P.stark_rules scheme.old) (P.stark_rules scheme.new) }
    ensures height { IfOk result (λ proof. length (rows trace) ≡ 2 ^ proof.log_height) }
    ensures complete { let S = stark_setting ⟦<EF as StarkField<F>>⟧.fields
        ⟦<C as Plays<F, EF, Com>>⟧.moves P.ZK (P.rules scheme.new)
        (λ k d. (d.shift ≡ F.ONE) × (d.log_size ≡ k)) in
        (k : ℕ) (preprocessed_rows : List (List F)) → length (rows trace) ≡ 2 ^ k
        → HavePreprocessedRows (P.rules scheme.old)
        (λ d. (d.shift ≡ F.ONE) × (d.log_size ≡ k + hiding_bits P.ZK)) preprocessed_rows
        preprocessed
        → IsSatisfied F.ops statement.now.air.now
        (assigned_to statement.now (rows trace) preprocessed_rows)
        → IfOk result (λ proof. StarkAccepts S statement.now proof challenger.old) }
    ensures state { let S = stark_setting ⟦<EF as StarkField<F>>⟧.fields
        ⟦<C as Plays<F, EF, Com>>⟧.moves P.ZK (P.rules scheme.new)
        (λ k d. (d.shift ≡ F.ONE) × (d.log_size ≡ k)) in IfOk result (λ proof.
        let begun = drawn S.fields S.moves statement.now proof challenger.old in
        IsLastState S statement.now proof begun.zeta begun.state challenger.new) }
    ensures refused { (k : ℕ) → length (rows trace) ≡ 2 ^ k → IfErr result (λ e.
        PreparationRefusal ⟦<EF as StarkField<F>>⟧.fields statement.now k e
        ⊎ (CommitRefusal ⟦<EF as StarkField<F>>⟧.fields (λ d. d.shift) (λ d. d.log_size) P.ZK
        (P.rules scheme.old) (P.stark_rules scheme.old) P.EvaluationRefuses k trace e
        ⊎ IsRefusedAfter ⟦<EF as StarkField<F>>⟧.fields EF.coefficients
        ⟦<C as Plays<F, EF, Com>>⟧.moves (λ d. d.shift) (λ d. d.log_size) P.ZK
        (P.rules scheme.new) (P.stark_rules scheme.new) P.embed P.point P.recombined
        P.chunk_polynomials statement.now k trace preprocessed challenger.old e)) }
{
    let log_height = log2_strict_usize(trace.height());
    let prepared = prepare::<F, EF, Com, C, P>(&*scheme, alloc, statement, log_height)?;
    let (commitments, mut committed) = commit_columns::<F, EF, Com, C, P>(
        scheme,
        alloc,
        statement,
        &prepared,
        trace,
        preprocessed,
        challenger,
    )?;
    finish(
        &*scheme,
        alloc,
        prepared.log_height,
        1 << prepared.log_num_chunks,
        commitments,
        &mut committed,
        challenger,
    )
}
