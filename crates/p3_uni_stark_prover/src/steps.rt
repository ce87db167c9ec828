//! The steps of the prover.

ghost use Rattle.std.specs.Prelude.{◌≡◌, ◌≢◌, ◌≤◌, ◌<◌, ◌+◌, ◌^◌, ℕ};
ghost use Rattle.std.specs.Prelude.{IfOk, IfErr, OnErr};
ghost use Rattle.std.specs.Option.{is_some};
ghost use Rattle.algebra.specs.Field.{pow};
ghost use Rattle.p3_air.specs.WellFormed.{IsWellFormed};
ghost use Rattle.p3_uni_stark_verifier.specs.Chunks.{hiding_bits, NeedsChunks};
ghost use Rattle.p3_uni_stark_prover.specs.Finished.{first_drawn, IsFinished, FinishRefusal};
ghost use Rattle.p3_uni_stark_opening.specs.Opened.{commitments_to, AreOpenable};
ghost use Rattle.p3_uni_stark_phases.specs.Refusals.{DegreeRefusal};
ghost use Rattle.p3_uni_stark_phases.specs.Split.{commitment_in, data_in};
ghost use Rattle.p3_uni_stark_phases.specs.declared.error.ProvingError.TheVariants as refusal;

use p3_air::Air;
use p3_challenger_core::{CanObserve, FieldChallenger, Plays};
use p3_field_core::{
    ExtensionField, Field, PrimeField64, TwoAdicField, TwoAdicMultiplicativeCoset,
    log2_strict_usize,
};
use p3_stark_pcs::UnivariateStarkPcs;
use p3_uni_stark_identity::is_on_domain;
use p3_uni_stark_opening::{ColumnData, open_columns};
use p3_uni_stark_phases::{Committed, ProvingError};
use p3_uni_stark_quotient::is_off_subgroups;
use p3_uni_stark_transcript::{StarkInstance, absorb_instance, draw_alpha, draw_zeta};
use p3_uni_stark_verifier::inputs::needed_chunks;
use p3_uni_stark_verifier::setting::StarkField;
use p3_uni_stark_verifier::verifier::commitment_of;
use p3_uni_stark_verifier::{Commitments, Proof, Statement, VerificationError};
use std::alloc::{AllocError, Global};

/// The logarithm of the number of chunks that the constraints need, before those that a scheme that
/// hides adds.
pub fn log_chunks_of<F: Copy, PcsError: Drop>(
    alloc: Global,
    air: &Air<F>,
    zk: bool,
) -> Result<usize, ProvingError<PcsError>>
    requires well_formed { IsWellFormed air.now }
    ensures needed { IfOk result (NeedsChunks zk air.now) }
    ensures bound { IfOk result (λ log. log < 64) }
    ensures refused { IfErr result (DegreeRefusal air.now) }
{
    match needed_chunks::<F, PcsError>(alloc, air, zk) {
        Ok(log) => Ok(log),
        Err(VerificationError::DegreeTooLarge) => Err(ProvingError::DegreeTooLarge),
        Err(_) => Err(ProvingError::OutOfMemory),
    }
}

/// The coset of the field's `GENERATOR` of `2^log_size` points, which meets no subgroup whose order
/// is a power of two.
pub fn quotient_coset<F: TwoAdicField, PcsError>(
    log_size: usize,
) -> Result<TwoAdicMultiplicativeCoset<F>, ProvingError<PcsError>>
    requires within_two_adicity { log_size ≤ F.TWO_ADICITY }
    ensures shift { IfOk result (λ coset. coset.shift ≡ F.GENERATOR) }
    ensures size { IfOk result (λ coset. coset.log_size ≡ log_size) }
    ensures off { IfOk result (λ _. pow F.ops F.GENERATOR (2 ^ F.TWO_ADICITY) ≢ F.ops.one) }
    ensures refused { IfErr result (λ e. (e ≡ refusal.InvalidGenerator)
        × (¬ (pow F.ops F.GENERATOR (2 ^ F.TWO_ADICITY) ≢ F.ops.one))) }
{
    let coset = TwoAdicMultiplicativeCoset {
        shift: F::GENERATOR,
        log_size,
    };
    if is_off_subgroups(coset) {
        Ok(coset)
    } else {
        Err(ProvingError::InvalidGenerator)
    }
}

/// Absorbs the instance and the commitments to preprocessed columns and to the trace, and draws the
/// challenge that puts the constraints together.
pub fn begin<
    F: TwoAdicField + PrimeField64,
    EF: ExtensionField<F>,
    Com: Copy,
    C: FieldChallenger<F> + CanObserve<Com>,
>(
    alloc: Global,
    statement: &Statement<'_, F, Com>,
    log_height: usize,
    hides: bool,
    trace: Com,
    challenger: &mut C,
) -> Result<EF, AllocError>
    ensures drawn { IfOk result (λ alpha. first_drawn ⟦<EF as StarkField<F>>⟧.fields
        ⟦<C as Plays<F, EF, Com>>⟧.moves statement.now log_height hides trace challenger.old
        ≡ record { value = alpha; state = challenger.new }) }
    ensures unchanged { OnErr result (challenger.new ≡ challenger.old) }
{
    let instance = StarkInstance {
        air: statement.air,
        public_values: statement.public_values,
        periodic: statement.periodic,
        log_height,
    };
    let known = commitment_of(statement.preprocessed);
    absorb_instance::<F, EF, C>(alloc, challenger, &instance, known.is_some(), hides)?;
    Ok(draw_alpha::<F, EF, Com, C>(challenger, known, trace))
}

/// A commitment that there may be, and its data.
pub fn split<Com: Copy, D: Drop>(committed: Option<Committed<Com, D>>) -> (Option<Com>, Option<D>)
    ensures commitment { result.0 ≡ commitment_in committed }
    ensures committed { result.1 ≡ data_in committed }
{
    match committed {
        Some(found) => (Some(found.commitment), Some(found.prover_data)),
        None => (None, None),
    }
}

/// Draws the point, opens all columns at it, and puts the proof together.
pub fn finish<
    F: TwoAdicField + PrimeField64,
    EF: ExtensionField<F>,
    Com: Copy,
    C: FieldChallenger<F> + CanObserve<Com>,
    P: UnivariateStarkPcs<EF, C, Val = F, Domain = TwoAdicMultiplicativeCoset<F>, Commitment = Com>,
>(
    scheme: &P,
    alloc: Global,
    log_height: usize,
    num_chunks: usize,
    commitments: Commitments<Com>,
    committed: &mut ColumnData<P::ProverData>,
    challenger: &mut C,
) -> Result<Proof<EF, Com, P::Proof>, ProvingError<P::ProverError>>
    requires range { (P.rules scheme.now).InProverRange }
    requires within_two_adicity { log_height ≤ F.TWO_ADICITY }
    requires committed { (size : ℕ) × AreOpenable (P.rules scheme.now) (P.stark_rules scheme.now)
        num_chunks size committed.old }
    requires commitments { commitments ≡ commitments_to (P.rules scheme.now) committed.old }
    ensures finished { IfOk result (IsFinished ⟦<EF as StarkField<F>>⟧.fields
        ⟦<C as Plays<F, EF, Com>>⟧.moves (P.rules scheme.now) (P.stark_rules scheme.now)
        log_height num_chunks commitments committed.old challenger.old challenger.new) }
    ensures refused { IfErr result (FinishRefusal ⟦<EF as StarkField<F>>⟧.fields
        ⟦<C as Plays<F, EF, Com>>⟧.moves (P.rules scheme.now) log_height commitments
        challenger.old) }
{
    let zeta = draw_zeta::<F, EF, Com, C>(
        challenger,
        commitments.quotient_chunks,
        commitments.random,
    );
    if is_on_domain(log_height, zeta) {
        return Err(ProvingError::PointOnTraceDomain);
    }
    let generator = EF::from_base(F::two_adic_generator(log_height));
    let points = (zeta, generator * zeta);
    let (opened_values, opening_proof) = open_columns(
        scheme, alloc, committed, num_chunks, points, challenger,
    )?;
    Ok(Proof {
        commitments,
        opened_values,
        opening_proof,
        log_height,
    })
}
