//! Proofs of traces of numbers.

ghost use Rattle.std.specs.Prelude.{◌≡◌, ◌<◌, IfOk, IfErr, length};
ghost use Rattle.p3_air.specs.Satisfied.{IsSatisfied};
ghost use Rattle.p3_air.specs.WellFormed.{IsWellFormed};
ghost use Rattle.algebra.specs.Nested.{lists};
ghost use Rattle.p3_air_plain.specs.Checked.{IsSatisfiedIn};
ghost use Rattle.p3_air_plain.specs.Elements.{owned_assigned};
ghost use Rattle.p3_pcs.specs.Scheme.{AreKept};
ghost use Rattle.p3_uni_stark_verifier.specs.Setting.{stark_setting};
ghost use Rattle.p3_uni_stark_prover.specs.Provable.{FitsField};
ghost use Rattle.p3_uni_stark_system.specs.Systems.{numbers_of, with_trace, IsAcceptedSystem};
ghost use Rattle.p3_uni_stark_system.specs.Proved.{IsProvedOf, IsUnproved, ProvingFault};
ghost use Rattle.p3_uni_stark_system.specs.Proved.{AssignedFault, ElementsFault};

use crate::error::SystemProvingError;
use crate::preprocessing::{Preprocessed, commit_rows};
use crate::system::PlainSystem;
use p3_air::{Air, Assignment};
use p3_air_plain::{OwnedAssignment, air_from_plain, assignment_from_plain};
use p3_challenger_core::{CanObserve, FieldChallenger, Plays};
use p3_field_core::{
    ExtensionField, PackableField, PrimeField64, TwoAdicField, TwoAdicMultiplicativeCoset,
    log2_strict_usize,
};
use p3_uni_stark_pcs::TwoAdicStarkPcs;
use p3_uni_stark_prover::{has_room, prove};
use p3_uni_stark_statement::matrix_of_rows;
use p3_uni_stark_verifier::setting::StarkField;
use p3_uni_stark_verifier::{Proof, Statement};
use std::alloc::Global;

/// A proof that the elements of a trace satisfy a system, for which there is room.
fn prove_satisfied<
    F: TwoAdicField + PackableField + PrimeField64,
    EF: ExtensionField<F>,
    Com: Copy,
    C: FieldChallenger<F> + CanObserve<Com>,
    P: TwoAdicStarkPcs<EF, C, TwoAdicMultiplicativeCoset<F>, Commitment = Com>,
>(
    scheme: &mut P,
    alloc: Global,
    air: &Air<F>,
    given: &OwnedAssignment<F>,
    challenger: &mut C,
) -> Result<Proof<EF, Com, P::Proof>, SystemProvingError<P::ProverError>>
    requires range { (P.rules scheme.old).InProverRange }
    requires well_formed { IsWellFormed air.now }
    requires satisfied { IsSatisfied F.ops air.now (owned_assigned given.now) }
    requires columns { 0 < air.now.layout.width }
    requires room { FitsField F.TWO_ADICITY (P.log_blowup scheme.old) P.ZK air.now
        (length given.now.trace.items) }
    ensures kept { AreKept (P.rules scheme.old) (P.rules scheme.new) }
    ensures proved { let S = stark_setting ⟦<EF as StarkField<F>>⟧.fields
        ⟦<C as Plays<F, EF, Com>>⟧.moves P.ZK (P.rules scheme.new)
        (λ k d. (d.shift ≡ F.ONE) × (d.log_size ≡ k)) in IfOk result (λ proof.
        IsProvedOf S air.now (owned_assigned given.now) proof challenger.old challenger.new) }
    ensures refused { let Unproved = IsUnproved
        ⟦<EF as StarkField<F>>⟧.fields EF.coefficients ⟦<C as Plays<F, EF, Com>>⟧.moves
        (λ d. d.shift) (λ d. d.log_size) P.ZK (λ k d. (d.shift ≡ F.ONE) × (d.log_size ≡ k)) P.rules
        P.stark_rules P.embed P.point P.recombined P.chunk_polynomials P.EvaluationRefuses
        (λ s. P.Keeps scheme.old s) scheme.new challenger.old
        air.now (owned_assigned given.now) in IfErr result
        (ElementsFault (P.stark_rules scheme.old) P.ZK
        (λ k d. (d.shift ≡ F.ONE) × (d.log_size ≡ k)) Unproved (owned_assigned given.now)) }
{
    let log_height = log2_strict_usize(given.trace.len());
    let rows = given.preprocessed.as_slice();
    let width = air.layout.preprocessed_width;
    let committed = commit_rows::<F, EF, Com, C, P>(scheme, alloc, rows, width, log_height);
    let Preprocessed { key, prover_data } = match committed {
        Ok(preprocessed) => preprocessed,
        Err(error) => return Err(SystemProvingError::Preprocessing(error)),
    };
    let trace = match matrix_of_rows(alloc, given.trace.as_slice(), air.layout.width) {
        Ok(trace) => trace,
        Err(_) => return Err(SystemProvingError::OutOfMemory),
    };
    let statement = Statement {
        air,
        preprocessed: key,
        periodic: given.periodic.as_slice(),
        public_values: given.public_values.as_slice(),
    };
    match prove::<F, EF, Com, C, P>(scheme, alloc, &statement, trace, prover_data, challenger) {
        Ok(proof) => Ok(proof),
        Err(error) => Err(SystemProvingError::Proving(error)),
    }
}

/// A proof that the elements of a trace satisfy a well-formed system.
fn prove_elements<
    F: TwoAdicField + PackableField + PrimeField64,
    EF: ExtensionField<F>,
    Com: Copy,
    C: FieldChallenger<F> + CanObserve<Com>,
    P: TwoAdicStarkPcs<EF, C, TwoAdicMultiplicativeCoset<F>, Commitment = Com>,
>(
    scheme: &mut P,
    alloc: Global,
    air: &Air<F>,
    given: &OwnedAssignment<F>,
    challenger: &mut C,
) -> Result<Proof<EF, Com, P::Proof>, SystemProvingError<P::ProverError>>
    requires range { (P.rules scheme.old).InProverRange }
    requires well_formed { IsWellFormed air.now }
    ensures kept { AreKept (P.rules scheme.old) (P.rules scheme.new) }
    ensures proved { let S = stark_setting ⟦<EF as StarkField<F>>⟧.fields
        ⟦<C as Plays<F, EF, Com>>⟧.moves P.ZK (P.rules scheme.new)
        (λ k d. (d.shift ≡ F.ONE) × (d.log_size ≡ k)) in IfOk result (λ proof.
        IsProvedOf S air.now (owned_assigned given.now) proof challenger.old challenger.new) }
    ensures satisfied { IfOk result (λ _. IsSatisfied F.ops air.now (owned_assigned given.now)) }
    ensures refused { let Unproved = IsUnproved
        ⟦<EF as StarkField<F>>⟧.fields EF.coefficients ⟦<C as Plays<F, EF, Com>>⟧.moves
        (λ d. d.shift) (λ d. d.log_size) P.ZK (λ k d. (d.shift ≡ F.ONE) × (d.log_size ≡ k)) P.rules
        P.stark_rules P.embed P.point P.recombined P.chunk_polynomials P.EvaluationRefuses
        (λ s. P.Keeps scheme.old s) scheme.new challenger.old
        air.now (owned_assigned given.now) in IfErr result
        (AssignedFault (P.stark_rules scheme.old) P.ZK
        (λ k d. (d.shift ≡ F.ONE) × (d.log_size ≡ k)) F.ops F.TWO_ADICITY
        (P.log_blowup scheme.old) Unproved air.now (owned_assigned given.now)) }
{
    if let Err(fault) = air.check_trace(alloc, &given.borrowed()) {
        return Err(SystemProvingError::Trace(fault));
    }
    if air.layout.width == 0 {
        return Err(SystemProvingError::NoColumns);
    }
    let height = given.trace.len();
    let log_blowup = scheme.log_blowup();
    match has_room::<F, P::ProverError>(alloc, air, height, log_blowup, P::ZK) {
        Ok(true) => prove_satisfied::<F, EF, Com, C, P>(scheme, alloc, air, given, challenger),
        Ok(false) => Err(SystemProvingError::TraceHeight { height }),
        Err(error) => Err(SystemProvingError::Proving(error)),
    }
}

/// A proof that the trace of these numbers satisfies the system with these public values. Nothing
/// is asked of the numbers. `verify_system` accepts what is returned, of the same numbers.
pub fn prove_system<
    F: TwoAdicField + PackableField + PrimeField64,
    EF: ExtensionField<F>,
    Com: Copy,
    C: FieldChallenger<F> + CanObserve<Com>,
    P: TwoAdicStarkPcs<EF, C, TwoAdicMultiplicativeCoset<F>, Commitment = Com>,
>(
    scheme: &mut P,
    alloc: Global,
    system: &PlainSystem<'_>,
    public_values: &[u64],
    trace: &[Vec<u64>],
    challenger: &mut C,
) -> Result<Proof<EF, Com, P::Proof>, SystemProvingError<P::ProverError>>
    requires range { (P.rules scheme.old).InProverRange }
    ensures kept { AreKept (P.rules scheme.old) (P.rules scheme.new) }
    ensures accepted { let S = stark_setting ⟦<EF as StarkField<F>>⟧.fields
        ⟦<C as Plays<F, EF, Com>>⟧.moves P.ZK (P.rules scheme.new)
        (λ k d. (d.shift ≡ F.ONE) × (d.log_size ≡ k)) in IfOk result (λ proof.
        IsAcceptedSystem F.canonical S (numbers_of system.now public_values.now) proof
        challenger.old challenger.new) }
    ensures satisfied { IfOk result (λ _. IsSatisfiedIn F.ops F.ORDER_U64 F.canonical
        system.now.air.now (with_trace (numbers_of system.now public_values.now)
        (lists trace.now))) }
    ensures refused { let Unproved = IsUnproved
        ⟦<EF as StarkField<F>>⟧.fields EF.coefficients ⟦<C as Plays<F, EF, Com>>⟧.moves
        (λ d. d.shift) (λ d. d.log_size) P.ZK (λ k d. (d.shift ≡ F.ONE) × (d.log_size ≡ k)) P.rules
        P.stark_rules P.embed P.point P.recombined P.chunk_polynomials P.EvaluationRefuses
        (λ s. P.Keeps scheme.old s) scheme.new challenger.old in
        IfErr result (ProvingFault (P.stark_rules scheme.old) P.ZK
        (λ k d. (d.shift ≡ F.ONE) × (d.log_size ≡ k)) F.ops F.TWO_ADICITY
        (P.log_blowup scheme.old) F.ORDER_U64 F.canonical Unproved system.now.air.now
        (with_trace (numbers_of system.now public_values.now) (lists trace.now))) }
{
    let air = match air_from_plain::<F>(alloc, system.air) {
        Ok(air) => air,
        Err(fault) => return Err(SystemProvingError::Air(fault)),
    };
    let numbers = Assignment {
        trace,
        preprocessed: system.preprocessed,
        public_values,
        periodic: system.periodic,
    };
    let given = match assignment_from_plain::<F>(alloc, &numbers) {
        Ok(given) => given,
        Err(fault) => return Err(SystemProvingError::Element(fault)),
    };
    prove_elements::<F, EF, Com, C, P>(scheme, alloc, &air, &given, challenger)
}
