//! What prover and verifier say of a system's trace, and what where something is changed.

ghost use Rattle.std.specs.Prelude.{length};
ghost use Rattle.p3_air.specs.WellFormed.{IsWellFormed};
ghost use Rattle.p3_uni_stark_prover.specs.Provable.{FitsField};

use crate::instances::{Instance, System, instance_of};
use crate::proving::{commit_preprocessed, prove_instance, verify_instance};
use crate::schemes::Tested;
use p3_air::TraceError;
use p3_air_plain::OwnedAssignment;
use p3_challenger_core::CanSampleBits;
use p3_challenger_sha256::Sha256Challenger;
use p3_field::{BabyBear, BabyBear4, Field};
use p3_uni_stark_prover::{ProvingError, has_room};
use p3_uni_stark_verifier::{Proof, VerificationError};
use std::alloc::Global;
use std::process::Abort;

/// What is changed, by one.
#[derive(Clone, Copy)]
pub(crate) enum Change {
    Nothing,
    /// The entry of this row and column of the trace.
    Entry(usize, usize),
    /// The number of entries of the periodic columns.
    Period,
    /// This public value, for the verifier alone.
    PublicValue(usize),
    /// The first opened value of the trace, in the proof.
    OpenedValue,
}

/// What comes of it.
#[derive(Clone, Copy, PartialEq, Eq)]
pub(crate) enum Outcome {
    /// The trace is committed to.
    Committed,
    /// The trace satisfies its constraints, the proof is accepted, and both challengers are in one
    /// state, which draws this next.
    Accepted(usize),
    /// There is no room in the field.
    NoRoom,
    /// The periodic columns don't repeat, and nothing is absorbed.
    NotPeriodic,
    /// The scheme refuses to commit to the trace: too few rows to hide one opening.
    NotCommitted,
    /// The scheme refuses to open the columns: too few rows to hide two openings of the trace.
    NotOpened,
    /// The trace satisfies its constraints, and the proof's opening is refused.
    OpeningRefused,
    /// The trace fails at this row and constraint, and what is proved of it nonetheless is refused
    /// by the identity at the point.
    Unsatisfied { row: usize, constraint: usize },
    /// Anything else.
    Unexpected,
}

/// Adds one to the element at this place.
fn add_one<F: Field>(elements: &mut [F], place: usize) {
    if place < elements.len() {
        elements[place] = elements[place] + F::ONE;
    }
}

/// Changes what the prover is given.
fn change_given(rt: &impl Abort, given: &mut OwnedAssignment<BabyBear>, change: Change) {
    match change {
        Change::Entry(row, column) => {
            if row < given.trace.len() {
                add_one(given.trace[row].as_mut_slice(), column);
            }
        },
        Change::Period => {
            for column in given.periodic.iter_mut() {
                column.push(BabyBear::ONE).expect(rt, "memory");
            }
        },
        _ => {},
    }
}

/// Changes what the verifier is given.
fn change_shown<Com, O>(
    instance: &mut Instance,
    proof: &mut Proof<BabyBear4, Com, O>,
    change: Change,
) {
    match change {
        Change::PublicValue(index) => add_one(instance.given.public_values.as_mut_slice(), index),
        Change::OpenedValue => add_one(proof.opened_values.trace_local.as_mut_slice(), 0),
        _ => {},
    }
}

/// Why there is no proof, where the prover leaves this challenger.
fn unproved<E: Drop>(error: ProvingError<E>, prover: &Sha256Challenger) -> Outcome {
    match error {
        ProvingError::InvalidPeriodicColumns(_) if *prover == Sha256Challenger::new() => {
            Outcome::NotPeriodic
        },
        ProvingError::Trace(_) => Outcome::NotCommitted,
        ProvingError::Opening(_) => Outcome::NotOpened,
        _ => Outcome::Unexpected,
    }
}

/// What the verifier returned of a trace of which this was found, and what the challengers are left
/// as.
fn verdict<E: Drop>(
    satisfied: Result<(), TraceError>,
    returned: Result<(), VerificationError<E>>,
    prover: &Sha256Challenger,
    verifier: &mut Sha256Challenger,
) -> Outcome {
    match (satisfied, returned) {
        (Ok(()), Ok(())) if *prover == *verifier => Outcome::Accepted(verifier.sample_bits(63)),
        (Ok(()), Err(VerificationError::InvalidOpeningArgument(_))) => Outcome::OpeningRefused,
        (
            Err(TraceError::Unsatisfied { row, constraint }),
            Err(VerificationError::OodEvaluationMismatch),
        ) => Outcome::Unsatisfied { row, constraint },
        _ => Outcome::Unexpected,
    }
}

/// What comes of an instance for which there is room.
fn proved<P: Tested>(
    rt: &impl Abort,
    alloc: Global,
    instance: &mut Instance,
    change: Change,
) -> Outcome
    requires well_formed { IsWellFormed instance.old.air }
    requires room { FitsField 27 1 P.ZK instance.old.air
        (length instance.old.given.trace.items) }
{
    let satisfied = instance.air.check_trace(alloc, &instance.given.borrowed());
    let mut scheme = P::made();
    let (key, data) = commit_preprocessed(rt, &mut scheme, alloc, &*instance);
    let mut prover = Sha256Challenger::new();
    match prove_instance(rt, &mut scheme, alloc, &*instance, key, data, &mut prover) {
        Ok(mut proof) => {
            change_shown(instance, &mut proof, change);
            let mut verifier = Sha256Challenger::new();
            let returned = verify_instance::<P>(alloc, &*instance, key, &proof, &mut verifier);
            verdict(satisfied, returned, &prover, &mut verifier)
        },
        Err(error) => unproved(error, &prover),
    }
}

/// What comes of a system's trace of so many rows, with this change, by a scheme.
pub(crate) fn outcome_of<P: Tested>(
    rt: &impl Abort,
    alloc: Global,
    system: System,
    height: usize,
    change: Change,
) -> Outcome {
    let mut instance = instance_of(rt, alloc, system, height);
    change_given(rt, &mut instance.given, change);
    match has_room::<BabyBear, ()>(alloc, &instance.air, instance.given.trace.len(), 1, P::ZK) {
        Ok(true) => proved::<P>(rt, alloc, &mut instance, change),
        Ok(false) => Outcome::NoRoom,
        Err(_) => panic!(rt; "memory was refused"),
    }
}
