//! Why a text has no answer.

use fri_records::{Misfit, VerifierError};
use p3_air::TraceError;
use p3_air_plain::{ElementError, PlainAirError, PlainTraceError};
use p3_fri_folding::FriProverError;
use p3_fri_masks::HidingFriProverError;
use p3_fri_plain::PlainProofError;
use p3_fri_relation::error::FriError;
use p3_uni_stark_prover::ProvingError;
use p3_uni_stark_statement::PlainVerificationError;
use p3_uni_stark_system::{PreprocessingError, SystemProvingError, SystemVerificationError};
use p3_uni_stark_verifier::VerificationError;
use serde_json::Category;
use std::fmt;
use std::fmt::{Debug, Display};

/// The status of what is well formed and refused.
pub const REFUSED: u8 = 1;

/// The status of what isn't well formed.
pub const MALFORMED: u8 = 2;

/// The status of want of memory.
pub const OUT_OF_MEMORY: u8 = 3;

/// Why a scheme's prover refuses.
pub trait Refusal: Debug + Drop {
    /// Whether memory was refused.
    fn is_out_of_memory(&self) -> bool;
}

impl Refusal for FriProverError {
    fn is_out_of_memory(&self) -> bool {
        matches!(self, FriProverError::OutOfMemory)
    }
}

impl Refusal for HidingFriProverError {
    fn is_out_of_memory(&self) -> bool {
        matches!(self, HidingFriProverError::Fri(FriProverError::OutOfMemory))
    }
}

/// Why a text has no answer, over a scheme whose prover refuses for a reason of the type `E`.
#[derive(Debug, Drop)]
pub enum Failure<E> {
    /// It isn't JSON, or not of such a record.
    Json(serde_json::Error),
    /// A seed hasn't 32 bytes.
    Seed,
    /// The parameters of the scheme aren't good.
    Parameters(Misfit),
    /// The form is no proof's.
    Form(PlainProofError),
    /// The trace doesn't satisfy the system, or their numbers are none.
    Trace(PlainTraceError),
    /// There is no proof.
    Proving(SystemProvingError<E>),
    /// The proof is refused, or the system's numbers are none.
    Verification(SystemVerificationError<E, VerifierError>),
    /// Memory was refused.
    OutOfMemory,
}

/// The status of a constraint system's fault.
fn air_status(fault: &PlainAirError) -> u8 {
    match fault {
        PlainAirError::OutOfMemory => OUT_OF_MEMORY,
        _ => MALFORMED,
    }
}

/// The status of a fault of numbers.
fn element_status(fault: &ElementError) -> u8 {
    match fault {
        ElementError::OutOfMemory => OUT_OF_MEMORY,
        _ => MALFORMED,
    }
}

/// The status of a trace's fault.
fn trace_status(fault: &TraceError) -> u8 {
    match fault {
        TraceError::OutOfMemory => OUT_OF_MEMORY,
        _ => REFUSED,
    }
}

/// The status of a scheme's refusal.
fn refusal_status<E: Refusal>(refusal: &E) -> u8 {
    if refusal.is_out_of_memory() {
        OUT_OF_MEMORY
    } else {
        REFUSED
    }
}

/// The status of a fault of preprocessed columns.
fn preprocessing_status<E: Refusal>(error: &PreprocessingError<E>) -> u8 {
    match error {
        PreprocessingError::Width | PreprocessingError::Height => MALFORMED,
        PreprocessingError::Element(fault) => element_status(fault),
        PreprocessingError::Refused(refusal) => refusal_status(refusal),
        PreprocessingError::OutOfMemory => OUT_OF_MEMORY,
    }
}

/// The status of a prover's refusal.
fn proving_status<E: Refusal>(error: &ProvingError<E>) -> u8 {
    match error {
        ProvingError::OutOfMemory => OUT_OF_MEMORY,
        ProvingError::Trace(refusal)
        | ProvingError::Evaluation(refusal)
        | ProvingError::Quotient(refusal)
        | ProvingError::Randomization(refusal)
        | ProvingError::Opening(refusal) => refusal_status(refusal),
        _ => REFUSED,
    }
}

/// The status of a verifier's refusal.
fn verification_status(error: &VerificationError<VerifierError>) -> u8 {
    match error {
        VerificationError::OutOfMemory => OUT_OF_MEMORY,
        VerificationError::InvalidOpeningArgument(FriError::OutOfMemory) => OUT_OF_MEMORY,
        _ => REFUSED,
    }
}

impl<E: Refusal> Failure<E> {
    /// 1 where good texts are refused, 2 where they aren't good, 3 for want of memory.
    pub fn status(&self) -> u8 {
        match self {
            Failure::Json(error) => match error.classify() {
                Category::Memory => OUT_OF_MEMORY,
                _ => MALFORMED,
            },
            Failure::Seed | Failure::Parameters(_) => MALFORMED,
            Failure::Form(PlainProofError::OutOfMemory) => OUT_OF_MEMORY,
            Failure::Form(_) => MALFORMED,
            Failure::Trace(error) => match error {
                PlainTraceError::Air(fault) => air_status(fault),
                PlainTraceError::Element(fault) => element_status(fault),
                PlainTraceError::Trace(fault) => trace_status(fault),
            },
            Failure::Proving(error) => match error {
                SystemProvingError::Air(fault) => air_status(fault),
                SystemProvingError::Element(fault) => element_status(fault),
                SystemProvingError::Trace(fault) => trace_status(fault),
                SystemProvingError::NoColumns => MALFORMED,
                SystemProvingError::TraceHeight { .. } => REFUSED,
                SystemProvingError::Preprocessing(fault) => preprocessing_status(fault),
                SystemProvingError::Proving(fault) => proving_status(fault),
                SystemProvingError::OutOfMemory => OUT_OF_MEMORY,
            },
            Failure::Verification(error) => match error {
                SystemVerificationError::Preprocessing(fault) => preprocessing_status(fault),
                SystemVerificationError::Proof(fault) => match fault {
                    PlainVerificationError::Air(fault) => air_status(fault),
                    PlainVerificationError::Element(fault) => element_status(fault),
                    PlainVerificationError::Refused(refusal) => verification_status(refusal),
                },
            },
            Failure::OutOfMemory => OUT_OF_MEMORY,
        }
    }

    /// Whether a proof's text or form is no proof's.
    pub fn is_of_form(&self) -> bool {
        matches!(self, Failure::Json(_) | Failure::Form(_))
    }
}

/// Prints a fault's name with its numbers, and then what it means.
fn fmt_named<T: Debug + Display, W: fmt::Write>(
    f: &mut fmt::Formatter<W>,
    fault: &T,
) -> fmt::Result {
    write!(f, "{fault:?}: {fault}")
}

/// Prints a constraint system's fault.
fn fmt_air<W: fmt::Write>(f: &mut fmt::Formatter<W>, fault: &PlainAirError) -> fmt::Result {
    match fault {
        PlainAirError::Malformed(fault) => fmt_named(f, fault),
        fault => fmt_named(f, fault),
    }
}

/// Prints a fault of preprocessed columns.
fn fmt_preprocessing<E: Debug, W: fmt::Write>(
    f: &mut fmt::Formatter<W>,
    fault: &PreprocessingError<E>,
) -> fmt::Result {
    match fault {
        PreprocessingError::Element(fault) => fmt_named(f, fault),
        fault => fmt_named(f, fault),
    }
}

/// Prints why a trace isn't one of elements that satisfies a system.
fn fmt_trace<W: fmt::Write>(f: &mut fmt::Formatter<W>, error: &PlainTraceError) -> fmt::Result {
    match error {
        PlainTraceError::Air(fault) => fmt_air(f, fault),
        PlainTraceError::Element(fault) => fmt_named(f, fault),
        PlainTraceError::Trace(fault) => fmt_named(f, fault),
    }
}

/// Prints why there is no proof.
fn fmt_proving<E: Debug, W: fmt::Write>(
    f: &mut fmt::Formatter<W>,
    error: &SystemProvingError<E>,
) -> fmt::Result {
    match error {
        SystemProvingError::Air(fault) => fmt_air(f, fault),
        SystemProvingError::Element(fault) => fmt_named(f, fault),
        SystemProvingError::Trace(fault) => fmt_named(f, fault),
        SystemProvingError::Preprocessing(fault) => fmt_preprocessing(f, fault),
        SystemProvingError::Proving(fault) => fmt_named(f, fault),
        error => fmt_named(f, error),
    }
}

/// Prints why a proof is refused.
fn fmt_verification<E: Debug, W: fmt::Write>(
    f: &mut fmt::Formatter<W>,
    error: &SystemVerificationError<E, VerifierError>,
) -> fmt::Result {
    match error {
        SystemVerificationError::Preprocessing(fault) => fmt_preprocessing(f, fault),
        SystemVerificationError::Proof(error) => match error {
            PlainVerificationError::Air(fault) => fmt_air(f, fault),
            PlainVerificationError::Element(fault) => fmt_named(f, fault),
            PlainVerificationError::Refused(refusal) => fmt_named(f, refusal),
        },
    }
}

/// The fault's name with its numbers, and then what it means.
impl<E: Refusal> Display for Failure<E> {
    fn fmt<W: fmt::Write>(&self, f: &mut fmt::Formatter<W>) -> fmt::Result {
        if self.status() == OUT_OF_MEMORY {
            return f.write_str("OutOfMemory: out of memory");
        }
        match self {
            Failure::Json(error) => write!(f, "Json: {error}"),
            Failure::Seed => f.write_str("Seed: expected 32 bytes"),
            Failure::Parameters(misfit) => write!(f, "{misfit}"),
            Failure::Form(fault) => write!(f, "{fault:?}: proof, {fault}"),
            Failure::Trace(error) => fmt_trace(f, error),
            Failure::Proving(error) => fmt_proving(f, error),
            Failure::Verification(error) => fmt_verification(f, error),
            Failure::OutOfMemory => f.write_str("OutOfMemory: out of memory"),
        }
    }
}
