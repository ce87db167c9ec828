//! What is asked of a statement and of a proof before anything is absorbed.

ghost use Rattle.std.specs.Prelude.{◌≡◌, ◌<◌, ◌^◌, ◌↔◌, length, All, IsTrue, MatchResult};
ghost use Rattle.std.specs.Prelude.{IfOk, IfErr};
ghost use Rattle.p3_air.specs.WellFormed.{IsWellFormed};
ghost use Rattle.p3_uni_stark_verifier.specs.Chunks.{NeedsChunks};
ghost use Rattle.p3_uni_stark_verifier.specs.Inputs.{HasColumnWidths, HasProofShape, IsReady};
ghost use Rattle.p3_uni_stark_verifier.specs.Inputs.{InputFault, DegreeFault};
ghost use Rattle.p3_uni_stark_verifier.specs.Shown.{HasHeight};

use crate::chunks::{log_num_chunks, with_hiding};
use crate::error::VerificationError;
use crate::proof::{OpenedValues, PreprocessedVerifierKey, Proof, Statement};
use p3_air::{Air, AirLayout, DegreeError};
use p3_field_core::{ExtensionField, TwoAdicField};
use p3_uni_stark_identity::have_dimension;
use std::alloc::Global;

/// Whether each number is below `2^63`.
fn all_small(numbers: &[usize]) -> bool
    ensures { IsTrue result ↔ All (λ n. n < 2 ^ 63) numbers.now }
{
    numbers.iter().all(|&number| number < 1 << 63)
}

/// The logarithm of the number of chunks that the constraints need.
pub fn needed_chunks<F: Copy, OpeningError>(
    alloc: Global,
    air: &Air<F>,
    zk: bool,
) -> Result<usize, VerificationError<OpeningError>>
    requires well_formed { IsWellFormed air.now }
    ensures ok { IfOk result (NeedsChunks zk air.now) }
    ensures bound { IfOk result (λ log. log < 64) }
    ensures err { IfErr result (DegreeFault air.now) }
{
    let degrees = match air.degrees(alloc) {
        Ok(degrees) => degrees,
        Err(DegreeError::TooLarge) => return Err(VerificationError::DegreeTooLarge),
        Err(DegreeError::OutOfMemory) => return Err(VerificationError::OutOfMemory),
    };
    if !all_small(degrees.as_slice()) {
        return Err(VerificationError::DegreeTooLarge);
    }
    Ok(log_num_chunks(air.constraints.as_slice(), degrees.as_slice(), zk))
}

/// Whether preprocessed columns, if there are such, have `2^log_height` rows.
fn has_height<Com: Copy>(key: Option<PreprocessedVerifierKey<Com>>, log_height: usize) -> bool
    ensures { IsTrue result ↔ HasHeight key log_height }
{
    match key {
        Some(known) => known.log_height == log_height,
        None => true,
    }
}

/// Whether at each point there are as many values as columns.
fn has_column_widths<EF>(layout: &AirLayout, opened: &OpenedValues<EF>) -> bool
    ensures { IsTrue result ↔ HasColumnWidths layout.now opened.now }
{
    opened.trace_local.len() == layout.width
        && opened.trace_next.len() == layout.width
        && opened.preprocessed_local.len() == layout.preprocessed_width
        && opened.preprocessed_next.len() == layout.preprocessed_width
}

/// Whether there are domains for the chunks, of which there are `2^log` or twice as many, the
/// height is that of the preprocessed columns, and each list of opened values has its length.
fn has_proof_shape<F: TwoAdicField, EF: ExtensionField<F>, Com: Copy, Opening>(
    statement: &Statement<'_, F, Com>,
    proof: &Proof<EF, Com, Opening>,
    zk: bool,
    log: usize,
) -> bool
    requires log { log < 64 }
    ensures { IsTrue result
        ↔ HasProofShape F.TWO_ADICITY EF.DIMENSION zk statement.now proof.now log }
{
    let opened = &proof.opened_values;
    let log_num_chunks = with_hiding(log, zk);
    let num_random = if zk { EF::DIMENSION } else { 0 };
    log_num_chunks <= F::TWO_ADICITY
        && proof.log_height <= F::TWO_ADICITY - log_num_chunks
        && has_height(statement.preprocessed, proof.log_height)
        && has_column_widths(&statement.air.layout, opened)
        && opened.quotient_chunks.len() == 1 << log_num_chunks
        && have_dimension::<F, EF>(opened.quotient_chunks.as_slice())
        && opened.random.len() == num_random
}

/// Whether the statement and the proof may be looked at: the constraint system is well formed, the
/// statement has what it speaks of, the proof has its shape, and there are random polynomials
/// exactly where the scheme hides. Returns the logarithm of the number of chunks, before those that
/// a scheme that hides adds.
pub(crate) fn check_inputs<
    F: TwoAdicField,
    EF: ExtensionField<F>,
    Com: Copy,
    Opening,
    OpeningError,
>(
    alloc: Global,
    statement: &Statement<'_, F, Com>,
    proof: &Proof<EF, Com, Opening>,
    zk: bool,
) -> Result<usize, VerificationError<OpeningError>>
    ensures inputs { MatchResult result
        (IsReady F.TWO_ADICITY EF.DIMENSION zk statement.now proof.now)
        (InputFault F.TWO_ADICITY EF.DIMENSION zk statement.now proof.now) }
    ensures bound { IfOk result (λ log. log < 64) }
{
    let air = statement.air;
    if let Err(fault) = air.check() {
        return Err(VerificationError::InvalidAir(fault));
    }
    if statement.public_values.len() != air.layout.num_public_values {
        return Err(VerificationError::InvalidPublicValues);
    }
    if statement.periodic.len() != air.layout.num_periodic_columns {
        return Err(VerificationError::InvalidPeriodicCount);
    }
    if statement.preprocessed.is_some() == (air.layout.preprocessed_width == 0) {
        return Err(VerificationError::InvalidPreprocessed);
    }
    let log = match needed_chunks(alloc, air, zk) {
        Ok(log) => log,
        Err(fault) => return Err(fault),
    };
    if !has_proof_shape(statement, proof, zk, log) {
        return Err(VerificationError::InvalidProofShape);
    }
    if proof.commitments.random.is_some() != zk {
        return Err(VerificationError::RandomizationError);
    }
    Ok(log)
}
