//! What was accepted, in short.

use crate::Failure;
use crate::prime_field::FieldName;
use crate::records::Accepted;
use fri_requests::{BatchClaims, MatrixClaims};
use std::alloc::Global;

/// How many hex digits of a context are printed at most.
const MOST_DIGITS: usize = 64;

/// Adds the line of a context: of a long one its first 32 bytes and the number of all.
fn push_context(alloc: Global, lines: &mut String, context: &str) -> Result<(), Failure> {
    let digits = context.to_ascii_lowercase(alloc)?;
    let count = digits.len();
    match digits.get(..MOST_DIGITS) {
        Some(first) if count > MOST_DIGITS => {
            writeln!(lines, "context {first} .. {} bytes", count / 2)?;
        },
        _ if count == 0 => writeln!(lines, "context empty")?,
        _ => writeln!(lines, "context {digits}")?,
    }
    Ok(())
}

/// Adds the line of a field: BabyBear needn't be named.
fn push_field(lines: &mut String, field: FieldName) -> Result<(), Failure> {
    if !field.is_default() {
        writeln!(lines, "field {field:?}")?;
    }
    Ok(())
}

/// How many columns are claimed: as many as there are values at the first point.
fn width_of(matrix: &MatrixClaims) -> usize {
    match matrix.points.first() {
        Some(point) => point.values.len(),
        None => 0,
    }
}

/// Adds the lines of a commitment and its matrices.
fn push_batch(alloc: Global, lines: &mut String, batch: &BatchClaims) -> Result<(), Failure> {
    let commitment = batch.commitment.to_ascii_lowercase(alloc)?;
    writeln!(lines, "commitment {commitment}")?;
    for matrix in &batch.matrices {
        let log_size = matrix.domain.log_size;
        let width = width_of(matrix);
        let count = matrix.points.len();
        writeln!(
            lines,
            "matrix log_size {log_size} width {width} points {count}"
        )?;
    }
    Ok(())
}

/// The lines that say what was accepted.
pub(crate) fn accepted_lines(alloc: Global, accepted: &Accepted) -> Result<String, Failure> {
    let mut lines = String::from_str(alloc, "accepted\n")?;
    push_field(&mut lines, accepted.field)?;
    push_context(alloc, &mut lines, &accepted.context)?;
    for batch in &accepted.claims {
        push_batch(alloc, &mut lines, batch)?;
    }
    let bits = accepted.parameters.conjectured_soundness_bits();
    writeln!(lines, "conjectured soundness bits {bits}")?;
    Ok(lines)
}
