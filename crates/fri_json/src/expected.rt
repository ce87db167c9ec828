//! What a verifier expects to be stated, as it is read from a file.

use crate::prime_field::FieldName;
use crate::records::HidingStated;
use fri_requests::{Domain, Fault, Misfit, Parameters, Place, SchemeField};
use p3_field::{BabyBear, ExtensionField};
use p3_goldilocks::Goldilocks;
use p3_koala_bear::KoalaBear;
use serde::Deserialize;

/// How many hex digits write a commitment.
const COMMITMENT_DIGITS: usize = 64;

/// What is expected at a point: the point, and the values where they are known.
#[derive(Drop, Deserialize)]
pub(crate) struct ExpectedPoint {
    pub point: Vec<u64>,
    #[serde(default)]
    pub values: Option<Vec<Vec<u64>>>,
}

/// What is expected of a matrix.
#[derive(Drop, Deserialize)]
pub(crate) struct ExpectedMatrix {
    pub domain: Domain,
    pub points: Vec<ExpectedPoint>,
}

/// What is expected of the matrices under a commitment.
#[derive(Drop, Deserialize)]
pub(crate) struct ExpectedBatch {
    pub commitment: String,
    pub matrices: Vec<ExpectedMatrix>,
}

/// What a statement is compared with: a statement, whose proof isn't read, and whose values needn't
/// be there.
#[derive(Drop, Deserialize)]
pub struct Expected {
    #[serde(default)]
    pub(crate) field: FieldName,
    /// In hex; empty if it isn't there.
    #[serde(default)]
    pub(crate) context: String,
    pub(crate) parameters: Parameters,
    /// Where the scheme hides.
    #[serde(default)]
    pub(crate) hiding: Option<HidingStated>,
    pub(crate) claims: Vec<ExpectedBatch>,
}

/// Whether the text is that of bytes in hex.
fn is_hex(text: &str) -> bool {
    text.len() % 2 == 0 && text.bytes().all(|digit| digit.is_ascii_hexdigit())
}

/// Tests the coefficients of an element of the extension.
fn test_element<F: SchemeField>(numbers: &[u64], place: Place) -> Result<(), Misfit> {
    if numbers.len() != <F::Extension as ExtensionField<F>>::DIMENSION {
        return Err(place.lacks(Fault::ExtensionElement));
    }
    for number in numbers {
        if *number >= F::ORDER_U64 {
            return Err(place.lacks(Fault::Element));
        }
    }
    Ok(())
}

/// Tests values, whose indices follow `place`.
fn test_values<F: SchemeField>(values: &[Vec<u64>], place: Place) -> Result<(), Misfit> {
    for (index, value) in values.iter().enumerate() {
        let place = Place {
            value: Some(index),
            ..place
        };
        test_element::<F>(value, place)?;
    }
    Ok(())
}

/// Tests what is expected at a point.
fn test_point<F: SchemeField>(expected: &ExpectedPoint, place: Place) -> Result<(), Misfit> {
    test_element::<F>(&expected.point, place)?;
    match &expected.values {
        Some(values) => test_values::<F>(values, place),
        None => Ok(()),
    }
}

/// Tests what is expected of a matrix.
fn test_matrix<F: SchemeField>(expected: &ExpectedMatrix, place: Place) -> Result<(), Misfit> {
    let Domain { shift, log_size } = expected.domain;
    if log_size > F::TWO_ADICITY {
        return Err(place.lacks(Fault::LogSize));
    }
    if shift == 0 || shift >= F::ORDER_U64 {
        return Err(place.lacks(Fault::Shift));
    }
    for (index, point) in expected.points.iter().enumerate() {
        let place = Place {
            point: Some(index),
            ..place
        };
        test_point::<F>(point, place)?;
    }
    Ok(())
}

/// Tests what is expected of a commitment's matrices.
fn test_batch<F: SchemeField>(expected: &ExpectedBatch, place: Place) -> Result<(), Misfit> {
    if expected.commitment.len() != COMMITMENT_DIGITS || !is_hex(&expected.commitment) {
        return Err(place.lacks(Fault::Commitment));
    }
    for (index, matrix) in expected.matrices.iter().enumerate() {
        let place = Place {
            matrix: Some(index),
            ..place
        };
        test_matrix::<F>(matrix, place)?;
    }
    Ok(())
}

/// Tests what is expected over the field `F`.
fn test_over<F: SchemeField>(expected: &Expected) -> Result<(), Misfit> {
    for (index, batch) in expected.claims.iter().enumerate() {
        let place = Place {
            commitment: Some(index),
            ..Place::CLAIMS
        };
        test_batch::<F>(batch, place)?;
    }
    Ok(())
}

/// Tests that all texts are hex and all numbers are elements and sizes, as those of an accepted
/// statement are, so that a slip isn't taken for a difference.
pub(crate) fn test_expected(expected: &Expected) -> Result<(), Misfit> {
    if !is_hex(&expected.context) {
        return Err(Place::NONE.lacks(Fault::Context));
    }
    match expected.field {
        FieldName::BabyBear => test_over::<BabyBear>(expected),
        FieldName::KoalaBear => test_over::<KoalaBear>(expected),
        FieldName::Goldilocks => test_over::<Goldilocks>(expected),
    }
}
