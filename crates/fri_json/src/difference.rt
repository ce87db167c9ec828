//! Where an accepted statement differs from what was expected.

ghost use Rattle.std.specs.Prelude.{◌≡◌, IsSome, IfNone, OnSome};
ghost use Rattle.fri_json.specs.Difference.{AreExpected, IsExpectedPoint, IsExpectedMatrix};
ghost use Rattle.fri_json.specs.Difference.{IsExpectedBatch, IsExpected};

use crate::expected::{Expected, ExpectedBatch, ExpectedMatrix, ExpectedPoint};
use crate::records::{Accepted, HidingStated};
use fri_requests::{BatchClaims, Domain, MatrixClaims, Parameters, Place, PointClaims};
use std::fmt;

/// A part of a statement.
#[derive(Clone, Copy, Debug)]
pub enum Part {
    Field,
    Context,
    LogBlowup,
    LogFinalPolyLen,
    MaxLogArity,
    NumQueries,
    BatchProofOfWorkBits,
    CommitProofOfWorkBits,
    QueryProofOfWorkBits,
    Hiding,
    NumRandomCodewords,
    Preprocessing,
    CommitmentCount,
    Commitment,
    MatrixCount,
    Shift,
    LogSize,
    PointCount,
    Point,
    ValueCount,
    Value,
}

impl Part {
    /// Its field, of what is at its place.
    fn field(&self) -> &'static str {
        match self {
            Part::Field => "field",
            Part::Context => "context",
            Part::LogBlowup => "parameters.log_blowup",
            Part::LogFinalPolyLen => "parameters.log_final_poly_len",
            Part::MaxLogArity => "parameters.max_log_arity",
            Part::NumQueries => "parameters.num_queries",
            Part::BatchProofOfWorkBits => "parameters.batch_proof_of_work_bits",
            Part::CommitProofOfWorkBits => "parameters.commit_proof_of_work_bits",
            Part::QueryProofOfWorkBits => "parameters.query_proof_of_work_bits",
            Part::Hiding => "hiding",
            Part::NumRandomCodewords => "hiding.num_random_codewords",
            Part::Preprocessing => "hiding.preprocessing",
            Part::CommitmentCount => "claims",
            Part::Commitment => ".commitment",
            Part::MatrixCount => ".matrices",
            Part::Shift => ".domain.shift",
            Part::LogSize => ".domain.log_size",
            Part::PointCount => ".points",
            Part::Point => ".point",
            Part::ValueCount => ".values",
            Part::Value => "",
        }
    }

    /// What of its field was expected to be another.
    fn aspect(&self) -> &'static str {
        match self {
            Part::CommitmentCount | Part::MatrixCount | Part::PointCount | Part::ValueCount => {
                "number of entries"
            },
            _ => "value",
        }
    }

    /// This part at a place.
    fn differs_at(self, place: Place) -> Option<Difference>
        ensures { IsSome result }
    {
        Some(Difference { part: self, place })
    }
}

/// What was expected to be another, and where.
#[derive(Clone, Copy, Debug)]
pub struct Difference {
    pub part: Part,
    pub place: Place,
}

impl fmt::Display for Difference {
    fn fmt<W: fmt::Write>(&self, f: &mut fmt::Formatter<W>) -> fmt::Result {
        f.write_str("Unexpected: ")?;
        self.place.fmt_fields(f)?;
        let (field, aspect) = (self.part.field(), self.part.aspect());
        write!(f, "{field}: expected another {aspect}")
    }
}

/// The first value that isn't the expected one.
fn values_difference(values: &[Vec<u64>], expected: &[Vec<u64>], place: Place) -> Option<Difference>
    ensures same { IfNone result
        (AreExpected (λ v w. v.items ≡ w.items) values.now expected.now) }
    ensures differs { OnSome result
        (¬ AreExpected (λ v w. v.items ≡ w.items) values.now expected.now) }
{
    if values.len() != expected.len() {
        return Part::ValueCount.differs_at(place);
    }
    for (index, value) in values.iter().enumerate() {
        if value.as_slice() != expected[index].as_slice() {
            let place = Place {
                value: Some(index),
                ..place
            };
            return Part::Value.differs_at(place);
        }
    }
    None
}

/// The first difference at a point.
fn point_difference(
    claims: &PointClaims,
    expected: &ExpectedPoint,
    place: Place,
) -> Option<Difference>
    ensures same { IfNone result (IsExpectedPoint claims.now expected.now) }
    ensures differs { OnSome result (¬ IsExpectedPoint claims.now expected.now) }
{
    if claims.point.as_slice() != expected.point.as_slice() {
        return Part::Point.differs_at(place);
    }
    match &expected.values {
        Some(values) => values_difference(&claims.values, values, place),
        None => None,
    }
}

/// The part of a domain that isn't the expected one.
fn domain_difference(domain: Domain, expected: Domain) -> Option<Part>
    ensures same { IfNone result (domain ≡ expected) }
    ensures differs { OnSome result (¬ domain ≡ expected) }
{
    if domain.shift != expected.shift {
        return Some(Part::Shift);
    }
    if domain.log_size != expected.log_size {
        return Some(Part::LogSize);
    }
    None
}

/// The first difference of a matrix.
fn matrix_difference(
    claims: &MatrixClaims,
    expected: &ExpectedMatrix,
    place: Place,
) -> Option<Difference>
    ensures same { IfNone result (IsExpectedMatrix claims.now expected.now) }
    ensures differs { OnSome result (¬ IsExpectedMatrix claims.now expected.now) }
{
    if let Some(part) = domain_difference(claims.domain, expected.domain) {
        return part.differs_at(place);
    }
    if claims.points.len() != expected.points.len() {
        return Part::PointCount.differs_at(place);
    }
    for (index, point) in claims.points.iter().enumerate() {
        let place = Place {
            point: Some(index),
            ..place
        };
        if let Some(difference) = point_difference(point, &expected.points[index], place) {
            return Some(difference);
        }
    }
    None
}

/// The first difference of a commitment or its matrices.
fn batch_difference(
    claims: &BatchClaims,
    expected: &ExpectedBatch,
    place: Place,
) -> Option<Difference>
    ensures same { IfNone result (IsExpectedBatch claims.now expected.now) }
    ensures differs { OnSome result (¬ IsExpectedBatch claims.now expected.now) }
{
    if !claims.commitment.eq_ignore_ascii_case(&expected.commitment) {
        return Part::Commitment.differs_at(place);
    }
    if claims.matrices.len() != expected.matrices.len() {
        return Part::MatrixCount.differs_at(place);
    }
    for (index, matrix) in claims.matrices.iter().enumerate() {
        let place = Place {
            matrix: Some(index),
            ..place
        };
        if let Some(difference) = matrix_difference(matrix, &expected.matrices[index], place) {
            return Some(difference);
        }
    }
    None
}

/// The first parameter that isn't the expected one.
fn parameters_difference(parameters: &Parameters, expected: &Parameters) -> Option<Part>
    ensures same { IfNone result (parameters.now ≡ expected.now) }
    ensures differs { OnSome result (¬ parameters.now ≡ expected.now) }
{
    if parameters.log_blowup != expected.log_blowup {
        return Some(Part::LogBlowup);
    }
    if parameters.log_final_poly_len != expected.log_final_poly_len {
        return Some(Part::LogFinalPolyLen);
    }
    if parameters.max_log_arity != expected.max_log_arity {
        return Some(Part::MaxLogArity);
    }
    if parameters.num_queries != expected.num_queries {
        return Some(Part::NumQueries);
    }
    if parameters.batch_proof_of_work_bits != expected.batch_proof_of_work_bits {
        return Some(Part::BatchProofOfWorkBits);
    }
    if parameters.commit_proof_of_work_bits != expected.commit_proof_of_work_bits {
        return Some(Part::CommitProofOfWorkBits);
    }
    if parameters.query_proof_of_work_bits != expected.query_proof_of_work_bits {
        return Some(Part::QueryProofOfWorkBits);
    }
    None
}

/// The first number by what a scheme hides that isn't the expected one.
fn hiding_difference(hiding: &Option<HidingStated>, expected: &Option<HidingStated>) -> Option<Part>
    ensures same { IfNone result (hiding.now ≡ expected.now) }
    ensures differs { OnSome result (¬ hiding.now ≡ expected.now) }
{
    match (hiding, expected) {
        (None, None) => None,
        (Some(stated), Some(expected)) => {
            if stated.num_random_codewords != expected.num_random_codewords {
                return Some(Part::NumRandomCodewords);
            }
            if stated.preprocessing != expected.preprocessing {
                return Some(Part::Preprocessing);
            }
            None
        },
        _ => Some(Part::Hiding),
    }
}

/// The first difference of commitments and what is claimed of them.
fn claims_difference(claims: &[BatchClaims], expected: &[ExpectedBatch]) -> Option<Difference>
    ensures same { IfNone result (AreExpected IsExpectedBatch claims.now expected.now) }
    ensures differs { OnSome result (¬ AreExpected IsExpectedBatch claims.now expected.now) }
{
    if claims.len() != expected.len() {
        return Part::CommitmentCount.differs_at(Place::NONE);
    }
    for (index, batch) in claims.iter().enumerate() {
        let place = Place {
            commitment: Some(index),
            ..Place::CLAIMS
        };
        if let Some(difference) = batch_difference(batch, &expected[index], place) {
            return Some(difference);
        }
    }
    None
}

/// The first part of a statement that isn't the expected one: the field, the context, then the
/// parameters, then by what the scheme hides, then commitment by commitment the matrices' domains,
/// points and values. Counts come before what they count. Hex is the same in either case. Which
/// part is named isn't promised.
pub(crate) fn first_difference(accepted: &Accepted, expected: &Expected) -> Option<Difference>
    ensures same { IfNone result (IsExpected accepted.now expected.now) }
    ensures differs { OnSome result (¬ IsExpected accepted.now expected.now) }
{
    if accepted.field != expected.field {
        return Part::Field.differs_at(Place::NONE);
    }
    if !accepted.context.eq_ignore_ascii_case(&expected.context) {
        return Part::Context.differs_at(Place::NONE);
    }
    if let Some(part) = parameters_difference(&accepted.parameters, &expected.parameters) {
        return part.differs_at(Place::NONE);
    }
    if let Some(part) = hiding_difference(&accepted.hiding, &expected.hiding) {
        return part.differs_at(Place::NONE);
    }
    claims_difference(&accepted.claims, &expected.claims)
}
