//! Claims as records, and back.

ghost use Rattle.std.specs.Prelude.{◌≡◌, map, IfOk, IfErr, Ok, string_bytes};
ghost use Rattle.algebra.specs.Nested.{lists};
ghost use Rattle.hex.specs.Hex.{decode_sized};
ghost use Rattle.p3_pcs.specs.Claims.{claim, matrix_claim, point_claim};
ghost use Rattle.fri_numbers.specs.Claims.{point_by, matrix_by, batch_by};
ghost use Rattle.fri_numbers.specs.Claims.{point_listed, matrix_listed, batch_listed};
ghost use Rattle.fri_records.specs.Failures.{IfMalformed};
ghost use Rattle.fri_numbers.specs.Claimed.{IsPointClaimBy, IsMatrixClaimBy, IsClaimBy};
ghost use Rattle.fri_numbers.specs.Claimed.{AreClaimsBy};

use crate::elements::{Numbered, read_points};
use fri_records::{BatchClaims, Fault, MatrixClaims, Place, PointClaims, ReadError};
use fri_schemes::{Coset, SchemeField};
use hex::FromHex;
use p3_mmcs::{CommitmentOpening, MatrixOpening, PointOpening};
use std::alloc::{AllocError, Global};

/// What is claimed of a commitment.
pub type ClaimOn<EF, D> = CommitmentOpening<EF, [u8; 32], D>;

/// Claims of commitments, over a field and its extension.
pub type Claims<F> = Vec<ClaimOn<<F as SchemeField>::Extension, Coset<F>>>;

/// The numbers of points.
fn all_numbers<EF: Copy, D: Copy, N: Numbered<EF, D>>(
    alloc: Global,
    points: &[EF],
) -> Result<Vec<Vec<u64>>, AllocError>
    ensures { IfOk result (λ all. lists all.items ≡ map N.numbers_of points.now) }
{
    let mut all = Vec::with_capacity(alloc, points.len())?;
    for point in points {
        all.push(N::point_numbers(alloc, *point)?)?;
    }
    Ok(all)
}

/// The values at a point as a record.
fn point_claims<EF: Copy, D: Copy, N: Numbered<EF, D>>(
    alloc: Global,
    opening: &PointOpening<EF>,
) -> Result<PointClaims, AllocError>
    ensures { IfOk result (λ r. point_listed r ≡ point_by N.numbers_of (point_claim opening.now)) }
{
    Ok(PointClaims {
        point: N::point_numbers(alloc, opening.point)?,
        values: all_numbers::<EF, D, N>(alloc, &opening.values)?,
    })
}

/// What is claimed of a matrix as a record.
fn matrix_claims<EF: Copy, D: Copy, N: Numbered<EF, D>>(
    alloc: Global,
    opening: &MatrixOpening<EF, D>,
) -> Result<MatrixClaims, AllocError>
    ensures { IfOk result (λ r. matrix_listed r
        ≡ matrix_by N.numbers_of N.shift_of N.log_size_of (matrix_claim opening.now)) }
{
    let mut points = Vec::with_capacity(alloc, opening.points.len())?;
    for point in &opening.points {
        points.push(point_claims::<EF, D, N>(alloc, point)?)?;
    }
    Ok(MatrixClaims {
        domain: N::domain_numbers(opening.domain),
        points,
    })
}

/// The hex text of a commitment.
fn hex_of(alloc: Global, commitment: &[u8; 32]) -> Result<String, AllocError>
    ensures { IfOk result (λ text. decode_sized (string_bytes text) 32 ≡ Ok commitment.now) }
{
    hex::encode(alloc, commitment.as_slice())
}

/// What is claimed of a commitment's matrices as a record.
fn batch_claims<EF: Copy, D: Copy, N: Numbered<EF, D>>(
    alloc: Global,
    opening: &ClaimOn<EF, D>,
) -> Result<BatchClaims, AllocError>
    ensures { IfOk result (λ r. batch_listed r
        ≡ batch_by N.numbers_of N.shift_of N.log_size_of (claim opening.now)) }
{
    let mut matrices = Vec::with_capacity(alloc, opening.matrices.len())?;
    for matrix in &opening.matrices {
        matrices.push(matrix_claims::<EF, D, N>(alloc, matrix)?)?;
    }
    Ok(BatchClaims {
        commitment: hex_of(alloc, &opening.commitment)?,
        matrices,
    })
}

/// Claims as records, in order: a commitment as hex text, each element by the numbers of its
/// coefficients.
pub fn claims_out<EF: Copy, D: Copy, N: Numbered<EF, D>>(
    alloc: Global,
    claims: &Vec<ClaimOn<EF, D>>,
) -> Result<Vec<BatchClaims>, AllocError>
    ensures { IfOk result (λ records. map batch_listed records.items
        ≡ map (batch_by N.numbers_of N.shift_of N.log_size_of) (map claim claims.now.items)) }
{
    let mut batches = Vec::with_capacity(alloc, claims.len())?;
    for opening in claims {
        batches.push(batch_claims::<EF, D, N>(alloc, opening)?)?;
    }
    Ok(batches)
}

/// The values at a point, whose record is at this place.
fn point_opening<EF: Copy, D: Copy, N: Numbered<EF, D>>(
    alloc: Global,
    claims: &PointClaims,
    place: Place,
) -> Result<PointOpening<EF>, ReadError>
    ensures numbers { IfOk result (λ o.
        point_by N.numbers_of (point_claim o) ≡ point_listed claims.now) }
    ensures refused { IfErr result (IfMalformed
        (¬ IsPointClaimBy N.IsPoint (point_listed claims.now))) }
{
    Ok(PointOpening {
        point: N::read_point(&claims.point, place)?,
        values: read_points::<EF, D, N>(alloc, &claims.values, place)?,
    })
}

/// What is claimed of the matrix at this place.
fn matrix_opening<EF: Copy, D: Copy, N: Numbered<EF, D>>(
    alloc: Global,
    claims: &MatrixClaims,
    place: Place,
) -> Result<MatrixOpening<EF, D>, ReadError>
    ensures numbers { IfOk result (λ o. matrix_by N.numbers_of N.shift_of N.log_size_of
        (matrix_claim o) ≡ matrix_listed claims.now) }
    ensures refused { IfErr result (IfMalformed
        (¬ IsMatrixClaimBy N.IsPoint N.IsDomain (matrix_listed claims.now))) }
{
    let domain = N::read_domain(&claims.domain, place)?;
    let mut points = Vec::with_capacity(alloc, claims.points.len())?;
    for (index, point) in claims.points.iter().enumerate() {
        let place = Place {
            point: Some(index),
            ..place
        };
        points.push(point_opening::<EF, D, N>(alloc, point, place)?)?;
    }
    Ok(MatrixOpening { domain, points })
}

/// What is claimed of the matrices of the commitment at this place.
fn commitment_opening<EF: Copy, D: Copy, N: Numbered<EF, D>>(
    alloc: Global,
    claims: &BatchClaims,
    place: Place,
) -> Result<ClaimOn<EF, D>, ReadError>
    ensures numbers { IfOk result (λ o. batch_by N.numbers_of N.shift_of N.log_size_of (claim o)
        ≡ batch_listed claims.now) }
    ensures refused { IfErr result (IfMalformed
        (¬ IsClaimBy N.IsPoint N.IsDomain (batch_listed claims.now))) }
{
    let Ok(commitment) = <[u8; 32] as FromHex>::from_hex(claims.commitment.as_str()) else {
        return Err(place.lacks(Fault::Commitment).into());
    };
    let mut matrices = Vec::with_capacity(alloc, claims.matrices.len())?;
    for (index, matrix) in claims.matrices.iter().enumerate() {
        let place = Place {
            matrix: Some(index),
            ..place
        };
        matrices.push(matrix_opening::<EF, D, N>(alloc, matrix, place)?)?;
    }
    Ok(CommitmentOpening {
        commitment,
        matrices,
    })
}

/// The claims of records, in order. `Malformed` names the first commitment, domain, point or value
/// that isn't well formed.
pub fn claims_in<EF: Copy, D: Copy, N: Numbered<EF, D>>(
    alloc: Global,
    claims: &[BatchClaims],
) -> Result<Vec<ClaimOn<EF, D>>, ReadError>
    ensures numbers { IfOk result (λ v. map (batch_by N.numbers_of N.shift_of N.log_size_of)
        (map claim v.items) ≡ map batch_listed claims.now) }
    ensures refused { IfErr result (IfMalformed
        (¬ AreClaimsBy N.IsPoint N.IsDomain claims.now)) }
{
    let mut openings = Vec::with_capacity(alloc, claims.len())?;
    for (index, batch) in claims.iter().enumerate() {
        let place = Place {
            commitment: Some(index),
            ..Place::CLAIMS
        };
        openings.push(commitment_opening::<EF, D, N>(alloc, batch, place)?)?;
    }
    Ok(openings)
}
