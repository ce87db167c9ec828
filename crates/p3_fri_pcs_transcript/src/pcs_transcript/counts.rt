//! Numbers of values at points, nested by commitment, matrix and point.

ghost use Rattle.std.specs.Prelude.{◌≡◌, ◌-◌, ◌^◌, min, IfOk, length};
ghost use Rattle.algebra.specs.Nested.{lists, nested, joined};
ghost use Rattle.p3_fri_pcs_transcript.specs.Counts.{counts_at_points, counts_in_matrices};
ghost use Rattle.p3_fri_pcs_transcript.specs.Counts.{counts_of_values, counts_of_claims};
ghost use Rattle.p3_fri_pcs_transcript.specs.Counts.{claimed_at_points, claimed_in_matrices};
ghost use Rattle.p3_fri_pcs_transcript.specs.Steps.{widths};

use p3_mmcs::{CommitmentOpening, MatrixOpening, PointOpening};
use std::alloc::{AllocError, Global};

/// How many values there are, by commitment, matrix and point.
pub(super) fn count_values<EF>(
    alloc: Global,
    commitments: &[Vec<Vec<Vec<EF>>>],
) -> Result<Vec<Vec<Vec<usize>>>, AllocError>
    ensures { IfOk result (λ counts. nested counts.items ≡ counts_of_values commitments.now) }
{
    let mut counts = Vec::with_capacity(alloc, commitments.len())?;
    for matrices in commitments {
        counts.push(count_in_matrices(alloc, matrices)?)?;
    }
    Ok(counts)
}

/// The same of the matrices under a commitment.
fn count_in_matrices<EF>(
    alloc: Global,
    matrices: &[Vec<Vec<EF>>],
) -> Result<Vec<Vec<usize>>, AllocError>
    ensures { IfOk result (λ counts. lists counts.items ≡ counts_in_matrices matrices.now) }
{
    let mut counts = Vec::with_capacity(alloc, matrices.len())?;
    for points in matrices {
        counts.push(count_at_points(alloc, points)?)?;
    }
    Ok(counts)
}

/// The same of the points of a matrix.
fn count_at_points<EF>(alloc: Global, points: &[Vec<EF>]) -> Result<Vec<usize>, AllocError>
    ensures { IfOk result (λ counts. counts.items ≡ counts_at_points points.now) }
{
    let mut counts = Vec::with_capacity(alloc, points.len())?;
    for values in points {
        counts.push(values.as_slice().len())?;
    }
    Ok(counts)
}

/// How many values are claimed, by commitment, matrix and point.
pub(super) fn count_claims<EF, Com, Domain>(
    alloc: Global,
    claims: &[CommitmentOpening<EF, Com, Domain>],
) -> Result<Vec<Vec<Vec<usize>>>, AllocError>
    ensures { IfOk result (λ counts. nested counts.items ≡ counts_of_claims claims.now) }
{
    let mut counts = Vec::with_capacity(alloc, claims.len())?;
    for claim in claims {
        counts.push(claims_in_matrices(alloc, &claim.matrices)?)?;
    }
    Ok(counts)
}

/// The same of the matrices under a commitment.
fn claims_in_matrices<EF, Domain>(
    alloc: Global,
    matrices: &[MatrixOpening<EF, Domain>],
) -> Result<Vec<Vec<usize>>, AllocError>
    ensures { IfOk result (λ counts. lists counts.items ≡ claimed_in_matrices matrices.now) }
{
    let mut counts = Vec::with_capacity(alloc, matrices.len())?;
    for matrix in matrices {
        counts.push(claims_at_points(alloc, &matrix.points)?)?;
    }
    Ok(counts)
}

/// The same of the points of a matrix.
fn claims_at_points<EF>(
    alloc: Global,
    points: &[PointOpening<EF>],
) -> Result<Vec<usize>, AllocError>
    ensures { IfOk result (λ counts. counts.items ≡ claimed_at_points points.now) }
{
    let mut counts = Vec::with_capacity(alloc, points.len())?;
    for point in points {
        counts.push(point.values.as_slice().len())?;
    }
    Ok(counts)
}

/// The same counts once more.
pub(super) fn clone_counts(
    alloc: Global,
    commitments: &[Vec<Vec<usize>>],
) -> Result<Vec<Vec<Vec<usize>>>, AllocError>
    ensures { IfOk result (λ counts. nested counts.items ≡ nested commitments.now) }
{
    let mut counts = Vec::with_capacity(alloc, commitments.len())?;
    for matrices in commitments {
        counts.push(clone_matrices(alloc, matrices)?)?;
    }
    Ok(counts)
}

/// The same counts of the matrices under a commitment.
fn clone_matrices(alloc: Global, matrices: &[Vec<usize>]) -> Result<Vec<Vec<usize>>, AllocError>
    ensures { IfOk result (λ counts. lists counts.items ≡ lists matrices.now) }
{
    let mut counts = Vec::with_capacity(alloc, matrices.len())?;
    for points in matrices {
        counts.push(Vec::from_slice(alloc, points)?)?;
    }
    Ok(counts)
}

/// The number of points, or the greatest number where that is greater.
pub(super) fn number_of_points(commitments: &[Vec<Vec<usize>>]) -> usize
    ensures { result ≡ min (length (widths (nested commitments.now))) (2 ^ 64 - 1) }
{
    let mut total: usize = 0;
    for matrices in commitments {
        total = total.saturating_add(points_in_matrices(matrices));
    }
    total
}

/// The same of the matrices under a commitment.
fn points_in_matrices(matrices: &[Vec<usize>]) -> usize
    ensures { result ≡ min (length (joined (lists matrices.now))) (2 ^ 64 - 1) }
{
    let mut total: usize = 0;
    for points in matrices {
        total = total.saturating_add(points.as_slice().len());
    }
    total
}
