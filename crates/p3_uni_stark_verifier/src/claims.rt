//! What is claimed of the commitments.

ghost use Rattle.std.specs.Prelude.{◌≡◌, ◌∷◌, [], ◌++◌, map, IfOk, OnOk};
ghost use Rattle.algebra.specs.Nested.{lists};
ghost use Rattle.p3_pcs.specs.Claims.{claim, matrix_claim};
ghost use Rattle.p3_uni_stark_verifier.specs.Claimed.{at_one, at_two, of_one, claim_if};
ghost use Rattle.p3_uni_stark_verifier.specs.Claimed.{trace_and_chunks, stark_claims};

use crate::proof::{Commitments, OpenedValues};
use p3_mmcs::{CommitmentOpening, MatrixOpening, PointOpening};
use std::alloc::{AllocError, Global};

/// A list of one.
fn one<T: Drop>(alloc: Global, value: T) -> Result<Vec<T>, AllocError>
    ensures { IfOk result (λ all. all.items ≡ value ∷ []) }
{
    let mut all = Vec::with_capacity(alloc, 1)?;
    all.push(value)?;
    Ok(all)
}

/// A list of two.
fn two<T: Drop>(alloc: Global, first: T, second: T) -> Result<Vec<T>, AllocError>
    ensures { IfOk result (λ all. all.items ≡ first ∷ second ∷ []) }
{
    let mut all = Vec::with_capacity(alloc, 2)?;
    all.push(first)?;
    all.push(second)?;
    Ok(all)
}

/// A matrix's values at a point.
fn matrix_at_one<EF: Copy, Domain: Copy>(
    alloc: Global,
    domain: Domain,
    point: EF,
    values: &[EF],
) -> Result<MatrixOpening<EF, Domain>, AllocError>
    ensures { IfOk result (λ opening. matrix_claim opening ≡ at_one domain point values.now) }
{
    let opened = PointOpening {
        point,
        values: Vec::from_slice(alloc, values)?,
    };
    Ok(MatrixOpening {
        domain,
        points: one(alloc, opened)?,
    })
}

/// A matrix's values at a point and at the next one.
fn matrix_at_two<EF: Copy, Domain: Copy>(
    alloc: Global,
    domain: Domain,
    points: (EF, EF),
    local: &[EF],
    next: &[EF],
) -> Result<MatrixOpening<EF, Domain>, AllocError>
    ensures { IfOk result (λ opening.
        matrix_claim opening ≡ at_two domain points.0 points.1 local.now next.now) }
{
    let first = PointOpening {
        point: points.0,
        values: Vec::from_slice(alloc, local)?,
    };
    let second = PointOpening {
        point: points.1,
        values: Vec::from_slice(alloc, next)?,
    };
    Ok(MatrixOpening {
        domain,
        points: two(alloc, first, second)?,
    })
}

/// The claim of a commitment to one matrix.
fn commitment_to<EF: Copy, Com: Copy, Domain: Copy>(
    alloc: Global,
    commitment: Com,
    matrix: MatrixOpening<EF, Domain>,
) -> Result<CommitmentOpening<EF, Com, Domain>, AllocError>
    ensures { IfOk result (λ opening.
        claim opening ≡ of_one (matrix_claim matrix) commitment) }
{
    Ok(CommitmentOpening {
        commitment,
        matrices: one(alloc, matrix)?,
    })
}

/// The values of chunks at a point, a matrix to each.
fn chunk_matrices<EF: Copy, Domain: Copy>(
    alloc: Global,
    domain: Domain,
    point: EF,
    chunks: &[Vec<EF>],
) -> Result<Vec<MatrixOpening<EF, Domain>>, AllocError>
    ensures { IfOk result (λ openings.
        map matrix_claim openings.items ≡ map (at_one domain point) (lists chunks.now)) }
{
    let mut openings = Vec::with_capacity(alloc, chunks.len())?;
    for index in 0..chunks.len() {
        let values = chunks[index].as_slice();
        openings.push(matrix_at_one(alloc, domain, point, values)?)?;
    }
    Ok(openings)
}

/// Appends the claim of preprocessed columns, if there are such.
fn push_preprocessed<EF: Copy, Com: Copy, Domain: Copy>(
    claims: &mut Vec<CommitmentOpening<EF, Com, Domain>>,
    alloc: Global,
    domain: Domain,
    preprocessed: Option<Com>,
    opened: &OpenedValues<EF>,
    points: (EF, EF),
) -> Result<(), AllocError>
    ensures { OnOk result (map claim claims.new.items ≡ map claim claims.old.items
        ++ claim_if (of_one (at_two domain points.0 points.1
        opened.now.preprocessed_local.items opened.now.preprocessed_next.items)) preprocessed) }
{
    if let Some(commitment) = preprocessed {
        let local = opened.preprocessed_local.as_slice();
        let next = opened.preprocessed_next.as_slice();
        let matrix = matrix_at_two(alloc, domain, points, local, next)?;
        claims.push(commitment_to(alloc, commitment, matrix)?)?;
    }
    Ok(())
}

/// Appends the claim of random polynomials, if there are such.
fn push_random<EF: Copy, Com: Copy, Domain: Copy>(
    claims: &mut Vec<CommitmentOpening<EF, Com, Domain>>,
    alloc: Global,
    domain: Domain,
    random: Option<Com>,
    values: &[EF],
    point: EF,
) -> Result<(), AllocError>
    ensures { OnOk result (map claim claims.new.items ≡ map claim claims.old.items
        ++ claim_if (of_one (at_one domain point values.now)) random) }
{
    if let Some(commitment) = random {
        let matrix = matrix_at_one(alloc, domain, point, values)?;
        claims.push(commitment_to(alloc, commitment, matrix)?)?;
    }
    Ok(())
}

/// Appends the claims of the trace and of the quotient's chunks.
fn push_trace_and_chunks<EF: Copy, Com: Copy, Domain: Copy>(
    claims: &mut Vec<CommitmentOpening<EF, Com, Domain>>,
    alloc: Global,
    domain: Domain,
    commitments: Commitments<Com>,
    opened: &OpenedValues<EF>,
    points: (EF, EF),
) -> Result<(), AllocError>
    ensures { OnOk result (map claim claims.new.items ≡ map claim claims.old.items
        ++ trace_and_chunks domain commitments opened.now points.0 points.1) }
{
    let local = opened.trace_local.as_slice();
    let next = opened.trace_next.as_slice();
    let matrix = matrix_at_two(alloc, domain, points, local, next)?;
    claims.push(commitment_to(alloc, commitments.trace, matrix)?)?;
    let chunks = opened.quotient_chunks.as_slice();
    claims.push(CommitmentOpening {
        commitment: commitments.quotient_chunks,
        matrices: chunk_matrices(alloc, domain, points.0, chunks)?,
    })?;
    Ok(())
}

/// All claims of a proof, at a point and the next one.
pub(crate) fn stark_claims<EF: Copy, Com: Copy, Domain: Copy>(
    alloc: Global,
    domain: Domain,
    preprocessed: Option<Com>,
    commitments: Commitments<Com>,
    opened: &OpenedValues<EF>,
    points: (EF, EF),
) -> Result<Vec<CommitmentOpening<EF, Com, Domain>>, AllocError>
    ensures { IfOk result (λ claims. map claim claims.items
        ≡ stark_claims domain preprocessed commitments opened.now points.0 points.1) }
{
    let mut claims = Vec::with_capacity(alloc, 4)?;
    push_preprocessed(&mut claims, alloc, domain, preprocessed, opened, points)?;
    push_trace_and_chunks(&mut claims, alloc, domain, commitments, opened, points)?;
    push_random(
        &mut claims,
        alloc,
        domain,
        commitments.random,
        opened.random.as_slice(),
        points.0,
    )?;
    Ok(claims)
}
