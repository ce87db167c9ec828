//! What a proof is bound to, and the challenger that has absorbed it.

ghost use Rattle.std.specs.Prelude.{◌≡◌, map, IfOk, IfErr, Ok};
ghost use Rattle.algebra.specs.Nested.{lists, nested};
ghost use Rattle.hex.specs.Hex.{decode_of};
ghost use Rattle.p3_pcs.specs.Claims.{claim, matrix_claim, point_claim, zip_with};
ghost use Rattle.fri_statement.specs.Context.{challenge_of};
ghost use Rattle.fri_statement.specs.Numbers.{coefficient_numbers};
ghost use Rattle.fri_statement.specs.Setting.{prime_fields, sha256_moves};
ghost use Rattle.fri_verification.specs.Bound.{IsContext, width_claimed, bound_by, state_bound};
ghost use Rattle.fri_verification.specs.Bound.{matrix_claimed, batch_claimed};
ghost use Rattle.fri_verification.specs.Bound.{matrix_asked, batch_asked};
ghost use Rattle.fri_verification.specs.Bound.{matrix_stated, commitment_stated};
ghost use Rattle.fri_numbers.specs.Claims.{point_by, matrix_by, batch_by};
ghost use Rattle.fri_numbers.specs.Claims.{batch_numbers, batch_listed};
ghost use Rattle.fri_numbers.specs.Listed.{domain_by, domain_committed};
ghost use Rattle.fri_numbers.specs.Numbers.{extension_numbers};
ghost use Rattle.fri_numbers.specs.Claimed.{AreClaims};
ghost use Rattle.fri_records.specs.Failures.{IfMalformed};
ghost use Rattle.fri_records.specs.Records.{parameters_in};

use fri_numbers::{ClaimOn, Claims, Numbered, claims_in, coefficients};
use fri_records::{
    Batch, BatchClaims, Fault, Parameters, Place, ReadError, Rounds, fri_parameters,
};
use fri_schemes::{Coset, SchemeField, SchemeParts};
use fri_statement::{
    StatedCommitment, StatedField, StatedMatrix, absorb_statement, challenge_after,
};
use hex::FromHexError;
use p3_challenger_core::FieldChallenger;
use p3_challenger_sha256::{Sha256Challenger, Sha256Field};
use p3_field::{ExtensionField, TwoAdicField};
use p3_mmcs::{MatrixOpening, PointOpening};
use p3_pcs::KnownCommitment;
use std::alloc::{AllocError, Global};

/// The bytes of a context, `Malformed` where it isn't hex text.
pub fn context_of(alloc: Global, text: &str) -> Result<Vec<u8>, ReadError>
    ensures bytes { IfOk result (λ v. decode_of text.now ≡ Ok v.items) }
    ensures refused { IfErr result (IfMalformed (¬ IsContext text.now)) }
{
    match hex::decode(alloc, text.as_bytes()) {
        Ok(bytes) => Ok(bytes),
        Err(FromHexError::OutOfMemory) => Err(ReadError::OutOfMemory),
        Err(_) => Err(ReadError::Malformed(Place::NONE.lacks(Fault::Context))),
    }
}

/// The points of what is claimed of a matrix.
fn points_claimed<EF: Copy>(
    alloc: Global,
    points: &[PointOpening<EF>],
) -> Result<Vec<EF>, AllocError>
    ensures { IfOk result (λ v. v.items ≡ map (λ p. p.point) points.now) }
{
    let mut all = Vec::with_capacity(alloc, points.len())?;
    for opening in points {
        all.push(opening.point)?;
    }
    Ok(all)
}

/// How many columns are claimed: as many as there are values at the first point.
fn width_of<EF: Copy, D: Copy, N: Numbered<EF, D>>(points: &[PointOpening<EF>]) -> usize
    ensures { result
        ≡ width_claimed (map (point_by N.numbers_of) (map point_claim points.now)) }
{
    match points.first() {
        Some(opening) => opening.values.len(),
        None => 0,
    }
}

/// What claims state of matrices.
fn matrices_claimed<EF: Copy, D: Copy, N: Numbered<EF, D>>(
    alloc: Global,
    matrices: &[MatrixOpening<EF, D>],
) -> Result<Vec<StatedMatrix<EF, D>>, AllocError>
    ensures { IfOk result (λ v.
        map (matrix_stated N.numbers_of N.shift_of N.log_size_of) v.items
        ≡ map matrix_claimed (map (matrix_by N.numbers_of N.shift_of N.log_size_of)
        (map matrix_claim matrices.now))) }
{
    let mut all = Vec::with_capacity(alloc, matrices.len())?;
    for matrix in matrices {
        all.push(StatedMatrix {
            domain: matrix.domain,
            width: width_of::<EF, D, N>(&matrix.points),
            points: points_claimed(alloc, &matrix.points)?,
        })?;
    }
    Ok(all)
}

/// What claims state.
fn claims_stated<EF: Copy, D: Copy, N: Numbered<EF, D>>(
    alloc: Global,
    claims: &[ClaimOn<EF, D>],
) -> Result<Vec<StatedCommitment<EF, D>>, AllocError>
    ensures { IfOk result (λ v.
        map (commitment_stated N.numbers_of N.shift_of N.log_size_of) v.items
        ≡ map batch_claimed (map (batch_by N.numbers_of N.shift_of N.log_size_of)
        (map claim claims.now))) }
{
    let mut all = Vec::with_capacity(alloc, claims.len())?;
    for opening in claims {
        all.push(StatedCommitment {
            commitment: opening.commitment,
            matrices: matrices_claimed::<EF, D, N>(alloc, &opening.matrices)?,
        })?;
    }
    Ok(all)
}

/// What a request states of the matrices of a batch, which are committed to on these domains, and
/// have these points.
fn matrices_asked<EF: Copy, D: Copy, N: Numbered<EF, D>>(
    alloc: Global,
    batch: &Batch,
    hides: bool,
    domains: &[D],
    points: &[Vec<EF>],
) -> Result<Vec<StatedMatrix<EF, D>>, AllocError>
    requires domains { map (λ d. domain_by (N.shift_of d) (N.log_size_of d)) domains.now
        ≡ map (λ m. domain_committed hides m.domain) batch.now.matrices.items }
    requires points { map (map N.numbers_of) (lists points.now)
        ≡ map (λ m. lists m.points.items) batch.now.matrices.items }
    ensures { IfOk result (λ v.
        map (matrix_stated N.numbers_of N.shift_of N.log_size_of) v.items
        ≡ map (matrix_asked hides) batch.now.matrices.items) }
{
    let mut all = Vec::with_capacity(alloc, batch.matrices.len())?;
    for (index, matrix) in batch.matrices.iter().enumerate() {
        all.push(StatedMatrix {
            domain: domains[index],
            width: matrix.width,
            points: Vec::from_slice(alloc, &points[index])?,
        })?;
    }
    Ok(all)
}

/// What a request states, whose batches have these commitments, domains and points.
pub fn batches_stated<EF: Copy, D: Copy, N: Numbered<EF, D>>(
    alloc: Global,
    hides: bool,
    known: &[KnownCommitment<[u8; 32], D>],
    points: &[Vec<Vec<EF>>],
    batches: &[Batch],
) -> Result<Vec<StatedCommitment<EF, D>>, AllocError>
    requires domains { map (λ k. map (λ d. domain_by (N.shift_of d) (N.log_size_of d))
        k.domains.items) known.now
        ≡ map (λ b. map (λ m. domain_committed hides m.domain) b.matrices.items) batches.now }
    requires points { map (map (map N.numbers_of)) (nested points.now)
        ≡ map (λ batch. map (λ m. lists m.points.items) batch.matrices.items) batches.now }
    ensures { IfOk result (λ v.
        map (commitment_stated N.numbers_of N.shift_of N.log_size_of) v.items
        ≡ zip_with (batch_asked hides) (map (λ k. k.commitment) known.now) batches.now) }
{
    let mut stated = Vec::with_capacity(alloc, batches.len())?;
    for (index, batch) in batches.iter().enumerate() {
        let kept = &known[index];
        stated.push(StatedCommitment {
            commitment: kept.commitment,
            matrices: matrices_asked::<EF, D, N>(
                alloc,
                batch,
                hides,
                &kept.domains,
                &points[index],
            )?,
        })?;
    }
    Ok(stated)
}

/// The challenger, once it has absorbed a statement of this context, of these parameters and of
/// these commitments.
pub fn bound_challenger<F: Sha256Field + TwoAdicField, EF: ExtensionField<F>>(
    alloc: Global,
    begun: Sha256Challenger<F>,
    context: &[u8],
    parameters: &Parameters,
    commitments: &[StatedCommitment<EF, Coset<F>>],
) -> Result<Sha256Challenger<F>, AllocError>
    ensures { IfOk result (λ c. c ≡ bound_by F.ORDER_U64 F.canonical F.ops begun context.now
        (parameters_in parameters.now)
        (map (commitment_stated (λ x. map F.canonical (EF.coefficients x))
        (λ d. F.canonical d.shift) (λ d. d.log_size)) commitments.now)) }
{
    let mut challenger = begun;
    absorb_statement::<F, EF, Rounds<EF>>(
        alloc,
        &mut challenger,
        context,
        &fri_parameters::<EF>(parameters),
        commitments,
    )?;
    Ok(challenger)
}

/// The claims of records, and the challenger once it has absorbed their statement of this context,
/// a hex text.
pub(crate) fn read_statement<F: SchemeField>(
    alloc: Global,
    begun: Sha256Challenger<F>,
    context: &str,
    parameters: &Parameters,
    records: &[BatchClaims],
) -> Result<(Claims<F>, Sha256Challenger<F>), ReadError>
    ensures numbers { IfOk result (λ read. map (batch_numbers ⟦<F as SchemeParts>⟧.fields
        (λ d. d.shift) (λ d. d.log_size)) (map claim read.0.items)
        ≡ map batch_listed records.now) }
    ensures state { IfOk result (λ read. read.1 ≡ state_bound ⟦<F as SchemeParts>⟧.fields begun
        context.now parameters.now records.now) }
    ensures context { IfOk result (λ _. IsContext context.now) }
    ensures claims { IfOk result (λ _. AreClaims ⟦<F as SchemeParts>⟧.fields records.now) }
    ensures refused { IfErr result (IfMalformed
        (¬ (IsContext context.now × AreClaims ⟦<F as SchemeParts>⟧.fields records.now))) }
{
    let claims = claims_in::<F::Extension, Coset<F>, F>(alloc, records)?;
    let stated = claims_stated::<F::Extension, Coset<F>, F>(alloc, &claims)?;
    let bytes = context_of(alloc, context)?;
    let challenger = bound_challenger(alloc, begun, &bytes, parameters, &stated)?;
    Ok((claims, challenger))
}

/// The coefficients' numbers of the element of the extension that a fresh challenger draws once it
/// has absorbed these bytes. Whoever keeps the bytes of all that was sent draws challenges between
/// commitments by it, and hands the same bytes to `open` and `verify` as the context.
pub fn challenge<F: SchemeField>(alloc: Global, context: &[u8]) -> Result<Vec<u64>, AllocError>
    ensures { let f = ⟦<F as SchemeParts>⟧.fields in IfOk result (λ v.
        v.items ≡ extension_numbers f (challenge_of (prime_fields f) context.now)) }
{
    let challenge = challenge_after::<F, F::Extension>(alloc, context)?;
    coefficients::<F, F::Extension>(alloc, challenge)
}

/// The coefficients' numbers of the element of the extension that the challenger draws next.
pub fn next_drawn<F: Sha256Field, EF: ExtensionField<F>>(
    alloc: Global,
    challenger: &mut Sha256Challenger<F>,
) -> Result<Vec<u64>, AllocError>
    ensures { let f = ⟦<EF as StatedField<F>>⟧.prime_fields in IfOk result (λ v. v.items
        ≡ coefficient_numbers f ((sha256_moves f).draw_element challenger.old).value) }
{
    let next: EF = FieldChallenger::<F>::sample_algebra_element(challenger);
    coefficients::<F, EF>(alloc, next)
}
