//! The points that queries read, and how far the claimed points are from them.

ghost use Rattle.std.specs.Prelude.{◌≡◌, ◌≢◌, ◌<◌, ◌≤◌, ◌+◌, ◌-◌, ◌/◌, ◌^◌, ℕ, length, map, ◌++◌};
ghost use Rattle.std.specs.Prelude.{All, EachIndex, IfOk, MatchOption, MatchResult, slice_index};
ghost use Rattle.std.specs.Prelude.{slice_index_or};
ghost use Rattle.std.specs.List.{flat_map, Any};
ghost use Rattle.algebra.specs.Cosets.{coset_pt};
ghost use Rattle.algebra.specs.Field.{sub};
ghost use Rattle.p3_fri_relation.specs.Faults.{At};
ghost use Rattle.p3_fri_relation.specs.Heights.{matrices_of, log_height};
ghost use Rattle.p3_fri_relation.specs.QuotientSums.{point_read, IsDefinedAt};
ghost use Rattle.p3_pcs.specs.Claims.{point_claim};
ghost use Rattle.p3_fri_relation.specs.Views.{claims_of};
ghost use Rattle.p3_fri_inputs.specs.Claims.{claim_of, distances, IsApart};

use p3_field_core::{
    ExtensionField, Field, TwoAdicField, TwoAdicMultiplicativeCoset, batch_multiplicative_inverse,
    reverse_bits_len,
};
use p3_fri_relation::setting::ChallengeField;
use p3_mmcs::{CommitmentOpening, PointOpening};
use std::alloc::{AllocError, Global};

/// A claimed point that a query reads.
#[derive(Drop)]
pub struct PointRead {
    pub batch: usize,
    pub matrix: usize,
    pub point: usize,
}

/// Puts into `read`, for each log height up to `log_global_max_height`, the point of the coset of
/// that log height at which `position` reads. Each is the square of the next higher one, apart from
/// the shift, so that one power serves for all.
fn read_points<F: TwoAdicField>(read: &mut [F], log_global_max_height: usize, position: usize)
    requires within_two_adicity { log_global_max_height ≤ F.TWO_ADICITY }
    requires heights { length read.old ≡ log_global_max_height + 1 }
    ensures { (h : ℕ) (d : F) → h ≤ log_global_max_height → slice_index_or read.new h d
        ≡ coset_pt F.ops F.root F.GENERATOR (position / 2 ^ (log_global_max_height - h)) h }
{
    let exponent = reverse_bits_len(position, log_global_max_height) as u64;
    let mut point = F::two_adic_generator(log_global_max_height).exp_u64(exponent);
    for h in (0..read.len()).rev() {
        read[h] = F::GENERATOR * point;
        point = point.square();
    }
}

/// Adds to `differences` how far each claimed point is from the one read, up to a point that is the
/// one read, which is the answer.
fn push_distances<F: TwoAdicField, EF: ExtensionField<F>>(
    differences: &mut Vec<EF>,
    read: F,
    points: &[PointOpening<EF>],
) -> Result<Option<usize>, AllocError>
    ensures { IfOk result (λ met. MatchOption met
        ((All (λ z. z.point ≢ EF.lift read) (map point_claim points.now))
        × (differences.new.items ≡ differences.old.items
        ++ map (λ z. sub EF.ops z.point (EF.lift read)) (map point_claim points.now)))
        (λ k. At k (λ z. z.point ≡ EF.lift read) (map point_claim points.now))) }
{
    let x = EF::from_base(read);
    for k in 0..points.len() {
        let distance = points[k].point - x;
        if distance.is_zero() {
            return Ok(Some(k));
        }
        differences.push(distance)?;
    }
    Ok(None)
}

/// The same for the matrices under one commitment, of the points that `read` has by log height. The
/// answer is the matrix and the point that is the one read.
fn push_commitment<F: TwoAdicField, EF: ExtensionField<F>, Com>(
    differences: &mut Vec<EF>,
    read: &[F],
    log_blowup: usize,
    claim: &CommitmentOpening<EF, Com, TwoAdicMultiplicativeCoset<F>>,
) -> Result<Option<(usize, usize)>, AllocError>
    requires heights { All (λ m. log_height log_blowup m < length read.now)
        (claim_of (λ domain. domain.log_size) claim.now).matrices }
    ensures { let c = claim_of (λ domain. domain.log_size) claim.now in
        let x = λ (h : ℕ). EF.lift (slice_index_or read.now h F.ops.zero) in
        IfOk result (λ met. MatchOption met
        ((All (IsApart log_blowup x) c.matrices) × (differences.new.items ≡ differences.old.items
        ++ distances EF.ops log_blowup x c.matrices))
        (λ place. At place.0 (λ m. At place.1 (λ z. z.point ≡ x (log_height log_blowup m)) m.points)
        c.matrices)) }
{
    for k in 0..claim.matrices.len() {
        let matrix = &claim.matrices[k];
        let x = read[matrix.domain.log_size + log_blowup];
        if let Some(point) = push_distances(differences, x, &matrix.points)? {
            return Ok(Some((k, point)));
        }
    }
    Ok(None)
}

/// The same for all commitments. The answer is the commitment, the matrix and the point.
fn push_claims<F: TwoAdicField, EF: ExtensionField<F>, Com>(
    differences: &mut Vec<EF>,
    read: &[F],
    log_blowup: usize,
    claims: &[CommitmentOpening<EF, Com, TwoAdicMultiplicativeCoset<F>>],
) -> Result<Option<(usize, usize, usize)>, AllocError>
    requires { All (λ m. log_height log_blowup m < length read.now)
        (matrices_of (claims_of (λ domain. domain.log_size) claims.now)) }
    ensures { let cs = claims_of (λ domain. domain.log_size) claims.now in
        let x = λ (h : ℕ). EF.lift (slice_index_or read.now h F.ops.zero) in
        IfOk result (λ met. MatchOption met
        ((All (IsApart log_blowup x) (matrices_of cs)) × (differences.new.items
        ≡ differences.old.items ++ distances EF.ops log_blowup x (matrices_of cs)))
        (λ place. At place.0 (λ c. At place.1 (λ m. At place.2 (λ z.
        z.point ≡ x (log_height log_blowup m)) m.points) c.matrices) cs)) }
{
    for batch in 0..claims.len() {
        if let Some((matrix, point)) = push_commitment(
            differences,
            read,
            log_blowup,
            &claims[batch],
        )? {
            return Ok(Some((batch, matrix, point)));
        }
    }
    Ok(None)
}

/// The same for all queries, in their order. `read` is where the points read stand meanwhile.
fn push_queries<F: TwoAdicField, EF: ExtensionField<F>, Com>(
    differences: &mut Vec<EF>,
    read: &mut [F],
    log_blowup: usize,
    log_global_max_height: usize,
    indices: &[usize],
    claims: &[CommitmentOpening<EF, Com, TwoAdicMultiplicativeCoset<F>>],
) -> Result<Option<(usize, usize, usize)>, AllocError>
    requires within_two_adicity { log_global_max_height ≤ F.TWO_ADICITY }
    requires heights { All (λ m. log_height log_blowup m ≤ log_global_max_height)
        (matrices_of (claims_of (λ domain. domain.log_size) claims.now)) }
    requires table { length read.old ≡ log_global_max_height + 1 }
    ensures { let f = ⟦<EF as ChallengeField<F>>⟧.fields in
        let cs = claims_of (λ domain. domain.log_size) claims.now in
        let x = λ (q : ℕ). point_read f log_global_max_height q in
        IfOk result (λ met. MatchOption met
        (((j : ℕ) → j < length indices.now → (d : ℕ) →
        All (IsApart log_blowup (x (slice_index_or indices.now j d))) (matrices_of cs))
        × (differences.new.items ≡ differences.old.items ++ flat_map (λ q.
        distances EF.ops log_blowup (x q) (matrices_of cs)) indices.now))
        (λ place. At place.0 (λ c. At place.1 (λ m. At place.2 (λ z. Any (λ q.
        z.point ≡ x q (log_height log_blowup m)) indices.now) m.points) c.matrices) cs)) }
{
    for j in 0..indices.len() {
        read_points(read, log_global_max_height, indices[j]);
        if let Some(place) = push_claims(differences, read, log_blowup, claims)? {
            return Ok(Some(place));
        }
    }
    Ok(None)
}

/// The inverses of how far the claimed points are from those read, query by query, all by one
/// inversion; or a claimed point that is one of those read.
pub fn inverse_distances<F: TwoAdicField, EF: ExtensionField<F>, Com>(
    alloc: Global,
    log_blowup: usize,
    log_global_max_height: usize,
    indices: &[usize],
    claims: &[CommitmentOpening<EF, Com, TwoAdicMultiplicativeCoset<F>>],
) -> Result<Result<Vec<EF>, PointRead>, AllocError>
    requires within_two_adicity { log_global_max_height ≤ F.TWO_ADICITY }
    requires heights { All (λ m. log_height log_blowup m ≤ log_global_max_height)
        (matrices_of (claims_of (λ domain. domain.log_size) claims.now)) }
    ensures { let f = ⟦<EF as ChallengeField<F>>⟧.fields in
        let cs = claims_of (λ domain. domain.log_size) claims.now in
        let x = λ (q : ℕ). point_read f log_global_max_height q in
        IfOk result (λ found. MatchResult found
        (λ inverses. (EachIndex indices.now (λ j.
        IsDefinedAt f log_blowup log_global_max_height cs (slice_index indices.now j)))
        × (inverses.items ≡ map EF.ops.inv (flat_map (λ q.
        distances EF.ops log_blowup (x q) (matrices_of cs)) indices.now)))
        (λ at. At at.batch (λ c. At at.matrix (λ m. At at.point (λ z. Any (λ q.
        z.point ≡ x q (log_height log_blowup m)) indices.now) m.points) c.matrices) cs)) }
{
    let mut differences = Vec::new(alloc);
    let mut read = vec![in alloc; F::ZERO; log_global_max_height + 1]?;
    let met = push_queries(
        &mut differences,
        &mut read,
        log_blowup,
        log_global_max_height,
        indices,
        claims,
    )?;
    if let Some((batch, matrix, point)) = met {
        return Ok(Err(PointRead {
            batch,
            matrix,
            point,
        }));
    }
    let inverses = batch_multiplicative_inverse(alloc, &differences)?;
    Ok(Ok(inverses))
}
