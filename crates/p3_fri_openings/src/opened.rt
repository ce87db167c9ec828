//! The values of all committed polynomials at the points at which they are opened.

ghost use Rattle.std.specs.Prelude.{◌≡◌, All, IfOk, length, map};
ghost use Rattle.algebra.specs.Nested.{lists, nested};
ghost use Rattle.p3_matrix.specs.Matrix.{rows};
ghost use Rattle.p3_pcs.specs.Claims.{opened_values};
ghost use Rattle.p3_fri_openings.specs.Rounds.{HasCoset, IsRound, log_height};
ghost use Rattle.p3_fri_openings.specs.Refusals.{IsOff, ArePointsOff};
ghost use Rattle.p3_fri_openings.specs.Committed.{coset_of, committed_values};
ghost use Rattle.p3_fri_openings.specs.Sums.{StartsWith};
ghost use Rattle.p3_fri_openings.specs.Denominators.{AreInverses, IsCovered};
ghost use Rattle.p3_fri_openings.specs.Denominators.{ArePointsCovered, HoldsCosets};
ghost use Rattle.p3_fri_openings.specs.Opened.{values_asked};

use crate::all_points::Denominators;
use crate::denominators::inverses_at;
use crate::round::OpeningRound;
use crate::values::values_at_point;
use p3_field_core::{ExtensionField, TwoAdicField};
use p3_fri_relation::setting::ChallengeField;
use p3_matrix::RowMajorMatrix;
use p3_mmcs::OpenedValues;
use std::alloc::{AllocError, Global};

/// The values of a matrix's polynomials at each of these points.
fn values_at_points<F: TwoAdicField, EF: ExtensionField<F>>(
    alloc: Global,
    log_blowup: usize,
    matrix: &RowMajorMatrix<F>,
    points: &[EF],
    denominators: &Denominators<F, EF>,
) -> Result<Vec<Vec<EF>>, AllocError>
    requires height { HasCoset F.TWO_ADICITY matrix.now }
    requires off { All (IsOff ⟦<EF as ChallengeField<F>>⟧.fields (log_height matrix.now))
        points.now }
    requires coset { StartsWith denominators.now.coset.items
        (coset_of ⟦<EF as ChallengeField<F>>⟧.fields (length (rows matrix.now))) }
    requires inverses { All (AreInverses ⟦<EF as ChallengeField<F>>⟧.fields)
        denominators.now.entries.items }
    requires covered { All (IsCovered (length (rows matrix.now)) denominators.now.entries.items)
        points.now }
    ensures { IfOk result (λ values. lists values.items ≡ map
        (committed_values ⟦<EF as ChallengeField<F>>⟧.fields log_blowup matrix.now) points.now) }
{
    let mut values = Vec::with_capacity(alloc, points.len())?;
    for point in points {
        let inverses = inverses_at::<F, EF>(&denominators.entries, *point, matrix.height());
        let coset = &denominators.coset;
        values.push(values_at_point(alloc, log_blowup, matrix, coset, inverses, *point)?)?;
    }
    Ok(values)
}

/// The values of the polynomials of a round's matrices at their points.
fn values_of_round<F: TwoAdicField, EF: ExtensionField<F>>(
    alloc: Global,
    log_blowup: usize,
    round: &OpeningRound<'_, F, EF>,
    denominators: &Denominators<F, EF>,
) -> Result<Vec<Vec<Vec<EF>>>, AllocError>
    requires round { IsRound F.TWO_ADICITY round.now }
    requires off { ArePointsOff ⟦<EF as ChallengeField<F>>⟧.fields round.now }
    requires coset { HoldsCosets ⟦<EF as ChallengeField<F>>⟧.fields denominators.now.coset.items
        round.now }
    requires inverses { All (AreInverses ⟦<EF as ChallengeField<F>>⟧.fields)
        denominators.now.entries.items }
    requires covered { ArePointsCovered denominators.now.entries.items round.now }
    ensures { IfOk result (λ values. nested values.items
        ≡ values_asked ⟦<EF as ChallengeField<F>>⟧.fields log_blowup round.now) }
{
    let mut values = Vec::with_capacity(alloc, round.matrices.len())?;
    for index in 0..round.matrices.len() {
        let matrix = &round.matrices[index];
        let points = round.points[index].as_slice();
        values.push(values_at_points(alloc, log_blowup, matrix, points, denominators)?)?;
    }
    Ok(values)
}

/// The values of all committed polynomials at the points at which their matrices are opened, by
/// round, matrix, point and column, where the denominators are those of the rounds.
pub fn open_values<F: TwoAdicField, EF: ExtensionField<F>>(
    alloc: Global,
    log_blowup: usize,
    rounds: &[OpeningRound<'_, F, EF>],
    denominators: &Denominators<F, EF>,
) -> Result<OpenedValues<EF>, AllocError>
    requires rounds { All (IsRound F.TWO_ADICITY) rounds.now }
    requires off { All (ArePointsOff ⟦<EF as ChallengeField<F>>⟧.fields) rounds.now }
    requires coset { All (HoldsCosets ⟦<EF as ChallengeField<F>>⟧.fields
        denominators.now.coset.items) rounds.now }
    requires inverses { All (AreInverses ⟦<EF as ChallengeField<F>>⟧.fields)
        denominators.now.entries.items }
    requires covered { All (ArePointsCovered denominators.now.entries.items) rounds.now }
    ensures { IfOk result (λ values. opened_values values.items
        ≡ map (values_asked ⟦<EF as ChallengeField<F>>⟧.fields log_blowup) rounds.now) }
{
    let mut values = Vec::with_capacity(alloc, rounds.len())?;
    for round in rounds {
        values.push(values_of_round(alloc, log_blowup, round, denominators)?)?;
    }
    Ok(values)
}
