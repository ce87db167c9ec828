//! The inverse differences of all points at which matrices are opened.

ghost use Rattle.std.specs.Prelude.{◌≡◌, ◌≤◌, ◌↔◌, ◌⊎◌, All, Contains, IsTrue, IfOk, map, vec_len};
ghost use Rattle.std.specs.List.{Any};
ghost use Rattle.algebra.specs.Interpolation.{AreDistinct};
ghost use Rattle.p3_fri_openings.specs.Rounds.{HasCoset, HasHeight, IsRound, log_height};
ghost use Rattle.p3_fri_openings.specs.Refusals.{ArePointsOff};
ghost use Rattle.p3_fri_openings.specs.Points.{asked_points};
ghost use Rattle.p3_fri_openings.specs.Denominators.{AreInverses, ArePointsCovered, HoldsCosets};
ghost use Rattle.p3_fri_openings.specs.Denominators.{points_of_table, size_of};
ghost use Rattle.p3_fri_openings.specs.Denominators.{HasDenominators, IsGreatestCoset, IsTableFor};

use crate::asked_points::{AskedPoint, asked_points, tallest_at};
use crate::checks::are_equal;
use crate::denominators::{PointDenominators, denominators_of_point};
use crate::round::OpeningRound;
use p3_field_core::{
    ExtensionField, Field, TwoAdicField, TwoAdicMultiplicativeCoset, log2_strict_usize,
};
use p3_fri_relation::setting::ChallengeField;
use p3_matrix::RowMajorMatrix;
use std::alloc::{AllocError, Global};

/// What divides the openings of some rounds.
#[derive(Drop)]
pub struct Denominators<F, EF> {
    /// The points of the greatest coset on which a matrix stands, in bit-reversed order: they begin
    /// with those of each smaller one.
    pub coset: Vec<F>,
    /// For each point at which a matrix is opened its inverse differences, of the tallest.
    pub entries: Vec<PointDenominators<EF>>,
}

/// The greatest log height of these matrices, 0 if there is none.
fn greatest_log_height_of<F: TwoAdicField>(matrices: &[RowMajorMatrix<F>]) -> usize
    requires cosets { All (HasCoset F.TWO_ADICITY) matrices.now }
    ensures greatest { All (λ m. log_height m ≤ result) matrices.now }
    ensures attained { (result ≡ 0) ⊎ Any (λ m. log_height m ≡ result) matrices.now }
    ensures within { result ≤ F.TWO_ADICITY }
{
    let mut greatest = 0;
    for matrix in matrices {
        greatest = log2_strict_usize(matrix.height()).max(greatest);
    }
    greatest
}

/// The greatest log height of all matrices, 0 if there is none.
fn greatest_log_height<F: TwoAdicField, EF: ExtensionField<F>>(
    rounds: &[OpeningRound<'_, F, EF>],
) -> usize
    requires rounds { All (IsRound F.TWO_ADICITY) rounds.now }
    ensures greatest { All (λ r. All (λ m. log_height m ≤ result) r.matrices.now) rounds.now }
    ensures attained { (result ≡ 0) ⊎ Any (HasHeight result) rounds.now }
    ensures within { result ≤ F.TWO_ADICITY }
{
    let mut greatest = 0;
    for round in rounds {
        greatest = greatest_log_height_of(round.matrices).max(greatest);
    }
    greatest
}

/// The points of the greatest coset on which a matrix stands, in bit-reversed order.
fn greatest_coset<F: TwoAdicField, EF: ExtensionField<F>>(
    alloc: Global,
    rounds: &[OpeningRound<'_, F, EF>],
) -> Result<Vec<F>, AllocError>
    requires rounds { All (IsRound F.TWO_ADICITY) rounds.now }
    ensures holds { IfOk result (λ coset.
        All (HoldsCosets ⟦<EF as ChallengeField<F>>⟧.fields coset.items) rounds.now) }
    ensures greatest { IfOk result (λ coset.
        IsGreatestCoset ⟦<EF as ChallengeField<F>>⟧.fields coset.items rounds.now) }
{
    let coset = TwoAdicMultiplicativeCoset {
        shift: F::GENERATOR,
        log_size: greatest_log_height(rounds),
    };
    coset.bit_reversed_points(alloc)
}

/// Whether some entry is of the point.
fn has_entry<EF: Field>(table: &[PointDenominators<EF>], point: EF) -> bool
    ensures { IsTrue result ↔ Contains (points_of_table table.now) point }
{
    for entry in table {
        if are_equal(entry.point, point) {
            return true;
        }
    }
    false
}

/// Adds an entry of the point, unless there is one. `coset` begins with the cosets of all matrices.
fn add_point<F: TwoAdicField, EF: ExtensionField<F>>(
    alloc: Global,
    table: &mut Vec<PointDenominators<EF>>,
    coset: &[F],
    asked: &[AskedPoint<EF>],
    point: EF,
) -> Result<(), AllocError>
    requires asked { All (HasDenominators ⟦<EF as ChallengeField<F>>⟧.fields coset.now) asked.now }
    requires point { Contains (map (λ a. a.point) asked.now) point }
    requires table { IsTableFor ⟦<EF as ChallengeField<F>>⟧.fields asked.now table.old.items }
    ensures table { IfOk result (λ _.
        IsTableFor ⟦<EF as ChallengeField<F>>⟧.fields asked.now table.new.items) }
    ensures point { IfOk result (λ _. Contains (points_of_table table.new.items) point) }
    ensures others { IfOk result (λ _. (z : EF) → Contains (points_of_table table.old.items) z
        → Contains (points_of_table table.new.items) z) }
{
    if has_entry(table, point) {
        return Ok(());
    }
    let height = tallest_at(asked, point);
    table.push(denominators_of_point(alloc, coset, height, point)?)?;
    Ok(())
}

/// An entry for each of these points. `coset` begins with the cosets of all matrices.
fn entries_for<F: TwoAdicField, EF: ExtensionField<F>>(
    alloc: Global,
    coset: &[F],
    asked: &[AskedPoint<EF>],
) -> Result<Vec<PointDenominators<EF>>, AllocError>
    requires { All (HasDenominators ⟦<EF as ChallengeField<F>>⟧.fields coset.now) asked.now }
    ensures table { IfOk result (λ entries.
        IsTableFor ⟦<EF as ChallengeField<F>>⟧.fields asked.now entries.items) }
    ensures each_point { IfOk result (λ entries.
        All (λ a. Contains (points_of_table entries.items) a.point) asked.now) }
{
    let mut entries = Vec::new(alloc);
    for matrix in asked {
        add_point(alloc, &mut entries, coset, asked, matrix.point)?;
    }
    Ok(entries)
}

/// The inverse differences of each point at which some matrix is opened, by one batched inversion
/// for each distinct point, for the tallest matrix opened there; and the coset's points. No point
/// lies in its matrix's coset.
pub fn denominators_of_rounds<F: TwoAdicField, EF: ExtensionField<F>>(
    alloc: Global,
    rounds: &[OpeningRound<'_, F, EF>],
) -> Result<Denominators<F, EF>, AllocError>
    requires rounds { All (IsRound F.TWO_ADICITY) rounds.now }
    requires off { All (ArePointsOff ⟦<EF as ChallengeField<F>>⟧.fields) rounds.now }
    ensures coset { IfOk result (λ d.
        All (HoldsCosets ⟦<EF as ChallengeField<F>>⟧.fields d.coset.items) rounds.now) }
    ensures greatest { IfOk result (λ d.
        IsGreatestCoset ⟦<EF as ChallengeField<F>>⟧.fields d.coset.items rounds.now) }
    ensures inverses { IfOk result (λ d.
        All (AreInverses ⟦<EF as ChallengeField<F>>⟧.fields) d.entries.items) }
    ensures covered { IfOk result (λ d. All (ArePointsCovered d.entries.items) rounds.now) }
    ensures each_point_once { IfOk result (λ d. AreDistinct (points_of_table d.entries.items)) }
    ensures none_larger { IfOk result (λ d.
        All (λ entry. Contains (asked_points rounds.now) (size_of entry)) d.entries.items) }
{
    let coset = greatest_coset(alloc, rounds)?;
    let asked = asked_points(alloc, rounds)?;
    let entries = entries_for(alloc, &coset, &asked)?;
    Ok(Denominators { coset, entries })
}
