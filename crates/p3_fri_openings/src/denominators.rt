//! The inverse differences of points of evaluation and the points of cosets: those of a point once,
//! for the tallest matrix that is opened there.

ghost use Rattle.std.specs.Prelude.{◌≡◌, ◌≤◌, ◌↔◌, All, IsTrue, IfOk, map, vec_len};
ghost use Rattle.std.specs.Int.{IsPowerOfTwo};
ghost use Rattle.algebra.specs.Field.{sub};
ghost use Rattle.p3_fri_openings.specs.Log2.{log2};
ghost use Rattle.p3_fri_openings.specs.Refusals.{IsOff};
ghost use Rattle.p3_fri_openings.specs.Committed.{coset_of, inverse_differences};
ghost use Rattle.p3_fri_openings.specs.Sums.{StartsWith};
ghost use Rattle.p3_fri_openings.specs.Denominators.{AreInverses, IsCovered};

use p3_field_core::{ExtensionField, Field, TwoAdicField, batch_multiplicative_inverse};
use p3_fri_relation::setting::ChallengeField;
use std::alloc::{AllocError, Global};

/// A point, and the inverses of what it is above the points of a coset, in their order.
#[derive(Drop)]
pub struct PointDenominators<EF> {
    pub point: EF,
    pub inverses: Vec<EF>,
}

/// What `point` is above each of these points of the base field.
fn differences<F: Field, EF: ExtensionField<F>>(
    alloc: Global,
    points: &[F],
    point: EF,
) -> Result<Vec<EF>, AllocError>
    ensures { IfOk result (λ differences. differences.items
        ≡ map (λ x. sub EF.ops point (EF.lift x)) points.now) }
{
    let mut differences = Vec::with_capacity(alloc, points.len())?;
    for x in points {
        differences.push(point - EF::from_base(*x))?;
    }
    Ok(differences)
}

/// The inverse differences of a point and the coset of `height` points, in which it doesn't lie.
/// `coset` begins with these, in bit-reversed order.
pub fn denominators_of_point<F: TwoAdicField, EF: ExtensionField<F>>(
    alloc: Global,
    coset: &[F],
    height: usize,
    point: EF,
) -> Result<PointDenominators<EF>, AllocError>
    requires power_of_two { IsPowerOfTwo height }
    requires off { IsOff ⟦<EF as ChallengeField<F>>⟧.fields (log2 height) point }
    requires coset { StartsWith coset.now
        (coset_of ⟦<EF as ChallengeField<F>>⟧.fields height) }
    ensures point { IfOk result (λ entry. entry.point ≡ point) }
    ensures inverses { IfOk result (λ entry. entry.inverses.items
        ≡ inverse_differences ⟦<EF as ChallengeField<F>>⟧.fields point height) }
{
    let differences = differences(alloc, &coset[..height], point)?;
    let inverses = batch_multiplicative_inverse(alloc, &differences)?;
    Ok(PointDenominators { point, inverses })
}

/// Whether this entry is of the point, for a coset of at least `height` points.
fn covers<EF: Field>(entry: &PointDenominators<EF>, point: EF, height: usize) -> bool
    ensures { IsTrue result ↔ ((entry.now.point ≡ point) × (height ≤ vec_len entry.now.inverses)) }
{
    entry.point == point && entry.inverses.len() >= height
}

/// The inverse differences of a point and the coset of `height` points, from the table.
pub fn inverses_at<'a, F: TwoAdicField, EF: ExtensionField<F>>(
    table: &'a [PointDenominators<EF>],
    point: EF,
    height: usize,
) -> &'a [EF]
    requires power_of_two { IsPowerOfTwo height }
    requires inverses { All (AreInverses ⟦<EF as ChallengeField<F>>⟧.fields) table.now }
    requires covered { IsCovered height table.now point }
    ensures { result.now
        ≡ inverse_differences ⟦<EF as ChallengeField<F>>⟧.fields point height }
{
    for entry in table {
        if covers(entry, point, height) {
            return &entry.inverses[..height];
        }
    }
    unreachable!()
}
