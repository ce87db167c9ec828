//! The points at which matrices are opened, with the matrices' heights.

ghost use Rattle.std.specs.Prelude.{◌≡◌, ◌≤◌, ◌<◌, ◌++◌, All, Contains, IfOk, map};
ghost use Rattle.p3_fri_openings.specs.Rounds.{IsRound};
ghost use Rattle.p3_fri_openings.specs.Points.{asked_point, points_in, asked_points};

use crate::checks::are_equal;
use crate::round::OpeningRound;
use p3_field_core::{ExtensionField, Field, TwoAdicField};
use std::alloc::{AllocError, Global};

/// A point, and the height of a matrix that is opened there.
#[derive(Clone, Copy)]
pub struct AskedPoint<EF> {
    pub point: EF,
    pub height: usize,
}

/// Adds the points of a matrix of this height.
fn push_points<EF: Field>(
    asked: &mut Vec<AskedPoint<EF>>,
    points: &[EF],
    height: usize,
) -> Result<(), AllocError>
    ensures { IfOk result (λ _. asked.new.items
        ≡ asked.old.items ++ map (asked_point height) points.now) }
{
    for point in points {
        asked.push(AskedPoint {
            point: *point,
            height,
        })?;
    }
    Ok(())
}

/// Adds the points of a round's matrices.
fn push_round<F: TwoAdicField, EF: ExtensionField<F>>(
    asked: &mut Vec<AskedPoint<EF>>,
    round: &OpeningRound<'_, F, EF>,
) -> Result<(), AllocError>
    requires round { IsRound F.TWO_ADICITY round.now }
    ensures { IfOk result (λ _. asked.new.items ≡ asked.old.items ++ points_in round.now) }
{
    for matrix in 0..round.matrices.len() {
        let height = round.matrices[matrix].height();
        push_points(asked, &round.points[matrix], height)?;
    }
    Ok(())
}

/// The points of all rounds' matrices, in their order.
pub(crate) fn asked_points<F: TwoAdicField, EF: ExtensionField<F>>(
    alloc: Global,
    rounds: &[OpeningRound<'_, F, EF>],
) -> Result<Vec<AskedPoint<EF>>, AllocError>
    requires rounds { All (IsRound F.TWO_ADICITY) rounds.now }
    ensures { IfOk result (λ asked. asked.items ≡ asked_points rounds.now) }
{
    let mut asked = Vec::new(alloc);
    for round in rounds {
        push_round(&mut asked, round)?;
    }
    Ok(asked)
}

/// The height of the matrix, if it is opened at `point`, and 0 otherwise.
fn height_at<EF: Field>(asked: AskedPoint<EF>, point: EF) -> usize
    ensures here { asked.point ≡ point → result ≡ asked.height }
    ensures only_there { 0 < result → asked.point ≡ point }
{
    if are_equal(asked.point, point) {
        asked.height
    } else {
        0
    }
}

/// The height of the tallest matrix that is opened at `point`, 0 if none is.
pub(crate) fn tallest_at<EF: Field>(asked: &[AskedPoint<EF>], point: EF) -> usize
    ensures none_above { All (λ a. a.point ≡ point → a.height ≤ result) asked.now }
    ensures asked_there { 0 < result → Contains asked.now (asked_point result point) }
{
    let mut tallest = 0;
    for matrix in asked {
        tallest = height_at(*matrix, point).max(tallest);
    }
    tallest
}
