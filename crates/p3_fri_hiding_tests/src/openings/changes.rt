//! What is changed in an opening of preprocessing and a private column.

use crate::matrices::{POINT, element};
use crate::scheme::Domain;
use p3_field::{BabyBear4, Field};
use p3_mmcs::{CommitmentOpening, OpenedValues, PointOpening};
use std::alloc::Global;

/// A change of it.
pub(crate) enum Change {
    Nothing,
    /// Of the private column's random values one is missing.
    OneValueLess,
    /// Preprocessing has a random value.
    OneValueMore,
    /// The private column's random values are of no point.
    NoPoints,
    /// They are of no matrix.
    NoMatrices,
    NoRandomValues,
    /// Preprocessing alone is claimed.
    OneRound,
    /// The private column is claimed at a second point too.
    SecondPoint,
    /// It is claimed on four points.
    LowDomain,
}

/// Changes the random values: those of preprocessing where there is to be one more, else those of
/// the private column.
pub(crate) fn change_random(random: &mut OpenedValues<BabyBear4>, change: &Change) {
    match change {
        Change::NoRandomValues => random.clear(),
        Change::OneRound => random.truncate(1),
        _ => {},
    }
    let round = match change {
        Change::OneValueMore => random.first_mut(),
        _ => random.last_mut(),
    };
    if let Some(round) = round {
        if matches!(change, Change::NoMatrices) {
            round.clear();
        }
        if let Some(points) = round.first_mut() {
            if matches!(change, Change::NoPoints) {
                points.clear();
            }
            if let Some(values) = points.first_mut() {
                match change {
                    Change::OneValueLess => {
                        let _ = values.pop();
                    },
                    Change::OneValueMore => {
                        let _pushed = values.push(BabyBear4::ZERO).is_ok();
                    },
                    _ => {},
                }
            }
        }
    }
}

/// Changes the claims. Where memory is refused a second point isn't claimed.
pub(crate) fn change_claims(
    alloc: Global,
    claims: &mut Vec<CommitmentOpening<BabyBear4, [u8; 32], Domain>>,
    change: &Change,
) {
    if matches!(change, Change::OneRound) {
        claims.truncate(1);
    }
    if let Some(claim) = claims.last_mut() {
        if let Some(matrix) = claim.matrices.first_mut() {
            match change {
                Change::SecondPoint => {
                    let more = PointOpening {
                        point: element(POINT),
                        values: Vec::new(alloc),
                    };
                    let _pushed = matrix.points.push(more).is_ok();
                },
                Change::LowDomain => matrix.domain.log_size = 2,
                _ => {},
            }
        }
    }
}
