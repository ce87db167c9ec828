//! Values of committed polynomials and tables of inverse differences. The values are those of the
//! polynomials by hand.

use crate::rounds::{Held, extended, lent, matrix, open};
use p3_field::{BabyBear, BabyBear4, ExtensionField, Field};
use p3_fri_folding::FriProverError;
use p3_fri_openings::{Denominators, OpeningRound};
use p3_mmcs::OpenedValues;
use std::alloc::Global;
use std::process::Abort;

/// The coefficients of an element, that of one first.
pub(crate) type Coefficients = [u64; 4];

/// What numbers of a matrix are.
#[derive(Clone, Copy)]
pub(crate) enum Form {
    /// A column, extended by so many bits.
    Column(usize),
    /// Words of so many columns.
    Words(usize),
}

/// The matrices of a round, and the points of each.
pub(crate) struct Round {
    pub matrices: &'static [(&'static [u64], Form)],
    pub points: &'static [&'static [Coefficients]],
}

/// Of each matrix of a round the values of its one column.
type Values<'a> = &'a [&'a [u64]];

/// What comes of an opening.
pub(crate) enum Expected {
    Opened {
        values: &'static [Values<'static>],
        /// How many points the greatest coset has.
        coset: usize,
        /// Each point, and how many inverse differences stand for it.
        points: &'static [(Coefficients, usize)],
    },
    /// The words of the quotients.
    Words(&'static [&'static [Coefficients]]),
    Refused(FriProverError),
}

/// What is opened with blowup 2.
pub(crate) struct Case {
    pub name: &'static str,
    pub rounds: &'static [Round],
    pub expected: Expected,
}

/// A column, extended by a bit.
const COLUMN: Form = Form::Column(1);

/// The values of `2 - X`.
const LINE: [u64; 2] = [1, 3];

/// The values of `X^2`.
const SQUARE: [u64; 4] = [1, 2_013_265_920, 1, 2_013_265_920];

const ZERO: Coefficients = [0; 4];

const TWO: Coefficients = [2, 0, 0, 0];

const FIVE: Coefficients = [5, 0, 0, 0];

const SEVEN: Coefficients = [7, 0, 0, 0];

/// The generator, by which cosets are shifted.
const SHIFT: Coefficients = [31, 0, 0, 0];

static CASES: [Case; 5] = [
    Case {
        name: "a column at points in their order",
        rounds: &[Round {
            matrices: &[(&LINE, COLUMN)],
            points: &[&[FIVE, SEVEN]],
        }],
        expected: Expected::Opened {
            values: &[&[&[2_013_265_918, 2_013_265_916]]],
            coset: 4,
            points: &[(FIVE, 4), (SEVEN, 4)],
        },
    },
    Case {
        name: "a constant at any point",
        rounds: &[Round {
            matrices: &[(&[9], COLUMN)],
            points: &[&[TWO, ZERO]],
        }],
        expected: Expected::Opened {
            values: &[&[&[9, 9]]],
            coset: 2,
            points: &[(TWO, 2), (ZERO, 2)],
        },
    },
    Case {
        name: "rounds and matrices in their order",
        rounds: &[
            Round {
                matrices: &[],
                points: &[],
            },
            Round {
                matrices: &[(&SQUARE, COLUMN), (&LINE, COLUMN)],
                points: &[&[FIVE], &[FIVE, SEVEN]],
            },
            Round {
                matrices: &[(&LINE, COLUMN)],
                points: &[&[SEVEN]],
            },
        ],
        expected: Expected::Opened {
            values: &[
                &[],
                &[&[25], &[2_013_265_918, 2_013_265_916]],
                &[&[2_013_265_916]],
            ],
            coset: 8,
            points: &[(FIVE, 8), (SEVEN, 4)],
        },
    },
    // a matrix that is lower than the blowup stands for no polynomial
    Case {
        name: "one point of several heights",
        rounds: &[Round {
            matrices: &[
                (&[9], Form::Column(0)),
                (&[9, 9], Form::Column(0)),
                (&[4; 8], Form::Column(0)),
            ],
            points: &[&[FIVE], &[FIVE], &[FIVE]],
        }],
        expected: Expected::Opened {
            values: &[&[&[0], &[9], &[4]]],
            coset: 8,
            points: &[(FIVE, 8)],
        },
    },
    Case {
        name: "the generator lies in each coset",
        rounds: &[Round {
            matrices: &[(&LINE, COLUMN)],
            points: &[&[SHIFT]],
        }],
        expected: Expected::Refused(FriProverError::PointInEvaluationDomain {
            round: 0,
            matrix: 0,
            point: 0,
        }),
    },
];

/// By whose powers columns are batched.
const ALPHA: Coefficients = [7, 1, 0, 2];

/// The element of these coefficients.
fn element(coefficients: Coefficients) -> BabyBear4 {
    let [constant, linear, quadratic, cubic] = coefficients;
    BabyBear4::from_coefficients(&[
        BabyBear::from_u64(constant),
        BabyBear::from_u64(linear),
        BabyBear::from_u64(quadratic),
        BabyBear::from_u64(cubic),
    ])
}

/// The lists of these coefficients' elements.
pub(crate) fn lists(
    rt: &impl Abort,
    alloc: Global,
    all: &[&[Coefficients]],
) -> Vec<Vec<BabyBear4>> {
    let mut lists = Vec::new(alloc);
    for each in all {
        let mut list = Vec::new(alloc);
        for coefficients in *each {
            list.push(element(*coefficients)).expect(rt, "memory");
        }
        lists.push(list).expect(rt, "memory");
    }
    lists
}

/// Values of matrices of one column, by round, matrix and point.
fn values_of(rt: &impl Abort, alloc: Global, rounds: &[Values<'_>]) -> OpenedValues<BabyBear4> {
    let mut all = Vec::new(alloc);
    for each in rounds {
        let mut round = Vec::new(alloc);
        for numbers in *each {
            let mut points = Vec::new(alloc);
            for number in *numbers {
                let values = vec![in alloc; element([*number, 0, 0, 0])];
                points
                    .push(values.expect(rt, "memory"))
                    .expect(rt, "memory");
            }
            round.push(points).expect(rt, "memory");
        }
        all.push(round).expect(rt, "memory");
    }
    all
}

/// Whether each stands for the inverse of the point's difference to a point of the coset.
fn are_inverses(point: BabyBear4, coset: &[BabyBear], inverses: &[BabyBear4]) -> bool {
    for (coset_point, inverse) in coset.iter().zip(inverses) {
        if (point - BabyBear4::from_base(*coset_point)) * *inverse != BabyBear4::ONE {
            return false;
        }
    }
    true
}

/// Whether the denominators are of these points.
fn are_denominators(
    denominators: &Denominators<BabyBear, BabyBear4>,
    points: &[(Coefficients, usize)],
) -> bool {
    for (entry, (point, count)) in denominators.entries.iter().zip(points) {
        if entry.point != element(*point)
            || entry.inverses.len() != *count
            || !are_inverses(entry.point, &denominators.coset, &entry.inverses)
        {
            return false;
        }
    }
    denominators.entries.len() == points.len()
}

/// Whether that comes of the rounds.
pub(crate) fn is_opened(
    rt: &impl Abort,
    alloc: Global,
    rounds: &[OpeningRound<'_, BabyBear, BabyBear4>],
    expected: &Expected,
) -> bool {
    match (open(rt, alloc, element(ALPHA), rounds), expected) {
        (
            Ok((values, denominators, _words)),
            Expected::Opened {
                values: each,
                coset,
                points,
            },
        ) => {
            values == values_of(rt, alloc, *each)
                && denominators.coset.len() == *coset
                && are_denominators(&denominators, *points)
        },
        (Ok((_values, _denominators, words)), Expected::Words(all)) => {
            words == lists(rt, alloc, *all)
        },
        (Err(refusal), Expected::Refused(expected)) => refusal == *expected,
        _ => false,
    }
}

/// What each round holds.
fn hold(rt: &impl Abort, alloc: Global, rounds: &[Round]) -> Vec<Held> {
    let mut all = Vec::new(alloc);
    for round in rounds {
        let mut matrices = Vec::new(alloc);
        for (numbers, form) in round.matrices {
            let matrix = match form {
                Form::Column(log_blowup) => extended(rt, alloc, *log_blowup, *numbers),
                Form::Words(width) => matrix(rt, alloc, *numbers, *width),
            };
            matrices.push(matrix).expect(rt, "memory");
        }
        let points = lists(rt, alloc, round.points);
        all.push(Held { matrices, points }).expect(rt, "memory");
    }
    all
}

/// Whether that comes of the case's rounds.
pub(crate) fn is_met(rt: &impl Abort, alloc: Global, case: &Case) -> bool {
    let held = hold(rt, alloc, case.rounds);
    is_opened(rt, alloc, &lent(rt, alloc, &held), &case.expected)
}

#[test]
fn columns_are_opened(rt: HostRuntime) {
    for case in &CASES {
        assert!(rt; is_met(&rt, rt.alloc(), case), "{}", case.name);
    }
}
