//! Openings that are accepted, with the values and the final polynomials worked out by hand.

use crate::asked::{AT_FIVE, Case, Opening, Question, ask};
use crate::numbers::{Points, are_values, constant};
use crate::replayed::replay;
use crate::scheme::{BY_EIGHT, BY_FOUR, Claims, LONGER, PLAIN, Proof};
use p3_challenger::Sha256Challenger;
use p3_field::{BabyBear4, Field};
use p3_mmcs::OpenedValues;
use std::alloc::Global;
use std::process::Abort;

/// The values of `2 - X`.
pub(crate) const LINE: [u64; 2] = [1, 3];

/// The values of `X^2`.
pub(crate) const SQUARE: [u64; 4] = [1, 2_013_265_920, 1, 2_013_265_920];

/// The values of `X^4`.
const FOURTH: [u64; 8] = [
    1,
    2_013_265_920,
    1,
    2_013_265_920,
    1,
    2_013_265_920,
    1,
    2_013_265_920,
];

/// A number times powers of `alpha`, of the first folding challenge and of the second.
type Term = (u64, [u64; 3]);

const ONE: [u64; 3] = [0, 0, 0];

const ALPHA: [u64; 3] = [1, 0, 0];

const BETA: [u64; 3] = [0, 1, 0];

const SECOND: [u64; 3] = [0, 0, 1];

/// What is seen of an opening: its values, the log heights of its words, how many entries a row has
/// that a round folds, and the constant of the final polynomial by the challenges.
pub(crate) struct Seen {
    values: Points<'static>,
    log_heights: &'static [usize],
    arities: &'static [usize],
    last: &'static [Term],
}

/// The quotient of `2 - X` is -1.
const OF_LINE: Seen = Seen {
    values: &[&[&[2_013_265_918]]],
    log_heights: &[2],
    arities: &[2],
    last: &[(2_013_265_920, ONE)],
};

/// The two quotients of `2 - X`.
const TWO_LINES: &[Term] = &[(2_013_265_920, ONE), (2_013_265_920, ALPHA)];

/// The quotient of `9` is zero.
const OF_CONSTANT: Seen = Seen {
    values: &[&[&[9]]],
    log_heights: &[1],
    arities: &[],
    last: &[],
};

static CASES: [Case; 11] = [
    Case {
        setting: PLAIN,
        batches: &[&[&LINE]],
        openings: &[Opening {
            name: "a line at one point",
            seen: Some(OF_LINE),
            ..AT_FIVE
        }],
    },
    Case {
        setting: PLAIN,
        batches: &[&[&[9]]],
        openings: &[Opening {
            name: "a constant",
            points: &[&[&[2]]],
            seen: Some(OF_CONSTANT),
            ..AT_FIVE
        }],
    },
    Case {
        setting: PLAIN,
        batches: &[&[&[9]]],
        openings: &[Opening {
            name: "a constant at zero",
            points: &[&[&[0]]],
            seen: Some(OF_CONSTANT),
            ..AT_FIVE
        }],
    },
    Case {
        setting: BY_FOUR,
        batches: &[&[&SQUARE]],
        openings: &[Opening {
            name: "a square folded by four",
            setting: BY_FOUR,
            verifier: BY_FOUR,
            // its quotient at 5, folded
            seen: Some(Seen {
                values: &[&[&[25]]],
                log_heights: &[3],
                arities: &[4],
                last: &[(5, ONE), (31, BETA)],
            }),
            ..AT_FIVE
        }],
    },
    Case {
        setting: PLAIN,
        batches: &[&[&LINE]],
        openings: &[Opening {
            name: "a line at two points",
            points: &[&[&[5, 7]]],
            seen: Some(Seen {
                values: &[&[&[2_013_265_918, 2_013_265_916]]],
                last: TWO_LINES,
                ..OF_LINE
            }),
            ..AT_FIVE
        }],
    },
    Case {
        setting: PLAIN,
        batches: &[&[&LINE]],
        openings: &[Opening {
            name: "a line at two points, the other way round",
            points: &[&[&[7, 5]]],
            seen: Some(Seen {
                values: &[&[&[2_013_265_916, 2_013_265_918]]],
                last: TWO_LINES,
                ..OF_LINE
            }),
            ..AT_FIVE
        }],
    },
    Case {
        setting: LONGER,
        batches: &[&[&[1, 1, 1, 1]]],
        openings: &[Opening {
            name: "a constant, folded to two coefficients",
            setting: LONGER,
            verifier: LONGER,
            points: &[&[&[2]]],
            seen: Some(Seen {
                values: &[&[&[1]]],
                log_heights: &[3],
                arities: &[2],
                last: &[],
            }),
            ..AT_FIVE
        }],
    },
    // several matrices
    Case {
        setting: BY_EIGHT,
        batches: &[&[&SQUARE, &LINE]],
        openings: &[Opening {
            name: "a square and a line",
            setting: BY_EIGHT,
            verifier: BY_EIGHT,
            points: &[&[&[5], &[5]]],
            // the quotient of the line is rolled in
            seen: Some(Seen {
                values: &[&[&[25], &[2_013_265_918]]],
                log_heights: &[3, 2],
                arities: &[2, 2],
                last: &[(5, ONE), (31, BETA), (2_013_265_920, [0, 2, 0])],
            }),
            ..AT_FIVE
        }],
    },
    Case {
        setting: PLAIN,
        batches: &[&[&LINE], &[&LINE]],
        openings: &[Opening {
            name: "two commitments to a line",
            points: &[&[&[5]], &[&[5]]],
            seen: Some(Seen {
                values: &[&[&[2_013_265_918]], &[&[2_013_265_918]]],
                last: TWO_LINES,
                ..OF_LINE
            }),
            ..AT_FIVE
        }],
    },
    Case {
        setting: PLAIN,
        batches: &[&[], &[&LINE]],
        openings: &[Opening {
            name: "a commitment to nothing, and one to a line",
            points: &[&[], &[&[5]]],
            seen: Some(Seen {
                values: &[&[], &[&[2_013_265_918]]],
                ..OF_LINE
            }),
            ..AT_FIVE
        }],
    },
    Case {
        setting: PLAIN,
        batches: &[&[&[9], &LINE, &FOURTH]],
        openings: &[Opening {
            name: "a constant, a line and a fourth power",
            points: &[&[&[5], &[5], &[5]]],
            // the quotient of `X^4` is folded twice, and then that of the line rolled in
            seen: Some(Seen {
                values: &[&[&[9], &[2_013_265_918], &[625]]],
                log_heights: &[4, 2, 1],
                arities: &[2, 2, 2],
                last: &[
                    (125, ONE),
                    (775, BETA),
                    (5 * 961, SECOND),
                    (29_791, [0, 1, 1]),
                    (2_013_265_920, [0, 0, 2]),
                ],
            }),
            ..AT_FIVE
        }],
    },
];

/// The constant for these challenges.
fn constant_of(last: &[Term], alpha: BabyBear4, betas: &[BabyBear4]) -> BabyBear4 {
    let beta = betas.get(0).copied().unwrap_or(BabyBear4::ZERO);
    let second = betas.get(1).copied().unwrap_or(BabyBear4::ZERO);
    let mut sum = BabyBear4::ZERO;
    for (number, [of_alpha, of_beta, of_second]) in last {
        sum = sum
            + constant(*number)
                * alpha.exp_u64(*of_alpha)
                * beta.exp_u64(*of_beta)
                * second.exp_u64(*of_second);
    }
    sum
}

/// Whether a round for each of these folds rows of so many entries, by its first query.
fn are_arities(proof: &Proof, arities: &[usize]) -> bool {
    let mut same = proof.commit_phase_openings.len() == arities.len()
        && proof.commit_phase_commits.len() == arities.len();
    for (round, arity) in proof.commit_phase_openings.iter().zip(arities) {
        let siblings = match round.sibling_values.first() {
            Some(row) => row.len(),
            None => 0,
        };
        same = same && siblings.saturating_add(1) == *arity;
    }
    same
}

/// Whether it has `2^log_len` coefficients, the first this one and the others zero.
fn is_final_poly(coefficients: &[BabyBear4], log_len: usize, first: BabyBear4) -> bool {
    let mut same = log_len < 64 && coefficients.len() == 1 << log_len;
    let mut wanted = first;
    for coefficient in coefficients {
        same = same && *coefficient == wanted;
        wanted = BabyBear4::ZERO;
    }
    same
}

/// Whether what is to be seen of an opening is, where the transcripts end as it did.
pub(crate) fn is_seen(
    rt: &impl Abort,
    alloc: Global,
    opening: &Opening,
    values: &OpenedValues<BabyBear4>,
    proof: &Proof,
    claims: &Claims,
    challenger: &Sha256Challenger,
) -> bool {
    let Some(seen) = &opening.seen else {
        return true;
    };
    let replayed = replay(rt, alloc, opening.setting, seen.log_heights, proof, claims);
    let (drawn, last) = replayed.expect(rt, "the transcript is refused");
    let first = constant_of(seen.last, drawn.alpha, &drawn.betas);
    last == *challenger
        && are_values(rt, alloc, values, seen.values)
        && are_arities(proof, seen.arities)
        && is_final_poly(&proof.final_poly, opening.setting.log_final_poly_len, first)
}

#[test]
fn columns_are_opened(rt: HostRuntime) {
    ask(&rt, rt.alloc(), Question::Openings(&CASES));
}
