//! Curves with as many bad challenges as the bound allows, and a word that is caught wherever it is
//! folded. Over `n` rows, with polynomials of four coefficients and a budget of `e` rows, at most
//! `e + 1` challenges of a curve of degree one are bad. The words are zero but at `e + 1` rows, at
//! which they are `-b` and 1, with another `b` at each: there the curve at `beta` is `beta - b`. At
//! each `b` it is zero but for `e` rows, which is near the polynomial zero, and the words aren't;
//! elsewhere it is zero but for `e + 1` rows, and so near no polynomial, since one that isn't zero
//! has three roots at most.

use p3_field::{BabyBear, Field, TwoAdicField};

/// The entries of the two words at one row.
type Row = (u64, u64);

/// The order of the field.
const ORDER: u64 = 2_013_265_921;

/// Eight rows, of which a budget of one row can fail: three budgets and four are no more.
static EIGHT_ROWS: [Row; 8] = [
    (0, 0),
    (ORDER - 5, 1),
    (0, 0),
    (0, 0),
    (0, 0),
    (0, 0),
    (ORDER - 11, 1),
    (0, 0),
];

/// Sixteen rows, of which a budget of four can fail.
static SIXTEEN_ROWS: [Row; 16] = [
    (ORDER - 2, 1),
    (0, 0),
    (0, 0),
    (ORDER - 9, 1),
    (0, 0),
    (0, 0),
    (0, 0),
    (ORDER - 30, 1),
    (ORDER - 31, 1),
    (0, 0),
    (0, 0),
    (0, 0),
    (0, 0),
    (0, 0),
    (0, 0),
    (ORDER - 63, 1),
];

/// Whether the curve at `beta` is zero but for the budget.
fn is_close(rows: &[Row], budget: usize, beta: BabyBear) -> bool {
    let mut failing: usize = 0;
    for (constant, linear) in rows {
        let value = BabyBear::from_u64(*constant) + beta * BabyBear::from_u64(*linear);
        if value != BabyBear::ZERO {
            failing = failing.saturating_add(1);
        }
    }
    failing <= budget
}

/// Which of the first 64 challenges are bad.
fn bad_challenges(rows: &[Row], budget: usize) -> [bool; 64] {
    let mut bad = [false; 64];
    for (beta, is_bad) in bad.iter_mut().enumerate() {
        *is_bad = is_close(rows, budget, BabyBear::from_u64(beta as u64));
    }
    bad
}

/// How many of sixteen positions are caught where this word is folded by `beta`, by rows of two at
/// a point and its opposite, and the next word is zero: each position of a row whose fold isn't.
fn caught(word: &[BabyBear; 16], points: &[BabyBear; 8], beta: BabyBear) -> usize {
    let mut caught: usize = 0;
    for row in 0..8 {
        let even = word[2 * row];
        let odd = word[2 * row + 1];
        if (even + odd) * points[row] + beta * (even - odd) != BabyBear::ZERO {
            caught = caught.saturating_add(2);
        }
    }
    caught
}

/// How many of the sixteen roots, as challenges, let a word through that is zero but at two entries
/// of two rows. At a blowup of two its test has room for three failing positions, which are one row
/// of eight, so at most two challenges are bad; and where none is, four positions are caught.
fn let_through() -> (usize, usize) {
    let root = BabyBear::two_adic_generator(4);
    let points = [
        BabyBear::ONE,
        root.exp_u64(4),
        root.exp_u64(2),
        root.exp_u64(6),
        root,
        root.exp_u64(5),
        root.exp_u64(3),
        root.exp_u64(7),
    ];
    let mut word = [BabyBear::ZERO; 16];
    word[3] = BabyBear::from_u64(8);
    word[10] = BabyBear::from_u64(13);
    let (mut bad, mut good): (usize, usize) = (0, 0);
    for power in 0..16 {
        match caught(&word, &points, root.exp_u64(power)) {
            2 => bad = bad.saturating_add(1),
            4 => good = good.saturating_add(1),
            _ => (),
        }
    }
    (bad, good)
}

#[test]
fn as_many_are_bad_as_can_be(rt: HostRuntime) {
    let mut expected = [false; 64];
    expected[5] = true;
    expected[11] = true;
    assert!(rt; bad_challenges(EIGHT_ROWS.as_slice(), 1).as_slice() == expected.as_slice());
    let mut expected = [false; 64];
    expected[2] = true;
    expected[9] = true;
    expected[30] = true;
    expected[31] = true;
    expected[63] = true;
    assert!(rt; bad_challenges(SIXTEEN_ROWS.as_slice(), 4).as_slice() == expected.as_slice());
    assert!(rt; let_through() == (2, 14));
}
