//! The hiding budget, and how its refusals are printed.

use p3_fri_folding::FriProverError;
use p3_fri_masks::{HidingFriProverError, check_hiding_budget, lde_mask_height};

/// Numbers of random codewords and of queries, the extension's degree, the height of masks, and the
/// number of opening points, with what is answered.
type Case = ([usize; 5], Result<(), HidingFriProverError>);

/// A budget that masks of 8 rows don't meet.
const LOW: HidingFriProverError = HidingFriProverError::HidingBudgetExceeded {
    mask_height: 8,
    num_queries: 2,
    num_opening_points: 1,
    extension_degree: 4,
};

/// One that masks of 11 rows miss by one, though no point is asked for.
const NO_POINTS: HidingFriProverError = HidingFriProverError::HidingBudgetExceeded {
    mask_height: 11,
    num_queries: 2,
    num_opening_points: 0,
    extension_degree: 4,
};

/// One that masks of 16 rows meet at a point, and not at two.
const TWO_POINTS: HidingFriProverError = HidingFriProverError::HidingBudgetExceeded {
    mask_height: 16,
    num_queries: 2,
    num_opening_points: 2,
    extension_degree: 4,
};

/// Random codewords that are too few for an extension of degree 4.
const FEW_CODEWORDS: HidingFriProverError = HidingFriProverError::InsufficientRandomCodewords {
    required: 4,
    got: 3,
};

static CASES: [Case; 13] = [
    ([4, 2, 4, 8, 1], Err(LOW)),
    ([4, 2, 4, 16, 1], Ok(())),
    ([4, 2, 4, 16, 2], Err(TWO_POINTS)),
    ([4, 2, 4, 32, 2], Ok(())),
    ([4, 2, 4, 12, 1], Ok(())),
    ([4, 2, 4, 12, 0], Ok(())),
    ([4, 2, 4, 11, 0], Err(NO_POINTS)),
    ([3, 2, 4, 16, 1], Err(FEW_CODEWORDS)),
    ([3, usize::MAX, 4, 16, 1], Err(FEW_CODEWORDS)),
    (
        [4, usize::MAX, 4, 16, 1],
        Err(HidingFriProverError::BudgetOverflow),
    ),
    // Twice `2^63 - 1` is a number of 64 bits, and twice `2^63` isn't.
    ([4, 9_223_372_036_854_775_803, 4, usize::MAX, 1], Ok(())),
    (
        [4, 9_223_372_036_854_775_804, 4, usize::MAX, 1],
        Err(HidingFriProverError::BudgetOverflow),
    ),
    (
        [usize::MAX, 0, usize::MAX, usize::MAX, 2],
        Err(HidingFriProverError::BudgetOverflow),
    ),
];

#[test]
fn the_budget_is_met_or_refused(rt: HostRuntime) {
    for (numbers, answer) in &CASES {
        let [codewords, queries, degree, height, points] = *numbers;
        let found = check_hiding_budget(codewords, queries, degree, height, points);
        assert!(rt;
            found == *answer,
            "{queries} queries, {points} points, {height} rows"
        );
    }
}

/// Heights and log blowups of extensions, with the heights of their masks.
static EXTENSIONS: [(usize, usize, usize); 7] = [
    (64, 2, 8),
    (64, 0, 32),
    (2, 0, 1),
    (1, 0, 0),
    (64, 6, 0),
    (usize::MAX, 63, 0),
    (usize::MAX, 64, 0),
];

#[test]
fn masks_are_half_as_high_as_the_matrix(rt: HostRuntime) {
    for (height, log_blowup, masks) in &EXTENSIONS {
        let found = lde_mask_height(*height, *log_blowup);
        assert!(rt; found == *masks, "{height} rows, log blowup {log_blowup}");
    }
}

/// Refusals, and how they are printed.
static TEXTS: [(HidingFriProverError, &str); 4] = [
    (
        HidingFriProverError::Fri(FriProverError::OutOfMemory),
        "out of memory",
    ),
    (
        FEW_CODEWORDS,
        "3 random codewords are fewer than the 4 of the extension's degree",
    ),
    (
        HidingFriProverError::BudgetOverflow,
        "the height that the hiding budget asks for is past the greatest number",
    ),
    (
        TWO_POINTS,
        "masks of height 16 can't hide 2 queries and 2 opening points \
         with an extension of degree 4",
    ),
];

#[test]
fn refusals_are_printed(rt: HostRuntime) {
    for (refusal, wanted) in &TEXTS {
        let text = format!(in rt.alloc(); "{refusal}").expect(&rt, "memory");
        assert!(rt; text.as_str() == *wanted, "{wanted}");
    }
}
