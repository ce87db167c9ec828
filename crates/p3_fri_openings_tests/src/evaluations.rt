//! Worked values, and values on many domains against Horner's rule.

use crate::extended::{agrees, values_on};
use crate::rounds::{coset_of, extended, matrix};
use p3_field::{BabyBear, Field};
use std::alloc::Global;
use std::process::Abort;

/// A column that was committed to with blowup 2, the blowup by which it is read, the coset of a
/// shift and of `2^log_size` points, and its values there.
struct Case {
    name: &'static str,
    column: &'static [u64],
    log_blowup: usize,
    shift: u64,
    log_size: usize,
    values: &'static [u64],
}

static CASES: [Case; 5] = [
    // at 31 and -31 `2 - X` is -29 and 33
    Case {
        name: "on a larger coset",
        column: &[1, 3],
        log_blowup: 1,
        shift: 31,
        log_size: 2,
        values: &[2_013_265_892, 777_639_966, 33, 1_235_625_959],
    },
    Case {
        name: "on its own domain",
        column: &[1, 3],
        log_blowup: 1,
        shift: 1,
        log_size: 1,
        values: &[1, 3],
    },
    Case {
        name: "on a smaller domain",
        column: &[1, 3],
        log_blowup: 1,
        shift: 1,
        log_size: 0,
        values: &[1],
    },
    // `2 - 5 w^i`, where `w` is the root of order 8
    Case {
        name: "in natural order",
        column: &[1, 3],
        log_blowup: 1,
        shift: 5,
        log_size: 3,
        values: &[
            2_013_265_918,
            91_232_616,
            1_424_307_042,
            954_649_953,
            7,
            1_922_033_309,
            588_958_883,
            1_058_615_972,
        ],
    },
    // past the words' height there is no polynomial but zero
    Case {
        name: "by any blowup",
        column: &[0, 0],
        log_blowup: usize::MAX,
        shift: 1,
        log_size: 1,
        values: &[0, 0],
    },
];

/// Whether the column has these values there.
fn is_met(rt: &impl Abort, alloc: Global, case: &Case) -> bool {
    let words = extended(rt, alloc, 1, case.column);
    let domain = coset_of(rt, BabyBear::from_u64(case.shift), case.log_size);
    values_on(rt, alloc, case.log_blowup, &words, domain) == matrix(rt, alloc, case.values, 1)
}

#[test]
fn columns_on_other_domains(rt: HostRuntime) {
    for case in &CASES {
        assert!(rt; is_met(&rt, rt.alloc(), case), "{}", case.name);
    }
}

/// Coefficients of three polynomials, by the digits of pi.
static COEFFICIENTS: [u64; 24] = [
    3, 1, 4, 1, 5, 9, 2, 6, 5, 3, 5, 8, 9, 7, 9, 3, 2, 3, 8, 4, 6, 2, 6, 4,
];

/// Whether the values on this coset are those by Horner's rule, for 8 coefficients on 16 points and
/// for 1 on 4.
fn are_by_horner(rt: &impl Abort, alloc: Global, shift: u64, log_size: usize) -> bool {
    let domain = coset_of(rt, BabyBear::from_u64(shift), log_size);
    agrees(rt, alloc, &COEFFICIENTS, 1, 4, domain)
        && agrees(rt, alloc, &COEFFICIENTS[..3], 2, 2, domain)
}

/// From one to 32 points, on the words' own coset and on others.
#[test]
fn values_agree_with_horner(rt: HostRuntime) {
    for shift in [1, 5, 31, 2_013_265_890] {
        for log_size in 0..6 {
            assert!(rt;
                are_by_horner(&rt, rt.alloc(), shift, log_size),
                "{shift}, {log_size}"
            );
        }
    }
}
