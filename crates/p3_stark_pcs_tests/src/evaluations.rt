//! Committed columns read on other domains.

use crate::columns::{columns, coset, is_column};
use crate::parts::Part;
use crate::tested::Tested;
use std::alloc::Global;
use std::process::Abort;

/// `2 - X` by two values, and `1 + X^3` by four on the coset of 3.
static COMMITTED: [(u64, &[u64]); 2] = [
    (1, &[1, 3]),
    (3, &[28, 1_651_460_254, 2_013_265_895, 361_805_669]),
];

/// A committed column, and its polynomial's values on the coset of a shift.
#[derive(Clone, Copy)]
pub(crate) struct Reading {
    index: usize,
    shift: u64,
    values: &'static [u64],
}

/// On the domain that it was committed on, on others of that size, on larger and on smaller ones.
pub(crate) static PARTS: [Part; 9] = [
    Part::Read(Reading {
        index: 0,
        shift: 1,
        values: &[1, 3],
    }),
    Part::Read(Reading {
        index: 0,
        shift: 3,
        values: &[2_013_265_920, 5],
    }),
    Part::Read(Reading {
        index: 0,
        shift: 3,
        values: &[2_013_265_920, 854_584_226, 5, 1_158_681_699],
    }),
    Part::Read(Reading {
        index: 0,
        shift: 31,
        values: &[2_013_265_892, 777_639_966, 33, 1_235_625_959],
    }),
    Part::Read(Reading {
        index: 0,
        shift: 1,
        values: &[1],
    }),
    Part::Read(Reading {
        index: 1,
        shift: 3,
        values: &[28, 1_651_460_254, 2_013_265_895, 361_805_669],
    }),
    Part::Read(Reading {
        index: 1,
        shift: 1,
        values: &[2, 284_861_409, 0, 1_728_404_514],
    }),
    Part::Read(Reading {
        index: 1,
        shift: 1,
        values: &[2, 0],
    }),
    Part::Read(Reading {
        index: 1,
        shift: 2,
        values: &[9],
    }),
];

/// Whether both calls, with and without columns that only hide others, read these values of the
/// columns, that are committed to together.
pub(crate) fn is_read<P: Tested>(
    rt: &impl Abort,
    alloc: Global,
    mut scheme: P,
    reading: &Reading,
) -> bool
    requires { P.IsTested scheme }
{
    let Reading {
        index,
        shift,
        values,
    } = *reading;
    let evaluations = columns(rt, alloc, &COMMITTED);
    let Ok(pair) = scheme.commit(alloc, evaluations) else {
        panic!(rt; "memory was refused")
    };
    let (_commitment, held) = pair;
    assert!(rt; scheme.can_read(&held, index), "no such matrix");
    let domain = coset(rt, shift, values.len().trailing_zeros() as usize);
    let shown = scheme.get_evaluations_on_domain(alloc, &held, index, domain);
    let whole = scheme.get_evaluations_on_domain_no_random(alloc, &held, index, domain);
    match (shown, whole) {
        (Ok(shown), Ok(whole)) => is_column(&shown, values) && is_column(&whole, values),
        _ => panic!(rt; "memory was refused"),
    }
}
