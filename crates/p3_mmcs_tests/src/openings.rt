//! Openings of trees at many indices, which are verified eight at a time and one by one, against
//! the tree's root, and altered ones.

use crate::sha256_mmcs::{Verdict, element, opened, verdict_on};
use crate::trees::{TREES, Tree, matrices_of};
use p3_field::{BabyBear, PrimeField64};
use p3_mmcs::laws::{opens_law, path_law, shape_law};
use p3_mmcs::{Sha256Mmcs, Sha256MmcsError};
use std::alloc::Global;
use std::process::Abort;

/// What is wrong in the opening at an index.
#[derive(Clone, Copy)]
pub(crate) enum Alteration {
    /// There is a set of rows less than paths, the last.
    Sets,
    /// The set lacks its last row.
    Rows,
    /// The row of this matrix has one entry more.
    Longer(usize),
    /// The row of this matrix lacks its last entry.
    Shorter(usize),
    /// The first entry in the row of this matrix is another.
    Entry(usize),
    /// The path lacks its last digest.
    Levels,
    /// A digest of the path is another.
    Digest,
}

/// Alters a set of rows.
fn alter_rows(rt: &impl Abort, set: &mut Vec<Vec<BabyBear>>, alteration: Alteration) {
    match alteration {
        Alteration::Longer(matrix) => {
            let row = set.get_mut(matrix).expect(rt, "no such row");
            row.push(element(5)).expect(rt, "memory");
        }
        Alteration::Shorter(matrix) => {
            let _entry = set.get_mut(matrix).expect(rt, "no such row").pop();
        }
        Alteration::Entry(matrix) => {
            let row = set.get_mut(matrix).expect(rt, "no such row");
            *row.get_mut(0).expect(rt, "no entry") = element(0);
        }
        _ => {
            let _row = set.pop();
        }
    }
}

/// Alters the opening at this place among the indices.
fn alter(
    rt: &impl Abort,
    place: usize,
    alteration: Alteration,
    rows: &mut Vec<Vec<Vec<BabyBear>>>,
    paths: &mut Vec<Vec<[u8; 32]>>,
) {
    match alteration {
        Alteration::Sets => {
            let _set = rows.pop();
        }
        Alteration::Levels => {
            let _digest = paths.get_mut(place).expect(rt, "no such path").pop();
        }
        Alteration::Digest => {
            let path = paths.get_mut(place).expect(rt, "no such path");
            *path.get_mut(place % 5).expect(rt, "no such level") = [0; 32];
        }
        _ => alter_rows(
            rt,
            rows.get_mut(place).expect(rt, "no such set"),
            alteration,
        ),
    }
}

/// The numbers of all rows, set after set.
fn numbers_of(rt: &impl Abort, alloc: Global, rows: &[Vec<Vec<BabyBear>>]) -> Vec<u64> {
    let mut numbers = Vec::new(alloc);
    for set in rows {
        for row in set {
            for entry in row {
                numbers.push(entry.as_canonical_u64()).expect(rt, "memory");
            }
        }
    }
    numbers
}

/// The numbers of the rows that are opened at these indices, and what verification at others
/// answers on the opening that is altered at these places.
pub(crate) fn ask(
    rt: &impl Abort,
    alloc: Global,
    tree: &Tree,
    indices: &[usize],
    verified_at: &[usize],
    alterations: &[(usize, Alteration)],
) -> (Vec<u64>, Verdict) {
    let scheme = Sha256Mmcs::new();
    let matrices = matrices_of(rt, alloc, tree);
    let (known, dimensions, mut rows, mut paths) = opened(rt, alloc, &scheme, matrices, indices);
    assert!(rt;
        known == (tree.root, tree.max_height, tree.matrices.len()),
        "{}",
        tree.name
    );
    let numbers = numbers_of(rt, alloc, &rows);
    for (place, alteration) in alterations {
        alter(rt, *place, *alteration, &mut rows, &mut paths);
    }
    let root = &tree.root;
    let verdict = verdict_on(rt, &scheme, root, &dimensions, verified_at, &rows, &paths);
    (numbers, verdict)
}

/// The tree's opening at its indices that is altered at these places, verified at others.
static OF_TWO: [(&str, &[(usize, Alteration)], &[usize], Verdict); 7] = [
    ("as it is", &[], &[3, 0, 3], Ok(())),
    (
        "another index",
        &[],
        &[3, 1, 3],
        Err(Sha256MmcsError::RootMismatch),
    ),
    (
        "a shorter path",
        &[(1, Alteration::Levels)],
        &[3, 0, 3],
        Err(Sha256MmcsError::PathLength),
    ),
    (
        "a longer row",
        &[(1, Alteration::Longer(1))],
        &[3, 0, 3],
        Err(Sha256MmcsError::RowWidth),
    ),
    (
        "another entry",
        &[(1, Alteration::Entry(1))],
        &[3, 0, 3],
        Err(Sha256MmcsError::RootMismatch),
    ),
    (
        "a set of fewer rows",
        &[(2, Alteration::Rows)],
        &[3, 0, 3],
        Err(Sha256MmcsError::MatrixCount),
    ),
    (
        "fewer sets",
        &[(2, Alteration::Sets)],
        &[3, 0, 3],
        Err(Sha256MmcsError::QueryCount),
    ),
];

#[test]
fn openings_of_two_heights(rt: HostRuntime) {
    for (name, alterations, verified_at, wanted) in &OF_TWO {
        let (_, verdict) = ask(
            &rt,
            rt.alloc(),
            &TREES[1],
            &[3, 0, 3],
            *verified_at,
            *alterations,
        );
        assert!(rt; verdict == *wanted, "{name}");
    }
    path_law();
    opens_law::<BabyBear>();
    shape_law::<BabyBear>();
}

/// Nineteen indices of 32: twice eight, and three.
static INDICES: [usize; 19] = [
    31, 0, 5, 5, 16, 17, 30, 1, 2, 8, 24, 9, 12, 31, 7, 6, 3, 29, 10,
];

/// What verification answers on the last tree's opening at these indices that is altered at these
/// places among them.
fn of_many(rt: &impl Abort, alloc: Global, alterations: &[(usize, Alteration)]) -> Verdict {
    let (_, verdict) = ask(rt, alloc, &TREES[8], &INDICES, &INDICES, alterations);
    verdict
}

/// How one alteration is refused.
static REFUSALS: [(&str, Alteration, Sha256MmcsError); 5] = [
    ("fewer rows", Alteration::Rows, Sha256MmcsError::MatrixCount),
    (
        "a shorter row",
        Alteration::Shorter(0),
        Sha256MmcsError::RowWidth,
    ),
    (
        "a shorter path",
        Alteration::Levels,
        Sha256MmcsError::PathLength,
    ),
    (
        "another entry",
        Alteration::Entry(0),
        Sha256MmcsError::RootMismatch,
    ),
    (
        "another digest",
        Alteration::Digest,
        Sha256MmcsError::RootMismatch,
    ),
];

/// Two alterations, and which of them is named.
static PAIRS: [(&str, &[(usize, Alteration)], Sha256MmcsError); 5] = [
    (
        "an entry before a path, both in the second eight",
        &[(9, Alteration::Entry(0)), (11, Alteration::Levels)],
        Sha256MmcsError::RootMismatch,
    ),
    (
        "a path before an entry",
        &[(13, Alteration::Entry(0)), (11, Alteration::Levels)],
        Sha256MmcsError::PathLength,
    ),
    (
        "a row before a set",
        &[(7, Alteration::Rows), (0, Alteration::Shorter(0))],
        Sha256MmcsError::RowWidth,
    ),
    (
        "a digest before a row",
        &[(17, Alteration::Shorter(0)), (2, Alteration::Digest)],
        Sha256MmcsError::RootMismatch,
    ),
    (
        "a digest and a set at one index",
        &[(18, Alteration::Digest), (18, Alteration::Rows)],
        Sha256MmcsError::MatrixCount,
    ),
];

#[test]
fn one_or_two_faults_of_many_openings(rt: HostRuntime) {
    assert!(rt; of_many(&rt, rt.alloc(), &[]) == Ok(()));
    for place in 0..INDICES.len() {
        for (name, alteration, refusal) in &REFUSALS {
            let verdict = of_many(&rt, rt.alloc(), &[(place, *alteration)]);
            assert!(rt; verdict == Err(*refusal), "{name} at {place}");
        }
    }
    for (name, alterations, refusal) in &PAIRS {
        assert!(rt;
            of_many(&rt, rt.alloc(), *alterations) == Err(*refusal),
            "{name}"
        );
    }
}
