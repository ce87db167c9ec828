//! Searches of collisions, which find none: no two messages with one digest are known.

use p3_field::{BabyBear, Field};
use p3_mmcs_binding::find_collision;
use std::alloc::Global;
use std::process::Abort;

/// A set of one row of one element.
fn set(rt: &impl Abort, alloc: Global, element: u64) -> Vec<Vec<BabyBear>> {
    let row = vec![in alloc; BabyBear::from_u64(element)].expect(rt, "memory");
    vec![in alloc; row].expect(rt, "memory")
}

/// Whether a search between openings of these elements at `index`, with these siblings, finds none.
fn finds_none(
    rt: &impl Abort,
    alloc: Global,
    index: usize,
    elements: (u64, u64),
    siblings: (u8, u8),
) -> bool {
    let (first, second) = (set(rt, alloc, elements.0), set(rt, alloc, elements.1));
    let paths = ([[siblings.0; 32]], [[siblings.1; 32]]);
    let found = find_collision(
        alloc,
        index,
        first.as_slice(),
        paths.0.as_slice(),
        second.as_slice(),
        paths.1.as_slice(),
    );
    found.expect(rt, "memory").is_none()
}

/// The index, the elements and the siblings of each search.
static CASES: [(usize, (u64, u64), (u8, u8)); 3] = [
    (0, (3, 3), (7, 7)),
    (0, (3, 4), (7, 7)),
    (1, (3, 4), (7, 9)),
];

#[test]
fn none_is_found(rt: HostRuntime) {
    for (case, (index, elements, siblings)) in CASES.iter().enumerate() {
        assert!(rt;
            finds_none(&rt, rt.alloc(), *index, *elements, *siblings),
            "search {case}"
        );
    }
}
