//! How refusals print.

use p3_mmcs::Sha256MmcsError;

/// Each refusal, and the words for it.
static REFUSALS: [(Sha256MmcsError, &str); 5] = [
    (
        Sha256MmcsError::QueryCount,
        "the sets of rows or the paths are not as many as the indices",
    ),
    (
        Sha256MmcsError::MatrixCount,
        "the rows of a set are not as many as the matrices",
    ),
    (
        Sha256MmcsError::RowWidth,
        "a row's length is not the width of its matrix",
    ),
    (
        Sha256MmcsError::PathLength,
        "a path's length is not the logarithm of the greatest height",
    ),
    (
        Sha256MmcsError::RootMismatch,
        "a path does not lead to the commitment",
    ),
];

#[test]
fn refusals_of_the_tree_are_printed(rt: HostRuntime) {
    for (refusal, wanted) in &REFUSALS {
        let printed = format!(in rt.alloc(); "{refusal}").expect(&rt, "memory");
        assert!(rt; printed.as_str() == *wanted, "{wanted}");
    }
}
