//! Matrices of numbers.

use p3_field::{BabyBear, Field};
use p3_matrix::RowMajorMatrix;
use std::alloc::Global;
use std::process::Abort;

/// A matrix's width and values, row by row.
pub(crate) type Entries = (usize, &'static [u64]);

/// Elements that are these numbers.
pub(crate) fn elements(rt: &impl Abort, alloc: Global, numbers: &[u64]) -> Vec<BabyBear> {
    let mut elements = Vec::new(alloc);
    for number in numbers {
        elements
            .push(BabyBear::from_u64(*number))
            .expect(rt, "memory");
    }
    elements
}

/// The matrix of these entries.
pub(crate) fn matrix(rt: &impl Abort, alloc: Global, entries: Entries) -> RowMajorMatrix<BabyBear> {
    let (width, numbers) = entries;
    let values = elements(rt, alloc, numbers);
    assert!(rt; width != 0 && values.len() % width == 0);
    RowMajorMatrix::new(values, width)
}

/// Whether the elements are these numbers.
pub(crate) fn are_numbers(elements: &[BabyBear], numbers: &[u64]) -> bool {
    let mut same = elements.len() == numbers.len();
    for (element, number) in elements.iter().zip(numbers) {
        same = same && *element == BabyBear::from_u64(*number);
    }
    same
}

/// Whether each of these lists has its numbers.
pub(crate) fn are_lists(lists: &[Vec<BabyBear>], each: &[&[u64]]) -> bool {
    let mut same = lists.len() == each.len();
    for (list, numbers) in lists.iter().zip(each) {
        same = same && are_numbers(list, *numbers);
    }
    same
}

/// Whether the matrix has this width and these values.
pub(crate) fn has_entries(matrix: &RowMajorMatrix<BabyBear>, entries: Entries) -> bool {
    let (width, numbers) = entries;
    matrix.width() == width && are_numbers(matrix.row_block(0, matrix.height()), numbers)
}

/// Whether these matrices, in order, have these entries.
pub(crate) fn have_entries(matrices: &[RowMajorMatrix<BabyBear>], each: &[Entries]) -> bool {
    let mut same = matrices.len() == each.len();
    for (matrix, entries) in matrices.iter().zip(each) {
        same = same && has_entries(matrix, *entries);
    }
    same
}
