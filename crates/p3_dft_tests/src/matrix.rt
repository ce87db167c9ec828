//! Rows, entries and reversed rows of small matrices.

ghost use Rattle.std.specs.Prelude.{◌≡◌, ◌<◌};
ghost use Rattle.p3_matrix.specs.Matrix.{matrix_width};

use p3_matrix::laws::rows_law;
use p3_matrix::{Dimensions, RowMajorMatrix};
use std::alloc::Global;
use std::process::Abort;

/// The matrix with these entries, row after row.
fn matrix_of<T: Copy>(
    rt: &impl Abort,
    alloc: Global,
    entries: &[T],
    width: usize,
) -> RowMajorMatrix<T>
    ensures { matrix_width result ≡ width }
{
    assert!(rt; width != 0 && entries.len() % width == 0);
    RowMajorMatrix::new(entries.to_vec(alloc).expect(rt, "memory"), width)
}

/// Whether the matrix's entries, row after row, are these.
fn has_values<T: Copy + PartialEq>(matrix: RowMajorMatrix<T>, wanted: &[T]) -> bool {
    matrix.into_values().as_slice() == wanted
}

/// Whether the matrix of `1, 2, 3` and `4, 5, 6` has these rows and entries, and no others.
fn has_two_rows_of_three(matrix: &RowMajorMatrix<u32>) -> bool {
    let dimensions = Dimensions {
        width: 3,
        height: 2,
    };
    if matrix.height() != 2 {
        return false;
    }
    matrix.dimensions() == dimensions
        && matrix.width() == 3
        && matrix.row(0) == [1, 2, 3].as_slice()
        && matrix.row(1) == [4, 5, 6].as_slice()
        && matrix.get(1, 0) == Some(4)
        && matrix.get(1, 3).is_none()
        && matrix.get(2, 0).is_none()
}

#[test]
fn reads_rows_and_entries(rt: HostRuntime) {
    let matrix = matrix_of(&rt, rt.alloc(), &[1u32, 2, 3, 4, 5, 6], 3);
    assert!(rt; has_two_rows_of_three(&matrix));
    rows_law(&matrix);
    assert!(rt; has_values(matrix, &[1, 2, 3, 4, 5, 6]));
}

/// Whether the matrix of the rows `1, 2`, `3, 4` and `5, 6` is split after one row and after all.
fn is_split(rt: &impl Abort, alloc: Global, matrix: &RowMajorMatrix<u8>) -> bool {
    if matrix.height() != 3 {
        return false;
    }
    let (first, others) = matrix.split_rows(1);
    let (all, none) = matrix.split_rows(3);
    let copied = others.to_row_major_matrix(alloc).expect(rt, "memory");
    has_values(copied, &[3, 4, 5, 6])
        && (first.width(), first.height(), others.height()) == (2, 1, 2)
        && all.row(2) == [5, 6].as_slice()
        && none.height() == 0
}

#[test]
fn splits_rows(rt: HostRuntime) {
    let matrix = matrix_of(&rt, rt.alloc(), &[1u8, 2, 3, 4, 5, 6], 2);
    assert!(rt; is_split(&rt, rt.alloc(), &matrix));
}

/// Whether the matrix with these entries has `2^log_height` rows, and the wanted entries once their
/// indices are reversed.
fn reverses<T: Copy + PartialEq>(
    rt: &impl Abort,
    alloc: Global,
    entries: &[T],
    log_height: usize,
    width: usize,
    wanted: &[T],
) -> bool
    requires { log_height < 4 }
{
    let matrix = matrix_of(rt, alloc, entries, width);
    if matrix.height() != 1 << log_height {
        panic!(rt; "another height");
    }
    let reversed = matrix.bit_reverse_rows();
    reversed.width() == width && has_values(reversed, wanted)
}

#[test]
fn reverses_row_indices(rt: HostRuntime) {
    let alloc = rt.alloc();
    let four_rows = [0u64, 1, 10, 11, 20, 21, 30, 31];
    let eight_rows = [0u32, 1, 2, 3, 4, 5, 6, 7];
    let right = reverses(
        &rt,
        alloc,
        &four_rows,
        2,
        2,
        &[0, 1, 20, 21, 10, 11, 30, 31],
    ) && reverses(&rt, alloc, &eight_rows, 3, 1, &[0, 4, 2, 6, 1, 5, 3, 7])
        && reverses(&rt, alloc, &[7u32, 9], 0, 2, &[7, 9]);
    assert!(rt; right);
}
