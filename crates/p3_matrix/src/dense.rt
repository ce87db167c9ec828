//! Matrices whose rows lie one after another in one list.

ghost use Rattle.std.specs.Prelude.{◌≡◌, ◌<◌, ◌≤◌, ◌+◌, ◌-◌, ◌*◌, ◌/◌, ◌%◌, ◌^◌, ◌↔◌, ⊤, ℕ};
ghost use Rattle.std.specs.Prelude.{IsSome, IfSome, IfOk, [], length, take, drop};
ghost use Rattle.std.specs.Prelude.{slice_index_or, slice_range, vec_len};
ghost use Rattle.std.specs.Int.{IsPowerOfTwo};
ghost use Rattle.std.specs.List.{SwappedAt};
ghost use Rattle.p3_field_core.specs.Index.{bit_reversed};
ghost use Rattle.p3_matrix.specs.Rows.{rows_of};

use crate::Dimensions;
use std::alloc::{AllocError, Global};

/// A matrix of at least one column, kept as its rows one after another.
#[derive(Debug, PartialEq, Eq, Drop)]
pub struct RowMajorMatrix<T> {
    values: Vec<T>,
    width: usize,
    ghost has_columns: { 0 < width },
    ghost whole_rows: { vec_len values % width ≡ 0 },
}

/// Rows of a matrix, borrowed.
#[derive(Debug)]
pub struct RowMajorMatrixView<'a, T> {
    values: &'a [T],
    width: usize,
    ghost has_columns: { 0 < width },
    ghost whole_rows: { length values.now % width ≡ 0 },
}

impl<'a, T> Clone for RowMajorMatrixView<'a, T> {
    ghost is_clone = { λ view copy. copy ≡ view };

    ghost is_infallible = { λ _. ⊤ };

    fn clone(&self) -> Result<Self, AllocError> {
        Ok(*self)
    }
}

impl<'a, T> Copy for RowMajorMatrixView<'a, T> {}

#[tactic(auto, unfolding(crate::specs::Matrix::view_rows, crate::specs::Matrix::view_width))]
impl<'a, T: Copy> RowMajorMatrixView<'a, T> {
    ghost use Rattle.p3_matrix.specs.Matrix.{rows, matrix_width, view_rows, view_width};

    /// The number of columns, at least 1.
    pub fn width(&self) -> usize
        ensures columns { result ≡ view_width self.now }
        ensures some { 0 < result }
    {
        self.width
    }

    /// The number of rows.
    pub fn height(&self) -> usize
        ensures { result ≡ length (view_rows self.now) }
    {
        self.values.len() / self.width
    }

    /// The row at `index`.
    pub fn row(&self, index: usize) -> &'a [T]
        requires below_height { index < length (view_rows self.now) }
        ensures row { result.now ≡ slice_index_or (view_rows self.now) index [] }
        ensures width { length result.now ≡ view_width self.now }
    {
        let start = index * self.width;
        &self.values[start..start + self.width]
    }

    /// The entries of the rows from `first` on, before `end`, row after row.
    pub fn row_block(&self, first: usize, end: usize) -> &'a [T]
        requires order { first ≤ end }
        requires within { end ≤ length (view_rows self.now) }
        ensures rows { rows_of (view_width self.now) result.now
            ≡ slice_range (view_rows self.now) first end }
        ensures len { length result.now ≡ (end - first) * view_width self.now }
    {
        &self.values[first * self.width..end * self.width]
    }

    /// The first `at` rows, and the others.
    pub fn split_rows(&self, at: usize) -> (RowMajorMatrixView<'a, T>, RowMajorMatrixView<'a, T>)
        requires within { at ≤ length (view_rows self.now) }
        ensures first { view_rows result.0 ≡ take at (view_rows self.now) }
        ensures others { view_rows result.1 ≡ drop at (view_rows self.now) }
        ensures first_width { view_width result.0 ≡ view_width self.now }
        ensures others_width { view_width result.1 ≡ view_width self.now }
    {
        let width = self.width;
        let (first, others) = self.values.split_at(at * width);
        (
            RowMajorMatrixView {
                values: first,
                width,
            },
            RowMajorMatrixView {
                values: others,
                width,
            },
        )
    }

    /// These rows as a matrix of its own.
    pub fn to_row_major_matrix(&self, alloc: Global) -> Result<RowMajorMatrix<T>, AllocError>
        ensures rows { IfOk result (λ matrix. rows matrix ≡ view_rows self.now) }
        ensures width { IfOk result (λ matrix. matrix_width matrix ≡ view_width self.now) }
    {
        let values = Vec::from_slice(alloc, self.values)?;
        Ok(RowMajorMatrix {
            values,
            width: self.width,
        })
    }
}

#[tactic(auto, unfolding(crate::specs::Matrix::rows, crate::specs::Matrix::matrix_width))]
impl<T: Copy> RowMajorMatrix<T> {
    ghost use Rattle.p3_matrix.specs.Matrix.{rows, matrix_width, view_rows, view_width};

    /// The matrix of these values, row after row, `width` to a row. There is at least one column,
    /// and the last row is whole.
    pub fn new(values: Vec<T>, width: usize) -> Self
        requires has_columns { 0 < width }
        requires whole_rows { vec_len values % width ≡ 0 }
        ensures rows { rows result ≡ rows_of width values.items }
        ensures width { matrix_width result ≡ width }
    {
        Self { values, width }
    }

    /// The matrix, borrowed.
    pub fn as_view(&self) -> RowMajorMatrixView<'_, T>
        ensures rows { view_rows result ≡ rows self.now }
        ensures width { view_width result ≡ matrix_width self.now }
    {
        RowMajorMatrixView {
            values: &self.values,
            width: self.width,
        }
    }

    /// The values, row after row.
    pub fn into_values(self) -> Vec<T>
        ensures rows { rows_of (matrix_width self) result.items ≡ rows self }
        ensures len { vec_len result ≡ length (rows self) * matrix_width self }
    {
        self.values
    }

    /// The number of columns, at least 1.
    pub fn width(&self) -> usize
        ensures columns { result ≡ matrix_width self.now }
        ensures some { 0 < result }
    {
        self.as_view().width()
    }

    /// The number of rows.
    pub fn height(&self) -> usize
        ensures { result ≡ length (rows self.now) }
    {
        self.as_view().height()
    }

    /// The numbers of columns and rows.
    pub fn dimensions(&self) -> Dimensions
        ensures width { result.width ≡ matrix_width self.now }
        ensures height { result.height ≡ length (rows self.now) }
    {
        Dimensions {
            width: self.width(),
            height: self.height(),
        }
    }

    /// The row at `index`.
    pub fn row(&self, index: usize) -> &[T]
        requires below_height { index < length (rows self.now) }
        ensures row { result.now ≡ slice_index_or (rows self.now) index [] }
        ensures width { length result.now ≡ matrix_width self.now }
    {
        self.as_view().row(index)
    }

    /// The entries of the rows from `first` on, before `end`, row after row.
    pub fn row_block(&self, first: usize, end: usize) -> &[T]
        requires order { first ≤ end }
        requires within { end ≤ length (rows self.now) }
        ensures rows { rows_of (matrix_width self.now) result.now
            ≡ slice_range (rows self.now) first end }
        ensures len { length result.now ≡ (end - first) * matrix_width self.now }
    {
        self.as_view().row_block(first, end)
    }

    /// The entry at this row and column, or `None` outside the matrix.
    pub fn get(&self, row: usize, column: usize) -> Option<T>
        ensures inside { IsSome result
            ↔ ((row < length (rows self.now)) × (column < matrix_width self.now)) }
        ensures value { IfSome result (λ x.
            x ≡ slice_index_or (slice_index_or (rows self.now) row []) column x) }
    {
        if row < self.height() && column < self.width() {
            Some(self.row(row)[column])
        } else {
            None
        }
    }

    /// The first `at` rows, and the others.
    pub fn split_rows(&self, at: usize) -> (RowMajorMatrixView<'_, T>, RowMajorMatrixView<'_, T>)
        requires within { at ≤ length (rows self.now) }
        ensures first { view_rows result.0 ≡ take at (rows self.now) }
        ensures others { view_rows result.1 ≡ drop at (rows self.now) }
        ensures first_width { view_width result.0 ≡ matrix_width self.now }
        ensures others_width { view_width result.1 ≡ matrix_width self.now }
    {
        self.as_view().split_rows(at)
    }

    /// The matrix with its rows in bit-reversed order. Their number is a power of two.
    pub fn bit_reverse_rows(self) -> Self
        requires power_of_two { IsPowerOfTwo (length (rows self)) }
        ensures rows { (k : ℕ) → length (rows self) ≡ 2 ^ k
            → rows result ≡ bit_reversed k (rows self) }
        ensures width { matrix_width result ≡ matrix_width self }
    {
        let width = self.width;
        let mut values = self.values;
        reverse_row_index_bits(&mut values, width);
        RowMajorMatrix { values, width }
    }
}

/// Puts the `2^k` rows of `width` values each into bit-reversed order, in place.
fn reverse_row_index_bits<T>(values: &mut [T], width: usize)
    requires has_columns { 0 < width }
    requires power_of_two { IsPowerOfTwo (length values.old / width) }
    ensures { (k : ℕ) → length values.old / width ≡ 2 ^ k
        → rows_of width values.new ≡ bit_reversed k (rows_of width values.old) }
{
    let height = values.len() / width;
    let mut j = 0;
    for i in 1..height {
        // `j` is `i` with its digits reversed: the step is `reverse_slice_index_bits`'s.
        j ^= height - (height >> (i.trailing_zeros() + 1));
        if i < j {
            swap_rows(values, width, i, j);
        }
    }
}

/// Exchanges two rows, of which `upper` comes first.
fn swap_rows<T>(values: &mut [T], width: usize, upper: usize, lower: usize)
    requires order { upper < lower }
    requires below_height { lower < length values.old / width }
    ensures { SwappedAt (rows_of width values.old) (rows_of width values.new) upper lower }
{
    let (front, back) = values.split_at_mut(lower * width);
    let start = upper * width;
    front[start..start + width].swap_with_slice(&mut back[..width]);
}
