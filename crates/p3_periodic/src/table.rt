//! Tables of the values of periodic columns on a domain.

ghost use Rattle.std.specs.Prelude.{◌≡◌, [], length, slice_get};
ghost use Rattle.p3_matrix.specs.Matrix.{rows};
ghost use Rattle.p3_periodic.specs.Tables.{table_row};

use p3_matrix::RowMajorMatrix;

/// The values of periodic columns on a domain, as many rows as there are before they repeat.
#[derive(Debug, Drop)]
pub struct PeriodicLdeTable<T> {
    values: Option<RowMajorMatrix<T>>,
}

#[tactic(auto, unfolding(crate::specs::Views::table_rows))]
impl<T: Copy> PeriodicLdeTable<T> {
    ghost use Rattle.p3_periodic.specs.Views.{table_rows};

    /// The table of no columns.
    pub fn empty() -> Self
        ensures { table_rows result ≡ [] }
    {
        PeriodicLdeTable { values: None }
    }

    /// The table of these rows, an entry to a column.
    pub fn new(values: RowMajorMatrix<T>) -> Self
        ensures { table_rows result ≡ rows values }
    {
        PeriodicLdeTable {
            values: Some(values),
        }
    }

    /// The number of rows.
    pub fn height(&self) -> usize
        ensures { result ≡ length (table_rows self.now) }
    {
        match &self.values {
            Some(matrix) => matrix.height(),
            None => 0,
        }
    }

    /// The value of this column at the domain's point of this index, which the row of the index
    /// modulo the height holds. `None` where there is no such column.
    pub fn get(&self, index: usize, column: usize) -> Option<T>
        ensures { result ≡ slice_get (table_row (table_rows self.now) index) column }
    {
        match &self.values {
            Some(matrix) => entry_of(matrix, index, column),
            None => None,
        }
    }
}

/// The entry in this column of the row at `index` modulo the height, if there is one.
fn entry_of<T: Copy>(matrix: &RowMajorMatrix<T>, index: usize, column: usize) -> Option<T>
    ensures { result ≡ slice_get (table_row (rows matrix.now) index) column }
{
    let height = matrix.height();
    if height == 0 {
        return None;
    }
    matrix.row(index % height).get(column).copied()
}
