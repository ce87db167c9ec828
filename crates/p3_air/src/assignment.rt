//! What constraint systems are held against.

/// A trace and what goes with it.
#[derive(Clone, Copy, Debug)]
pub struct Assignment<'a, F> {
    /// The trace, row by row.
    pub trace: &'a [Vec<F>],
    /// The preprocessed columns, row by row; without such columns there may be no rows.
    pub preprocessed: &'a [Vec<F>],
    /// The public values.
    pub public_values: &'a [F],
    /// The periodic columns, each a list of entries that is gone through again and again.
    pub periodic: &'a [Vec<F>],
}
