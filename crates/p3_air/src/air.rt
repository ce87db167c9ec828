//! Constraint systems: nodes, and constraints on rows.

/// A value that constraints speak of, by earlier ones. A row is looked at together with the one
/// after it.
#[derive(Clone, Copy, Debug, PartialEq, Eq)]
pub enum Node<F> {
    /// An element of the field.
    Constant(F),
    /// The entry of this row in a column of the trace.
    Local(usize),
    /// The entry of the next row in a column of the trace.
    Next(usize),
    /// The entry of this row in a preprocessed column.
    Preprocessed(usize),
    /// The entry of the next row in a preprocessed column.
    PreprocessedNext(usize),
    /// A public value.
    Public(usize),
    /// The value of a periodic column at this row.
    Periodic(usize),
    /// The sum of two earlier nodes.
    Add(usize, usize),
    /// The first of two earlier nodes, minus the second.
    Sub(usize, usize),
    /// The product of two earlier nodes.
    Mul(usize, usize),
    /// The negative of an earlier node.
    Neg(usize),
}

/// The rows on which a constraint has to hold.
#[derive(Clone, Copy, Debug, PartialEq, Eq)]
pub enum Rows {
    /// Each row; the one after the last is the first.
    All,
    /// The first row.
    First,
    /// The last row.
    Last,
    /// Each row but the last.
    Transition,
}

/// A node that has to be zero on these rows.
#[derive(Clone, Copy, Debug, PartialEq, Eq)]
pub struct Constraint {
    pub rows: Rows,
    pub node: usize,
}

/// How many columns of each kind there are, and how many public values.
#[derive(Clone, Copy, Debug, PartialEq, Eq)]
pub struct AirLayout {
    /// The number of the trace's columns.
    pub width: usize,
    /// The number of preprocessed columns.
    pub preprocessed_width: usize,
    /// The number of public values.
    pub num_public_values: usize,
    /// The number of periodic columns.
    pub num_periodic_columns: usize,
}

/// A constraint system: what there is to speak of, the nodes, and the constraints on them.
/// `AirBuilder` writes one, and `check` tests one from outside.
#[derive(Debug, Drop)]
pub struct Air<F> {
    pub layout: AirLayout,
    pub nodes: Vec<Node<F>>,
    pub constraints: Vec<Constraint>,
}
