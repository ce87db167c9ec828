//! The plain forms of a constraint system and of its parts, with the names of their fields in a
//! text.

use serde::{Deserialize, Serialize};

/// How many columns of each kind there are, and how many public values.
#[derive(Clone, Copy, Debug, PartialEq, Eq, Serialize, Deserialize)]
pub struct PlainLayout {
    pub width: usize,
    pub preprocessed_width: usize,
    pub num_public_values: usize,
    pub num_periodic_columns: usize,
}

/// A node: a constant by its canonical number, a column or a public value by its place, and
/// operands by the numbers of their nodes.
#[derive(Clone, Copy, Debug, PartialEq, Eq, Serialize, Deserialize)]
#[serde(rename_all = "snake_case")]
pub enum PlainNode {
    Constant(u64),
    Local(usize),
    Next(usize),
    Preprocessed(usize),
    PreprocessedNext(usize),
    Public(usize),
    Periodic(usize),
    Add(usize, usize),
    Sub(usize, usize),
    Mul(usize, usize),
    Neg(usize),
}

/// The rows on which a constraint has to hold.
#[derive(Clone, Copy, Debug, PartialEq, Eq, Serialize, Deserialize)]
#[serde(rename_all = "snake_case")]
pub enum PlainRows {
    All,
    First,
    Last,
    Transition,
}

/// The number of a node that has to be zero on these rows.
#[derive(Clone, Copy, Debug, PartialEq, Eq, Serialize, Deserialize)]
pub struct PlainConstraint {
    pub rows: PlainRows,
    pub node: usize,
}

/// A constraint system.
#[derive(Debug, PartialEq, Eq, Drop, Serialize, Deserialize)]
pub struct PlainAir {
    pub layout: PlainLayout,
    pub nodes: Vec<PlainNode>,
    pub constraints: Vec<PlainConstraint>,
}
