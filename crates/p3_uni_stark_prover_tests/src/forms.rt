//! Constraint systems by their parts, those of `starks` in `tools/relation`.

use p3_air_plain::{PlainLayout, PlainNode, PlainRows};

/// A constraint system by its parts: what there is to speak of, nodes, and the nodes that have to
/// be zero on these rows.
#[derive(Clone, Copy)]
pub(crate) struct Form {
    pub(crate) layout: PlainLayout,
    pub(crate) nodes: &'static [PlainNode],
    pub(crate) constraints: &'static [(PlainRows, usize)],
}

/// The first row is the first two public values, each next row has the second entry and the sum of
/// both, and the last entry is the third public value.
pub(crate) static FIBONACCI: Form = Form {
    layout: PlainLayout {
        width: 2,
        preprocessed_width: 0,
        num_public_values: 3,
        num_periodic_columns: 0,
    },
    nodes: &[
        PlainNode::Local(0),
        PlainNode::Local(1),
        PlainNode::Public(0),
        PlainNode::Public(1),
        PlainNode::Sub(0, 2),
        PlainNode::Sub(1, 3),
        PlainNode::Next(0),
        PlainNode::Next(1),
        PlainNode::Add(0, 1),
        PlainNode::Sub(6, 1),
        PlainNode::Sub(7, 8),
        PlainNode::Public(2),
        PlainNode::Sub(1, 11),
    ],
    constraints: &[
        (PlainRows::First, 4),
        (PlainRows::First, 5),
        (PlainRows::Transition, 9),
        (PlainRows::Transition, 10),
        (PlainRows::Last, 12),
    ],
};

/// The first entry is the number below four whose bits are the other two, the lower one first.
pub(crate) static RANGE_CHECK: Form = Form {
    layout: PlainLayout {
        width: 3,
        preprocessed_width: 0,
        num_public_values: 0,
        num_periodic_columns: 0,
    },
    nodes: &[
        PlainNode::Local(0),
        PlainNode::Local(1),
        PlainNode::Local(2),
        PlainNode::Mul(1, 1),
        PlainNode::Sub(3, 1),
        PlainNode::Mul(2, 2),
        PlainNode::Sub(5, 2),
        PlainNode::Add(2, 2),
        PlainNode::Add(1, 7),
        PlainNode::Sub(0, 8),
    ],
    constraints: &[
        (PlainRows::All, 4),
        (PlainRows::All, 6),
        (PlainRows::All, 9),
    ],
};

/// The first entry is the first public value, and each next one is the cube of this one, a periodic
/// column's entry and, where the preprocessed column is one, the second public value.
pub(crate) static CUBES: Form = Form {
    layout: PlainLayout {
        width: 1,
        preprocessed_width: 1,
        num_public_values: 2,
        num_periodic_columns: 1,
    },
    nodes: &[
        PlainNode::Local(0),
        PlainNode::Public(0),
        PlainNode::Sub(0, 1),
        PlainNode::Next(0),
        PlainNode::Mul(0, 0),
        PlainNode::Mul(4, 0),
        PlainNode::Preprocessed(0),
        PlainNode::Public(1),
        PlainNode::Mul(6, 7),
        PlainNode::Add(5, 8),
        PlainNode::Periodic(0),
        PlainNode::Add(9, 10),
        PlainNode::Sub(3, 11),
    ],
    constraints: &[(PlainRows::First, 2), (PlainRows::Transition, 12)],
};

/// Each next entry is the seventh power of this one plus one, the first comes after the last, and
/// the next row of the preprocessed column has its negative.
pub(crate) static POWERS: Form = Form {
    layout: PlainLayout {
        width: 1,
        preprocessed_width: 1,
        num_public_values: 0,
        num_periodic_columns: 0,
    },
    nodes: &[
        PlainNode::Local(0),
        PlainNode::Mul(0, 0),
        PlainNode::Mul(1, 1),
        PlainNode::Mul(2, 1),
        PlainNode::Mul(3, 0),
        PlainNode::Constant(1),
        PlainNode::Add(4, 5),
        PlainNode::Next(0),
        PlainNode::Sub(7, 6),
        PlainNode::PreprocessedNext(0),
        PlainNode::Neg(9),
        PlainNode::Sub(10, 7),
    ],
    constraints: &[(PlainRows::Transition, 8), (PlainRows::All, 11)],
};

/// Nothing is asked of one column.
pub(crate) static NO_CONSTRAINTS: Form = Form {
    layout: PlainLayout {
        width: 1,
        preprocessed_width: 0,
        num_public_values: 0,
        num_periodic_columns: 0,
    },
    nodes: &[],
    constraints: &[],
};
