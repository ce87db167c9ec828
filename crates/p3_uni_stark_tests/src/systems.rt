//! Constraint systems.

use p3_air::{Air, AirLayout, Constraint, Node, Rows};
use p3_field::Field;
use std::alloc::Global;
use std::process::Abort;

/// A constraint system in tables, with numbers in the place of elements.
#[derive(Clone, Copy)]
pub(crate) struct System {
    layout: AirLayout,
    nodes: &'static [Node<u64>],
    constraints: &'static [Constraint],
}

/// The node of an element in the place of a number.
fn node_of<F: Field>(node: Node<u64>) -> Node<F> {
    match node {
        Node::Constant(number) => Node::Constant(F::from_u64(number)),
        Node::Local(column) => Node::Local(column),
        Node::Next(column) => Node::Next(column),
        Node::Preprocessed(column) => Node::Preprocessed(column),
        Node::PreprocessedNext(column) => Node::PreprocessedNext(column),
        Node::Public(index) => Node::Public(index),
        Node::Periodic(column) => Node::Periodic(column),
        Node::Add(a, b) => Node::Add(a, b),
        Node::Sub(a, b) => Node::Sub(a, b),
        Node::Mul(a, b) => Node::Mul(a, b),
        Node::Neg(a) => Node::Neg(a),
    }
}

/// The nodes of elements.
fn nodes_of<F: Field>(rt: &impl Abort, alloc: Global, nodes: &[Node<u64>]) -> Vec<Node<F>> {
    let mut made = Vec::new(alloc);
    for node in nodes {
        made.push(node_of(*node)).expect(rt, "memory");
    }
    made
}

/// The constraint system over any field.
pub(crate) fn air_of<F: Field>(rt: &impl Abort, alloc: Global, system: &System) -> Air<F> {
    Air {
        layout: system.layout,
        nodes: nodes_of(rt, alloc, system.nodes),
        constraints: Vec::from_slice(alloc, system.constraints).expect(rt, "memory"),
    }
}

/// The first row is the first two public values, each next row has the second entry and the sum of
/// both, and the second entry of the last row is the third public value.
pub(crate) const FIBONACCI: System = System {
    layout: AirLayout {
        width: 2,
        preprocessed_width: 0,
        num_public_values: 3,
        num_periodic_columns: 0,
    },
    nodes: &[
        Node::Local(0),
        Node::Local(1),
        Node::Public(0),
        Node::Public(1),
        Node::Sub(0, 2),
        Node::Sub(1, 3),
        Node::Next(0),
        Node::Next(1),
        Node::Add(0, 1),
        Node::Sub(6, 1),
        Node::Sub(7, 8),
        Node::Public(2),
        Node::Sub(1, 11),
    ],
    constraints: &[
        Constraint {
            rows: Rows::First,
            node: 4,
        },
        Constraint {
            rows: Rows::First,
            node: 5,
        },
        Constraint {
            rows: Rows::Transition,
            node: 9,
        },
        Constraint {
            rows: Rows::Transition,
            node: 10,
        },
        Constraint {
            rows: Rows::Last,
            node: 12,
        },
    ],
};

/// The first entry is the first public value, and each next one is the cube of this one and, where
/// the preprocessed column is one, the second public value.
pub(crate) const CUBES: System = System {
    layout: AirLayout {
        width: 1,
        preprocessed_width: 1,
        num_public_values: 2,
        num_periodic_columns: 0,
    },
    nodes: &[
        Node::Local(0),
        Node::Public(0),
        Node::Sub(0, 1),
        Node::Next(0),
        Node::Mul(0, 0),
        Node::Mul(4, 0),
        Node::Preprocessed(0),
        Node::Public(1),
        Node::Mul(6, 7),
        Node::Add(5, 8),
        Node::Sub(3, 9),
    ],
    constraints: &[
        Constraint {
            rows: Rows::First,
            node: 2,
        },
        Constraint {
            rows: Rows::Transition,
            node: 10,
        },
    ],
};
