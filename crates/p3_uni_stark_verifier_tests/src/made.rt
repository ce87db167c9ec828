//! Statements and proofs, made of what is shown in numbers.

use crate::belief::Belief;
use crate::numbers::{columns, elements, extension_lists, extensions};
use crate::shown::Shown;
use p3_air::{Air, Node};
use p3_field::{ExtensionField, Field};
use p3_uni_stark_verifier::{Commitments, OpenedValues, PreprocessedVerifierKey, Proof};
use std::alloc::Global;
use std::process::Abort;

/// The node of an element in the place of a number.
fn node_of<F: Field>(node: Node<u64>) -> Node<F> {
    match node {
        Node::Constant(number) => Node::Constant(F::from_u64(number)),
        Node::Local(column) => Node::Local(column),
        Node::Next(column) => Node::Next(column),
        Node::Preprocessed(column) => Node::Preprocessed(column),
        Node::PreprocessedNext(column) => Node::PreprocessedNext(column),
        Node::Public(index) => Node::Public(index),
        Node::Periodic(column) => Node::Periodic(column),
        Node::Add(a, b) => Node::Add(a, b),
        Node::Sub(a, b) => Node::Sub(a, b),
        Node::Mul(a, b) => Node::Mul(a, b),
        Node::Neg(a) => Node::Neg(a),
    }
}

/// The nodes of elements, and so many behind a lone one, each the square of the one before.
fn nodes_of<F: Field>(
    rt: &impl Abort,
    alloc: Global,
    each: &[Node<u64>],
    squares: usize,
) -> Vec<Node<F>> {
    let mut nodes = Vec::new(alloc);
    for node in each {
        nodes.push(node_of(*node)).expect(rt, "memory");
    }
    for index in 0..squares {
        nodes.push(Node::Mul(index, index)).expect(rt, "memory");
    }
    nodes
}

/// A proof, and the parts of its statement. The system is well formed or not.
#[derive(Drop)]
pub(crate) struct Parts<F, EF> {
    pub(crate) air: Air<F>,
    pub(crate) public_values: Vec<F>,
    pub(crate) periodic: Vec<Vec<F>>,
    pub(crate) preprocessed: Option<PreprocessedVerifierKey<[u8; 32]>>,
    pub(crate) proof: Proof<EF, [u8; 32], Belief>,
}

/// The opened values that are shown.
fn values_of<F: Field, EF: ExtensionField<F>>(
    rt: &impl Abort,
    alloc: Global,
    shown: &Shown,
) -> OpenedValues<EF> {
    OpenedValues {
        trace_local: extensions::<F, EF>(rt, alloc, shown.trace_local),
        trace_next: extensions::<F, EF>(rt, alloc, shown.trace_next),
        preprocessed_local: extensions::<F, EF>(rt, alloc, shown.preprocessed_local),
        preprocessed_next: extensions::<F, EF>(rt, alloc, shown.preprocessed_next),
        quotient_chunks: extension_lists::<F, EF>(rt, alloc, shown.quotient_chunks),
        random: extensions::<F, EF>(rt, alloc, shown.random_values),
    }
}

/// The parts of what is shown, over any field.
pub(crate) fn parts_of<F: Field, EF: ExtensionField<F>>(
    rt: &impl Abort,
    alloc: Global,
    shown: &Shown,
) -> Parts<F, EF> {
    Parts {
        air: Air {
            layout: shown.layout,
            nodes: nodes_of(rt, alloc, shown.nodes, shown.squares),
            constraints: Vec::from_slice(alloc, shown.constraints).expect(rt, "memory"),
        },
        public_values: elements(rt, alloc, shown.public_values),
        periodic: columns(rt, alloc, shown.periodic),
        preprocessed: shown.preprocessed,
        proof: Proof {
            commitments: Commitments {
                trace: shown.trace,
                quotient_chunks: shown.quotient,
                random: shown.random,
            },
            opened_values: values_of::<F, EF>(rt, alloc, shown),
            opening_proof: Belief {
                claims: shown.claims,
            },
            log_height: shown.log_height,
        },
    }
}
