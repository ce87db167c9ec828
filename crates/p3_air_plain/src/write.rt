//! The plain form of a constraint system.

ghost use Rattle.std.specs.Prelude.{◌≡◌, map, IfOk};
ghost use Rattle.p3_air_plain.specs.Forms.{IsFormOf, layout_form, rows_form};
ghost use Rattle.p3_air_plain.specs.Forms.{constraint_form, node_form};

use crate::forms::{PlainAir, PlainConstraint, PlainLayout, PlainNode, PlainRows};
use p3_air::{Air, AirLayout, Constraint, Node, Rows};
use p3_field_core::PrimeField64;
use std::alloc::{AllocError, Global};

/// The form of a layout.
fn plain_layout(layout: AirLayout) -> PlainLayout
    ensures { result ≡ layout_form layout }
{
    PlainLayout {
        width: layout.width,
        preprocessed_width: layout.preprocessed_width,
        num_public_values: layout.num_public_values,
        num_periodic_columns: layout.num_periodic_columns,
    }
}

/// The form of a node.
fn plain_node<F: PrimeField64>(node: Node<F>) -> PlainNode
    ensures { result ≡ node_form F.canonical node }
{
    match node {
        Node::Constant(value) => PlainNode::Constant(value.as_canonical_u64()),
        Node::Local(column) => PlainNode::Local(column),
        Node::Next(column) => PlainNode::Next(column),
        Node::Preprocessed(column) => PlainNode::Preprocessed(column),
        Node::PreprocessedNext(column) => PlainNode::PreprocessedNext(column),
        Node::Public(index) => PlainNode::Public(index),
        Node::Periodic(column) => PlainNode::Periodic(column),
        Node::Add(a, b) => PlainNode::Add(a, b),
        Node::Sub(a, b) => PlainNode::Sub(a, b),
        Node::Mul(a, b) => PlainNode::Mul(a, b),
        Node::Neg(a) => PlainNode::Neg(a),
    }
}

/// The forms of nodes.
fn plain_nodes<F: PrimeField64>(
    alloc: Global,
    nodes: &[Node<F>],
) -> Result<Vec<PlainNode>, AllocError>
    ensures { IfOk result (λ forms. forms.items ≡ map (node_form F.canonical) nodes.now) }
{
    let mut forms = Vec::with_capacity(alloc, nodes.len())?;
    for node in nodes {
        forms.push(plain_node(*node))?;
    }
    Ok(forms)
}

/// The form of a constraint.
fn plain_constraint(constraint: Constraint) -> PlainConstraint
    ensures { result ≡ constraint_form constraint }
{
    let rows = match constraint.rows {
        Rows::All => PlainRows::All,
        Rows::First => PlainRows::First,
        Rows::Last => PlainRows::Last,
        Rows::Transition => PlainRows::Transition,
    };
    PlainConstraint {
        rows,
        node: constraint.node,
    }
}

/// The forms of constraints.
fn plain_constraints(
    alloc: Global,
    constraints: &[Constraint],
) -> Result<Vec<PlainConstraint>, AllocError>
    ensures { IfOk result (λ forms. forms.items ≡ map constraint_form constraints.now) }
{
    let mut forms = Vec::with_capacity(alloc, constraints.len())?;
    for constraint in constraints {
        forms.push(plain_constraint(*constraint))?;
    }
    Ok(forms)
}

/// The plain form of a constraint system.
pub fn air_to_plain<F: PrimeField64>(alloc: Global, air: &Air<F>) -> Result<PlainAir, AllocError>
    ensures { IfOk result (IsFormOf F.canonical air.now) }
{
    Ok(PlainAir {
        layout: plain_layout(air.layout),
        nodes: plain_nodes(alloc, air.nodes.as_slice())?,
        constraints: plain_constraints(alloc, air.constraints.as_slice())?,
    })
}
