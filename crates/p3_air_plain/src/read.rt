//! The constraint system of a plain form.

ghost use Rattle.std.specs.Prelude.{◌≡◌, ◌<◌, ◌^◌, map, All, IfOk, IfErr, IfSome, IfNone};
ghost use Rattle.p3_air.specs.Degrees.{node_degrees};
ghost use Rattle.p3_air.specs.WellFormed.{IsWellFormed};
ghost use Rattle.p3_air_plain.specs.Faults.{IsInRange, IsOutOfRange, NodesFault};
ghost use Rattle.p3_air_plain.specs.Faults.{DegreesFault, FormFault};
ghost use Rattle.p3_air_plain.specs.Forms.{IsFormOf, layout_form, rows_form};
ghost use Rattle.p3_air_plain.specs.Forms.{constraint_form, node_form};

use crate::element::element;
use crate::error::PlainAirError;
use crate::forms::{PlainAir, PlainConstraint, PlainLayout, PlainNode, PlainRows};
use p3_air::{Air, AirLayout, Constraint, DegreeError, Node, Rows};
use p3_field_core::PrimeField64;
use std::alloc::{AllocError, Global};

/// The layout of this form.
fn layout_of(form: PlainLayout) -> AirLayout
    ensures { layout_form result ≡ form }
{
    AirLayout {
        width: form.width,
        preprocessed_width: form.preprocessed_width,
        num_public_values: form.num_public_values,
        num_periodic_columns: form.num_periodic_columns,
    }
}

/// The node of this form, or `None` of a constant that is no element.
fn node_of<F: PrimeField64>(form: PlainNode) -> Option<Node<F>>
    ensures some { IfSome result (λ node. node_form F.canonical node ≡ form) }
    ensures in_range { IfSome result (λ _. IsInRange F.ORDER_U64 form) }
    ensures none { IfNone result (IsOutOfRange F.ORDER_U64 form) }
{
    match form {
        PlainNode::Constant(number) => match element(number) {
            Some(value) => Some(Node::Constant(value)),
            None => None,
        },
        PlainNode::Local(column) => Some(Node::Local(column)),
        PlainNode::Next(column) => Some(Node::Next(column)),
        PlainNode::Preprocessed(column) => Some(Node::Preprocessed(column)),
        PlainNode::PreprocessedNext(column) => Some(Node::PreprocessedNext(column)),
        PlainNode::Public(index) => Some(Node::Public(index)),
        PlainNode::Periodic(column) => Some(Node::Periodic(column)),
        PlainNode::Add(a, b) => Some(Node::Add(a, b)),
        PlainNode::Sub(a, b) => Some(Node::Sub(a, b)),
        PlainNode::Mul(a, b) => Some(Node::Mul(a, b)),
        PlainNode::Neg(a) => Some(Node::Neg(a)),
    }
}

/// The nodes of these forms; otherwise the first constant that is no element.
fn nodes_of<F: PrimeField64>(
    alloc: Global,
    forms: &[PlainNode],
) -> Result<Vec<Node<F>>, PlainAirError>
    ensures ok { IfOk result (λ nodes. map (node_form F.canonical) nodes.items ≡ forms.now) }
    ensures err { IfErr result (NodesFault F.ORDER_U64 forms.now) }
{
    let mut nodes = match Vec::with_capacity(alloc, forms.len()) {
        Ok(nodes) => nodes,
        Err(_) => return Err(PlainAirError::OutOfMemory),
    };
    for i in 0..forms.len() {
        let Some(node) = node_of(forms[i]) else {
            return Err(PlainAirError::ConstantOutOfRange { node: i });
        };
        if nodes.push(node).is_err() {
            return Err(PlainAirError::OutOfMemory);
        }
    }
    Ok(nodes)
}

/// The rows of this form.
fn rows_of(form: PlainRows) -> Rows
    ensures { rows_form result ≡ form }
{
    match form {
        PlainRows::All => Rows::All,
        PlainRows::First => Rows::First,
        PlainRows::Last => Rows::Last,
        PlainRows::Transition => Rows::Transition,
    }
}

/// The constraints of these forms.
fn constraints_of(alloc: Global, forms: &[PlainConstraint]) -> Result<Vec<Constraint>, AllocError>
    ensures { IfOk result (λ all. map constraint_form all.items ≡ forms.now) }
{
    let mut constraints = Vec::with_capacity(alloc, forms.len())?;
    for form in forms {
        constraints.push(Constraint {
            rows: rows_of(form.rows),
            node: form.node,
        })?;
    }
    Ok(constraints)
}

/// The constraint system of this form, which needn't be well formed.
fn denoted<F: PrimeField64>(alloc: Global, form: &PlainAir) -> Result<Air<F>, PlainAirError>
    ensures ok { IfOk result (λ air. IsFormOf F.canonical air form.now) }
    ensures err { IfErr result (NodesFault F.ORDER_U64 form.now.nodes.items) }
{
    let nodes = match nodes_of(alloc, form.nodes.as_slice()) {
        Ok(nodes) => nodes,
        Err(fault) => return Err(fault),
    };
    let constraints = match constraints_of(alloc, form.constraints.as_slice()) {
        Ok(constraints) => constraints,
        Err(AllocError) => return Err(PlainAirError::OutOfMemory),
    };
    Ok(Air {
        layout: layout_of(form.layout),
        nodes,
        constraints,
    })
}

/// What numbers of a machine are below.
fn have_64_bits(numbers: &[usize])
    ensures { All (λ n. n < 2 ^ 64) numbers.now }
{}

/// Whether each degree fits a `usize`.
fn check_degrees<F: PrimeField64>(alloc: Global, air: &Air<F>) -> Result<(), PlainAirError>
    requires well_formed { IsWellFormed air.now }
    ensures ok { IfOk result (λ _. All (λ degree. degree < 2 ^ 64) (node_degrees air.now)) }
    ensures err { IfErr result (DegreesFault air.now) }
{
    match air.degrees(alloc) {
        Ok(degrees) => {
            have_64_bits(degrees.as_slice());
            Ok(())
        },
        Err(DegreeError::TooLarge) => Err(PlainAirError::DegreeTooLarge),
        Err(DegreeError::OutOfMemory) => Err(PlainAirError::OutOfMemory),
    }
}

/// The constraint system of this form: well formed, and of degrees that fit a `usize`. Otherwise
/// why there is none: the first constant that is no element, or else the first node or constraint
/// that names what isn't there, or else a degree that is too large.
pub fn air_from_plain<F: PrimeField64>(
    alloc: Global,
    form: &PlainAir,
) -> Result<Air<F>, PlainAirError>
    ensures form { IfOk result (λ air. IsFormOf F.canonical air form.now) }
    ensures well_formed { IfOk result IsWellFormed }
    ensures degrees { IfOk result (λ air. All (λ degree. degree < 2 ^ 64) (node_degrees air)) }
    ensures refused { IfErr result (FormFault F.ORDER_U64 F.canonical form.now) }
{
    let air = match denoted::<F>(alloc, form) {
        Ok(air) => air,
        Err(fault) => return Err(fault),
    };
    if let Err(fault) = air.check() {
        return Err(PlainAirError::Malformed(fault));
    }
    match check_degrees(alloc, &air) {
        Ok(()) => Ok(air),
        Err(fault) => Err(fault),
    }
}
