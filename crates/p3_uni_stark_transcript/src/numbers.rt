//! The numbers of an instance.

ghost use Rattle.std.specs.Prelude.{◌≡◌, ◌++◌, map, IfOk, OnOk};
ghost use Rattle.std.specs.List.{flat_map};
ghost use Rattle.algebra.specs.Nested.{lists};
ghost use Rattle.p3_uni_stark_transcript.specs.Instance.{node_numbers, constraint_numbers};
ghost use Rattle.p3_uni_stark_transcript.specs.Instance.{column_numbers, instance_numbers};
ghost use Rattle.p3_uni_stark_transcript.specs.Instance.{header_numbers, numbers_bytes};
ghost use Rattle.p3_uni_stark_transcript.specs.Views.{instance_of};

use crate::instance::StarkInstance;
use p3_air::{Constraint, Node, Rows};
use p3_field_core::PrimeField64;
use std::alloc::{AllocError, Global};

/// The numbers of a node: its kind, and what it names.
fn node_numbers<F: PrimeField64>(node: Node<F>) -> [u64; 3]
    ensures { result ≡ node_numbers F.canonical node }
{
    match node {
        Node::Constant(value) => [0, value.as_canonical_u64(), 0],
        Node::Local(column) => [1, column as u64, 0],
        Node::Next(column) => [2, column as u64, 0],
        Node::Preprocessed(column) => [3, column as u64, 0],
        Node::PreprocessedNext(column) => [4, column as u64, 0],
        Node::Public(index) => [5, index as u64, 0],
        Node::Periodic(column) => [6, column as u64, 0],
        Node::Add(a, b) => [7, a as u64, b as u64],
        Node::Sub(a, b) => [8, a as u64, b as u64],
        Node::Mul(a, b) => [9, a as u64, b as u64],
        Node::Neg(a) => [10, a as u64, 0],
    }
}

/// The numbers of a constraint: the kind of its rows, and its node.
fn constraint_numbers(constraint: Constraint) -> [u64; 2]
    ensures { result ≡ constraint_numbers constraint }
{
    let rows = match constraint.rows {
        Rows::All => 0,
        Rows::First => 1,
        Rows::Last => 2,
        Rows::Transition => 3,
    };
    [rows, constraint.node as u64]
}

/// Appends the numbers of nodes.
fn push_nodes<F: PrimeField64>(numbers: &mut Vec<u64>, nodes: &[Node<F>]) -> Result<(), AllocError>
    ensures { OnOk result (numbers.new.items
        ≡ numbers.old.items ++ flat_map (node_numbers F.canonical) nodes.now) }
{
    for node in nodes {
        numbers.extend_from_slice(&node_numbers(*node))?;
    }
    Ok(())
}

/// Appends the numbers of constraints.
fn push_constraints(numbers: &mut Vec<u64>, constraints: &[Constraint]) -> Result<(), AllocError>
    ensures { OnOk result (numbers.new.items
        ≡ numbers.old.items ++ flat_map constraint_numbers constraints.now) }
{
    for constraint in constraints {
        numbers.extend_from_slice(&constraint_numbers(*constraint))?;
    }
    Ok(())
}

/// Appends the numbers of elements.
fn push_elements<F: PrimeField64>(numbers: &mut Vec<u64>, elements: &[F]) -> Result<(), AllocError>
    ensures { OnOk result (numbers.new.items
        ≡ numbers.old.items ++ map F.canonical elements.now) }
{
    for element in elements {
        numbers.push(element.as_canonical_u64())?;
    }
    Ok(())
}

/// Appends of each column its length and the numbers of its elements.
fn push_columns<F: PrimeField64>(
    numbers: &mut Vec<u64>,
    columns: &[Vec<F>],
) -> Result<(), AllocError>
    ensures { OnOk result (numbers.new.items
        ≡ numbers.old.items ++ flat_map (column_numbers F.canonical) (lists columns.now)) }
{
    for column in columns {
        numbers.push(column.as_slice().len() as u64)?;
        push_elements(numbers, column.as_slice())?;
    }
    Ok(())
}

/// Appends the sizes of an instance.
fn push_header<F: PrimeField64>(
    numbers: &mut Vec<u64>,
    instance: &StarkInstance<'_, F>,
) -> Result<(), AllocError>
    ensures { OnOk result (numbers.new.items
        ≡ numbers.old.items ++ header_numbers (instance_of instance.now)) }
{
    let layout = instance.air.layout;
    numbers.extend_from_slice(&[
        layout.width as u64,
        layout.preprocessed_width as u64,
        layout.num_public_values as u64,
        layout.num_periodic_columns as u64,
        instance.log_height as u64,
        instance.air.nodes.len() as u64,
        instance.air.constraints.len() as u64,
        instance.public_values.len() as u64,
        instance.periodic.len() as u64,
    ])
}

/// The numbers of an instance.
fn instance_numbers<F: PrimeField64>(
    alloc: Global,
    instance: &StarkInstance<'_, F>,
) -> Result<Vec<u64>, AllocError>
    ensures { IfOk result (λ numbers.
        numbers.items ≡ instance_numbers F.canonical (instance_of instance.now)) }
{
    let mut numbers = Vec::new(alloc);
    push_header(&mut numbers, instance)?;
    push_nodes(&mut numbers, instance.air.nodes.as_slice())?;
    push_constraints(&mut numbers, instance.air.constraints.as_slice())?;
    push_elements(&mut numbers, instance.public_values)?;
    push_columns(&mut numbers, instance.periodic)?;
    Ok(numbers)
}

/// Appends numbers in eight bytes each, the highest first.
fn push_numbers(label: &mut Vec<u8>, numbers: &[u64]) -> Result<(), AllocError>
    ensures { OnOk result (label.new.items ≡ label.old.items ++ numbers_bytes numbers.now) }
{
    for number in numbers {
        label.extend_from_slice(&number.to_be_bytes())?;
    }
    Ok(())
}

/// The label of an instance: its numbers in bytes.
pub(crate) fn instance_label<F: PrimeField64>(
    alloc: Global,
    instance: &StarkInstance<'_, F>,
) -> Result<Vec<u8>, AllocError>
    ensures { IfOk result (λ label. label.items
        ≡ numbers_bytes (instance_numbers F.canonical (instance_of instance.now))) }
{
    let numbers = instance_numbers(alloc, instance)?;
    let mut label = Vec::new(alloc);
    push_numbers(&mut label, numbers.as_slice())?;
    Ok(label)
}
