//! The test whether a constraint system is well formed.

ghost use Rattle.std.specs.Prelude.{◌≡◌, ◌<◌, MatchResult, IfOk, length, All};
ghost use Rattle.p3_air.specs.WellFormed.{IsGrounded, AreGrounded, IsWellFormed, IsOutside};
ghost use Rattle.p3_air.specs.WellFormed.{OperandFault, NodeFault, FirstNodeFault};
ghost use Rattle.p3_air.specs.WellFormed.{FirstConstraintFault, FirstFault};
ghost use Rattle.p3_air.specs.declared.error.AirError.TheVariants as fault;

use crate::air::{Air, AirLayout, Node};
use crate::error::AirError;

/// Whether there is something at the index, of so many; otherwise this fault.
fn check_index(index: usize, count: usize, fault: AirError) -> Result<(), AirError>
    ensures { MatchResult result (λ _. index < count) (IsOutside index count fault) }
{
    if index < count { Ok(()) } else { Err(fault) }
}

/// Whether node number `at` may name both nodes.
fn check_operands(at: usize, a: usize, b: usize) -> Result<(), AirError>
    ensures { MatchResult result (λ _. (a < at) × (b < at)) (OperandFault at a b) }
{
    if a >= at {
        return Err(AirError::LaterOperand {
            node: at,
            operand: a,
        });
    }
    check_index(
        b,
        at,
        AirError::LaterOperand {
            node: at,
            operand: b,
        },
    )
}

/// Whether node number `at` names what is there.
fn check_node<F: Copy>(layout: &AirLayout, at: usize, node: Node<F>) -> Result<(), AirError>
    ensures { MatchResult result (λ _. IsGrounded layout.now at node)
        (NodeFault layout.now at node) }
{
    match node {
        Node::Constant(_) => Ok(()),
        Node::Local(column) | Node::Next(column) => check_index(
            column,
            layout.width,
            AirError::UnknownColumn { node: at, column },
        ),
        Node::Preprocessed(column) | Node::PreprocessedNext(column) => check_index(
            column,
            layout.preprocessed_width,
            AirError::UnknownPreprocessedColumn { node: at, column },
        ),
        Node::Public(index) => check_index(
            index,
            layout.num_public_values,
            AirError::UnknownPublicValue { node: at, index },
        ),
        Node::Periodic(column) => check_index(
            column,
            layout.num_periodic_columns,
            AirError::UnknownPeriodicColumn { node: at, column },
        ),
        Node::Add(a, b) | Node::Sub(a, b) | Node::Mul(a, b) => check_operands(at, a, b),
        Node::Neg(a) => check_index(
            a,
            at,
            AirError::LaterOperand {
                node: at,
                operand: a,
            },
        ),
    }
}

impl<F: Copy> Air<F> {
    /// Whether each node names what is there; otherwise why the first that doesn't is refused.
    fn check_nodes(&self) -> Result<(), AirError>
        ensures { MatchResult result (λ _. AreGrounded self.now.layout self.now.nodes.items
            (length self.now.nodes.items)) (FirstNodeFault self.now) }
    {
        for at in 0..self.nodes.len() {
            if let Err(fault) = check_node(&self.layout, at, self.nodes[at]) {
                return Err(fault);
            }
        }
        Ok(())
    }

    /// Whether the system is well formed: each node names columns and public values that are there
    /// and nodes before it, and each constraint names a node. Otherwise why the first node that
    /// doesn't is refused, or else the first such constraint.
    pub fn check(&self) -> Result<(), AirError>
        ensures { MatchResult result (λ _. IsWellFormed self.now) (FirstFault self.now) }
    {
        if let Err(fault) = self.check_nodes() {
            return Err(fault);
        }
        for constraint in 0..self.constraints.len() {
            let node = self.constraints[constraint].node;
            if node >= self.nodes.len() {
                return Err(AirError::UnknownNode { constraint, node });
            }
        }
        Ok(())
    }
}
