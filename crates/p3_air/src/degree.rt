//! The degrees of nodes and constraints in the columns.

ghost use Rattle.std.specs.Prelude.{◌≡◌, ◌≤◌, ◌^◌, IfSome, IfNone, MatchResult, length};
ghost use Rattle.p3_air.specs.Nodes.{node_meaning, degrees_in};
ghost use Rattle.p3_air.specs.WellFormed.{IsGrounded, IsWellFormed};
ghost use Rattle.p3_air.specs.Degrees.{node_degrees, greatest_degree, DegreeFault};

use crate::air::{Air, AirLayout, Node};
use crate::error::DegreeError;
use std::alloc::Global;

/// The degree of node number `earlier.len()`, by those before it, or `None` where it is too large.
fn node_degree<F: Copy>(layout: &AirLayout, node: Node<F>, earlier: &[usize]) -> Option<usize>
    requires grounded { IsGrounded layout.now (length earlier.now) node }
    ensures value { IfSome result (λ degree. degree ≡ node_meaning degrees_in earlier.now node) }
    ensures large { IfNone result (2 ^ 64 ≤ node_meaning degrees_in earlier.now node) }
{
    match node {
        Node::Constant(_) => Some(0),
        Node::Local(_) => Some(1),
        Node::Next(_) => Some(1),
        Node::Preprocessed(_) => Some(1),
        Node::PreprocessedNext(_) => Some(1),
        Node::Public(_) => Some(0),
        Node::Periodic(_) => Some(1),
        Node::Add(a, b) => Some(earlier[a].max(earlier[b])),
        Node::Sub(a, b) => Some(earlier[a].max(earlier[b])),
        Node::Mul(a, b) => earlier[a].checked_add(earlier[b]),
        Node::Neg(a) => Some(earlier[a]),
    }
}

impl<F: Copy> Air<F> {
    /// The degrees of all nodes, in order. A column counts one, a constant and a public value none.
    /// Refused where a degree doesn't fit a `usize`.
    pub fn degrees(&self, alloc: Global) -> Result<Vec<usize>, DegreeError>
        requires well_formed { IsWellFormed self.now }
        ensures { MatchResult result (λ degrees. degrees.items ≡ node_degrees self.now)
            (DegreeFault self.now) }
    {
        let mut degrees = match Vec::with_capacity(alloc, self.nodes.len()) {
            Ok(degrees) => degrees,
            Err(_) => return Err(DegreeError::OutOfMemory),
        };
        for i in 0..self.nodes.len() {
            let Some(degree) = node_degree(&self.layout, self.nodes[i], degrees.as_slice()) else {
                return Err(DegreeError::TooLarge);
            };
            if degrees.push(degree).is_err() {
                return Err(DegreeError::OutOfMemory);
            }
        }
        Ok(degrees)
    }

    /// The greatest degree of a constraint's node, 0 where there are no constraints.
    pub fn max_constraint_degree(&self, alloc: Global) -> Result<usize, DegreeError>
        requires well_formed { IsWellFormed self.now }
        ensures { MatchResult result
            (λ degree. degree ≡ greatest_degree (node_degrees self.now) self.now.constraints.items)
            (DegreeFault self.now) }
    {
        let degrees = match self.degrees(alloc) {
            Ok(degrees) => degrees,
            Err(fault) => return Err(fault),
        };
        let mut greatest = 0;
        for k in (0..self.constraints.len()).rev() {
            greatest = degrees[self.constraints[k].node].max(greatest);
        }
        Ok(greatest)
    }
}
