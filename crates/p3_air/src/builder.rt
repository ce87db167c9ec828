//! Constraint systems written down call by call.

ghost use Rattle.std.specs.Prelude.{◌≡◌, [], ◌∷◌, IfOk, OnOk, OnErr, MatchResult, length, take};
ghost use Rattle.p3_air.specs.Built.{IsSame, GainsNode, GainsConstraint, GainsZero};
ghost use Rattle.p3_air.specs.Borrowed.{air_of, Borrows};
ghost use Rattle.p3_air.specs.WellFormed.{IsWellFormed, FirstFault};
ghost use Rattle.p3_air.specs.declared.air.Node.TheVariants as node;
ghost use Rattle.p3_air.specs.declared.air.Rows.TheVariants as rows;

use crate::air::{Air, AirLayout, Constraint, Node, Rows};
use crate::error::AirError;
use crate::filtered::FilteredAirBuilder;
use p3_field_core::Field;
use std::alloc::{AllocError, Global};

/// A value of the system that is written: the number of its node. It means something to the builder
/// that gave it alone.
#[derive(Clone, Copy, Debug, PartialEq, Eq)]
pub struct Expression {
    pub node: usize,
}

/// A constraint system while it is written. Any call may be made with any argument: `build` tests
/// whether all that is named is there, and names what isn't. A call that is refused memory leaves
/// the system as it was.
#[derive(Debug, Drop)]
pub struct AirBuilder<F> {
    pub air: Air<F>,
}

impl<F: Field> AirBuilder<F> {
    /// No nodes and no constraints yet.
    pub fn new(alloc: Global, layout: AirLayout) -> Self
        ensures layout { result.air.layout ≡ layout }
        ensures nodes { result.air.nodes.items ≡ [] }
        ensures constraints { result.air.constraints.items ≡ [] }
    {
        AirBuilder {
            air: Air {
                layout,
                nodes: Vec::new(alloc),
                constraints: Vec::new(alloc),
            },
        }
    }

    /// One node more.
    fn push(&mut self, node: Node<F>) -> Result<Expression, AllocError>
        ensures made { IfOk result (λ made. GainsNode self.old.air self.new.air made.node node) }
        ensures unchanged { OnErr result (IsSame self.old.air self.new.air) }
    {
        let number = self.air.nodes.len();
        self.air.nodes.push(node)?;
        Ok(Expression { node: number })
    }

    /// An element of the field.
    pub fn constant(&mut self, value: F) -> Result<Expression, AllocError>
        ensures made { IfOk result (λ made.
            GainsNode self.old.air self.new.air made.node (node.Constant value)) }
        ensures unchanged { OnErr result (IsSame self.old.air self.new.air) }
    {
        self.push(Node::Constant(value))
    }

    /// The entry of this row in a column of the trace.
    pub fn local(&mut self, column: usize) -> Result<Expression, AllocError>
        ensures made { IfOk result (λ made.
            GainsNode self.old.air self.new.air made.node (node.Local column)) }
        ensures unchanged { OnErr result (IsSame self.old.air self.new.air) }
    {
        self.push(Node::Local(column))
    }

    /// The entry of the next row in a column of the trace; the row after the last is the first.
    pub fn next(&mut self, column: usize) -> Result<Expression, AllocError>
        ensures made { IfOk result (λ made.
            GainsNode self.old.air self.new.air made.node (node.Next column)) }
        ensures unchanged { OnErr result (IsSame self.old.air self.new.air) }
    {
        self.push(Node::Next(column))
    }

    /// The entry of this row in a preprocessed column.
    pub fn preprocessed(&mut self, column: usize) -> Result<Expression, AllocError>
        ensures made { IfOk result (λ made.
            GainsNode self.old.air self.new.air made.node (node.Preprocessed column)) }
        ensures unchanged { OnErr result (IsSame self.old.air self.new.air) }
    {
        self.push(Node::Preprocessed(column))
    }

    /// The entry of the next row in a preprocessed column.
    pub fn preprocessed_next(&mut self, column: usize) -> Result<Expression, AllocError>
        ensures made { IfOk result (λ made.
            GainsNode self.old.air self.new.air made.node (node.PreprocessedNext column)) }
        ensures unchanged { OnErr result (IsSame self.old.air self.new.air) }
    {
        self.push(Node::PreprocessedNext(column))
    }

    /// A public value.
    pub fn public(&mut self, index: usize) -> Result<Expression, AllocError>
        ensures made { IfOk result (λ made.
            GainsNode self.old.air self.new.air made.node (node.Public index)) }
        ensures unchanged { OnErr result (IsSame self.old.air self.new.air) }
    {
        self.push(Node::Public(index))
    }

    /// The value of a periodic column at this row.
    pub fn periodic(&mut self, column: usize) -> Result<Expression, AllocError>
        ensures made { IfOk result (λ made.
            GainsNode self.old.air self.new.air made.node (node.Periodic column)) }
        ensures unchanged { OnErr result (IsSame self.old.air self.new.air) }
    {
        self.push(Node::Periodic(column))
    }

    /// The sum.
    pub fn add(&mut self, a: Expression, b: Expression) -> Result<Expression, AllocError>
        ensures made { IfOk result (λ made.
            GainsNode self.old.air self.new.air made.node (node.Add a.node b.node)) }
        ensures unchanged { OnErr result (IsSame self.old.air self.new.air) }
    {
        self.push(Node::Add(a.node, b.node))
    }

    /// The first minus the second.
    pub fn sub(&mut self, a: Expression, b: Expression) -> Result<Expression, AllocError>
        ensures made { IfOk result (λ made.
            GainsNode self.old.air self.new.air made.node (node.Sub a.node b.node)) }
        ensures unchanged { OnErr result (IsSame self.old.air self.new.air) }
    {
        self.push(Node::Sub(a.node, b.node))
    }

    /// The product.
    pub fn mul(&mut self, a: Expression, b: Expression) -> Result<Expression, AllocError>
        ensures made { IfOk result (λ made.
            GainsNode self.old.air self.new.air made.node (node.Mul a.node b.node)) }
        ensures unchanged { OnErr result (IsSame self.old.air self.new.air) }
    {
        self.push(Node::Mul(a.node, b.node))
    }

    /// The negative.
    pub fn neg(&mut self, a: Expression) -> Result<Expression, AllocError>
        ensures made { IfOk result (λ made.
            GainsNode self.old.air self.new.air made.node (node.Neg a.node)) }
        ensures unchanged { OnErr result (IsSame self.old.air self.new.air) }
    {
        self.push(Node::Neg(a.node))
    }

    /// Back to the first `count` nodes.
    fn keep_nodes(&mut self, count: usize)
        ensures layout { self.new.air.layout ≡ self.old.air.layout }
        ensures nodes { self.new.air.nodes.items ≡ take count self.old.air.nodes.items }
        ensures constraints { self.new.air.constraints.items ≡ self.old.air.constraints.items }
    {
        self.air.nodes.truncate(count);
    }

    /// The expression has to be zero on these rows.
    pub(crate) fn zero_on(&mut self, rows: Rows, x: Expression) -> Result<(), AllocError>
        ensures asserted { OnOk result (GainsConstraint self.old.air self.new.air rows x.node) }
        ensures unchanged { OnErr result (IsSame self.old.air self.new.air) }
    {
        self.air
            .constraints
            .push(Constraint { rows, node: x.node })?;
        Ok(())
    }

    /// The expressions have to be equal on these rows.
    pub(crate) fn equal_on(
        &mut self,
        rows: Rows,
        a: Expression,
        b: Expression,
    ) -> Result<(), AllocError>
        ensures asserted { OnOk result (GainsZero self.old.air self.new.air rows
            (node.Sub a.node b.node ∷ [])) }
        ensures unchanged { OnErr result (IsSame self.old.air self.new.air) }
    {
        let count = self.air.nodes.len();
        let difference = self.sub(a, b)?;
        if self.zero_on(rows, difference).is_err() {
            self.keep_nodes(count);
            return Err(AllocError);
        }
        Ok(())
    }

    /// The expression has to be one on these rows.
    pub(crate) fn one_on(&mut self, rows: Rows, x: Expression) -> Result<(), AllocError>
        ensures asserted { OnOk result (GainsZero self.old.air self.new.air rows
            (node.Constant F.ops.one
            ∷ node.Sub x.node (length self.old.air.nodes.items) ∷ [])) }
        ensures unchanged { OnErr result (IsSame self.old.air self.new.air) }
    {
        let count = self.air.nodes.len();
        let one = self.constant(F::ONE)?;
        if self.equal_on(rows, x, one).is_err() {
            self.keep_nodes(count);
            return Err(AllocError);
        }
        Ok(())
    }

    /// The expression has to be zero or one on these rows: its square has to be itself.
    pub(crate) fn bool_on(&mut self, rows: Rows, x: Expression) -> Result<(), AllocError>
        ensures asserted { OnOk result (GainsZero self.old.air self.new.air rows
            (node.Mul x.node x.node
            ∷ node.Sub (length self.old.air.nodes.items) x.node ∷ [])) }
        ensures unchanged { OnErr result (IsSame self.old.air self.new.air) }
    {
        let count = self.air.nodes.len();
        let square = self.mul(x, x)?;
        if self.equal_on(rows, square, x).is_err() {
            self.keep_nodes(count);
            return Err(AllocError);
        }
        Ok(())
    }

    /// The expression has to be zero on all rows.
    pub fn assert_zero(&mut self, x: Expression) -> Result<(), AllocError>
        ensures asserted { OnOk result
            (GainsConstraint self.old.air self.new.air rows.All x.node) }
        ensures unchanged { OnErr result (IsSame self.old.air self.new.air) }
    {
        self.zero_on(Rows::All, x)
    }

    /// The expression has to be one on all rows.
    pub fn assert_one(&mut self, x: Expression) -> Result<(), AllocError>
        ensures asserted { OnOk result (GainsZero self.old.air self.new.air rows.All
            (node.Constant F.ops.one
            ∷ node.Sub x.node (length self.old.air.nodes.items) ∷ [])) }
        ensures unchanged { OnErr result (IsSame self.old.air self.new.air) }
    {
        self.one_on(Rows::All, x)
    }

    /// The expressions have to be equal on all rows.
    pub fn assert_eq(&mut self, a: Expression, b: Expression) -> Result<(), AllocError>
        ensures asserted { OnOk result (GainsZero self.old.air self.new.air rows.All
            (node.Sub a.node b.node ∷ [])) }
        ensures unchanged { OnErr result (IsSame self.old.air self.new.air) }
    {
        self.equal_on(Rows::All, a, b)
    }

    /// The expression has to be zero or one on all rows: its square has to be itself.
    pub fn assert_bool(&mut self, x: Expression) -> Result<(), AllocError>
        ensures asserted { OnOk result (GainsZero self.old.air self.new.air rows.All
            (node.Mul x.node x.node
            ∷ node.Sub (length self.old.air.nodes.items) x.node ∷ [])) }
        ensures unchanged { OnErr result (IsSame self.old.air self.new.air) }
    {
        self.bool_on(Rows::All, x)
    }

    /// Constraints for the first row.
    pub fn when_first_row(&mut self) -> FilteredAirBuilder<'_, F>
        ensures same { Borrows self.entry result }
        ensures air { air_of result ≡ self.old.air }
        ensures rows { result.rows ≡ rows.First }
    {
        FilteredAirBuilder {
            builder: self,
            rows: Rows::First,
        }
    }

    /// Constraints for the last row.
    pub fn when_last_row(&mut self) -> FilteredAirBuilder<'_, F>
        ensures same { Borrows self.entry result }
        ensures air { air_of result ≡ self.old.air }
        ensures rows { result.rows ≡ rows.Last }
    {
        FilteredAirBuilder {
            builder: self,
            rows: Rows::Last,
        }
    }

    /// Constraints for all rows but the last.
    pub fn when_transition(&mut self) -> FilteredAirBuilder<'_, F>
        ensures same { Borrows self.entry result }
        ensures air { air_of result ≡ self.old.air }
        ensures rows { result.rows ≡ rows.Transition }
    {
        FilteredAirBuilder {
            builder: self,
            rows: Rows::Transition,
        }
    }

    /// The system as it was written, where it is well formed: each node names what is there, and
    /// each constraint a node. Otherwise why the first node that doesn't is refused, or else the
    /// first such constraint.
    pub fn build(self) -> Result<Air<F>, AirError>
        ensures exactly { MatchResult result (λ _. IsWellFormed self.air) (FirstFault self.air) }
        ensures air { IfOk result (λ air. air ≡ self.air) }
    {
        let AirBuilder { air } = self;
        if let Err(fault) = air.check() {
            return Err(fault);
        }
        Ok(air)
    }
}
