//! The values of all nodes at a row.

ghost use Rattle.std.specs.Prelude.{◌≡◌, IfOk, OnOk, length};
ghost use Rattle.p3_air.specs.Nodes.{node_meaning, meanings, values_in};
ghost use Rattle.p3_air.specs.WellFormed.{IsGrounded, IsWellFormed};
ghost use Rattle.p3_air.specs.Shapes.{entries_of, HasWidths};

use crate::air::{Air, AirLayout, Node};
use p3_field_core::{ExtensionField, Field};
use std::alloc::{AllocError, Global};

/// What a constraint system sees at a row: the entries of the row and of the next one, the public
/// values, and the values of the periodic columns. Entries are of the field of the public values,
/// or of an extension, as at a point outside of the trace's domain.
#[derive(Clone, Copy, Debug)]
pub struct Window<'a, F, EF> {
    /// This row of the trace.
    pub local: &'a [EF],
    /// The next row of the trace.
    pub next: &'a [EF],
    /// This row of the preprocessed columns.
    pub preprocessed: &'a [EF],
    /// The next row of the preprocessed columns.
    pub preprocessed_next: &'a [EF],
    /// The public values.
    pub public_values: &'a [F],
    /// The value of each periodic column.
    pub periodic: &'a [EF],
}

/// The value of node number `earlier.len()`, by those before it.
fn node_value<F: Field, EF: ExtensionField<F>>(
    layout: &AirLayout,
    node: Node<F>,
    window: &Window<'_, F, EF>,
    earlier: &[EF],
) -> EF
    requires grounded { IsGrounded layout.now (length earlier.now) node }
    requires widths { HasWidths layout.now (entries_of window.now) }
    ensures { result ≡ node_meaning
        (values_in EF.ops EF.lift F.ops.zero (entries_of window.now)) earlier.now node }
{
    match node {
        Node::Constant(value) => EF::from_base(value),
        Node::Local(column) => window.local[column],
        Node::Next(column) => window.next[column],
        Node::Preprocessed(column) => window.preprocessed[column],
        Node::PreprocessedNext(column) => window.preprocessed_next[column],
        Node::Public(index) => EF::from_base(window.public_values[index]),
        Node::Periodic(column) => window.periodic[column],
        Node::Add(a, b) => earlier[a] + earlier[b],
        Node::Sub(a, b) => earlier[a] - earlier[b],
        Node::Mul(a, b) => earlier[a] * earlier[b],
        Node::Neg(a) => -earlier[a],
    }
}

impl<F: Field> Air<F> {
    /// The values of all nodes, in order, in the place of what `values` held.
    pub fn evaluate_into<EF: ExtensionField<F>>(
        &self,
        window: &Window<'_, F, EF>,
        values: &mut Vec<EF>,
    ) -> Result<(), AllocError>
        requires well_formed { IsWellFormed self.now }
        requires widths { HasWidths self.now.layout (entries_of window.now) }
        ensures { OnOk result (values.new.items ≡ meanings
            (values_in EF.ops EF.lift F.ops.zero (entries_of window.now)) self.now.nodes.items) }
    {
        values.clear();
        for i in 0..self.nodes.len() {
            let value = node_value(&self.layout, self.nodes[i], window, values.as_slice());
            values.push(value)?;
        }
        Ok(())
    }

    /// The values of all nodes, in order.
    pub fn evaluate<EF: ExtensionField<F>>(
        &self,
        alloc: Global,
        window: &Window<'_, F, EF>,
    ) -> Result<Vec<EF>, AllocError>
        requires well_formed { IsWellFormed self.now }
        requires widths { HasWidths self.now.layout (entries_of window.now) }
        ensures { IfOk result (λ values. values.items ≡ meanings
            (values_in EF.ops EF.lift F.ops.zero (entries_of window.now)) self.now.nodes.items) }
    {
        let mut values = Vec::with_capacity(alloc, self.nodes.len())?;
        self.evaluate_into(window, &mut values)?;
        Ok(values)
    }
}
