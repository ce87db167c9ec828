//! Builders whose constraints are for some rows.

ghost use Rattle.std.specs.Prelude.{◌≡◌, [], ◌∷◌, OnOk, OnErr, length};
ghost use Rattle.p3_air.specs.Borrowed.{air_of, SameBuilder};
ghost use Rattle.p3_air.specs.Built.{IsSame, GainsConstraint, GainsZero};
ghost use Rattle.p3_air.specs.declared.air.Node.TheVariants as node;

use crate::air::Rows;
use crate::builder::{AirBuilder, Expression};
use p3_field_core::Field;
use std::alloc::AllocError;

/// A builder whose constraints are for some rows.
#[derive(Debug, Drop)]
pub struct FilteredAirBuilder<'a, F> {
    pub builder: &'a mut AirBuilder<F>,
    pub rows: Rows,
}

impl<'a, F: Field> FilteredAirBuilder<'a, F> {
    /// The expression has to be zero on these rows.
    pub fn assert_zero(&mut self, x: Expression) -> Result<(), AllocError>
        ensures same { SameBuilder self.old self.new }
        ensures rows { self.new.rows ≡ self.old.rows }
        ensures asserted { OnOk result (GainsConstraint (air_of self.old) (air_of self.new)
            self.old.rows x.node) }
        ensures unchanged { OnErr result (IsSame (air_of self.old) (air_of self.new)) }
    {
        self.builder.zero_on(self.rows, x)
    }

    /// The expression has to be one on these rows.
    pub fn assert_one(&mut self, x: Expression) -> Result<(), AllocError>
        ensures same { SameBuilder self.old self.new }
        ensures rows { self.new.rows ≡ self.old.rows }
        ensures asserted { OnOk result (GainsZero (air_of self.old) (air_of self.new)
            self.old.rows (node.Constant F.ops.one
            ∷ node.Sub x.node (length (air_of self.old).nodes.items) ∷ [])) }
        ensures unchanged { OnErr result (IsSame (air_of self.old) (air_of self.new)) }
    {
        self.builder.one_on(self.rows, x)
    }

    /// The expressions have to be equal on these rows.
    pub fn assert_eq(&mut self, a: Expression, b: Expression) -> Result<(), AllocError>
        ensures same { SameBuilder self.old self.new }
        ensures rows { self.new.rows ≡ self.old.rows }
        ensures asserted { OnOk result (GainsZero (air_of self.old) (air_of self.new)
            self.old.rows (node.Sub a.node b.node ∷ [])) }
        ensures unchanged { OnErr result (IsSame (air_of self.old) (air_of self.new)) }
    {
        self.builder.equal_on(self.rows, a, b)
    }

    /// The expression has to be zero or one on these rows: its square has to be itself.
    pub fn assert_bool(&mut self, x: Expression) -> Result<(), AllocError>
        ensures same { SameBuilder self.old self.new }
        ensures rows { self.new.rows ≡ self.old.rows }
        ensures asserted { OnOk result (GainsZero (air_of self.old) (air_of self.new)
            self.old.rows (node.Mul x.node x.node
            ∷ node.Sub (length (air_of self.old).nodes.items) x.node ∷ [])) }
        ensures unchanged { OnErr result (IsSame (air_of self.old) (air_of self.new)) }
    {
        self.builder.bool_on(self.rows, x)
    }
}
