//! The layouts of fields.

ghost use Rattle.std.specs.Prelude.{◌≡◌};
ghost use Rattle.fri_flat.specs.Layouts.{width_below, layout_of};

use crate::layout::{Layout, Width};
use fri_schemes::{SchemeField, SchemeParts};
use p3_field::ExtensionField;

/// As many bytes as the numbers below an order need, four or eight.
fn width_below(order: u64) -> Width
    ensures { result ≡ width_below order }
{
    if order <= 1 << 32 {
        Width::Four
    } else {
        Width::Eight
    }
}

/// How the field lies in bytes.
pub(crate) fn layout_of<F: SchemeField>() -> Layout
    ensures { result ≡ layout_of ⟦<F as SchemeParts>⟧.fields }
{
    Layout {
        width: width_below(F::ORDER_U64),
        degree: F::Extension::DIMENSION,
    }
}
