//! Traces of numbers, held against constraint systems in their plain form.

ghost use Rattle.std.specs.Prelude.{IfOk, IfErr};
ghost use Rattle.p3_air.specs.Shapes.{assigned};
ghost use Rattle.p3_air_plain.specs.Checked.{IsSatisfiedIn, PlainTraceFault};

use crate::elements::assignment_from_plain;
use crate::error::PlainTraceError;
use crate::forms::PlainAir;
use crate::read::air_from_plain;
use p3_air::Assignment;
use p3_field_core::PrimeField64;
use std::alloc::Global;

/// Whether the trace of these numbers satisfies the constraint system of this form. Otherwise why
/// the form is no system's, or else the first number that is no element's, or else why the trace is
/// refused: its sizes, or the first row and there the first constraint that doesn't hold.
pub fn check_plain_trace<F: PrimeField64>(
    alloc: Global,
    form: &PlainAir,
    given: &Assignment<'_, u64>,
) -> Result<(), PlainTraceError>
    ensures satisfied { IfOk result (λ _.
        IsSatisfiedIn F.ops F.ORDER_U64 F.canonical form.now (assigned given.now)) }
    ensures refused { IfErr result
        (PlainTraceFault F.ops F.ORDER_U64 F.canonical form.now (assigned given.now)) }
{
    let air = match air_from_plain::<F>(alloc, form) {
        Ok(air) => air,
        Err(fault) => return Err(PlainTraceError::Air(fault)),
    };
    let owned = match assignment_from_plain::<F>(alloc, given) {
        Ok(owned) => owned,
        Err(fault) => return Err(PlainTraceError::Element(fault)),
    };
    match air.check_trace(alloc, &owned.borrowed()) {
        Ok(()) => Ok(()),
        Err(fault) => Err(PlainTraceError::Trace(fault)),
    }
}
