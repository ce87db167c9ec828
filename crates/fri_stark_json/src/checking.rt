//! Traces, held against constraint systems.

ghost use Rattle.std.specs.Prelude.{IfOk, IfErr};
ghost use Rattle.algebra.specs.Nested.{lists};
ghost use Rattle.p3_air_plain.specs.Checked.{IsSatisfiedIn, PlainTraceFault};
ghost use Rattle.p3_uni_stark_system.specs.Systems.{with_trace};
ghost use Rattle.fri_stark_json.specs.Systems.{numbers_in};

use crate::records::{System, Trace};
use p3_air::Assignment;
use p3_air_plain::{PlainTraceError, check_plain_trace};
use p3_field::{BabyBear, Field, PrimeField64};
use std::alloc::Global;

/// Whether the trace satisfies the system's constraints. No parameter is asked for.
pub fn check(alloc: Global, system: &System, trace: &Trace) -> Result<(), PlainTraceError>
    ensures satisfied { IfOk result (λ _. IsSatisfiedIn ⟦<BabyBear as Field>⟧.ops
        ⟦<BabyBear as PrimeField64>⟧.ORDER_U64 ⟦<BabyBear as PrimeField64>⟧.canonical system.now.air
        (with_trace (numbers_in system.now trace.now.public_values.items)
        (lists trace.now.trace.items))) }
    ensures refused { IfErr result (PlainTraceFault ⟦<BabyBear as Field>⟧.ops
        ⟦<BabyBear as PrimeField64>⟧.ORDER_U64 ⟦<BabyBear as PrimeField64>⟧.canonical system.now.air
        (with_trace (numbers_in system.now trace.now.public_values.items)
        (lists trace.now.trace.items))) }
{
    let given = Assignment {
        trace: trace.trace.as_slice(),
        preprocessed: system.preprocessed.as_slice(),
        public_values: trace.public_values.as_slice(),
        periodic: system.periodic.as_slice(),
    };
    check_plain_trace::<BabyBear>(alloc, &system.air, &given)
}
