//! Constraint systems with traces that satisfy them.

ghost use Rattle.std.specs.Prelude.{◌≤◌};
ghost use Rattle.p3_air.specs.WellFormed.{IsWellFormed};

use crate::forms::{CUBES, FIBONACCI, Form, NO_CONSTRAINTS, POWERS, RANGE_CHECK};
use p3_air::Air;
use p3_air_plain::{OwnedAssignment, PlainAir, PlainConstraint, air_from_plain};
use p3_field::{BabyBear, Field};
use std::alloc::Global;
use std::process::Abort;

/// Which system is proved.
#[derive(Clone, Copy)]
pub(crate) enum System {
    Fibonacci,
    RangeCheck,
    Cubes,
    Powers,
    Empty,
}

/// A constraint system, and what it is held against.
#[derive(Drop)]
pub(crate) struct Instance {
    pub(crate) air: Air<BabyBear>,
    pub(crate) given: OwnedAssignment<BabyBear>,
}

/// The parts of the system.
fn form_of(system: System) -> &'static Form {
    match system {
        System::Fibonacci => &FIBONACCI,
        System::RangeCheck => &RANGE_CHECK,
        System::Cubes => &CUBES,
        System::Powers => &POWERS,
        System::Empty => &NO_CONSTRAINTS,
    }
}

/// The constraint system of these parts.
fn air_of(rt: &impl Abort, alloc: Global, form: &Form) -> Air<BabyBear>
    ensures { IsWellFormed result }
{
    let mut constraints = Vec::new(alloc);
    for (rows, node) in form.constraints {
        let constraint = PlainConstraint {
            rows: *rows,
            node: *node,
        };
        constraints.push(constraint).expect(rt, "memory");
    }
    let plain = PlainAir {
        layout: form.layout,
        nodes: form.nodes.to_vec(alloc).expect(rt, "memory"),
        constraints,
    };
    match air_from_plain::<BabyBear>(alloc, &plain) {
        Ok(air) => air,
        Err(_) => panic!(rt; "there is no such system"),
    }
}

/// The elements of these numbers.
fn elements(rt: &impl Abort, alloc: Global, numbers: &[u64]) -> Vec<BabyBear> {
    let mut elements = Vec::new(alloc);
    for number in numbers {
        elements
            .push(BabyBear::from_u64(*number))
            .expect(rt, "memory");
    }
    elements
}

/// Whether the cubes get a summand after this row: one after every third.
fn selector(row: usize) -> u64
    ensures { result ≤ 1 }
{
    if row % 3 == 0 { 1 } else { 0 }
}

/// What is carried on from this row, where these two are.
fn carried(system: System, row: usize, left: BabyBear, right: BabyBear) -> (BabyBear, BabyBear) {
    match system {
        System::Fibonacci => (right, left + right),
        System::Cubes => {
            let periodic = if row % 2 == 0 { 3 } else { 5 };
            let added = BabyBear::from_u64(periodic + 7 * selector(row));
            (left * left * left + added, right)
        },
        System::Powers => {
            let square = left * left;
            (square * square * square * left + BabyBear::ONE, right)
        },
        System::RangeCheck | System::Empty => (left, right),
    }
}

/// What the first row carries on.
fn first_carried(system: System) -> BabyBear {
    let number = match system {
        System::Cubes => 2,
        System::Powers => 3,
        System::Fibonacci | System::RangeCheck | System::Empty => 1,
    };
    BabyBear::from_u64(number)
}

/// The entries of a row of the trace that carries these on.
fn row_of(
    rt: &impl Abort,
    alloc: Global,
    system: System,
    row: usize,
    left: BabyBear,
    right: BabyBear,
) -> Vec<BabyBear> {
    match system {
        System::Fibonacci => [left, right].to_vec(alloc).expect(rt, "memory"),
        System::RangeCheck => {
            let number = row as u64 % 4 * 3 % 4;
            elements(rt, alloc, &[number, number % 2, number / 2])
        },
        System::Empty => elements(rt, alloc, &[row as u64]),
        System::Cubes | System::Powers => [left].to_vec(alloc).expect(rt, "memory"),
    }
}

/// The entries beside it of the preprocessed columns.
fn preprocessed_row_of(
    rt: &impl Abort,
    alloc: Global,
    system: System,
    row: usize,
    left: BabyBear,
) -> Vec<BabyBear> {
    match system {
        System::Cubes => elements(rt, alloc, &[selector(row)]),
        System::Powers => [-left].to_vec(alloc).expect(rt, "memory"),
        System::Fibonacci | System::RangeCheck | System::Empty => Vec::new(alloc),
    }
}

/// Fills the trace and the preprocessed columns, and returns what the last row carries on.
fn fill(
    rt: &impl Abort,
    alloc: Global,
    system: System,
    height: usize,
    given: &mut OwnedAssignment<BabyBear>,
) -> BabyBear {
    let mut left = first_carried(system);
    let mut right = left;
    for row in 0..height {
        if row != 0 {
            let next = carried(system, row - 1, left, right);
            left = next.0;
            right = next.1;
        }
        let entries = row_of(rt, alloc, system, row, left, right);
        given.trace.push(entries).expect(rt, "memory");
        let entries = preprocessed_row_of(rt, alloc, system, row, left);
        given.preprocessed.push(entries).expect(rt, "memory");
    }
    right
}

/// Fills the public values, of a trace whose last row carries this on, and the periodic columns.
fn fill_known(
    rt: &impl Abort,
    alloc: Global,
    system: System,
    last: BabyBear,
    given: &mut OwnedAssignment<BabyBear>,
) {
    let values = &mut given.public_values;
    match system {
        System::Fibonacci => values
            .extend_from_slice(&[BabyBear::ONE, BabyBear::ONE, last])
            .expect(rt, "memory"),
        System::Cubes => {
            values
                .extend_from_slice(&[BabyBear::from_u64(2), BabyBear::from_u64(7)])
                .expect(rt, "memory");
            let column = elements(rt, alloc, &[3, 5]);
            given.periodic.push(column).expect(rt, "memory");
        },
        System::RangeCheck | System::Powers | System::Empty => {},
    }
}

/// The system with a trace of so many rows, which satisfies it.
pub(crate) fn instance_of(rt: &impl Abort, alloc: Global, system: System, height: usize) -> Instance
    ensures well_formed { IsWellFormed result.air }
{
    let air = air_of(rt, alloc, form_of(system));
    let mut given = OwnedAssignment {
        trace: Vec::new(alloc),
        preprocessed: Vec::new(alloc),
        public_values: Vec::new(alloc),
        periodic: Vec::new(alloc),
    };
    let last = fill(rt, alloc, system, height, &mut given);
    fill_known(rt, alloc, system, last, &mut given);
    Instance { air, given }
}
