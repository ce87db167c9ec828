//! Malformed systems, traces of the wrong shape, degrees and values.

ghost use Rattle.std.specs.Prelude.{◌≡◌};

use crate::systems::{columns, digits, fibonacci, scaled, selected};
use crate::tables::{Numbers, found};
use p3_air::{Air, AirError, AirLayout, Constraint, DegreeError, Node, Rows, TraceError, Window};
use p3_field::{BabyBear, BabyBear4, Field};
use std::alloc::Global;
use std::process::Abort;

const LAYOUT: AirLayout = AirLayout {
    width: 2,
    preprocessed_width: 1,
    num_public_values: 3,
    num_periodic_columns: 1,
};

/// Nodes and the node of a constraint, why the system is malformed, and the words for it.
static MALFORMED: [(&[Node<u64>], usize, AirError, &str); 8] = [
    (
        &[Node::Local(1), Node::Local(2)],
        0,
        AirError::UnknownColumn { node: 1, column: 2 },
        "node 1 names column 2 of the trace, which is not there",
    ),
    (
        &[Node::Next(7)],
        5,
        AirError::UnknownColumn { node: 0, column: 7 },
        "node 0 names column 7 of the trace, which is not there",
    ),
    (
        &[Node::PreprocessedNext(1)],
        0,
        AirError::UnknownPreprocessedColumn { node: 0, column: 1 },
        "node 0 names preprocessed column 1, which is not there",
    ),
    (
        &[Node::Public(2), Node::Public(3)],
        0,
        AirError::UnknownPublicValue { node: 1, index: 3 },
        "node 1 names public value 3, which is not there",
    ),
    (
        &[Node::Periodic(1)],
        0,
        AirError::UnknownPeriodicColumn { node: 0, column: 1 },
        "node 0 names periodic column 1, which is not there",
    ),
    (
        &[Node::Local(0), Node::Mul(0, 1)],
        0,
        AirError::LaterOperand {
            node: 1,
            operand: 1,
        },
        "node 1 names node 1, which is not before it",
    ),
    (
        &[Node::Local(0), Node::Sub(3, 4)],
        0,
        AirError::LaterOperand {
            node: 1,
            operand: 3,
        },
        "node 1 names node 3, which is not before it",
    ),
    (
        &[Node::Local(0), Node::Neg(0)],
        2,
        AirError::UnknownNode {
            constraint: 0,
            node: 2,
        },
        "constraint 0 names node 2, which is not there",
    ),
];

/// A system of these nodes, of which one has to be zero.
fn system<F: Copy>(
    rt: &impl Abort,
    alloc: Global,
    layout: AirLayout,
    nodes: &[Node<F>],
    node: usize,
) -> Air<F>
    ensures { result.layout ≡ layout }
{
    let constraint = Constraint {
        rows: Rows::All,
        node,
    };
    Air {
        layout,
        nodes: Vec::from_slice(alloc, nodes).expect(rt, "memory"),
        constraints: Vec::from_slice(alloc, &[constraint]).expect(rt, "memory"),
    }
}

#[test]
fn malformed_systems_are_named(rt: HostRuntime) {
    for (nodes, node, fault, words) in &MALFORMED {
        let air = system(&rt, rt.alloc(), LAYOUT, *nodes, *node);
        let said = format!(in rt.alloc(); "{fault}").expect(&rt, "memory");
        assert!(rt;
            air.check() == Err(*fault) && said.as_str() == *words,
            "{fault:?}"
        );
    }
}

/// A trace and what goes with it, held against `digits`, and why it is refused.
static MISSHAPEN: [(Numbers, TraceError, &str); 5] = [
    (
        Numbers {
            trace: &[],
            preprocessed: &[],
            public_values: &[],
            periodic: &[],
        },
        TraceError::NoRows,
        "the trace has no rows",
    ),
    (
        Numbers {
            trace: &[&[0, 0, 0, 0], &[1, 0, 0]],
            preprocessed: &[],
            public_values: &[],
            periodic: &[],
        },
        TraceError::Width {
            row: 1,
            entries: 3,
            width: 4,
        },
        "row 1 of the trace has 3 entries for 4 columns",
    ),
    (
        Numbers {
            trace: &[&[0, 0, 0, 0]],
            preprocessed: &[&[1]],
            public_values: &[],
            periodic: &[],
        },
        TraceError::PreprocessedWidth {
            row: 0,
            entries: 1,
            width: 0,
        },
        "preprocessed row 0 has 1 entries for 0 columns",
    ),
    (
        Numbers {
            trace: &[&[0, 0, 0, 0]],
            preprocessed: &[],
            public_values: &[1, 2],
            periodic: &[],
        },
        TraceError::PublicValues {
            found: 2,
            expected: 0,
        },
        "there are 2 public values for 0",
    ),
    (
        Numbers {
            trace: &[&[0, 0, 0, 0]],
            preprocessed: &[],
            public_values: &[],
            periodic: &[&[1]],
        },
        TraceError::PeriodicColumns {
            found: 1,
            expected: 0,
        },
        "there are 1 periodic columns for 0",
    ),
];

#[test]
fn misshapen_traces_are_named(rt: HostRuntime) {
    let air = digits(&rt, rt.alloc());
    for (numbers, fault, words) in &MISSHAPEN {
        let result = found(&rt, rt.alloc(), &air, numbers, None);
        let said = format!(in rt.alloc(); "{fault}").expect(&rt, "memory");
        assert!(rt;
            result == Err(*fault) && said.as_str() == *words,
            "{fault:?}"
        );
    }
    let one_row = Numbers {
        trace: &[&[5]],
        preprocessed: &[&[1], &[1]],
        public_values: &[],
        periodic: &[],
    };
    let result = found(&rt, rt.alloc(), &selected(&rt, rt.alloc()), &one_row, None);
    assert!(rt; result == Err(TraceError::PreprocessedHeight { rows: 2, height: 1 }));
    let empty = Numbers {
        trace: &[&[1]],
        preprocessed: &[],
        public_values: &[],
        periodic: &[&[]],
    };
    let result = found(&rt, rt.alloc(), &scaled(&rt, rt.alloc()), &empty, None);
    assert!(rt; result == Err(TraceError::EmptyPeriodicColumn { column: 0 }));
}

/// The greatest degree of a constraint.
fn max_degree<F: Copy>(rt: &impl Abort, alloc: Global, air: &Air<F>) -> Result<usize, DegreeError> {
    assert!(rt; air.check().is_ok(), "malformed");
    air.max_constraint_degree(alloc)
}

/// The degree of a column squared so many times.
fn degree_of_squares(
    rt: &impl Abort,
    alloc: Global,
    squarings: usize,
) -> Result<usize, DegreeError> {
    let mut air = system(rt, alloc, columns(1), &[Node::<u64>::Local(0)], squarings);
    for i in 0..squarings {
        air.nodes.push(Node::Mul(i, i)).expect(rt, "memory");
    }
    max_degree(rt, alloc, &air)
}

#[test]
fn degrees(rt: HostRuntime) {
    assert!(rt; max_degree(&rt, rt.alloc(), &fibonacci(&rt, rt.alloc())) == Ok(1));
    assert!(rt; max_degree(&rt, rt.alloc(), &digits(&rt, rt.alloc())) == Ok(2));
    assert!(rt; max_degree(&rt, rt.alloc(), &selected(&rt, rt.alloc())) == Ok(2));
    assert!(rt; degree_of_squares(&rt, rt.alloc(), 63) == Ok(9223372036854775808));
    assert!(rt; degree_of_squares(&rt, rt.alloc(), 64) == Err(DegreeError::TooLarge));
}

/// The values of nodes where the entries are small numbers: local times next, plus the public
/// value, minus the periodic one, plus a preprocessed one, and the next preprocessed one.
fn values(rt: &impl Abort, alloc: Global) -> Vec<BabyBear4> {
    let nodes = [
        Node::Local(0),
        Node::Next(1),
        Node::Mul(0, 1),
        Node::Public(2),
        Node::Periodic(0),
        Node::Add(2, 3),
        Node::Sub(5, 4),
        Node::Preprocessed(0),
        Node::Add(6, 7),
        Node::PreprocessedNext(0),
    ];
    let air = system(rt, alloc, LAYOUT, &nodes, 0);
    let number = |n: u64| BabyBear4::from_u64(n);
    let window = Window {
        local: &[number(3), number(5)],
        next: &[number(7), number(11)],
        preprocessed: &[number(13)],
        preprocessed_next: &[number(17)],
        public_values: &[BabyBear::ZERO, BabyBear::ZERO, BabyBear::ONE],
        periodic: &[number(19)],
    };
    assert!(rt; air.check().is_ok(), "malformed");
    air.evaluate(alloc, &window).expect(rt, "memory")
}

#[test]
fn values_in_an_extension(rt: HostRuntime) {
    let mut expected = Vec::new(rt.alloc());
    for number in [3, 11, 33, 1, 19, 34, 15, 13, 28, 17] {
        expected
            .push(BabyBear4::from_u64(number))
            .expect(&rt, "memory");
    }
    assert!(rt; values(&rt, rt.alloc()) == expected);
}
