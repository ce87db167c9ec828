//! Traces of numbers that satisfy the system, and what is found in others.

use crate::given::{rows, system};
use p3_air::{Assignment, TraceError};
use p3_air_plain::{ElementError, Part, PlainTraceError, check_plain_trace};
use p3_field::BabyBear;

/// A trace and public values, and what is found.
struct Case {
    trace: &'static str,
    public_values: &'static [u64],
    outcome: Result<(), PlainTraceError>,
}

/// By `tools/relation/stark.py check`.
static CASES: [Case; 8] = [
    Case {
        trace: "[[2],[7],[17],[25]]",
        public_values: &[2, 25],
        outcome: Ok(()),
    },
    Case {
        trace: "[[3],[7],[17],[25]]",
        public_values: &[2, 25],
        outcome: Err(PlainTraceError::Trace(TraceError::Unsatisfied {
            row: 0,
            constraint: 0,
        })),
    },
    Case {
        trace: "[[2],[8],[17],[25]]",
        public_values: &[2, 25],
        outcome: Err(PlainTraceError::Trace(TraceError::Unsatisfied {
            row: 0,
            constraint: 2,
        })),
    },
    Case {
        trace: "[[2],[7],[17],[25]]",
        public_values: &[2, 26],
        outcome: Err(PlainTraceError::Trace(TraceError::Unsatisfied {
            row: 3,
            constraint: 1,
        })),
    },
    Case {
        trace: "[[2],[7],[17,0],[25]]",
        public_values: &[2, 25],
        outcome: Err(PlainTraceError::Trace(TraceError::Width {
            row: 2,
            entries: 2,
            width: 1,
        })),
    },
    Case {
        trace: "[[2],[7],[17]]",
        public_values: &[2, 17],
        outcome: Err(PlainTraceError::Trace(TraceError::PreprocessedHeight { rows: 4, height: 3 })),
    },
    Case {
        trace: "[[2],[7],[2013265921],[25]]",
        public_values: &[2, 25],
        outcome: Err(PlainTraceError::Element(ElementError::OutOfRange {
            part: Part::Trace,
            row: 2,
            entry: 0,
        })),
    },
    Case {
        trace: "[[2],[7],[17],[25]]",
        public_values: &[2, 2013265921],
        outcome: Err(PlainTraceError::Element(ElementError::OutOfRange {
            part: Part::PublicValues,
            row: 0,
            entry: 1,
        })),
    },
];

#[test]
fn traces_of_numbers_are_checked(rt: HostRuntime) {
    let system = system(&rt, rt.alloc());
    for case in &CASES {
        let trace = rows(&rt, rt.alloc(), case.trace);
        let given = Assignment {
            trace: &trace,
            preprocessed: &system.preprocessed,
            public_values: case.public_values,
            periodic: &system.periodic,
        };
        let found = check_plain_trace::<BabyBear>(rt.alloc(), &system.form, &given);
        assert!(rt; found == case.outcome, "{}", case.trace);
    }
}
