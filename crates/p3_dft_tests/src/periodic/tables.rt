//! Worked tables of periodic columns, along a trace of 8 rows on a domain of 16 points.

ghost use Rattle.std.specs.Prelude.{◌≤◌};

use crate::periodic::columns::columns_of;
use p3_dft::Radix2Dit;
use p3_field::{BabyBear, Field, PrimeField64, TwoAdicMultiplicativeCoset};
use p3_periodic::{
    PeriodicError, PeriodicEvaluator, PeriodicLdeTable, TwoAdicPeriodicEvaluator,
    build_periodic_lde_table_two_adic,
};
use std::alloc::Global;
use std::process::Abort;

type Domain = TwoAdicMultiplicativeCoset<BabyBear>;

/// Which call makes a table.
pub(crate) enum Way {
    /// By an evaluator with a transform of its own.
    Evaluator,
    /// By an evaluator that is given a transform.
    GivenTransform,
    /// By the function that stands by itself.
    Function,
}

pub(crate) static WAYS: [Way; 3] = [Way::Evaluator, Way::GivenTransform, Way::Function];

/// The trace's domain, and that of 16 points of shift 31.
fn trace_and_domain(rt: &impl Abort) -> (Domain, Domain)
    ensures { result.0.log_size ≤ result.1.log_size }
{
    let trace = Domain::new(BabyBear::ONE, 3).expect(rt, "a trace of 8");
    let domain = Domain::new(BabyBear::GENERATOR, 4).expect(rt, "a domain of 16");
    (trace, domain)
}

/// The table of columns of these numbers.
pub(crate) fn table_by(
    rt: &impl Abort,
    alloc: Global,
    way: &Way,
    columns: &[&[u64]],
) -> Result<PeriodicLdeTable<BabyBear>, PeriodicError> {
    let (trace, domain) = trace_and_domain(rt);
    let columns = columns_of(rt, alloc, columns);
    let dft = Radix2Dit::<BabyBear>::default();
    match way {
        Way::Evaluator => TwoAdicPeriodicEvaluator::<Radix2Dit<BabyBear>>::eval_on_lde(
            alloc, &columns, &trace, &domain,
        ),
        Way::GivenTransform => TwoAdicPeriodicEvaluator::eval_on_lde_with_dft(
            alloc, &dft, &columns, &trace, &domain,
        ),
        Way::Function => {
            build_periodic_lde_table_two_adic(alloc, &dft, &columns, &trace, &domain)
        },
    }
}

/// Entries of a table, by index and column.
type Entries = &'static [(usize, usize, Option<u64>)];

/// Columns, the height of their table, and entries of it.
static TABLES: [(&[&[u64]], usize, Entries); 4] = [
    (
        &[&[1, 3]],
        4,
        &[
            (0, 0, Some(2012342402)),
            (1, 0, Some(21214579)),
            (2, 0, Some(923523)),
            (3, 0, Some(1992051346)),
            (14, 0, Some(923523)),
            (0, 1, None),
        ],
    ),
    (&[&[5]], 2, &[(0, 0, Some(5)), (1, 0, Some(5))]),
    // columns of several periods stand side by side
    (
        &[&[1, 3], &[1, 2, 3, 4], &[5], &[2, 4]],
        8,
        &[
            (14, 1, Some(1604297772)),
            (5, 0, Some(21214579)),
            (5, 1, Some(1334259427)),
            (5, 2, Some(5)),
            (5, 3, Some(21214580)),
        ],
    ),
    (&[], 0, &[(0, 0, None)]),
];

/// Whether the table has this height, and shows these entries.
fn shows(table: &PeriodicLdeTable<BabyBear>, height: usize, entries: Entries) -> bool {
    let mut right = table.height() == height;
    for (index, column, wanted) in entries {
        right = right
            && match table.get(*index, *column) {
                Some(element) => *wanted == Some(element.as_canonical_u64()),
                None => wanted.is_none(),
            };
    }
    right
}

#[test]
fn worked_tables(rt: HostRuntime) {
    for (columns, height, entries) in &TABLES {
        for way in &WAYS {
            let table = table_by(&rt, rt.alloc(), way, *columns).expect(&rt, "refused columns");
            assert!(rt;
                shows(&table, *height, *entries),
                "the table of {height} rows"
            );
        }
    }
}
