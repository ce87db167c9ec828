//! Elements and opened values that are numbers.

ghost use Rattle.std.specs.Prelude.{◌≢◌, All, length};

use p3_field::{BabyBear, BabyBear4, ExtensionField, Field};
use p3_mmcs::OpenedValues;
use std::alloc::Global;
use std::process::Abort;

/// Numbers of each matrix of each commitment: its column, its points, or the values at these.
pub(crate) type Points<'a> = &'a [&'a [&'a [u64]]];

/// An element of the extension that is a number.
pub(crate) fn constant(number: u64) -> BabyBear4 {
    BabyBear4::from_base(BabyBear::from_u64(number))
}

/// Elements that are these numbers, of which there are some.
fn elements(rt: &impl Abort, alloc: Global, numbers: &[u64]) -> Vec<BabyBear4>
    ensures { length result.items ≢ 0 }
{
    let mut elements = Vec::new(alloc);
    for number in numbers {
        elements.push(constant(*number)).expect(rt, "memory");
    }
    assert!(rt; elements.len() != 0, "a matrix without points");
    elements
}

/// Lists of points, some in each.
pub(crate) fn points_of(rt: &impl Abort, alloc: Global, points: &[&[u64]]) -> Vec<Vec<BabyBear4>>
    ensures { All (λ list. length list.items ≢ 0) result.items }
{
    let mut lists = Vec::new(alloc);
    for numbers in points {
        lists
            .push(elements(rt, alloc, *numbers))
            .expect(rt, "memory");
    }
    lists
}

/// Whether these are the values of matrices of one column, by commitment, matrix and point.
pub(crate) fn are_values(
    rt: &impl Abort,
    alloc: Global,
    values: &OpenedValues<BabyBear4>,
    commitments: Points<'_>,
) -> bool {
    let mut all = Vec::new(alloc);
    for each in commitments {
        let mut matrices = Vec::new(alloc);
        for numbers in *each {
            let mut points = Vec::new(alloc);
            for number in *numbers {
                let value = vec![in alloc; constant(*number)].expect(rt, "memory");
                points.push(value).expect(rt, "memory");
            }
            matrices.push(points).expect(rt, "memory");
        }
        all.push(matrices).expect(rt, "memory");
    }
    *values == all
}
