//! Lists of values.

ghost use Rattle.std.specs.Prelude.{◌≡◌, [], ◌∷◌, ◌++◌};

use p3_test_openings::listed::{listed, pair};
use std::alloc::Global;
use std::process::Abort;

/// A list of one value.
pub(crate) fn one<T: Drop>(rt: &impl Abort, alloc: Global, value: T) -> Vec<T>
    ensures { result.items ≡ value ∷ [] }
{
    listed(alloc, value).expect(rt, "memory")
}

/// A list of two.
pub(crate) fn two<T: Drop>(rt: &impl Abort, alloc: Global, first: T, second: T) -> Vec<T>
    ensures { result.items ≡ first ∷ second ∷ [] }
{
    pair(alloc, first, second).expect(rt, "memory")
}

/// Adds a value to a list.
pub(crate) fn push<T: Drop>(rt: &impl Abort, list: &mut Vec<T>, value: T)
    ensures { list.new.items ≡ list.old.items ++ value ∷ [] }
{
    list.push(value).expect(rt, "memory");
}
