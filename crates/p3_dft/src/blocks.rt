//! Blocks of values that stand one after another.

ghost use Rattle.std.specs.Prelude.{◌≡◌, ◌≤◌, ◌+◌, ◌*◌, length};
ghost use Rattle.std.specs.List.{between};

/// Block `m`, in blocks of `size` values.
pub(crate) fn block<T>(values: &[T], size: usize, m: usize) -> &[T]
    requires { m * size + size ≤ length values.now }
    ensures { result.now ≡ between (m * size) (m * size + size) values.now }
{
    let start = m * size;
    &values[start..start + size]
}
