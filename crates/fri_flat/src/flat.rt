//! Values in the flat form.

ghost use Rattle.std.specs.Prelude.{◌≡◌, ◌++◌, List, ℕ, IfOk, OnOk};
ghost use Rattle.std.specs.List.{All};
ghost use Rattle.fri_flat.specs.Flat.{list};
ghost use Rattle.fri_flat.specs.declared.layout.Layout.{Layout};

use crate::fault::{ReadError, WriteError};
use crate::layout::Layout;
use crate::reader::Reader;
use crate::writer::push_count;
use std::alloc::Global;

/// How bytes hold a value, over a field whose numbers lie so. A type stands for the bytes of a
/// value: `Number` for those of an element of the prime field, `Element` for those of one of the
/// extension, an array for those of so many bytes, `Vec` for a list's, a record for its own.
pub(crate) trait Flat {
    /// What is held.
    type Value: Drop;

    // the bytes of a value
    ghost form: { Layout → Self.Value → List ℕ };

    // its lists are as long as the form takes for granted
    ghost IsWhole: { Layout → Self.Value → Type 0 };

    /// Reads a value.
    fn read(
        alloc: Global,
        layout: Layout,
        reader: &mut Reader<'_>,
    ) -> Result<Self::Value, ReadError>
        ensures form { IfOk result (λ value. reader.old.left.now
            ≡ form layout value ++ reader.new.left.now) }
        ensures whole { IfOk result (IsWhole layout) };

    /// Adds the value's form at the end.
    fn write(value: &Self::Value, layout: Layout, out: &mut Vec<u8>) -> Result<(), WriteError>
        ensures { OnOk result (out.new.items ≡ out.old.items ++ form layout value.now) };
}

/// The number of entries, and then each.
impl<V: Flat> Flat for Vec<V> {
    type Value = Vec<V::Value>;

    ghost form = { λ layout. list (V.form layout) };

    ghost IsWhole = { λ layout entries. All (V.IsWhole layout) entries.items };

    fn read(
        alloc: Global,
        layout: Layout,
        reader: &mut Reader<'_>,
    ) -> Result<Vec<V::Value>, ReadError> {
        let count = reader.count()?;
        let mut entries = Vec::with_capacity(alloc, count)?;
        for _ in 0..count {
            entries.push(V::read(alloc, layout, reader)?)?;
        }
        Ok(entries)
    }

    fn write(entries: &Vec<V::Value>, layout: Layout, out: &mut Vec<u8>) -> Result<(), WriteError> {
        push_count(out, entries.len())?;
        for entry in entries {
            V::write(entry, layout, out)?;
        }
        Ok(())
    }
}
