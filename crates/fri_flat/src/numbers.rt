//! Numbers, elements of the extension and digests in the flat form.

ghost use Rattle.fri_flat.specs.Flat.{number, element, IsElement, digest_bytes, IsDigest};

use crate::fault::{ReadError, WriteError};
use crate::flat::Flat;
use crate::layout::Layout;
use crate::reader::Reader;
use crate::writer::{push_digest_bytes, push_element, push_number};
use std::alloc::Global;

/// The number of an element of the prime field.
pub(crate) struct Number;

impl Flat for Number {
    type Value = u64;

    ghost form = { number };

    ghost IsWhole = { λ _ _. Unit {0} };

    fn read(_alloc: Global, layout: Layout, reader: &mut Reader<'_>) -> Result<u64, ReadError> {
        reader.number(layout)
    }

    fn write(number: &u64, layout: Layout, out: &mut Vec<u8>) -> Result<(), WriteError> {
        push_number(out, layout, *number)
    }
}

/// An element of the extension, by its coefficients' numbers.
pub(crate) struct Element;

impl Flat for Element {
    type Value = Vec<u64>;

    ghost form = { λ layout. element layout };

    ghost IsWhole = { λ layout. IsElement layout };

    fn read(alloc: Global, layout: Layout, reader: &mut Reader<'_>) -> Result<Vec<u64>, ReadError> {
        reader.numbers(alloc, layout, layout.degree)
    }

    fn write(numbers: &Vec<u64>, layout: Layout, out: &mut Vec<u8>) -> Result<(), WriteError> {
        push_element(out, layout, numbers)
    }
}

/// A digest: 32 bytes.
impl Flat for [u8; 32] {
    type Value = Vec<u8>;

    ghost form = { λ _. digest_bytes };

    ghost IsWhole = { λ _. IsDigest };

    fn read(alloc: Global, _layout: Layout, reader: &mut Reader<'_>) -> Result<Vec<u8>, ReadError> {
        Ok(Vec::from_slice(alloc, reader.bytes(32)?)?)
    }

    fn write(digest: &Vec<u8>, _layout: Layout, out: &mut Vec<u8>) -> Result<(), WriteError> {
        push_digest_bytes(out, digest)
    }
}
