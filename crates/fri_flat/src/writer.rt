//! Numbers and digests at the end of bytes.

ghost use Rattle.std.specs.Prelude.{◌≡◌, ◌++◌, OnOk, string_bytes};
ghost use Rattle.std.specs.List.{All};
ghost use Rattle.fri_flat.specs.Flat.{word, words, number, numbers, elements, digest, context};
ghost use Rattle.fri_flat.specs.Flat.{IsElement, digest_bytes, IsDigest};
ghost use Rattle.fri_flat.specs.Hiding.{index, IsIndex};

use crate::fault::WriteError;
use crate::layout::{Layout, Width};
use hex::{FromHex, FromHexError};

/// Adds a number of four bytes.
fn push_word(out: &mut Vec<u8>, number: u32) -> Result<(), WriteError>
    ensures { OnOk result (out.new.items ≡ out.old.items ++ word number) }
{
    Ok(out.extend_from_slice(&number.to_le_bytes())?)
}

/// Adds a count or a size that fits 32 bits.
pub(crate) fn push_count(out: &mut Vec<u8>, count: usize) -> Result<(), WriteError>
    ensures { OnOk result (out.new.items ≡ out.old.items ++ word count) }
{
    match u32::try_from(count) {
        Ok(count) => push_word(out, count),
        Err(_) => Err(WriteError::NoForm),
    }
}

/// Adds counts and sizes one after another.
pub(crate) fn push_counts(out: &mut Vec<u8>, counts: &[usize]) -> Result<(), WriteError>
    ensures { OnOk result (out.new.items ≡ out.old.items ++ words counts.now) }
{
    for count in counts {
        push_count(out, *count)?;
    }
    Ok(())
}

/// Adds the number of an element of the prime field, if its bytes hold it.
pub(crate) fn push_number(out: &mut Vec<u8>, layout: Layout, value: u64) -> Result<(), WriteError>
    ensures { OnOk result (out.new.items ≡ out.old.items ++ number layout value) }
{
    match layout.width {
        Width::Four => match u32::try_from(value) {
            Ok(value) => push_word(out, value),
            Err(_) => Err(WriteError::NoForm),
        },
        Width::Eight => Ok(out.extend_from_slice(&value.to_le_bytes())?),
    }
}

/// Adds such numbers one after another.
pub(crate) fn push_numbers(
    out: &mut Vec<u8>,
    layout: Layout,
    values: &[u64],
) -> Result<(), WriteError>
    ensures { OnOk result (out.new.items ≡ out.old.items ++ numbers layout values.now) }
{
    for value in values {
        push_number(out, layout, *value)?;
    }
    Ok(())
}

/// Adds an index, or that there is none. The number that says so is no index.
pub(crate) fn push_index(out: &mut Vec<u8>, place: Option<usize>) -> Result<(), WriteError>
    ensures form { OnOk result (out.new.items ≡ out.old.items ++ index place) }
    ensures whole { OnOk result (IsIndex place) }
{
    match place {
        None => push_word(out, u32::MAX),
        Some(place) => match u32::try_from(place) {
            Ok(u32::MAX) | Err(_) => Err(WriteError::NoForm),
            Ok(place) => push_word(out, place),
        },
    }
}

/// Adds an element of the extension.
pub(crate) fn push_element(
    out: &mut Vec<u8>,
    layout: Layout,
    element: &Vec<u64>,
) -> Result<(), WriteError>
    ensures form { OnOk result (out.new.items
        ≡ out.old.items ++ numbers layout element.now.items) }
    ensures length { OnOk result (IsElement layout element.now) }
{
    if element.len() != layout.degree {
        return Err(WriteError::NoForm);
    }
    push_numbers(out, layout, element)
}

/// Adds elements of the extension one after another.
pub(crate) fn push_elements(
    out: &mut Vec<u8>,
    layout: Layout,
    list: &[Vec<u64>],
) -> Result<(), WriteError>
    ensures form { OnOk result (out.new.items ≡ out.old.items ++ elements layout list.now) }
    ensures lengths { OnOk result (All (IsElement layout) list.now) }
{
    for element in list {
        push_element(out, layout, element)?;
    }
    Ok(())
}

/// Adds a digest.
pub(crate) fn push_digest_bytes(out: &mut Vec<u8>, digest: &Vec<u8>) -> Result<(), WriteError>
    ensures form { OnOk result (out.new.items ≡ out.old.items ++ digest_bytes digest.now) }
    ensures length { OnOk result (IsDigest digest.now) }
{
    if digest.len() != 32 {
        return Err(WriteError::NoForm);
    }
    Ok(out.extend_from_slice(digest)?)
}

/// Adds the 32 bytes that a hex text says.
pub(crate) fn push_digest(out: &mut Vec<u8>, text: &String) -> Result<(), WriteError>
    ensures { OnOk result (out.new.items ≡ out.old.items ++ digest text.now) }
{
    let digest: Result<[u8; 32], FromHexError> = FromHex::from_hex(text.as_str());
    match digest {
        Ok(digest) => Ok(out.extend_from_slice(&digest)?),
        Err(_) => Err(WriteError::NoForm),
    }
}

/// Adds the number of bytes that a hex text says, and these.
pub(crate) fn push_context(out: &mut Vec<u8>, text: &String) -> Result<(), WriteError>
    ensures { OnOk result (out.new.items ≡ out.old.items ++ context (string_bytes text.now)) }
{
    let alloc = *out.allocator();
    match hex::decode(alloc, text.as_str()) {
        Ok(context) => {
            push_count(out, context.len())?;
            Ok(out.extend_from_slice(&context)?)
        },
        Err(FromHexError::OutOfMemory) => Err(WriteError::OutOfMemory),
        Err(_) => Err(WriteError::NoForm),
    }
}
