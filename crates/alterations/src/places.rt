//! What stands at the places of a JSON value.

use anyhow::{Context, Result};
use p3_fri_plain::Plain;
use serde::DeserializeOwned;
use serde_json::Value;
use std::alloc::Global;

/// What stands at this place.
pub fn place<'a>(document: &'a Value, path: &str) -> Result<&'a Value> {
    document.pointer(path).context("no such place")
}

/// The entries of the list at this place.
pub fn entries<'a>(document: &'a Value, path: &str) -> Result<&'a [Value]> {
    let list = place(document, path)?.as_array().context("no list")?;
    Ok(list.as_slice())
}

/// The number at this place.
pub fn number(document: &Value, path: &str) -> Result<usize> {
    let number = place(document, path)?.as_u64().context("no number")?;
    Ok(number as usize)
}

/// What the JSON at this place says.
pub fn read<T: DeserializeOwned>(alloc: Global, document: &Value, path: &str) -> Result<T> {
    let copy = place(document, path)?.clone()?;
    Ok(serde_json::from_value(alloc, copy)?)
}

/// What has the plain form at this place.
pub fn read_plain<T: Plain>(alloc: Global, document: &Value, path: &str) -> Result<T::Value>
where
    T::Form: DeserializeOwned,
{
    let form: T::Form = read(alloc, document, path)?;
    Ok(T::from_plain(alloc, &form)?)
}
