//! Changes of a JSON value, as they stand in the data: a JSON pointer (RFC 6901), what to do at the
//! place that it names, and for some of these a value.

use anyhow::{Context, Result, anyhow};
use serde_json::Value;
use std::alloc::Global;

/// The order of the field.
const ORDER: u64 = 2013265921;

/// What a change does at its place.
#[derive(Clone, Copy, PartialEq, Eq)]
pub enum Operation {
    /// Nothing.
    Keep,
    /// Drops the last entry of a list.
    Cut,
    /// Lengthens a list by its last entry.
    Repeat,
    /// Drops all entries of a list.
    Empty,
    /// Exchanges the first two entries of a list.
    Swap,
    /// Lengthens a list by the value.
    Add,
    /// Adds one to a number.
    Raise,
    /// Makes a number zero.
    Zero,
    /// Makes a number the field's order.
    Order,
    /// Turns the lowest bit of a byte.
    Turn,
    /// Adds one to a byte, and makes 255 zero.
    Next,
    /// Puts the value there.
    Set,
}

/// Each operation with its name, in order.
pub static OPERATIONS: [(&str, Operation); 12] = [
    ("keep", Operation::Keep),
    ("cut", Operation::Cut),
    ("repeat", Operation::Repeat),
    ("empty", Operation::Empty),
    ("swap", Operation::Swap),
    ("add", Operation::Add),
    ("raise", Operation::Raise),
    ("zero", Operation::Zero),
    ("order", Operation::Order),
    ("turn", Operation::Turn),
    ("next", Operation::Next),
    ("set", Operation::Set),
];

/// The operation of this name.
fn operation_named(name: &str) -> Option<Operation> {
    for (other, operation) in &OPERATIONS {
        if name == *other {
            return Some(*operation);
        }
    }
    None
}

/// A change of a JSON value.
#[derive(Clone, Copy)]
pub struct Change<'a> {
    path: &'a str,
    pub operation: Operation,
    value: &'a str,
}

impl<'a> Change<'a> {
    /// The change that a text writes: a path, an operation and, where one is asked for, a value.
    pub fn parse(text: &'a str) -> Option<Self> {
        let (path, others) = text.split_once(' ')?;
        let (name, value) = others.split_once(' ').unwrap_or((others, ""));
        let operation = operation_named(name)?;
        Some(Change {
            path,
            operation,
            value,
        })
    }

    /// Makes the change.
    pub fn apply(self, alloc: Global, document: &mut Value) -> Result<()> {
        let place = document.pointer_mut(self.path).context("no such place")?;
        match self.operation {
            Operation::Keep => Ok(()),
            Operation::Cut | Operation::Repeat | Operation::Empty | Operation::Swap => {
                change_list(self.operation, place)
            }
            Operation::Add | Operation::Set => {
                put(self.operation, place, Value::from_str(alloc, self.value)?)
            }
            _ => change_number(self.operation, place),
        }
    }
}

/// Makes a change of a number.
fn change_number(operation: Operation, place: &mut Value) -> Result<()> {
    let number = place.as_u64().context("no number")?;
    *place = Value::from(match operation {
        Operation::Raise => number.saturating_add(1),
        Operation::Zero => 0,
        Operation::Order => ORDER,
        Operation::Turn => number ^ 1,
        _ => number.saturating_add(1) % 256,
    });
    Ok(())
}

/// Puts the value at the list's end, or in its place.
fn put(operation: Operation, place: &mut Value, value: Value) -> Result<()> {
    if operation == Operation::Set {
        *place = value;
        return Ok(());
    }
    let list = place.as_array_mut().context("no list")?;
    list.push(value)?;
    Ok(())
}

/// Lengthens a list by its last entry.
fn repeat(list: &mut Vec<Value>) -> Result<()> {
    let last = list.last().context("an empty list")?.clone()?;
    list.push(last)?;
    Ok(())
}

/// Makes a change of a list that takes no value.
fn change_list(operation: Operation, place: &mut Value) -> Result<()> {
    let list = place.as_array_mut().context("no list")?;
    match (operation, list.as_mut_slice()) {
        (Operation::Empty, _) => list.clear(),
        (Operation::Cut, [_, ..]) => list.truncate(list.len().saturating_sub(1)),
        (Operation::Repeat, [_, ..]) => repeat(list)?,
        (Operation::Swap, [first, second, ..]) => std::mem::swap(first, second),
        _ => return Err(anyhow!("a list that is too short")),
    }
    Ok(())
}
