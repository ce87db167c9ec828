//! Reports on documents in files.

use crate::change::OPERATIONS;
use crate::comparison::{Answers, Counts, compare};
use anyhow::Result;
use serde_json::Value;
use std::fs;
use std::rt::Files;

/// The document of this name, with its changes.
fn read_document(rt: &(impl Files + AllocGlobal), name: &str) -> Result<Value> {
    let path = format!(in rt.alloc(); "{name}.json")?;
    let text = fs::read_to_string(rt, path.as_str())?;
    Ok(Value::from_str(rt.alloc(), text.as_str())?)
}

/// Compares the answers to all changes of the documents of these names, and prints how many changes
/// were made of each, and by each operation. A document stands at this path of its file.
pub fn report_on<A: Answers>(
    rt: &(impl Files + Print + AllocGlobal),
    path: &str,
    names: &[&str],
) -> Result<()> {
    let mut counts = Counts::default();
    for name in names {
        let before = counts;
        compare::<A>(rt, &read_document(rt, *name)?, path, &mut counts)?;
        let total = counts.total().saturating_sub(before.total());
        let named = counts.named.saturating_sub(before.named);
        let accepted = counts.accepted.saturating_sub(before.accepted);
        println!(rt; "{name}: {total} changes, {named} of them named, {accepted} accepted")?;
    }
    for ((name, _), count) in OPERATIONS.iter().zip(&counts.by_operation) {
        println!(rt; "{name}: {count}")?;
    }
    Ok(())
}
