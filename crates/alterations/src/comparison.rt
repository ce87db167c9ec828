//! The answers to altered documents, beside those that may be given.
//!
//! The data of a document are the document and groups of changes. A group has a name, the answers
//! that may be given to each of its changes, and the changes. Where the name isn't empty, it is one
//! change.

use crate::change::{Change, OPERATIONS, Operation};
use crate::places::{entries, place};
use anyhow::{Context, Result, anyhow};
use serde_json::Value;
use std::alloc::Global;

/// A verifier of documents.
pub trait Answers {
    /// What it answers about this document; an error where it can't be asked.
    fn answer(alloc: Global, document: &Value) -> Result<String>;
}

/// How many changes were made.
#[derive(Clone, Copy, Default)]
pub struct Counts {
    /// By operation, in the order of `OPERATIONS`.
    pub by_operation: [usize; 12],
    /// Those that have a name.
    pub named: usize,
    /// Those after which the document was accepted.
    pub accepted: usize,
}

impl Counts {
    fn add(&mut self, operation: Operation, is_named: bool, is_accepted: bool) {
        for (count, (_, other)) in self.by_operation.iter_mut().zip(&OPERATIONS) {
            *count = count.saturating_add((operation == *other) as usize);
        }
        self.named = self.named.saturating_add(is_named as usize);
        self.accepted = self.accepted.saturating_add(is_accepted as usize);
    }

    /// All of them.
    pub fn total(&self) -> usize {
        let mut total = 0usize;
        for count in &self.by_operation {
            total = total.saturating_add(*count);
        }
        total
    }
}

/// What is answered to a change of the document.
fn answer_after<A: Answers>(alloc: Global, document: &Value, change: Change<'_>) -> Result<String> {
    let mut changed = document.clone()?;
    change.apply(alloc, &mut changed)?;
    A::answer(alloc, &changed)
}

/// The text that a value is.
fn text(value: &Value) -> Result<&str> {
    value.as_str().context("no text")
}

/// Whether a text is among these.
fn is_among(answer: &str, texts: &[Value]) -> bool {
    for text in texts {
        if text.as_str() == Some(answer) {
            return true;
        }
    }
    false
}

/// Whether an answer accepts, where it may be given; one that may not is told.
fn accepts(rt: &impl Print, group: &Value, change: &str, answer: &str) -> Result<bool> {
    let allowed = entries(group, "/answers")?;
    if is_among(answer, allowed) {
        return Ok(answer.starts_with("accepted"));
    }
    let name = place(group, "/name")?;
    println!(rt; "{change} {name:?}: answered {answer:?}, and not one of {allowed:?}")?;
    Err(anyhow!("an answer that may not be given"))
}

/// Compares the answers to the changes of a group. One that may not be given is the last.
fn compare_group<A: Answers>(
    rt: &(impl Print + AllocGlobal),
    document: &Value,
    group: &Value,
    counts: &mut Counts,
) -> Result<()> {
    let is_named = !text(place(group, "/name")?)?.is_empty();
    for change in entries(group, "/changes")? {
        let written = text(change)?;
        let change = Change::parse(written).context("no change")?;
        let answer = answer_after::<A>(rt.alloc(), document, change)?;
        let is_accepted = accepts(rt, group, written, answer.as_str())?;
        counts.add(change.operation, is_named, is_accepted);
    }
    Ok(())
}

/// Compares the answers to all changes of the document at this path of its data, and counts them.
pub fn compare<A: Answers>(
    rt: &(impl Print + AllocGlobal),
    data: &Value,
    path: &str,
    counts: &mut Counts,
) -> Result<()> {
    let document = place(data, path)?;
    for group in entries(data, "/groups")? {
        compare_group::<A>(rt, document, group, counts)?;
    }
    Ok(())
}
