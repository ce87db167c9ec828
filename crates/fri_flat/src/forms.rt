//! Whole requests, statements and answers in the flat form.

ghost use Rattle.std.specs.Prelude.{◌≡◌, IfOk};
ghost use Rattle.fri_flat.specs.Answers.{digests};
ghost use Rattle.fri_flat.specs.Flat.{answer};
ghost use Rattle.fri_flat.specs.Hiding.{hiding_answer};

use crate::failure::Failure;
use crate::flat::Flat;
use crate::hiding_forms::HidingStatement;
use crate::layout::Layout;
use crate::reader::Reader;
use crate::statement::Statement;
use crate::writer::push_element;
use std::alloc::{AllocError, Global};

/// The value of this form in these bytes, of which none is left.
pub(crate) fn value_of<V: Flat>(
    alloc: Global,
    layout: Layout,
    bytes: &[u8],
) -> Result<V::Value, Failure>
    ensures form { IfOk result (λ value. bytes.now ≡ V.form layout value) }
    ensures whole { IfOk result (V.IsWhole layout) }
{
    let mut reader = Reader { left: bytes };
    let value = match V::read(alloc, layout, &mut reader) {
        Ok(value) => value,
        Err(error) => return Err(Failure::of_reading(error, bytes.len())),
    };
    if !reader.left.is_empty() {
        return Err(Failure::BytesLeft {
            at: bytes.len().saturating_sub(reader.left.len()),
        });
    }
    Ok(value)
}

/// The bytes of an answer of `commit`: the commitments one after another.
pub(crate) fn digests_of(alloc: Global, commitments: &[[u8; 32]]) -> Result<Vec<u8>, AllocError>
    ensures { IfOk result (λ v. v.items ≡ digests commitments.now) }
{
    let mut out = Vec::new(alloc);
    for commitment in commitments {
        out.extend_from_slice(commitment)?;
    }
    Ok(out)
}

/// The bytes of an answer of `open`: the next challenge, then the statement.
pub(crate) fn answer_of(
    alloc: Global,
    layout: Layout,
    next_challenge: &Vec<u64>,
    statement: &Statement,
) -> Result<Vec<u8>, Failure>
    ensures { IfOk result (λ v. v.items ≡ answer layout next_challenge.now.items statement.now) }
{
    let mut out = Vec::new(alloc);
    push_element(&mut out, layout, next_challenge)?;
    Statement::write(statement, layout, &mut out)?;
    Ok(out)
}

/// The bytes of an answer of `hiding::open`: the next challenge, then the statement.
pub(crate) fn hiding_answer_of(
    alloc: Global,
    layout: Layout,
    next_challenge: &Vec<u64>,
    statement: &HidingStatement,
) -> Result<Vec<u8>, Failure>
    ensures { IfOk result (λ v.
        v.items ≡ hiding_answer layout next_challenge.now.items statement.now) }
{
    let mut out = Vec::new(alloc);
    push_element(&mut out, layout, next_challenge)?;
    HidingStatement::write(statement, layout, &mut out)?;
    Ok(out)
}
