//! The calls over bytes, at the field `F`. The bytes don't name it.

ghost use Rattle.std.specs.Prelude.{◌≡◌, length, IfOk};
ghost use Rattle.fri_flat.specs.Answers.{AnswersRequest, AnswersStatement, CommitsRequest};
ghost use Rattle.fri_flat.specs.Answers.{IsAcceptedStatement, drawn_after};
ghost use Rattle.fri_flat.specs.Flat.{element_size};
ghost use Rattle.fri_flat.specs.Layouts.{layout_of};

use crate::failure::Failure;
use crate::field::layout_of;
use crate::forms::{answer_of, digests_of, value_of};
use crate::statement::Statement;
use crate::writer::push_element;
use fri_requests::{Request, VerifyError, plain};
use fri_schemes::{SchemeField, SchemeParts};
use p3_fri_plain::{from_plain, to_plain};
use std::alloc::Global;

/// The commitments of the request in these bytes, 32 bytes each.
pub fn commit<F: SchemeField>(alloc: Global, bytes: &[u8]) -> Result<Vec<u8>, Failure>
    ensures { IfOk result (λ v. CommitsRequest ⟦<F as SchemeParts>⟧.fields bytes.now v.items) }
{
    let layout = layout_of::<F>();
    let request = value_of::<Request>(alloc, layout, bytes)?;
    let commitments = match plain::commit::<F>(alloc, &request) {
        Ok(commitments) => commitments,
        Err(error) => return Err(Failure::Request(error)),
    };
    let answer = digests_of(alloc, &commitments)?;
    Ok(answer)
}

/// The answer to the request in these bytes: the next challenge, and the statement that `verify`
/// takes. The proof is bound to the whole statement: context, parameters, commitments, domains,
/// widths and points.
pub fn open<F: SchemeField>(alloc: Global, bytes: &[u8]) -> Result<Vec<u8>, Failure>
    ensures { IfOk result (λ v. AnswersRequest ⟦<F as SchemeParts>⟧.fields bytes.now v.items) }
{
    let layout = layout_of::<F>();
    let request = value_of::<Request>(alloc, layout, bytes)?;
    let opening = match plain::open::<F>(alloc, &request) {
        Ok(opening) => opening,
        Err(error) => return Err(Failure::Request(error)),
    };
    let statement = Statement {
        context: request.context,
        parameters: request.parameters,
        claims: opening.claims,
        proof: to_plain::<F, F::Extension>(alloc, &opening.proof)?,
    };
    let answer = answer_of(alloc, layout, &opening.next_challenge, &statement)?;
    Ok(answer)
}

/// Verifies a statement.
fn verify_statement<F: SchemeField>(
    alloc: Global,
    statement: Statement,
) -> Result<Vec<u64>, VerifyError>
    ensures { IfOk result (λ next.
        IsAcceptedStatement ⟦<F as SchemeParts>⟧.fields statement next.items) }
{
    let proof = from_plain::<F, F::Extension>(alloc, statement.proof)?;
    plain::verify::<F>(
        alloc,
        &statement.context,
        &statement.parameters,
        &statement.claims,
        &proof,
    )
}

/// Verifies the statement in these bytes under the context that it states, and answers the numbers
/// of what the challenger draws next.
pub fn verify<F: SchemeField>(alloc: Global, bytes: &[u8]) -> Result<Vec<u8>, Failure>
    ensures statement { IfOk result (λ v.
        AnswersStatement ⟦<F as SchemeParts>⟧.fields bytes.now v.items) }
    ensures length { IfOk result (λ v.
        length v.items ≡ element_size (layout_of ⟦<F as SchemeParts>⟧.fields)) }
{
    let layout = layout_of::<F>();
    let statement = value_of::<Statement>(alloc, layout, bytes)?;
    let next_challenge = match verify_statement::<F>(alloc, statement) {
        Ok(next_challenge) => next_challenge,
        Err(error) => return Err(Failure::Statement(error)),
    };
    let mut out = Vec::new(alloc);
    push_element(&mut out, layout, &next_challenge)?;
    Ok(out)
}

/// The numbers of what a fresh challenger draws after this context, any bytes. Whoever keeps
/// the bytes of all that was sent draws challenges between commitments so, and states the same
/// bytes as the context of what is opened.
pub fn challenge<F: SchemeField>(alloc: Global, context: &[u8]) -> Result<Vec<u8>, Failure>
    ensures challenge { IfOk result (λ v.
        v.items ≡ drawn_after ⟦<F as SchemeParts>⟧.fields context.now) }
    ensures length { IfOk result (λ v.
        length v.items ≡ element_size (layout_of ⟦<F as SchemeParts>⟧.fields)) }
{
    let challenge = fri_requests::challenge::<F>(alloc, context)?;
    let layout = layout_of::<F>();
    let mut out = Vec::new(alloc);
    push_element(&mut out, layout, &challenge)?;
    Ok(out)
}
