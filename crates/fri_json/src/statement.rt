//! Statements in JSON, verified.

use crate::Failure;
use crate::fault::read;
use crate::prime_field::FieldName;
use crate::records::{Accepted, HidingStated, HidingStatement, Kind, Statement};
use fri_requests::{HidingScheme, SchemeField, VerifyError, plain};
use p3_field::BabyBear;
use p3_fri_plain::{from_plain, hiding_from_plain};
use p3_goldilocks::Goldilocks;
use p3_koala_bear::KoalaBear;
use std::alloc::Global;

/// Verifies a statement of the plain scheme over the field `F`, which it names.
fn accept_plain<F: SchemeField>(alloc: Global, statement: Statement) -> Result<Accepted, Failure> {
    let Statement {
        field,
        context,
        parameters,
        hiding: _,
        claims,
        proof,
    } = statement;
    let verified = match from_plain::<F, F::Extension>(alloc, proof) {
        Ok(proof) => plain::verify::<F>(alloc, &context, &parameters, &claims, &proof),
        Err(error) => Err(error.into()),
    };
    match verified {
        Ok(next_challenge) => Ok(Accepted {
            field,
            context,
            parameters,
            hiding: None,
            claims,
            next_challenge,
        }),
        Err(error) => Err(Failure::Statement(error)),
    }
}

/// Verifies a statement of the scheme that hides over the field `F`, which it names.
fn accept_hiding<F: SchemeField>(
    alloc: Global,
    statement: HidingStatement,
) -> Result<Accepted, Failure> {
    let HidingStatement {
        field,
        context,
        parameters,
        hiding,
        claims,
        proof,
    } = statement;
    let HidingStated {
        num_random_codewords,
        preprocessing,
    } = hiding;
    let verified = match hiding_from_plain::<F, F::Extension>(alloc, proof) {
        Ok(proof) => fri_requests::verify::<F, HidingScheme<F>>(
            alloc,
            &context,
            &parameters,
            num_random_codewords,
            preprocessing,
            &claims,
            &proof,
        ),
        Err(error) => Err(VerifyError::from(error)),
    };
    match verified {
        Ok(next_challenge) => Ok(Accepted {
            field,
            context,
            parameters,
            hiding: Some(hiding),
            claims,
            next_challenge,
        }),
        Err(error) => Err(Failure::Statement(error)),
    }
}

/// Verifies a statement of the plain scheme over its field.
fn accept_plain_statement(alloc: Global, statement: Statement) -> Result<Accepted, Failure> {
    match statement.field {
        FieldName::BabyBear => accept_plain::<BabyBear>(alloc, statement),
        FieldName::KoalaBear => accept_plain::<KoalaBear>(alloc, statement),
        FieldName::Goldilocks => accept_plain::<Goldilocks>(alloc, statement),
    }
}

/// Verifies a statement of the scheme that hides over its field.
fn accept_hiding_statement(alloc: Global, statement: HidingStatement) -> Result<Accepted, Failure> {
    match statement.field {
        FieldName::BabyBear => accept_hiding::<BabyBear>(alloc, statement),
        FieldName::KoalaBear => accept_hiding::<KoalaBear>(alloc, statement),
        FieldName::Goldilocks => accept_hiding::<Goldilocks>(alloc, statement),
    }
}

/// Whether the text is of a statement of the scheme that hides.
fn hides(alloc: Global, text: &str) -> bool {
    let kind: Result<Kind, Failure> = read(alloc, text);
    matches!(kind, Ok(Kind { hiding: Some(_) }))
}

/// Verifies the statement in this JSON text, and answers what was accepted.
pub(crate) fn accept(alloc: Global, text: &str) -> Result<Accepted, Failure> {
    let statement: Result<Statement, Failure> = read(alloc, text);
    match statement {
        Ok(statement) if statement.hiding.is_none() => accept_plain_statement(alloc, statement),
        Err(failure) if !hides(alloc, text) => Err(failure),
        _ => accept_hiding_statement(alloc, read(alloc, text)?),
    }
}
