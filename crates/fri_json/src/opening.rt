//! Answers to requests, in JSON.

use crate::Failure;
use crate::fault::JsonFault;
use crate::prime_field::FieldName;
use crate::records::{Answer, HidingAnswer, HidingStated};
use crate::request::Asked;
use fri_requests::{HidingScheme, Masking, Request, SchemeField, plain};
use p3_field::BabyBear;
use p3_fri_plain::{hiding_to_plain, to_plain};
use p3_goldilocks::Goldilocks;
use p3_koala_bear::KoalaBear;
use serde::Serialize;
use std::alloc::Global;

/// The record in JSON.
fn write<T: Serialize>(alloc: Global, record: &T) -> Result<String, Failure> {
    match serde_json::to_string(alloc, record) {
        Ok(line) => Ok(line),
        Err(error) => Err(JsonFault {
            field: String::new(alloc),
            found: String::new(alloc),
            error,
        }
        .failure()),
    }
}

/// The answer of the plain scheme over the field `F`, which has this name.
fn open_plain<F: SchemeField>(
    alloc: Global,
    field: FieldName,
    request: &Request,
) -> Result<String, Failure> {
    let opening = match plain::open::<F>(alloc, request) {
        Ok(opening) => opening,
        Err(error) => return Err(Failure::Request(error)),
    };
    let answer = Answer {
        field,
        context: request.context.to_ascii_lowercase(alloc)?,
        parameters: request.parameters,
        claims: opening.claims,
        proof: to_plain::<F, F::Extension>(alloc, &opening.proof)?,
        next_challenge: opening.next_challenge,
    };
    write(alloc, &answer)
}

/// The answer of the scheme that hides over the field `F`, which has this name.
fn open_hiding<F: SchemeField>(
    alloc: Global,
    field: FieldName,
    request: &Request,
    masking: Masking,
) -> Result<String, Failure> {
    let opening = match fri_requests::open::<F, HidingScheme<F>>(alloc, request, masking) {
        Ok(opening) => opening,
        Err(error) => return Err(Failure::HidingRequest(error)),
    };
    let answer = HidingAnswer {
        field,
        context: request.context.to_ascii_lowercase(alloc)?,
        parameters: request.parameters,
        hiding: HidingStated {
            num_random_codewords: masking.num_random_codewords,
            preprocessing: opening.preprocessing,
        },
        claims: opening.claims,
        proof: hiding_to_plain::<F, F::Extension>(alloc, &opening.proof)?,
        next_challenge: opening.next_challenge,
    };
    write(alloc, &answer)
}

/// The answer over the field `F`, which is the request's.
fn open_over<F: SchemeField>(alloc: Global, asked: &Asked) -> Result<String, Failure> {
    match asked.masking {
        Some(masking) => open_hiding::<F>(alloc, asked.field, &asked.request, masking),
        None => open_plain::<F>(alloc, asked.field, &asked.request),
    }
}

/// The answer to a request, in JSON.
pub(crate) fn open_request(alloc: Global, asked: &Asked) -> Result<String, Failure> {
    match asked.field {
        FieldName::BabyBear => open_over::<BabyBear>(alloc, asked),
        FieldName::KoalaBear => open_over::<KoalaBear>(alloc, asked),
        FieldName::Goldilocks => open_over::<Goldilocks>(alloc, asked),
    }
}
