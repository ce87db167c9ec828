//! Requests in JSON.

use crate::Failure;
use crate::fault::read;
use crate::prime_field::FieldName;
use crate::records::{HidingAsked, Request as Record};
use fri_requests::{
    Fault, HidingScheme, Masking, Place, Request, RequestError, SchemeField, plain,
};
use hex::FromHex;
use p3_field::BabyBear;
use p3_goldilocks::Goldilocks;
use p3_koala_bear::KoalaBear;
use std::alloc::Global;

/// A request, the field that it is over, and by what it is to be hidden, if it is.
#[derive(Drop)]
pub(crate) struct Asked {
    pub field: FieldName,
    pub request: Request,
    pub masking: Option<Masking>,
}

/// By what a request is to be hidden.
fn masking_of(hiding: Option<HidingAsked>) -> Result<Option<Masking>, Failure> {
    let Some(asked) = hiding else {
        return Ok(None);
    };
    match <[u8; 32] as FromHex>::from_hex(asked.seed.as_str()) {
        Ok(seed) => Ok(Some(Masking {
            num_random_codewords: asked.num_random_codewords,
            seed,
        })),
        Err(_) => Err(Failure::Request(RequestError::Malformed(Place::NONE.lacks(Fault::Seed)))),
    }
}

/// The request in this JSON text.
pub(crate) fn request_of(alloc: Global, text: &str) -> Result<Asked, Failure> {
    let Record {
        field,
        context,
        parameters,
        hiding,
        commitments,
    } = read(alloc, text)?;
    Ok(Asked {
        field,
        request: Request {
            context,
            parameters,
            commitments,
        },
        masking: masking_of(hiding)?,
    })
}

/// The commitments of a request over the field `F`.
fn commitments_over<F: SchemeField>(
    alloc: Global,
    asked: &Asked,
) -> Result<Vec<[u8; 32]>, Failure> {
    let request = &asked.request;
    match asked.masking {
        Some(masking) => {
            match fri_requests::commit::<F, HidingScheme<F>>(alloc, request, masking) {
                Ok(commitments) => Ok(commitments),
                Err(error) => Err(Failure::HidingRequest(error)),
            }
        },
        None => match plain::commit::<F>(alloc, request) {
            Ok(commitments) => Ok(commitments),
            Err(error) => Err(Failure::Request(error)),
        },
    }
}

/// The commitments of a request.
fn commitments_of(alloc: Global, asked: &Asked) -> Result<Vec<[u8; 32]>, Failure> {
    match asked.field {
        FieldName::BabyBear => commitments_over::<BabyBear>(alloc, asked),
        FieldName::KoalaBear => commitments_over::<KoalaBear>(alloc, asked),
        FieldName::Goldilocks => commitments_over::<Goldilocks>(alloc, asked),
    }
}

/// The commitments of a request, each in hex.
pub(crate) fn commit_request(alloc: Global, asked: &Asked) -> Result<Vec<String>, Failure> {
    let commitments = commitments_of(alloc, asked)?;
    let mut texts = Vec::with_capacity(alloc, commitments.len())?;
    for commitment in &commitments {
        texts.push(hex::encode(alloc, commitment.as_slice())?)?;
    }
    Ok(texts)
}
