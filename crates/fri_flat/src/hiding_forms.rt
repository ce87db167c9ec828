//! The records of the scheme that hides, in the flat form.

ghost use Rattle.fri_flat.specs.Hiding.{hiding_request, IsHidingRequest};
ghost use Rattle.fri_flat.specs.Hiding.{hiding_statement, IsHidingStatement};
ghost use Rattle.fri_flat.specs.Hiding.{hiding_proof, IsHidingProof};

use crate::fault::{ReadError, WriteError};
use crate::flat::Flat;
use crate::layout::Layout;
use crate::numbers::Element;
use crate::reader::Reader;
use crate::writer::{push_context, push_count, push_index};
use fri_requests::{BatchClaims, Masking, Parameters, Request};
use p3_fri_plain::{PlainFriProof, PlainHidingProof};
use std::alloc::Global;

/// A request, none of whose commitments is preprocessed, by what it is hidden, and which of them
/// is to be opened without masks.
#[derive(Drop)]
pub(crate) struct HidingRequest {
    pub masking: Masking,
    /// The place of the preprocessed commitment, if there is one.
    pub preprocessed: Option<usize>,
    pub request: Request,
}

/// By what it is hidden, and then the plain request.
impl Flat for HidingRequest {
    type Value = HidingRequest;

    ghost form = { hiding_request };

    ghost IsWhole = { IsHidingRequest };

    fn read(
        alloc: Global,
        layout: Layout,
        reader: &mut Reader<'_>,
    ) -> Result<HidingRequest, ReadError> {
        let num_random_codewords = reader.word()? as usize;
        let seed = reader.seed()?;
        Ok(HidingRequest {
            masking: Masking {
                num_random_codewords,
                seed,
            },
            preprocessed: reader.index()?,
            request: Request::read(alloc, layout, reader)?,
        })
    }

    fn write(hidden: &HidingRequest, layout: Layout, out: &mut Vec<u8>) -> Result<(), WriteError> {
        push_count(out, hidden.masking.num_random_codewords)?;
        out.extend_from_slice(&hidden.masking.seed)?;
        push_index(out, hidden.preprocessed)?;
        Request::write(&hidden.request, layout, out)
    }
}

/// The values of the random columns, by commitment, matrix and point, then the proof inside.
impl Flat for PlainHidingProof {
    type Value = PlainHidingProof;

    ghost form = { hiding_proof };

    ghost IsWhole = { IsHidingProof };

    fn read(
        alloc: Global,
        layout: Layout,
        reader: &mut Reader<'_>,
    ) -> Result<PlainHidingProof, ReadError> {
        Ok(PlainHidingProof {
            random_values: Vec::<Vec<Vec<Vec<Element>>>>::read(alloc, layout, reader)?,
            proof: PlainFriProof::read(alloc, layout, reader)?,
        })
    }

    fn write(
        proof: &PlainHidingProof,
        layout: Layout,
        out: &mut Vec<u8>,
    ) -> Result<(), WriteError> {
        Vec::<Vec<Vec<Vec<Element>>>>::write(&proof.random_values, layout, out)?;
        PlainFriProof::write(&proof.proof, layout, out)
    }
}

/// What is verified in the scheme that hides: of so many random columns and this preprocessed
/// commitment, under a context, a hex text, with these parameters, what is claimed, and the plain
/// form of its proof.
#[derive(Drop)]
pub(crate) struct HidingStatement {
    pub num_random_codewords: usize,
    /// The place of the preprocessed commitment, if there is one.
    pub preprocessed: Option<usize>,
    pub context: String,
    pub parameters: Parameters,
    pub claims: Vec<BatchClaims>,
    pub proof: PlainHidingProof,
}

impl Flat for HidingStatement {
    type Value = HidingStatement;

    ghost form = { hiding_statement };

    ghost IsWhole = { IsHidingStatement };

    fn read(
        alloc: Global,
        layout: Layout,
        reader: &mut Reader<'_>,
    ) -> Result<HidingStatement, ReadError> {
        Ok(HidingStatement {
            num_random_codewords: reader.word()? as usize,
            preprocessed: reader.index()?,
            context: reader.context(alloc)?,
            parameters: Parameters::read(alloc, layout, reader)?,
            claims: Vec::<BatchClaims>::read(alloc, layout, reader)?,
            proof: PlainHidingProof::read(alloc, layout, reader)?,
        })
    }

    fn write(
        statement: &HidingStatement,
        layout: Layout,
        out: &mut Vec<u8>,
    ) -> Result<(), WriteError> {
        push_count(out, statement.num_random_codewords)?;
        push_index(out, statement.preprocessed)?;
        push_context(out, &statement.context)?;
        Parameters::write(&statement.parameters, layout, out)?;
        Vec::<BatchClaims>::write(&statement.claims, layout, out)?;
        PlainHidingProof::write(&statement.proof, layout, out)
    }
}
