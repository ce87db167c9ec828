//! Statements in the flat form.

ghost use Rattle.fri_flat.specs.Flat.{statement, IsStatement};

use crate::fault::{ReadError, WriteError};
use crate::flat::Flat;
use crate::layout::Layout;
use crate::reader::Reader;
use crate::writer::push_context;
use fri_requests::{BatchClaims, Parameters};
use p3_fri_plain::PlainFriProof;
use std::alloc::Global;

/// What is verified: under a context, a hex text, with these parameters, what is claimed, and the
/// plain form of its proof.
#[derive(Drop)]
pub(crate) struct Statement {
    pub context: String,
    pub parameters: Parameters,
    pub claims: Vec<BatchClaims>,
    pub proof: PlainFriProof,
}

impl Flat for Statement {
    type Value = Statement;

    ghost form = { statement };

    ghost IsWhole = { IsStatement };

    fn read(
        alloc: Global,
        layout: Layout,
        reader: &mut Reader<'_>,
    ) -> Result<Statement, ReadError> {
        Ok(Statement {
            context: reader.context(alloc)?,
            parameters: Parameters::read(alloc, layout, reader)?,
            claims: Vec::<BatchClaims>::read(alloc, layout, reader)?,
            proof: PlainFriProof::read(alloc, layout, reader)?,
        })
    }

    fn write(statement: &Statement, layout: Layout, out: &mut Vec<u8>) -> Result<(), WriteError> {
        push_context(out, &statement.context)?;
        Parameters::write(&statement.parameters, layout, out)?;
        Vec::<BatchClaims>::write(&statement.claims, layout, out)?;
        PlainFriProof::write(&statement.proof, layout, out)
    }
}
