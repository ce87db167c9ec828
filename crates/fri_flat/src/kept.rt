//! Calls of a prover that keeps what it committed to, over bytes.

ghost use Rattle.fri_flat.specs.Asked.{asked_matrix, IsAskedMatrix, asked_batch, IsAskedBatch};
ghost use Rattle.fri_flat.specs.Asked.{asked, IsAsked};
ghost use Rattle.fri_flat.specs.KeptAnswers.{BeginsProver, CommitsKept, AnswersAsked};
ghost use Rattle.std.specs.Prelude.{◌≡◌, IfOk, IfErr};

use crate::elements::element_matrices;
use crate::failure::Failure;
use crate::fault::{ReadError, WriteError};
use crate::field::layout_of;
use crate::flat::Flat;
use crate::forms::{answer_of, value_of};
use crate::layout::Layout;
use crate::reader::Reader;
use crate::statement::Statement;
use crate::writer::{push_context, push_counts, push_elements, push_number};
use fri_prover::Prover;
use fri_requests::{Batch, Domain, Matrix, Parameters};
use fri_schemes::{SchemeField, SchemeParts};
use p3_fri_plain::to_plain;
use std::alloc::Global;

/// The shift, the size, the width and the number of points, then the points: a matrix whose values
/// aren't there.
struct AskedMatrix;

impl Flat for AskedMatrix {
    type Value = Matrix;

    ghost form = { asked_matrix };

    ghost IsWhole = { IsAskedMatrix };

    fn read(alloc: Global, layout: Layout, reader: &mut Reader<'_>) -> Result<Matrix, ReadError> {
        let shift = reader.number(layout)?;
        let log_size = reader.word()? as usize;
        let width = reader.word()? as usize;
        let points = reader.word()? as usize;
        Ok(Matrix {
            domain: Domain { shift, log_size },
            width,
            values: Vec::new(alloc),
            points: reader.elements(alloc, layout, points)?,
        })
    }

    fn write(matrix: &Matrix, layout: Layout, out: &mut Vec<u8>) -> Result<(), WriteError> {
        let sizes = [matrix.domain.log_size, matrix.width, matrix.points.len()];
        push_number(out, layout, matrix.domain.shift)?;
        push_counts(out, &sizes)?;
        push_elements(out, layout, &matrix.points)
    }
}

/// What is opened of the matrices under a commitment.
struct AskedBatch;

impl Flat for AskedBatch {
    type Value = Batch;

    ghost form = { asked_batch };

    ghost IsWhole = { IsAskedBatch };

    fn read(alloc: Global, layout: Layout, reader: &mut Reader<'_>) -> Result<Batch, ReadError> {
        Ok(Batch {
            matrices: Vec::<AskedMatrix>::read(alloc, layout, reader)?,
            preprocessed: false,
        })
    }

    fn write(batch: &Batch, layout: Layout, out: &mut Vec<u8>) -> Result<(), WriteError> {
        Vec::<AskedMatrix>::write(&batch.matrices, layout, out)
    }
}

/// Under which context, and at which points, what is kept is to be opened.
#[derive(Drop)]
struct Asked {
    context: String,
    batches: Vec<Batch>,
}

impl Flat for Asked {
    type Value = Asked;

    ghost form = { asked };

    ghost IsWhole = { IsAsked };

    fn read(alloc: Global, layout: Layout, reader: &mut Reader<'_>) -> Result<Asked, ReadError> {
        Ok(Asked {
            context: reader.context(alloc)?,
            batches: Vec::<AskedBatch>::read(alloc, layout, reader)?,
        })
    }

    fn write(asked: &Asked, layout: Layout, out: &mut Vec<u8>) -> Result<(), WriteError> {
        push_context(out, &asked.context)?;
        Vec::<AskedBatch>::write(&asked.batches, layout, out)
    }
}

/// A prover of the parameters in these bytes, that has committed to nothing.
pub fn prover<F: SchemeField>(alloc: Global, bytes: &[u8]) -> Result<Prover<F>, Failure>
    ensures { IfOk result (λ prover. BeginsProver ⟦<F as SchemeParts>⟧.fields F.LEN (λ d. d.shift)
        (λ d. d.log_size) prover.parameters bytes.now prover.committed.items) }
{
    let parameters = value_of::<Parameters>(alloc, layout_of::<F>(), bytes)?;
    Ok(Prover::<F>::new(alloc, &parameters)?)
}

/// Commits to the batch in these bytes, keeps it, and answers the commitment. What is refused isn't
/// kept.
pub fn commit_kept<F: SchemeField>(
    alloc: Global,
    prover: &mut Prover<F>,
    bytes: &[u8],
) -> Result<[u8; 32], Failure>
    ensures answered { IfOk result (λ commitment. CommitsKept ⟦<F as SchemeParts>⟧.fields F.LEN
        (λ d. d.shift) (λ d. d.log_size) prover.old.parameters prover.old.committed.items
        prover.new.committed.items bytes.now commitment) }
    ensures unchanged { IfErr result (λ _.
        prover.new.committed.items ≡ prover.old.committed.items) }
    ensures parameters { prover.new.parameters ≡ prover.old.parameters }
{
    let layout = layout_of::<F>();
    match element_matrices::<F>(alloc, layout, bytes) {
        Ok(matrices) => Ok(prover.commit_elements(alloc, matrices)?),
        // what isn't read so is read by its numbers, which names the fault
        Err(_) => {
            let batch = value_of::<Batch>(alloc, layout, bytes)?;
            Ok(prover.commit(alloc, &batch)?)
        },
    }
}

/// Opens all that is kept under the context and at the points in these bytes: the next challenge,
/// and the statement that `verify` takes. What is kept stays as it was.
pub fn open_kept<F: SchemeField>(
    alloc: Global,
    prover: &mut Prover<F>,
    bytes: &[u8],
) -> Result<Vec<u8>, Failure>
    ensures answered { IfOk result (λ v. AnswersAsked ⟦<F as SchemeParts>⟧.fields F.LEN
        (λ d. d.shift) (λ d. d.log_size) prover.old.parameters prover.old.committed.items
        bytes.now v.items) }
    ensures kept { prover.new.committed.items ≡ prover.old.committed.items }
    ensures parameters { prover.new.parameters ≡ prover.old.parameters }
{
    let layout = layout_of::<F>();
    let asked = value_of::<Asked>(alloc, layout, bytes)?;
    let opening = prover.open(alloc, &asked.context, &asked.batches)?;
    let statement = Statement {
        context: asked.context,
        parameters: prover.parameters(),
        claims: opening.claims,
        proof: to_plain::<F, F::Extension>(alloc, &opening.proof)?,
    };
    let answer = answer_of(alloc, layout, &opening.next_challenge, &statement)?;
    Ok(answer)
}
