//! Proofs in the flat form, as their plain forms: numbers, and digests by their bytes.

ghost use Rattle.fri_flat.specs.Flat.{batch_opening, IsBatchOpening};
ghost use Rattle.fri_flat.specs.Flat.{round_opening, IsRoundOpening, proof, IsProof};

use crate::fault::{ReadError, WriteError};
use crate::flat::Flat;
use crate::layout::Layout;
use crate::numbers::{Element, Number};
use crate::reader::Reader;
use p3_fri_plain::{PlainBatch, PlainFriProof, PlainStep};
use std::alloc::Global;

/// A digest's bytes.
type Digest = [u8; 32];

/// For each query the digests of a path.
type Paths = Vec<Vec<Digest>>;

/// The rows, then the paths.
impl Flat for PlainBatch {
    type Value = PlainBatch;

    ghost form = { batch_opening };

    ghost IsWhole = { IsBatchOpening };

    fn read(
        alloc: Global,
        layout: Layout,
        reader: &mut Reader<'_>,
    ) -> Result<PlainBatch, ReadError> {
        Ok(PlainBatch {
            opened_values: Vec::<Vec<Vec<Number>>>::read(alloc, layout, reader)?,
            paths: Paths::read(alloc, layout, reader)?,
        })
    }

    fn write(batch: &PlainBatch, layout: Layout, out: &mut Vec<u8>) -> Result<(), WriteError> {
        Vec::<Vec<Vec<Number>>>::write(&batch.opened_values, layout, out)?;
        Paths::write(&batch.paths, layout, out)
    }
}

/// The siblings, then the paths.
impl Flat for PlainStep {
    type Value = PlainStep;

    ghost form = { round_opening };

    ghost IsWhole = { IsRoundOpening };

    fn read(
        alloc: Global,
        layout: Layout,
        reader: &mut Reader<'_>,
    ) -> Result<PlainStep, ReadError> {
        Ok(PlainStep {
            sibling_values: Vec::<Vec<Element>>::read(alloc, layout, reader)?,
            paths: Paths::read(alloc, layout, reader)?,
        })
    }

    fn write(step: &PlainStep, layout: Layout, out: &mut Vec<u8>) -> Result<(), WriteError> {
        Vec::<Vec<Element>>::write(&step.sibling_values, layout, out)?;
        Paths::write(&step.paths, layout, out)
    }
}

/// Field by field.
impl Flat for PlainFriProof {
    type Value = PlainFriProof;

    ghost form = { proof };

    ghost IsWhole = { IsProof };

    fn read(
        alloc: Global,
        layout: Layout,
        reader: &mut Reader<'_>,
    ) -> Result<PlainFriProof, ReadError> {
        Ok(PlainFriProof {
            batch_pow_witness: Number::read(alloc, layout, reader)?,
            commit_phase_commits: Vec::<Digest>::read(alloc, layout, reader)?,
            commit_pow_witnesses: Vec::<Number>::read(alloc, layout, reader)?,
            input_openings: Vec::<PlainBatch>::read(alloc, layout, reader)?,
            commit_phase_openings: Vec::<PlainStep>::read(alloc, layout, reader)?,
            final_poly: Vec::<Element>::read(alloc, layout, reader)?,
            query_pow_witness: Number::read(alloc, layout, reader)?,
        })
    }

    fn write(proof: &PlainFriProof, layout: Layout, out: &mut Vec<u8>) -> Result<(), WriteError> {
        Number::write(&proof.batch_pow_witness, layout, out)?;
        Vec::<Digest>::write(&proof.commit_phase_commits, layout, out)?;
        Vec::<Number>::write(&proof.commit_pow_witnesses, layout, out)?;
        Vec::<PlainBatch>::write(&proof.input_openings, layout, out)?;
        Vec::<PlainStep>::write(&proof.commit_phase_openings, layout, out)?;
        Vec::<Element>::write(&proof.final_poly, layout, out)?;
        Number::write(&proof.query_pow_witness, layout, out)
    }
}
