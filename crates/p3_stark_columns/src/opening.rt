//! What is asked of committed batches that are opened at once.

ghost use Rattle.std.specs.Prelude.{◌≡◌, ◌++◌, [], ◌∷◌, map, replicate, IsOk, IfOk};
ghost use Rattle.std.specs.Prelude.{option_to_list};
ghost use Rattle.algebra.specs.Nested.{lists};
ghost use Rattle.p3_pcs.specs.Requests.{request};
ghost use Rattle.p3_stark_columns.specs.Asked.{asked, asked_of, all_asked, all_known};

use crate::commit::{Batch, Batches};
use p3_pcs::{KnownCommitment, OpeningRequest, Verified};
use std::alloc::{AllocError, Global};

/// The columns of a STARK, opened, and the proof verified.
#[derive(Drop)]
pub struct StarkOpening<EF, Com, Domain, Proof, C> {
    /// What is known of the commitments to preprocessed columns, trace and quotient, in this order.
    pub known: Vec<KnownCommitment<Com, Domain>>,
    pub verified: Verified<EF, Proof, C>,
}

/// Data of which so many matrices are each opened at these points.
#[derive(Drop)]
pub(crate) struct Asked<EF, D> {
    pub prover_data: D,
    pub matrices: usize,
    pub points: Vec<EF>,
}

/// What is known of batches, and what is asked of them.
#[derive(Drop)]
pub(crate) struct AskedBatches<EF, Com, Domain, D> {
    pub known: Vec<KnownCommitment<Com, Domain>>,
    pub asked: Vec<Asked<EF, D>>,
}

impl<EF: Copy, Com: Drop, Domain: Drop, D: Drop> AskedBatches<EF, Com, Domain, D> {
    /// Adds a batch, of which each matrix is opened at these points.
    fn push(
        &mut self,
        alloc: Global,
        batch: Batch<Com, Domain, D>,
        points: &[EF],
    ) -> Result<(), AllocError>
        ensures known { IsOk result
            → self.new.known.items ≡ self.old.known.items ++ batch.known ∷ [] }
        ensures asked { IsOk result → map asked self.new.asked.items
            ≡ map asked self.old.asked.items ++ asked_of points.now batch ∷ [] }
    {
        let Batch { known, prover_data } = batch;
        let asked = Asked {
            prover_data,
            matrices: known.domains.len(),
            points: Vec::from_slice(alloc, points)?,
        };
        self.known.push(known)?;
        self.asked.push(asked)?;
        Ok(())
    }

    /// Adds a batch so, if there is one.
    fn push_some(
        &mut self,
        alloc: Global,
        batch: Option<Batch<Com, Domain, D>>,
        points: &[EF],
    ) -> Result<(), AllocError>
        ensures known { IsOk result → self.new.known.items
            ≡ self.old.known.items ++ map (λ b. b.known) (option_to_list batch) }
        ensures asked { IsOk result → map asked self.new.asked.items
            ≡ map asked self.old.asked.items ++ map (asked_of points.now) (option_to_list batch) }
    {
        match batch {
            Some(batch) => self.push(alloc, batch, points),
            None => Ok(()),
        }
    }
}

/// All batches: of the first two each matrix is opened at both points, of the others at one.
pub(crate) fn asked_batches<EF: Copy, Com: Drop, Domain: Drop, D: Drop>(
    alloc: Global,
    batches: Batches<Com, Domain, D>,
    both: &[EF],
    one: &[EF],
) -> Result<AskedBatches<EF, Com, Domain, D>, AllocError>
    ensures known { IfOk result (λ all. all.known.items ≡ all_known batches) }
    ensures asked { IfOk result (λ all.
        map asked all.asked.items ≡ all_asked both.now one.now batches) }
{
    let Batches {
        preprocessed,
        trace,
        quotient,
        random,
    } = batches;
    let mut all = AskedBatches {
        known: Vec::new(alloc),
        asked: Vec::new(alloc),
    };
    all.push(alloc, preprocessed, both)?;
    all.push(alloc, trace, both)?;
    all.push(alloc, quotient, one)?;
    all.push_some(alloc, random, one)?;
    Ok(all)
}

/// For each of so many matrices a list of these points.
fn points_for<EF: Copy>(
    alloc: Global,
    count: usize,
    points: &[EF],
) -> Result<Vec<Vec<EF>>, AllocError>
    ensures { IfOk result (λ all. lists all.items ≡ replicate count points.now) }
{
    let mut all = Vec::with_capacity(alloc, count)?;
    for _index in 0..count {
        all.push(Vec::from_slice(alloc, points)?)?;
    }
    Ok(all)
}

/// A request for each of these data.
pub(crate) fn requests_of<'a, EF: Copy, D>(
    alloc: Global,
    all: &'a mut [Asked<EF, D>],
) -> Result<Vec<OpeningRequest<'a, D, EF>>, AllocError>
    ensures { IfOk result (λ requests. map request requests.items ≡ map asked all.old) }
{
    let mut requests = Vec::with_capacity(alloc, all.len())?;
    for batch in all.iter_mut() {
        let points = points_for(alloc, batch.matrices, batch.points.as_slice())?;
        requests.push(OpeningRequest {
            prover_data: &mut batch.prover_data,
            points,
        })?;
    }
    Ok(requests)
}
