//! A trace is committed to in both schemes, through the bound of a STARK's prover alone.

ghost use Rattle.std.specs.Prelude.{◌≡◌, ◌+◌, length};
ghost use Rattle.p3_matrix.specs.Matrix.{rows};
ghost use Rattle.p3_uni_stark_verifier.specs.Chunks.{hiding_bits};

use crate::outcomes::Outcome;
use crate::proving::one;
use crate::schemes::{Domain, Tested};
use p3_field::{BabyBear, Field};
use p3_matrix::RowMajorMatrix;
use p3_uni_stark_verifier::opened::subgroup;
use std::alloc::Global;
use std::process::Abort;

/// Thirty-two rows of one column.
fn trace(rt: &impl Abort, alloc: Global) -> RowMajorMatrix<BabyBear>
    ensures height { length (rows result) ≡ 32 }
{
    let mut values = Vec::new(alloc);
    for number in 0..32 {
        values.push(BabyBear::from_u64(number)).expect(rt, "memory");
    }
    let matrix = RowMajorMatrix::new(values, 1);
    assert!(rt; matrix.height() == 32, "not so many rows");
    matrix
}

/// The subgroup on which a scheme commits to that trace.
fn trace_domain(hides: bool) -> Domain
    ensures size { result.log_size ≡ 5 + hiding_bits hides }
{
    let log_size = if hides { 6 } else { 5 };
    subgroup::<BabyBear>(log_size)
}

/// What comes of committing to that trace.
pub(crate) fn outcome_of_commitment<P: Tested>(rt: &impl Abort, alloc: Global) -> Outcome {
    let matrix = trace(rt, alloc);
    let evaluations = one(rt, alloc, (trace_domain(P::ZK), matrix));
    let mut scheme = P::made();
    match scheme.commit(alloc, evaluations) {
        Ok(_) => Outcome::Committed,
        Err(_) => Outcome::NotCommitted,
    }
}
