//! Calls of any tree.

use crate::answer::{Fault, Name, Result, tell, tell_commitment};
use crate::call::TreeCall;
use crate::matrices::matrix;
use p3_field::BabyBear;
use p3_mmcs::{Mmcs, indices_are_below};
use p3_test_openings::listed::pair;
use std::fmt::Debug;

/// `commit`, to two matrices of two heights, or `open_multi_batch` of that.
pub fn make<M: Mmcs<BabyBear>>(
    rt: &HostRuntime,
    name: Name,
    call: &TreeCall,
    tree: &M,
) -> Result<()>
where
    M::Commitment: Debug,
    M::MultiProof: Debug,
{
    let alloc = rt.alloc();
    let first = matrix(alloc, 3, 2)?;
    let second = matrix(alloc, 1, 1)?;
    let matrices = pair(alloc, first, second)?;
    let answer = tree.commit(alloc, matrices);
    if let TreeCall::Commit = call {
        return tell_commitment(rt, name, answer);
    }
    let Ok((_, held)) = answer else {
        return Err(Fault::Memory);
    };
    let indices = [5, 0, 5];
    if !indices_are_below(&indices, tree.get_max_height(&held)) {
        return Err(Fault::Inputs);
    }
    let answer = tree.open_multi_batch(alloc, &indices, &held);
    tell(rt, name, &answer)
}
