//! Times the stages of a commitment: the extension of a matrix and its bit reversal, the transform
//! of its columns, and the tree over its rows.

use crate::matrices::matrix_of;
use crate::schemes::Inputs;
use crate::watch::{Fault, Result, Run, Watch, now};
use p3_dft::{Radix2Dit, TwoAdicSubgroupDft};
use p3_field::{BabyBear, Field, PrimeField64};
use p3_matrix::RowMajorMatrix;
use p3_mmcs::Mmcs;

/// The first entry of a row, all that is kept of the matrix.
fn entry_of(matrix: RowMajorMatrix<BabyBear>, row: usize) -> u64 {
    match matrix.get(row, 0) {
        Some(entry) => entry.as_canonical_u64(),
        None => 0,
    }
}

/// Times each stage once, and returns entries of the first two and a byte of the root.
fn time_once(
    rt: &HostRuntime,
    watches: &mut [Watch; 4],
    sizes: [usize; 3],
) -> Result<(u64, u64, u8)> {
    let [log_height, width, added_bits] = sizes;
    if added_bits > 2 {
        return Err(Fault::Sizes);
    }
    let (alloc, dft) = (rt.alloc(), Radix2Dit::<BabyBear>::default());
    let matrix = matrix_of(alloc, log_height, width)?;
    let start = now(rt);
    let extended = dft.coset_lde_batch(alloc, matrix, added_bits, BabyBear::GENERATOR)?;
    watches[0].see(rt, start);
    let reversed = extended.bit_reverse_rows();
    watches[1].see(rt, start);
    let extension = entry_of(reversed, 1);
    let columns = matrix_of(alloc, log_height, width)?;
    let start = now(rt);
    let evaluations = dft.dft_batch(alloc, columns)?;
    watches[2].see(rt, start);
    let transform = entry_of(evaluations, 0);
    let leaves = matrix_of(alloc, log_height, width)?;
    let start = now(rt);
    let (root, _data) = Inputs::new().commit_matrix(alloc, leaves)?;
    watches[3].see(rt, start);
    Ok((extension, transform, root[0]))
}

/// Prints the least times of all of them.
pub fn print(rt: &HostRuntime, (sizes, repeats): Run<3>) -> Result<()> {
    let mut watches = [Watch::UNSEEN; 4];
    let mut last = (0, 0, 0);
    for _ in 0..repeats {
        last = time_once(rt, &mut watches, sizes)?;
    }
    let [extension, both, transform, tree] = watches;
    println!(rt;
        "extension {extension}, bit-reversed {both}, transform {transform}, tree {tree} {last:?}"
    )?;
    Ok(())
}
