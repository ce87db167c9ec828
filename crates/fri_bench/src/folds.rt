//! Times the fold of a word, by lanes and one row after the other.

ghost use Rattle.std.specs.Prelude.{◌<◌};

use crate::matrices::rows_of;
use crate::watch::{Fault, Result, Run, Watch, now};
use p3_field::{BabyBear, BabyBear4, Field, shifted_powers};
use p3_fri_folding::{FoldTable, FriFoldingStrategy, TwoAdicFriFolding};
use p3_mmcs::Sha256MmcsError;
use std::alloc::Global;
use std::marker::PhantomData;

type Folding = TwoAdicFriFolding<(), Sha256MmcsError>;

/// The word folded by `2^log_arity`, by lanes, or one row after the other without.
fn folded(
    alloc: Global,
    word: Vec<BabyBear4>,
    log_arity: usize,
    beta: BabyBear4,
    by_lanes: bool,
) -> Result<Vec<BabyBear4>> {
    let log_size = word.len().trailing_zeros() as usize;
    if log_arity == 0 || log_arity > log_size || log_size > 27 {
        return Err(Fault::Sizes);
    }
    let log_height = log_size - log_arity;
    let matrix = rows_of(word, 1 << log_arity, log_height)?;
    if by_lanes {
        let folding: Folding = TwoAdicFriFolding(PhantomData);
        return Ok(FriFoldingStrategy::<BabyBear, BabyBear4>::fold_matrix(
            &folding, alloc, beta, log_arity, &matrix,
        )?);
    }
    let table = FoldTable::<BabyBear, BabyBear4>::new(alloc, log_height, log_arity, beta)?;
    let mut folds = Vec::with_capacity(alloc, matrix.height())?;
    for i in 0..matrix.height() {
        if folds.push(table.fold_row(i, matrix.row(i))).is_err() {
            return Err(Fault::Memory);
        }
    }
    Ok(folds)
}

/// A new word of `2^log_size` elements folded so many times by `2^log_arity`, whose time the watch
/// sees.
fn fold_new(
    rt: &HostRuntime,
    watch: &mut Watch,
    log_size: usize,
    log_arity: usize,
    rounds: usize,
    by_lanes: bool,
) -> Result<Vec<BabyBear4>>
    requires { log_size < 28 }
{
    let base = BabyBear4::GENERATOR;
    let (mut word, mut beta) = (shifted_powers(rt.alloc(), base, base, 1 << log_size)?, base);
    let start = now(rt);
    for _ in 0..rounds {
        word = folded(rt.alloc(), word, log_arity, beta, by_lanes)?;
        beta = beta.square();
    }
    watch.see(rt, start);
    Ok(word)
}

/// Prints for each log arity the least times of one fold, by lanes and without, and of as many
/// folds by two.
pub fn print(rt: &HostRuntime, ([log_size], repeats): Run<1>) -> Result<()> {
    if log_size < 3 || log_size > 27 {
        return Err(Fault::Sizes);
    }
    for log_arity in 1..4 {
        let ([mut once, mut rows, mut twos], mut same) = ([Watch::UNSEEN; 3], true);
        // One before and one after the other ways, so that none alone finds fresh memory.
        for _ in 0..repeats {
            let at_once = fold_new(rt, &mut once, log_size, log_arity, 1, true)?;
            let by_rows = fold_new(rt, &mut rows, log_size, log_arity, 1, false)?;
            let by_two = fold_new(rt, &mut twos, log_size, 1, log_arity, true)?;
            fold_new(rt, &mut once, log_size, log_arity, 1, true)?;
            same = same && at_once == by_two && at_once == by_rows;
        }
        println!(rt;
            "by {log_arity}: at once {once}, without lanes {rows}, by two {twos}, same word: {same}"
        )?;
    }
    Ok(())
}
