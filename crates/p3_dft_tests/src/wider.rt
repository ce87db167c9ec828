//! Random columns and columns of zeros, against words that are drawn one by one.

use crate::column::column_of;
use p3_field::{BabyBear, Field};
use p3_matrix::RowMajorMatrix;
use rand_chacha::ChaCha20Rng;
use rand_core::{Rng, SeedableRng};
use std::alloc::Global;
use std::process::Abort;

/// What is added to a matrix of two rows of three: how many columns, and the generator's seed.
static CASES: [(usize, u8); 5] = [(0, 0), (1, 0), (2, 7), (3, 1), (9, 255)];

/// Whether the columns of `wider` on the left are the matrix's, and nothing is lost or added.
fn keeps_columns(
    matrix: &RowMajorMatrix<BabyBear>,
    wider: &RowMajorMatrix<BabyBear>,
    count: usize,
) -> bool {
    let mut kept = wider.height() == matrix.height();
    for row in 0..matrix.height() {
        for column in 0..matrix.width() {
            kept = kept && wider.get(row, column) == matrix.get(row, column);
        }
    }
    kept && matrix.width().checked_add(count) == Some(wider.width())
}

/// Whether each entry from column `from` on is the next word's element, row by row.
fn has_next_words(wider: &RowMajorMatrix<BabyBear>, from: usize, words: &mut ChaCha20Rng) -> bool {
    let mut same = true;
    for row in 0..wider.height() {
        for column in from..wider.width() {
            let element = BabyBear::from_u64(words.next_u64() % 2_013_265_921);
            same = same && wider.get(row, column) == Some(element);
        }
    }
    same
}

/// Whether each entry from column `from` on is zero.
fn has_zeros(wider: &RowMajorMatrix<BabyBear>, from: usize) -> bool {
    let mut same = true;
    for row in 0..wider.height() {
        for column in from..wider.width() {
            same = same && wider.get(row, column) == Some(BabyBear::ZERO);
        }
    }
    same
}

/// Whether both calls widen the matrix, and the generator stands just past its words.
fn widens(
    rt: &impl Abort,
    alloc: Global,
    matrix: &RowMajorMatrix<BabyBear>,
    count: usize,
    seed: u8,
) -> bool {
    let mut rng = ChaCha20Rng::from_seed([seed; 32]);
    let mut words = ChaCha20Rng::from_seed([seed; 32]);
    let random = matrix
        .with_random_cols(alloc, count, &mut rng)
        .expect(rt, "memory");
    let padded = matrix.with_zero_cols(alloc, count).expect(rt, "memory");
    keeps_columns(matrix, &random, count)
        && keeps_columns(matrix, &padded, count)
        && has_next_words(&random, matrix.width(), &mut words)
        && has_zeros(&padded, matrix.width())
        && rng.next_u64() == words.next_u64()
}

#[test]
fn adds_columns_on_the_right(rt: HostRuntime) {
    // the last is -1
    let values = column_of(&rt, rt.alloc(), &[1, 2, 0, 31, 2, 2_013_265_920]);
    assert!(rt; values.len() == 6);
    let matrix = RowMajorMatrix::new(values, 3);
    for (count, seed) in &CASES {
        assert!(rt;
            widens(&rt, rt.alloc(), &matrix, *count, *seed),
            "{count} columns"
        );
    }
}

/// The first word of the generator whose seed is all zeros, which is known from its standard.
#[test]
fn draws_the_known_first_word(rt: HostRuntime) {
    let matrix = RowMajorMatrix::new(column_of(&rt, rt.alloc(), &[1]), 1);
    let mut rng = ChaCha20Rng::from_seed([0; 32]);
    let wider = matrix
        .with_random_cols(rt.alloc(), 1, &mut rng)
        .expect(&rt, "memory");
    assert!(rt; wider.into_values() == column_of(&rt, rt.alloc(), &[1, 1_378_443_179]));
}
