//! Random rows and matrices against words that are drawn one by one.

use crate::chunks::coset;
use p3_field::{BabyBear, Field};
use p3_fri_masks::{random_matrices, random_matrix, random_rows};
use rand_chacha::ChaCha20Rng;
use rand_core::{Rng, SeedableRng};
use std::alloc::Global;
use std::process::Abort;

/// How many rows, of how many values, and the generator's seed.
static CASES: [(usize, usize, u8); 5] = [(0, 4, 0), (1, 0, 1), (1, 8, 0), (2, 16, 7), (3, 5, 255)];

/// The generator of this seed.
fn generator(seed: u8) -> ChaCha20Rng {
    ChaCha20Rng::from_seed([seed; 32])
}

/// The element of the next word.
fn next_element(words: &mut ChaCha20Rng) -> BabyBear {
    BabyBear::from_u64(words.next_u64() % 2_013_265_921)
}

/// Whether each value is the next word's element.
fn are_next_words(values: &[BabyBear], words: &mut ChaCha20Rng) -> bool {
    let mut same = true;
    for value in values {
        same = same && *value == next_element(words);
    }
    same
}

/// Whether the rows have their lengths and words, and the generator stands just past these.
fn draws(rt: &impl Abort, alloc: Global, count: usize, width: usize, seed: u8) -> bool {
    let mut rng = generator(seed);
    let mut words = generator(seed);
    let rows: Vec<Vec<BabyBear>> = random_rows(alloc, count, width, &mut rng).expect(rt, "memory");
    let mut same = rows.len() == count;
    for row in &rows {
        same = same && row.len() == width && are_next_words(row, &mut words);
    }
    same && rng.next_u64() == words.next_u64()
}

#[test]
fn draws_rows_one_after_another(rt: HostRuntime) {
    for (count, width, seed) in &CASES {
        let drawn = draws(&rt, rt.alloc(), *count, *width, *seed);
        assert!(rt; drawn, "{count} rows of {width}");
    }
}

/// The first word of the generator whose seed is all zeros, which is known from its standard.
#[test]
fn draws_the_known_first_word(rt: HostRuntime) {
    let mut rng = generator(0);
    let matrix = random_matrix(rt.alloc(), 1, 1, &mut rng).expect(&rt, "memory");
    assert!(rt; matrix.get(0, 0) == Some(BabyBear::from_u64(1_378_443_179)));
}

/// The logarithms of the sizes of some domains.
static LOG_SIZES: [usize; 4] = [1, 0, 3, 2];

/// Matrices of 3 columns on such domains are as high as these, and all of them is the next words'
/// elements, row by row.
#[test]
fn draws_matrices_as_high_as_their_domains(rt: HostRuntime) {
    let (mut rng, mut words) = (generator(7), generator(7));
    let mut domains = Vec::new(rt.alloc());
    for log_size in &LOG_SIZES {
        domains
            .push(coset(&rt, 31, *log_size))
            .expect(&rt, "memory");
    }
    let matrices = random_matrices(rt.alloc(), domains, 3, &mut rng).expect(&rt, "memory");
    let mut same = matrices.len() == LOG_SIZES.len();
    for ((domain, matrix), log_size) in matrices.iter().zip(&LOG_SIZES) {
        let values = matrix.row_block(0, matrix.height());
        same = same
            && domain.log_size() == *log_size
            && (matrix.width(), matrix.height()) == (3, domain.size())
            && are_next_words(values, &mut words);
    }
    assert!(rt; same && rng.next_u64() == words.next_u64());
}
