//! Masked and padded matrices, against words of the generator that another program computed from
//! the generator's standard.

use crate::chunks::{Chunks, chunks};
use crate::matrices::{Entries, has_entries};
use p3_field::{BabyBear, Field};
use p3_fri_masks::{mask_each, pad_each};
use rand_chacha::ChaCha20Rng;
use rand_core::{Rng, SeedableRng};

/// Matrices of two rows beside the shifts of their domains of four points.
static GIVEN: [(u64, Entries); 2] = [(1, (3, &[1, 2, 3, 4, 5, 6])), (31, (1, &[7, 8]))];

/// What each is with 2 random codewords, by the words of one generator whose seed is `[7; 32]`.
static MASKED: [(u64, Entries); 2] = [
    (
        1,
        (
            5,
            &[
                1,
                2,
                3,
                1_138_302_489,
                846_161_079,
                161_093_439,
                1_887_929_623,
                23_960_983,
                593_142_355,
                1_242_110_180,
                4,
                5,
                6,
                332_980_518,
                1_885_625_063,
                1_552_270_409,
                1_884_056_210,
                523_968_909,
                38_284_848,
                1_276_576_820,
            ],
        ),
    ),
    (
        31,
        (
            3,
            &[
                7,
                945_401_865,
                395_482_101,
                1_165_362_422,
                404_644_822,
                534_622_989,
                8,
                1_740_270_534,
                1_130_775_825,
                138_707_690,
                1_637_526_387,
                985_619_093,
            ],
        ),
    ),
];

/// The word that the generator gives after these.
const NEXT_WORD: u64 = 7_908_424_972_651_386_999;

/// The same matrices, padded.
static PADDED: [(u64, Entries); 2] = [
    (1, (3, &[1, 2, 3, 0, 0, 0, 4, 5, 6, 0, 0, 0])),
    (31, (1, &[7, 0, 8, 0])),
];

/// Whether these matrices, in order, have these entries, each beside the domain of its shift.
fn have_entries(found: &Chunks, wanted: &[(u64, Entries)]) -> bool {
    let mut same = found.len() == wanted.len();
    for ((domain, matrix), (shift, entries)) in found.iter().zip(wanted) {
        same = same
            && domain.shift() == BabyBear::from_u64(*shift)
            && domain.log_size() == 2
            && has_entries(matrix, *entries);
    }
    same
}

#[test]
fn masks_are_the_next_words(rt: HostRuntime) {
    let alloc = rt.alloc();
    let mut rng = ChaCha20Rng::from_seed([7; 32]);
    // no row holds so many random values, and no word is taken
    let refused = mask_each(alloc, chunks(&rt, alloc, 2, &GIVEN), usize::MAX, &mut rng);
    let masked = mask_each(alloc, chunks(&rt, alloc, 2, &GIVEN), 2, &mut rng).expect(&rt, "memory");
    let found = (
        refused.is_err(),
        have_entries(&masked, &MASKED),
        rng.next_u64(),
    );
    assert!(rt; found == (true, true, NEXT_WORD));
}

#[test]
fn preprocessing_has_rows_of_zeros_between(rt: HostRuntime) {
    let padded = pad_each(rt.alloc(), chunks(&rt, rt.alloc(), 2, &GIVEN)).expect(&rt, "memory");
    assert!(rt; have_entries(&padded, &PADDED));
}
