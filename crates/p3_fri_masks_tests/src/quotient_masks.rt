//! The factors of masks, and the masks of a quotient's chunks, against another program's.

use crate::chunks::{are_apart, chunks};
use crate::matrices::{Entries, are_lists, are_numbers};
use p3_fri_masks::factors::mask_factors;
use p3_fri_masks::quotient_masks;
use rand_chacha::ChaCha20Rng;
use rand_core::{Rng, SeedableRng};
use std::alloc::Global;
use std::process::Abort;

/// A chunk of which only the coset counts.
const ZERO: Entries = (1, &[0]);

/// The base-2 logarithm of the size of disjoint cosets, chunks beside their shifts, and for each
/// but the last its factor.
#[derive(Clone, Copy)]
struct Factors {
    name: &'static str,
    log_size: usize,
    chunks: &'static [(u64, Entries)],
    factors: &'static [u64],
}

static FACTORS: [Factors; 5] = [
    Factors {
        name: "one coset",
        log_size: 3,
        chunks: &[(31, ZERO)],
        factors: &[],
    },
    // of 32 points
    Factors {
        name: "two halves of a coset",
        log_size: 4,
        chunks: &[(31, ZERO), (1_414_256_219, ZERO)],
        factors: &[1],
    },
    // at 1, 2, 3 and 4 the products over the others are -1/4, 1/6, -1/4 and 1
    Factors {
        name: "four points",
        log_size: 0,
        chunks: &[(1, ZERO), (2, ZERO), (3, ZERO), (4, ZERO)],
        factors: &[2_013_265_917, 6, 2_013_265_917],
    },
    Factors {
        name: "three cosets",
        log_size: 1,
        chunks: &[(3, ZERO), (5, ZERO), (7, ZERO)],
        factors: &[1_677_721_609, 1_811_939_324],
    },
    // of 8 points
    Factors {
        name: "four quarters of a coset",
        log_size: 1,
        chunks: &[
            (31, ZERO),
            (1_044_970_530, ZERO),
            (1_235_625_957, ZERO),
            (523_621_251, ZERO),
        ],
        factors: &[1, 1, 1],
    },
];

/// Whether these are the factors.
fn has_factors(rt: &impl Abort, alloc: Global, case: &Factors) -> bool {
    let chunks = chunks(rt, alloc, case.log_size, case.chunks);
    assert!(rt; !chunks.is_empty() && are_apart(rt, alloc, &chunks));
    let factors = mask_factors(alloc, &chunks).expect(rt, "memory");
    are_numbers(&factors, case.factors)
}

#[test]
fn factors_are_quotients_of_weights(rt: HostRuntime) {
    for case in &FACTORS {
        assert!(rt; has_factors(&rt, rt.alloc(), case), "{}", case.name);
    }
}

/// Chunks beside the shifts of disjoint cosets of two points, how many coefficients a mask has, the
/// masks by the words of a generator whose seed is `[9; 32]`, and its next word.
#[derive(Clone, Copy)]
struct Masks {
    name: &'static str,
    chunks: &'static [(u64, Entries)],
    size: usize,
    masks: &'static [&'static [u64]],
    next_word: u64,
}

static MASKS: [Masks; 3] = [
    Masks {
        name: "one coset",
        chunks: &[(31, ZERO)],
        size: 2,
        masks: &[&[0, 0]],
        next_word: 10_566_790_388_464_068_594,
    },
    Masks {
        name: "two halves of a coset",
        chunks: &[(31, ZERO), (1_235_625_957, ZERO)],
        size: 2,
        masks: &[&[127_051_834, 747_866_774], &[1_886_214_087, 1_265_399_147]],
        next_word: 15_082_324_987_131_953_635,
    },
    Masks {
        name: "three cosets",
        chunks: &[(3, ZERO), (5, ZERO), (7, ZERO)],
        size: 4,
        masks: &[
            &[127_051_834, 747_866_774, 1_316_534_259, 1_277_982_000],
            &[1_067_978_113, 1_128_847_239, 1_391_540_510, 1_164_139_008],
            &[101_862_070, 1_906_800_786, 1_100_016_853, 904_572_718],
        ],
        next_word: 4_923_800_621_691_045_022,
    },
];

/// Whether these are the masks, and the generator stands just past them.
fn has_masks(rt: &impl Abort, alloc: Global, case: &Masks) -> bool {
    let chunks = chunks(rt, alloc, 1, case.chunks);
    assert!(rt; !chunks.is_empty() && are_apart(rt, alloc, &chunks));
    let mut rng = ChaCha20Rng::from_seed([9; 32]);
    let masks = quotient_masks(alloc, &chunks, case.size, &mut rng).expect(rt, "memory");
    are_lists(&masks, case.masks) && rng.next_u64() == case.next_word
}

#[test]
fn the_last_mask_makes_up_for_the_others(rt: HostRuntime) {
    for case in &MASKS {
        assert!(rt; has_masks(&rt, rt.alloc(), case), "{}", case.name);
    }
}
