//! The words of masked chunks, against another program's, which interpolates and evaluates by the
//! definitions.

use crate::chunks::coset;
use crate::matrices::{Entries, elements, has_entries, matrix};
use p3_dft::Radix2Dit;
use p3_fri_masks::masked_extension;
use std::alloc::Global;
use std::process::Abort;

/// A chunk on the coset of this shift of `2^log_size` points, its mask, and the words with this
/// blowup.
#[derive(Clone, Copy)]
struct Case {
    shift: u64,
    log_size: usize,
    chunk: Entries,
    mask: &'static [u64],
    log_blowup: usize,
    words: Entries,
}

static CASES: [Case; 3] = [
    Case {
        shift: 5,
        log_size: 1,
        chunk: (2, &[1, 2, 3, 4]),
        mask: &[5, 6, 7, 8],
        log_blowup: 1,
        words: (
            2,
            &[
                241_600_218,
                1_288_499_696,
                966_359_713,
                1_369_011_775,
                795_936_338,
                622_822_570,
                9_369_640,
                746_197_789,
                346_076_774,
                1_392_338_567,
                1_285_476_824,
                968_178_936,
                374_736_039,
                2_007_227_286,
                6_976_272,
                1_672_052_962,
            ],
        ),
    },
    // `2 + 3 * (X / 31 - 1)`
    Case {
        shift: 31,
        log_size: 0,
        chunk: (1, &[2]),
        mask: &[3],
        log_blowup: 2,
        words: (
            1,
            &[
                2,
                2_013_265_917,
                1_158_681_696,
                854_584_223,
                750_566_799,
                1_262_699_120,
                635_169_581,
                1_378_096_338,
            ],
        ),
    },
    Case {
        shift: 1_000_000_007,
        log_size: 2,
        chunk: (1, &[9, 8, 7, 6]),
        mask: &[0, 0, 0, 0],
        log_blowup: 0,
        words: (
            1,
            &[
                11_428_600,
                1_350_678_636,
                530_524_069,
                120_634_646,
                1_167_516_546,
                291_822_878,
                1_436_142_989,
                1_131_049_459,
            ],
        ),
    },
];

/// Whether these are the words.
fn has_words(rt: &impl Abort, alloc: Global, case: &Case) -> bool {
    let domain = coset(rt, case.shift, case.log_size);
    let chunk = matrix(rt, alloc, case.chunk);
    let mask = elements(rt, alloc, case.mask);
    assert!(rt; case.log_blowup <= 8 && domain.log_size() <= 8);
    assert!(rt; chunk.height() == domain.size());
    assert!(rt; chunk.height().checked_mul(chunk.width()) == Some(mask.len()));
    let dft = Radix2Dit::default();
    let words = masked_extension(&dft, alloc, case.log_blowup, domain, chunk, &mask);
    has_entries(&words.expect(rt, "memory"), case.words)
}

#[test]
fn words_are_values_of_masked_polynomials(rt: HostRuntime) {
    for case in &CASES {
        assert!(rt;
            has_words(&rt, rt.alloc(), case),
            "the shift {}",
            case.shift
        );
    }
}
