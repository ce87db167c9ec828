//! The words of whole quotients, against another program's, which interpolates and evaluates by the
//! definitions.

ghost use Rattle.p3_fri_masks.specs.QuotientLdes.{CanBeMasked};

use crate::chunks::{are_apart, chunks};
use crate::matrices::{Entries, have_entries};
use p3_dft::Radix2Dit;
use p3_field::{SampleField, TwoAdicField, TwoAdicMultiplicativeCoset};
use p3_fri_masks::quotient_ldes;
use p3_matrix::RowMajorMatrix;
use rand_chacha::ChaCha20Rng;
use rand_core::{Rng, SeedableRng};
use std::alloc::Global;
use std::process::Abort;

/// Asserts that the chunks can be masked: there is one, their cosets are disjoint, each is as high
/// as its coset and as wide as the first, and cosets that are `2^(1 + log_blowup)` times as large
/// lie within the two-adicity.
fn assert_can_be_masked<F: TwoAdicField>(
    rt: &impl Abort,
    alloc: Global,
    chunks: &[(TwoAdicMultiplicativeCoset<F>, RowMajorMatrix<F>)],
    log_blowup: usize,
)
    ensures { CanBeMasked F.ops (λ d. d.shift) (λ d. d.log_size) F.TWO_ADICITY log_blowup
        chunks.now }
{
    if chunks.is_empty() || !are_apart(rt, alloc, chunks) {
        panic!(rt; "the chunks can't be masked");
    }
    for chunk in chunks {
        if chunk.1.height() != chunk.0.size()
            || chunk.1.width() != chunks[0].1.width()
            || F::TWO_ADICITY <= log_blowup
            || F::TWO_ADICITY - log_blowup <= chunk.0.log_size()
        {
            panic!(rt; "the chunks can't be masked");
        }
    }
}

/// Chunks beside the shifts of their domains of `2^log_size` points, their words with so many
/// random codewords and this blowup by a generator whose seed is `[9; 32]`, and its next word.
#[derive(Clone, Copy)]
struct Case {
    log_size: usize,
    chunks: &'static [(u64, Entries)],
    num_random_codewords: usize,
    log_blowup: usize,
    words: &'static [Entries],
    next_word: u64,
}

static CASES: [Case; 3] = [
    Case {
        log_size: 0,
        chunks: &[(31, (2, &[10, 20])), (2, (2, &[30, 40]))],
        num_random_codewords: 0,
        log_blowup: 0,
        words: &[
            (2, &[10, 20, 1_759_162_263, 517_532_393]),
            (2, &[1_093_015_901, 115_120_787, 838_912_233, 632_653_160]),
        ],
        next_word: 15_082_324_987_131_953_635,
    },
    Case {
        log_size: 1,
        chunks: &[(3, (1, &[1, 2])), (5, (1, &[3, 4])), (7, (1, &[5, 6]))],
        num_random_codewords: 2,
        log_blowup: 0,
        words: &[
            (
                3,
                &[
                    1_204_496_916,
                    707_701_754,
                    1_465_262_358,
                    1_976_227_691,
                    752_546_354,
                    216_664_408,
                    1_648_507_888,
                    1_940_267_334,
                    5_981_705,
                    1_065_834_518,
                    1_850_660_298,
                    1_321_363_341,
                ],
            ),
            (
                3,
                &[
                    1_674_132_773,
                    173_821_517,
                    1_342_843_580,
                    391_404_672,
                    13_582_383,
                    588_025_802,
                    2_000_079_573,
                    268_860_403,
                    1_789_705_461,
                    1_287_394_286,
                    62_901_971,
                    192_143_609,
                ],
            ),
            (
                3,
                &[
                    578_147_517,
                    586_464_491,
                    350_923_557,
                    9_772_181,
                    1_368_644_287,
                    484_105_207,
                    344_985_127,
                    1_250_154_216,
                    903_223_739,
                    977_450_026,
                    1_596_363_303,
                    591_126_825,
                ],
            ),
        ],
        next_word: 1_862_077_608_387_325_939,
    },
    Case {
        log_size: 1,
        chunks: &[(31, (2, &[7, 8, 9, 10]))],
        num_random_codewords: 1,
        log_blowup: 1,
        words: &[(
            3,
            &[
                7,
                8,
                127_051_834,
                9,
                10,
                747_866_774,
                284_861_416,
                284_861_417,
                1_054_097_471,
                1_728_404_521,
                1_728_404_522,
                1_834_087_058,
                420_899_715,
                420_899_716,
                825_064_792,
                1_592_366_222,
                1_592_366_223,
                49_853_816,
                1_801_542_735,
                1_801_542_736,
                272_543_350,
                211_723_202,
                211_723_203,
                602_375_258,
            ],
        )],
        next_word: 15_082_324_987_131_953_635,
    },
];

/// The words of these chunks, which can be masked.
fn words_of<F: TwoAdicField + SampleField>(
    rt: &impl Abort,
    alloc: Global,
    chunks: Vec<(TwoAdicMultiplicativeCoset<F>, RowMajorMatrix<F>)>,
    num_random_codewords: usize,
    log_blowup: usize,
    rng: &mut ChaCha20Rng,
) -> Vec<RowMajorMatrix<F>> {
    assert_can_be_masked(rt, alloc, &chunks, log_blowup);
    let dft = Radix2Dit::default();
    quotient_ldes(&dft, alloc, log_blowup, chunks, num_random_codewords, rng).expect(rt, "memory")
}

/// Whether these are the words, and the generator stands just past those that were drawn.
fn has_words(rt: &impl Abort, alloc: Global, case: &Case) -> bool {
    let chunks = chunks(rt, alloc, case.log_size, case.chunks);
    let mut rng = ChaCha20Rng::from_seed([9; 32]);
    let words = words_of(
        rt,
        alloc,
        chunks,
        case.num_random_codewords,
        case.log_blowup,
        &mut rng,
    );
    have_entries(&words, case.words) && rng.next_u64() == case.next_word
}

#[test]
fn words_of_chunks_with_random_columns_and_masks(rt: HostRuntime) {
    for case in &CASES {
        let count = case.num_random_codewords;
        assert!(rt;
            has_words(&rt, rt.alloc(), case),
            "{count} random codewords"
        );
    }
}
