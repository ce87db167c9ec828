//! Chunks of quotients, whether their cosets are disjoint, and their random columns.

ghost use Rattle.std.specs.Prelude.{◌≡◌, IsTrue, map};
ghost use Rattle.p3_fri_masks.specs.QuotientMasks.{AreDisjoint};

use crate::matrices::{Entries, have_entries, matrix};
use p3_field::{BabyBear, Field, TwoAdicField, TwoAdicMultiplicativeCoset};
use p3_fri_masks::are_disjoint;
use p3_fri_masks::quotient_draws::chunks_with_random_cols;
use p3_matrix::RowMajorMatrix;
use rand_chacha::ChaCha20Rng;
use rand_core::{Rng, SeedableRng};
use std::alloc::Global;
use std::process::Abort;

/// Chunks beside their domains.
pub(crate) type Chunks = Vec<
    (
        TwoAdicMultiplicativeCoset<BabyBear>,
        RowMajorMatrix<BabyBear>,
    ),
>;

/// The coset of this shift and of `2^log_size` points.
pub(crate) fn coset(
    rt: &impl Abort,
    shift: u64,
    log_size: usize,
) -> TwoAdicMultiplicativeCoset<BabyBear> {
    TwoAdicMultiplicativeCoset::new(BabyBear::from_u64(shift), log_size).expect(
        rt,
        "no such domain",
    )
}

/// Chunks, each on the coset of its shift of `2^log_size` points.
pub(crate) fn chunks(
    rt: &impl Abort,
    alloc: Global,
    log_size: usize,
    each: &[(u64, Entries)],
) -> Chunks {
    let mut all = Vec::new(alloc);
    for (shift, entries) in each {
        let domain = coset(rt, *shift, log_size);
        all.push((domain, matrix(rt, alloc, *entries)))
            .expect(rt, "memory");
    }
    all
}

/// Whether the chunks' cosets have one size and are disjoint.
pub(crate) fn are_apart<F: TwoAdicField>(
    rt: &impl Abort,
    alloc: Global,
    chunks: &[(TwoAdicMultiplicativeCoset<F>, RowMajorMatrix<F>)],
) -> bool
    ensures { IsTrue result → AreDisjoint F.ops (map (λ e. e.0.log_size) chunks.now)
        (map (λ e. e.0.shift) chunks.now) }
{
    let mut domains = Vec::new(alloc);
    for chunk in chunks {
        domains.push(chunk.0).expect(rt, "memory");
    }
    are_disjoint(&domains)
}

/// Chunks of two rows beside the shifts of their cosets.
static GIVEN: [(u64, Entries); 3] = [(3, (1, &[1, 2])), (5, (1, &[3, 4])), (7, (1, &[5, 6]))];

/// What each is with 2 random columns by the words of one generator whose seed is `[9; 32]`.
static WIDER: [Entries; 3] = [
    (
        3,
        &[1, 127_051_834, 747_866_774, 2, 1_316_534_259, 1_277_982_000],
    ),
    (
        3,
        &[
            3,
            1_067_978_113,
            1_128_847_239,
            4,
            1_391_540_510,
            1_164_139_008,
        ],
    ),
    (
        3,
        &[5, 1_593_306_639, 499_248_801, 6, 973_327_965, 944_022_664],
    ),
];

/// The word that the generator gives after these.
const NEXT_WORD: u64 = 13_282_377_015_058_816_477;

#[test]
fn random_columns_are_the_next_words(rt: HostRuntime) {
    let chunks = chunks(&rt, rt.alloc(), 1, &GIVEN);
    let mut rng = ChaCha20Rng::from_seed([9; 32]);
    let wider = chunks_with_random_cols(rt.alloc(), &chunks, 2, &mut rng).expect(&rt, "memory");
    assert!(rt; have_entries(&wider, &WIDER) && rng.next_u64() == NEXT_WORD);
}
