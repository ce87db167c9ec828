//! The layers of a transform in Stockham's form: out of place, with rows in natural order.

ghost use Rattle.std.specs.Prelude.{◌≡◌, ◌<◌, ◌≤◌, ◌+◌, ◌-◌, ◌*◌, ◌/◌, ◌^◌, ℕ, List, length};
ghost use Rattle.algebra.specs.Field.{pow};
ghost use Rattle.algebra.specs.Polynomial.{tabulate};
ghost use Rattle.p3_dft.specs.Butterflies.{entry, block_entry, sum_at, difference_at};
ghost use Rattle.p3_dft.specs.Butterflies.{sum_of_sums, difference_of_sums};
ghost use Rattle.p3_dft.specs.Butterflies.{sum_of_differences, difference_of_differences};
ghost use Rattle.p3_dft.specs.Strided.{AfterLayers};

use crate::blocks::block;
use crate::butterflies::{Twiddles, butterflies, double_butterflies};
use p3_field_core::{ExtensionField, Field};

/// One layer: block `m` of the source, with the twiddle at `m * stride`, gives block `m` of the
/// target's first half, its sums, and block `m` of the second half, its differences.
fn layer<F: Field, EF: ExtensionField<F>>(
    source: &[EF],
    target: &mut [EF],
    twiddles: &[F],
    stride: usize,
    blocks: usize,
    half: usize,
)
    requires source { length source.now ≡ blocks * (half + half) }
    requires target { length target.old ≡ blocks * (half + half) }
    requires twiddles { (m : ℕ) → m < blocks → m * stride < length twiddles.now }
    ensures sums { (m j : ℕ) (d : EF) (e : F) → m < blocks → j < half
        → block_entry target.new half d m j
        ≡ sum_at EF.ops (block_entry source.now (half + half) d m)
        (EF.lift (entry twiddles.now e (m * stride))) half j }
    ensures differences { (m j : ℕ) (d : EF) (e : F) → m < blocks → j < half
        → block_entry target.new half d (blocks + m) j
        ≡ difference_at EF.ops (block_entry source.now (half + half) d m)
        (EF.lift (entry twiddles.now e (m * stride))) half j }
{
    let (sums, differences) = target.split_at_mut(blocks * half);
    for m in 0..blocks {
        let to = m * half;
        butterflies(
            block(source, half + half, m),
            twiddles[m * stride],
            &mut sums[to..to + half],
            &mut differences[to..to + half],
        );
    }
}

/// Where two layers find what is theirs: `blocks` blocks of four times `quarter` entries, and the
/// second layer's twiddles at multiples of `stride`.
struct Places {
    stride: usize,
    blocks: usize,
    quarter: usize,
}

/// Two layers in one pass over memory: block `m` of the source gives block `m` of each target. The
/// second layer has the twiddles at multiples of the stride, the first every other one of them.
fn two_layers_apart<F: Field, EF: ExtensionField<F>>(
    source: &[EF],
    twiddles: &[F],
    places: Places,
    first: &mut [EF],
    second: &mut [EF],
    third: &mut [EF],
    fourth: &mut [EF],
)
    requires few { places.blocks < 2 ^ 63 }
    requires source { length source.now
        ≡ places.blocks * (places.quarter + places.quarter + (places.quarter + places.quarter)) }
    requires twiddles { (m : ℕ) → m < places.blocks + places.blocks
        → m * places.stride < length twiddles.now }
    requires first { length first.old ≡ places.blocks * places.quarter }
    requires second { length second.old ≡ places.blocks * places.quarter }
    requires third { length third.old ≡ places.blocks * places.quarter }
    requires fourth { length fourth.old ≡ places.blocks * places.quarter }
    ensures first { (m j : ℕ) (d : EF) (e : F) → m < places.blocks → j < places.quarter
        → block_entry first.new places.quarter d m j
        ≡ sum_of_sums EF.ops
        (block_entry source.now
        (places.quarter + places.quarter + (places.quarter + places.quarter)) d m)
        (EF.lift (entry twiddles.now e ((m + m) * places.stride)))
        (EF.lift (entry twiddles.now e (m * places.stride))) places.quarter j }
    ensures second { (m j : ℕ) (d : EF) (e : F) → m < places.blocks → j < places.quarter
        → block_entry second.new places.quarter d m j
        ≡ sum_of_differences EF.ops
        (block_entry source.now
        (places.quarter + places.quarter + (places.quarter + places.quarter)) d m)
        (EF.lift (entry twiddles.now e ((m + m) * places.stride)))
        (EF.lift (entry twiddles.now e ((places.blocks + m) * places.stride))) places.quarter j }
    ensures third { (m j : ℕ) (d : EF) (e : F) → m < places.blocks → j < places.quarter
        → block_entry third.new places.quarter d m j
        ≡ difference_of_sums EF.ops
        (block_entry source.now
        (places.quarter + places.quarter + (places.quarter + places.quarter)) d m)
        (EF.lift (entry twiddles.now e ((m + m) * places.stride)))
        (EF.lift (entry twiddles.now e (m * places.stride))) places.quarter j }
    ensures fourth { (m j : ℕ) (d : EF) (e : F) → m < places.blocks → j < places.quarter
        → block_entry fourth.new places.quarter d m j
        ≡ difference_of_differences EF.ops
        (block_entry source.now
        (places.quarter + places.quarter + (places.quarter + places.quarter)) d m)
        (EF.lift (entry twiddles.now e ((m + m) * places.stride)))
        (EF.lift (entry twiddles.now e ((places.blocks + m) * places.stride))) places.quarter j }
{
    let Places {
        stride,
        blocks,
        quarter,
    } = places;
    for m in 0..blocks {
        let to = m * quarter;
        double_butterflies(
            block(source, quarter + quarter + (quarter + quarter), m),
            Twiddles {
                twiddle: twiddles[(m + m) * stride],
                even: twiddles[m * stride],
                odd: twiddles[(blocks + m) * stride],
            },
            &mut first[to..to + quarter],
            &mut second[to..to + quarter],
            &mut third[to..to + quarter],
            &mut fourth[to..to + quarter],
        );
    }
}

/// Two layers, the targets of which are the quarters of one.
fn two_layers<F: Field, EF: ExtensionField<F>>(
    source: &[EF],
    target: &mut [EF],
    twiddles: &[F],
    stride: usize,
    blocks: usize,
    quarter: usize,
)
    requires few { blocks < 2 ^ 63 }
    requires source { length source.now ≡ blocks * (quarter + quarter + (quarter + quarter)) }
    requires target { length target.old ≡ blocks * (quarter + quarter + (quarter + quarter)) }
    requires twiddles { (m : ℕ) → m < blocks + blocks → m * stride < length twiddles.now }
    ensures first { (m j : ℕ) (d : EF) (e : F) → m < blocks → j < quarter
        → block_entry target.new quarter d m j
        ≡ sum_of_sums EF.ops
        (block_entry source.now (quarter + quarter + (quarter + quarter)) d m)
        (EF.lift (entry twiddles.now e ((m + m) * stride)))
        (EF.lift (entry twiddles.now e (m * stride))) quarter j }
    ensures second { (m j : ℕ) (d : EF) (e : F) → m < blocks → j < quarter
        → block_entry target.new quarter d (blocks + m) j
        ≡ sum_of_differences EF.ops
        (block_entry source.now (quarter + quarter + (quarter + quarter)) d m)
        (EF.lift (entry twiddles.now e ((m + m) * stride)))
        (EF.lift (entry twiddles.now e ((blocks + m) * stride))) quarter j }
    ensures third { (m j : ℕ) (d : EF) (e : F) → m < blocks → j < quarter
        → block_entry target.new quarter d (blocks + blocks + m) j
        ≡ difference_of_sums EF.ops
        (block_entry source.now (quarter + quarter + (quarter + quarter)) d m)
        (EF.lift (entry twiddles.now e ((m + m) * stride)))
        (EF.lift (entry twiddles.now e (m * stride))) quarter j }
    ensures fourth { (m j : ℕ) (d : EF) (e : F) → m < blocks → j < quarter
        → block_entry target.new quarter d (blocks + blocks + (blocks + m)) j
        ≡ difference_of_differences EF.ops
        (block_entry source.now (quarter + quarter + (quarter + quarter)) d m)
        (EF.lift (entry twiddles.now e ((m + m) * stride)))
        (EF.lift (entry twiddles.now e ((blocks + m) * stride))) quarter j }
{
    let size = blocks * quarter;
    let (sums, differences) = target.split_at_mut(size + size);
    let (first, second) = sums.split_at_mut(size);
    let (third, fourth) = differences.split_at_mut(size);
    let places = Places {
        stride,
        blocks,
        quarter,
    };
    two_layers_apart(source, twiddles, places, first, second, third, fourth);
}

/// After `done` of `log_height` layers over rows of `width` entries: the next one where an odd
/// number of layers is left, and else the next two. Gives how many are done then.
pub(crate) fn next_layers<F: Field, EF: ExtensionField<F>>(
    source: &[EF],
    target: &mut [EF],
    twiddles: &[F],
    width: usize,
    log_height: usize,
    done: usize,
) -> usize
    requires log_height { log_height < 64 }
    requires left { done < log_height }
    requires source { length source.now ≡ 2 ^ log_height * width }
    requires target { length target.old ≡ 2 ^ log_height * width }
    requires twiddles { length twiddles.now ≡ 2 ^ log_height / 2 }
    ensures more { done < result }
    ensures within { result ≤ log_height }
    ensures values { (root : F) (xs : List EF)
        → twiddles.now ≡ tabulate (2 ^ log_height / 2) (λ i. pow F.ops root i)
        → pow F.ops root (2 ^ (log_height - 1)) ≡ F.ops.neg F.ops.one
        → AfterLayers EF.ops (EF.lift root) width log_height done xs source.now
        → AfterLayers EF.ops (EF.lift root) width log_height result xs target.new }
{
    let blocks: usize = 1 << done;
    let left = log_height - done;
    if left % 2 == 1 {
        let stride: usize = 1 << (left - 1);
        layer(source, target, twiddles, stride, blocks, stride * width);
        done + 1
    } else {
        let stride: usize = 1 << (left - 2);
        two_layers(source, target, twiddles, stride, blocks, stride * width);
        done + 2
    }
}
