//! Butterflies: what layers of a transform make of a block of entries.

ghost use Rattle.std.specs.Prelude.{◌≡◌, ◌<◌, ◌+◌, ℕ, length};
ghost use Rattle.p3_dft.specs.Butterflies.{entry, sum_at, difference_at};
ghost use Rattle.p3_dft.specs.Butterflies.{sum_of_sums, difference_of_sums};
ghost use Rattle.p3_dft.specs.Butterflies.{sum_of_differences, difference_of_differences};

use p3_field_core::{ExtensionField, Field};

/// One layer: the sums and the differences of the two halves of a block, the second one times
/// `twiddle`.
pub(crate) fn butterflies<F: Field, EF: ExtensionField<F>>(
    block: &[EF],
    twiddle: F,
    sums: &mut [EF],
    differences: &mut [EF],
)
    requires block { length block.now ≡ length sums.old + length sums.old }
    requires differences { length differences.old ≡ length sums.old }
    ensures sums { (j : ℕ) (d : EF) → j < length sums.old → entry sums.new d j
        ≡ sum_at EF.ops (entry block.now d) (EF.lift twiddle) (length sums.old) j }
    ensures differences { (j : ℕ) (d : EF) → j < length sums.old → entry differences.new d j
        ≡ difference_at EF.ops (entry block.now d) (EF.lift twiddle) (length sums.old) j }
{
    let half = sums.len();
    let factor = twiddle.prepare();
    for j in 0..half {
        let product = block[j + half].scale_prepared(factor);
        sums[j] = block[j] + product;
        differences[j] = block[j] - product;
    }
}

/// The twiddles of a block in two layers: the first layer's, and those that the second one has for
/// the sums and for the differences of the first.
pub(crate) struct Twiddles<F> {
    pub(crate) twiddle: F,
    pub(crate) even: F,
    pub(crate) odd: F,
}

/// Two layers in one pass: the first with `twiddle`, and then on its sums with `even`, which gives
/// `first` and `third`, and on its differences with `odd`, which gives `second` and `fourth`.
pub(crate) fn double_butterflies<F: Field, EF: ExtensionField<F>>(
    block: &[EF],
    twiddles: Twiddles<F>,
    first: &mut [EF],
    second: &mut [EF],
    third: &mut [EF],
    fourth: &mut [EF],
)
    requires block { length block.now
        ≡ length first.old + length first.old + (length first.old + length first.old) }
    requires second { length second.old ≡ length first.old }
    requires third { length third.old ≡ length first.old }
    requires fourth { length fourth.old ≡ length first.old }
    ensures first { (j : ℕ) (d : EF) → j < length first.old → entry first.new d j
        ≡ sum_of_sums EF.ops (entry block.now d) (EF.lift twiddles.twiddle)
        (EF.lift twiddles.even) (length first.old) j }
    ensures second { (j : ℕ) (d : EF) → j < length first.old → entry second.new d j
        ≡ sum_of_differences EF.ops (entry block.now d) (EF.lift twiddles.twiddle)
        (EF.lift twiddles.odd) (length first.old) j }
    ensures third { (j : ℕ) (d : EF) → j < length first.old → entry third.new d j
        ≡ difference_of_sums EF.ops (entry block.now d) (EF.lift twiddles.twiddle)
        (EF.lift twiddles.even) (length first.old) j }
    ensures fourth { (j : ℕ) (d : EF) → j < length first.old → entry fourth.new d j
        ≡ difference_of_differences EF.ops (entry block.now d) (EF.lift twiddles.twiddle)
        (EF.lift twiddles.odd) (length first.old) j }
{
    let quarter = first.len();
    let half = quarter + quarter;
    let Twiddles { twiddle, even, odd } = twiddles;
    let (twiddle, even, odd) = (twiddle.prepare(), even.prepare(), odd.prepare());
    for j in 0..quarter {
        let product = block[j + half].scale_prepared(twiddle);
        let next_product = block[j + quarter + half].scale_prepared(twiddle);
        let sum = block[j] + product;
        let difference = block[j] - product;
        let even_product = (block[j + quarter] + next_product).scale_prepared(even);
        let odd_product = (block[j + quarter] - next_product).scale_prepared(odd);
        first[j] = sum + even_product;
        second[j] = difference + odd_product;
        third[j] = sum - even_product;
        fourth[j] = difference - odd_product;
    }
}
