//! Words that are folded and unfolded again.

ghost use Rattle.std.specs.Prelude.{◌≡◌, ◌≤◌, length, vec_len};

use crate::lists::first_length;
use p3_converse::laws::lifted_roots_law;
use p3_converse::{are_distinct, have_one_length, unfold, unfolds_within_range};
use p3_field::{
    BabyBear, BabyBear4, ExtensionField, Field, PackableExtension, PackableField, TwoAdicField,
    reverse_bits_len,
};
use p3_fri_core::{FriFoldingStrategy, TwoAdicFriFolding};
use std::alloc::Global;
use std::marker::PhantomData;
use std::process::Abort;

/// The point `index` of the domain of `2^log_size` points.
fn point<F: TwoAdicField, EF: ExtensionField<F>>(index: usize, log_size: usize) -> EF
    requires within_two_adicity { log_size ≤ F.TWO_ADICITY }
{
    let power = reverse_bits_len(index, log_size);
    EF::from_base(F::two_adic_generator(log_size).exp_u64(power as u64))
}

/// The value of the polynomial at `x`.
fn value<EF: Field>(coefficients: &[EF], x: EF) -> EF {
    let mut value = EF::ZERO;
    for coefficient in coefficients.iter().rev() {
        value = value * x + *coefficient;
    }
    value
}

/// The first four coefficients of the polynomial whose word of log height 3 are the eight values:
/// since the eighth power of each point `x` is one, coefficient `m` is an eighth of the sum of
/// the values times `x^(8 - m)`.
fn four_coefficients<F: TwoAdicField, EF: ExtensionField<F>>(
    rt: &impl Abort,
    alloc: Global,
    values: &[EF],
) -> Vec<EF>
    requires eight { length values.now ≡ 8 }
    requires within_two_adicity { 3 ≤ F.TWO_ADICITY }
{
    let mut coefficients = Vec::new(alloc);
    for m in 0..4 {
        let mut sum = EF::ZERO;
        for i in 0..8 {
            sum = sum + values[i] * point::<F, EF>(i, 3).exp_u64(8 - m);
        }
        coefficients
            .push(sum.halve().halve().halve())
            .expect(rt, "memory");
    }
    coefficients
}

/// The folds at `beta` of the word of log height 4 of the polynomial, to log height 3. Since there
/// is room for them, a row of two has its size in memory.
fn eight_folds<F: TwoAdicField + PackableField, EF: PackableExtension<F>>(
    rt: &impl Abort,
    alloc: Global,
    coefficients: &[EF],
    beta: EF,
) -> Vec<EF>
    requires within_two_adicity { 4 ≤ F.TWO_ADICITY }
    ensures { vec_len result ≡ 8 }
{
    let folding: TwoAdicFriFolding<(), ()> = TwoAdicFriFolding(PhantomData);
    let mut folds = Vec::with_capacity(alloc, 8).expect(rt, "memory");
    for i in 0..8usize {
        let row = [
            value(coefficients, point::<F, EF>(2 * i, 4)),
            value(coefficients, point::<F, EF>(2 * i + 1, 4)),
        ];
        let fold = FriFoldingStrategy::<F, EF>::fold_row(&folding, i, 3, 1, beta, &row);
        folds.push(fold).expect(rt, "memory");
    }
    folds
}

/// Whether the polynomial of eight coefficients comes back from the folds, at two betas, of its
/// word.
fn comes_back<F: TwoAdicField + PackableField, EF: PackableExtension<F>>(
    rt: &impl Abort,
    alloc: Global,
    coefficients: &[EF],
    betas: &[EF],
) -> bool
    requires within_two_adicity { 4 ≤ F.TWO_ADICITY }
{
    let mut polys = Vec::new(alloc);
    for beta in betas {
        let folds = eight_folds::<F, EF>(rt, alloc, coefficients, *beta);
        let poly = four_coefficients::<F, EF>(rt, alloc, &folds);
        polys.push(poly).expect(rt, "memory");
    }
    if betas.len() != 2
        || polys.len() != 2
        || !are_distinct(betas)
        || !have_one_length(&polys)
        || !unfolds_within_range(first_length(&polys), 1)
    {
        rt.panic("nothing to unfold");
    }
    let unfolded = unfold(alloc, 1, betas, &polys).expect(rt, "memory");
    unfolded.as_slice() == coefficients
}

#[test]
fn words_come_back_from_their_folds(rt: HostRuntime) {
    let coefficients = [3, 1, 4, 1, 5, 9, 2, 6].map(BabyBear::from_u64);
    let betas = [BabyBear::GENERATOR, BabyBear::from_u64(1234567890)];
    assert!(rt; comes_back::<BabyBear, BabyBear>(&rt, rt.alloc(), &coefficients, &betas));

    let mut coefficients = [1, 4, 1, 5, 9, 2, 6, 0].map(BabyBear4::from_u64);
    coefficients[7] = BabyBear4::GENERATOR;
    let betas = [BabyBear4::GENERATOR, BabyBear4::GENERATOR.square()];
    assert!(rt; comes_back::<BabyBear, BabyBear4>(&rt, rt.alloc(), &coefficients, &betas));
    lifted_roots_law::<BabyBear, BabyBear4>();
}
