//! Words of field elements, folded round by round in place.

ghost use Rattle.std.specs.Prelude.{◌≡◌, ◌+◌, ◌-◌, ◌^◌, ◌<◌, ◌≤◌, length, take, vec_len, map, IfOk};
ghost use Rattle.algebra.specs.Field.{multiple};
ghost use Rattle.p3_field.specs.BabyBear.{baby_bear, root};
ghost use Rattle.p3_fri_core.specs.Folds.{folded_word, folded_rounds};
ghost use Rattle.fri_commands.specs.Commands.{binary_rounds, folded_numbers};
ghost use Rattle.fri_commands.specs.Steps.{canonical_number};

use p3_field::{BabyBear, Field, PrimeField64};
use p3_fri_core::{FriFoldingStrategy, TwoAdicFriFolding};
use std::alloc::{AllocError, Global};
use std::marker::PhantomData;

/// The elements of these numbers.
pub fn elements(alloc: Global, numbers: &[usize]) -> Result<Vec<BabyBear>, AllocError>
    ensures { IfOk result (λ v. v.items ≡ map (multiple baby_bear) numbers.now) }
{
    numbers
        .iter()
        .map(|number| BabyBear::from_u64(*number as u64))
        .collect(alloc)
}

/// The canonical numbers of these elements.
fn canonical_numbers(alloc: Global, elements: &[BabyBear]) -> Result<Vec<usize>, AllocError>
    ensures { IfOk result (λ v. v.items ≡ map canonical_number elements.now) }
{
    elements
        .iter()
        .map(|element| element.as_canonical_u64() as usize)
        .collect(alloc)
}

/// Folds the word, of log height `log_height + 1`, by two at the challenge `beta`, in place.
fn fold_once(word: &mut Vec<BabyBear>, log_height: usize, beta: BabyBear)
    requires height { log_height < 27 }
    requires size { vec_len word.old ≡ 2 ^ (log_height + 1) }
    ensures { word.new.items ≡ folded_word baby_bear root log_height 1 beta word.old.items }
{
    let folding: TwoAdicFriFolding<(), ()> = TwoAdicFriFolding(PhantomData);
    let height = 1 << log_height;
    for i in 0..height {
        let row = &word[2 * i..2 * i + 2];
        word[i] = FriFoldingStrategy::<BabyBear, BabyBear>::fold_row(
            &folding, i, log_height, 1, beta, row,
        );
    }
    word.truncate(height);
}

/// Folds the word, of log height `log_height`, by two at each challenge in turn.
fn fold_rounds(word: &mut Vec<BabyBear>, log_height: usize, betas: &[BabyBear])
    requires height { log_height ≤ 27 }
    requires size { vec_len word.old ≡ 2 ^ log_height }
    requires rounds { length betas.now ≤ log_height }
    ensures { word.new.items ≡ folded_rounds baby_bear root log_height
        (binary_rounds betas.now) betas.now word.old.items }
{
    let mut log_height = log_height;
    for beta in betas {
        log_height -= 1;
        fold_once(word, log_height, *beta);
    }
}

/// The canonical numbers of a word's elements, after a round for each of the challenges.
pub fn folded_numbers(
    alloc: Global,
    log_height: usize,
    betas: &[usize],
    word: &[usize],
) -> Result<Vec<usize>, AllocError>
    requires height { log_height ≤ 27 }
    requires size { length word.now ≡ 2 ^ log_height }
    requires rounds { length betas.now ≤ log_height }
    ensures { IfOk result (λ v. v.items
        ≡ folded_numbers log_height (binary_rounds betas.now) betas.now word.now) }
{
    let betas = elements(alloc, betas)?;
    let mut word = elements(alloc, word)?;
    fold_rounds(&mut word, log_height, &betas);
    canonical_numbers(alloc, &word)
}
