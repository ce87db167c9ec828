//! What the schemes of a blowup of 4 commit to.

ghost use Rattle.std.specs.Prelude.{[], ◌∷◌, All};
ghost use Rattle.p3_fri_two_adic.specs.Ldes.{HasLdeHeight};
ghost use Rattle.p3_fri_hiding.specs.Quotients.{CanExtend};

use crate::lists::{push, two};
use crate::matrices::{Entries, evaluation};
use crate::scheme::Evaluation;
use p3_field::{BabyBear, Field};
use p3_fri_masks::are_disjoint;
use p3_matrix::RowMajorMatrix;
use std::alloc::Global;
use std::process::Abort;

/// The matrices of these entries as words with a blowup of 4.
pub(crate) fn words(
    rt: &impl Abort,
    alloc: Global,
    each: &[Entries],
) -> Vec<RowMajorMatrix<BabyBear>>
    ensures { All (HasLdeHeight 27 2) result.items }
{
    let mut words = Vec::new(alloc);
    for entries in each {
        let (_domain, word) = evaluation(rt, alloc, entries, 1);
        push(rt, &mut words, word);
    }
    words
}

/// The two chunks of a quotient that these entries are, which can be masked with a blowup of 4.
pub(crate) fn chunks(
    rt: &impl Abort,
    alloc: Global,
    each: &[Entries; 2],
) -> (Evaluation, Evaluation)
    ensures { CanExtend ⟦<BabyBear as Field>⟧.ops (λ d. d.shift) (λ d. d.log_size) 27 2
        (result.0 ∷ result.1 ∷ []) 2 }
{
    let [of_first, of_second] = each;
    let first = evaluation(rt, alloc, of_first, 1);
    let second = evaluation(rt, alloc, of_second, 1);
    let domains = two(rt, alloc, first.0, second.0);
    if first.1.width() != second.1.width() || !are_disjoint(&domains) {
        rt.panic("no chunks of one quotient");
    }
    (first, second)
}
