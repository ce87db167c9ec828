//! What a scheme commits to in turn, and what is read of it.

use crate::commitments::commit_to;
use crate::kind::Kind;
use crate::masks::readings::{Masked, Masks, is_masked};
use crate::matrices::coset;
use crate::openable::is_readable;
use crate::scheme::{Data, Setting, generator};
use crate::tested::Tested;
use p3_fri_masks::HidingFriProverError;
use rand_chacha::ChaCha20Rng;
use std::alloc::Global;
use std::process::Abort;

/// What is committed to.
pub(crate) struct Turn {
    pub kind: Kind,
    /// Whether a new fork of the scheme commits to it, and not the scheme.
    pub is_by_fork: bool,
    /// Why that is refused, if it is.
    pub refusal: Option<HidingFriProverError>,
    /// What is read of matrices, from the first on.
    pub wanted: &'static [Masked],
    pub masks: Masks,
}

/// Whether the data is new, of that call, and of a scheme of so many random codewords.
fn is_new(held: &Data, kind: &Kind, num_random_codewords: usize) -> bool {
    !held.is_opened()
        & (held.is_preprocessing() == matches!(kind, Kind::Preprocessed(_)))
        & (held.num_random_codewords() == num_random_codewords)
        & (held.log_blowup() == 2)
}

/// Whether a scheme of that setting commits to the input, to new data of which what is wanted is
/// read, with the next words as masks; or refuses it so.
fn is_met<P: Tested>(
    rt: &impl Abort,
    scheme: &mut P,
    alloc: Global,
    setting: Setting,
    turn: &Turn,
    words: &mut ChaCha20Rng,
) -> bool
    requires { P.IsOf setting scheme.old }
    ensures { P.IsOf setting scheme.new }
{
    match commit_to(rt, &mut *scheme, alloc, setting, &turn.kind) {
        Ok(pair) => {
            let (_commitment, held) = pair;
            let mut are_masked = true;
            for index in 0..turn.wanted.len() {
                let masked = &turn.wanted[index];
                let domain = coset(rt, masked.domain.0, masked.domain.1);
                if !is_readable(&held, setting.num_random_codewords, index) {
                    rt.panic("no such matrix");
                }
                let shown = scheme
                    .get_evaluations_on_domain(alloc, &held, index, domain)
                    .expect(rt, "no columns");
                let whole = scheme
                    .get_evaluations_on_domain_no_random(alloc, &held, index, domain)
                    .expect(rt, "no columns with those that hide them");
                are_masked &= is_masked(&shown, &whole, masked, &turn.masks, words);
            }
            turn.refusal.is_none()
                & is_new(&held, &turn.kind, setting.num_random_codewords)
                & are_masked
        }
        Err(refusal) => turn.refusal == Some(refusal),
    }
}

/// Whether that holds of each turn of a new scheme or of its next fork, by the words of the
/// scheme's generator.
pub(crate) fn are_met_in_turn<P: Tested>(
    rt: &impl Abort,
    alloc: Global,
    setting: Setting,
    turns: &[Turn],
) -> bool {
    let mut words = generator();
    let mut scheme = P::of(setting);
    let mut are_met = true;
    for turn in turns {
        are_met &= if turn.is_by_fork {
            let mut fork = scheme.forked().expect(rt, "memory");
            is_met(rt, &mut fork, alloc, setting, turn, &mut words)
        } else {
            is_met(rt, &mut scheme, alloc, setting, turn, &mut words)
        };
    }
    are_met
}
