//! The moves of a challenger, named once.

ghost use Rattle.p3_challenger_core.specs.Run.{Moves, moves};

use crate::field_challenger::FieldChallenger;
use crate::observe::CanObserve;
use p3_field_core::{ExtensionField, Field};

/// A challenger that absorbs values of `F` and commitments of `Com`, and draws elements of `EF` and
/// numbers. Each has it; a contract takes the moves from here, as
/// `⟦<C as Plays<F, EF, Com>>⟧.moves`, and a bound needn't name it.
pub trait Plays<F: Field, EF: ExtensionField<F>, Com: Copy>: FieldChallenger<F> + CanObserve<Com> {
    ghost moves: { Moves Self F EF Com };
}

impl<F: Field, EF: ExtensionField<F>, Com: Copy, C: FieldChallenger<F> + CanObserve<Com>> Plays<
    F,
    EF,
    Com,
> for C {
    ghost moves = { moves
        ⟦<C as CanObserve<F>>⟧.observed
        ⟦<C as CanObserve<Com>>⟧.observed
        C.sampled
        EF.of_coefficients
        EF.DIMENSION
        C.sampled_bits };
}
