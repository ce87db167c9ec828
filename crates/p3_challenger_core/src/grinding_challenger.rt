//! Proofs of work.

ghost use Rattle.std.specs.Prelude.{◌≡◌, ◌↔◌, ◌≤◌, ℕ, Option, IfSome, IfNone};
ghost use Rattle.p3_challenger_core.specs.Run.{grind_attempt, Passes};

use crate::observe::CanObserve;
use crate::sample::CanSampleBits;

/// A challenger that searches and checks witnesses of proofs of work. A witness passes at a number
/// of bits where as many bits that are drawn after it was absorbed are all zero; at no bits every
/// witness passes, and nothing is absorbed or drawn.
pub trait GrindingChallenger: CanObserve<Self::Witness> + CanSampleBits {
    /// What a search goes over.
    type Witness: Copy;

    ghost solution: { Self → ℕ → Option Self.Witness };

    /// Searches a witness that passes, and leaves the state that its check leaves. `None`, with the
    /// state unchanged, where none passes.
    fn grind(&mut self, bits: usize) -> Option<Self::Witness>
        requires at_most_max { bits ≤ Self.MAX_SAMPLE_BITS }
        ensures value { result ≡ solution self.old bits }
        ensures passes { IfSome result (λ w.
            Passes Self.observed Self.sampled_bits self.old bits w) }
        ensures state { IfSome result (λ w.
            self.new ≡ (grind_attempt Self.observed Self.sampled_bits self.old bits w).state) }
        ensures none_passes { IfNone result
            ((w : Self.Witness) → ¬ Passes Self.observed Self.sampled_bits self.old bits w) }
        ensures unchanged { IfNone result (self.new ≡ self.old) };

    /// Whether the witness passes.
    fn check_witness(&mut self, bits: usize, witness: Self::Witness) -> bool
        requires at_most_max { bits ≤ Self.MAX_SAMPLE_BITS }
        ensures value { result ≡ (grind_attempt Self.observed Self.sampled_bits self.old bits
            witness).value }
        ensures state { self.new ≡ (grind_attempt Self.observed Self.sampled_bits self.old bits
            witness).state }
    {
        if bits == 0 {
            return true;
        }
        self.observe(witness);
        self.sample_bits(bits) == 0
    }
}
