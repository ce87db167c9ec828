//! Drawing values.

ghost use Rattle.std.specs.Prelude.{◌≡◌, ◌<◌, ◌≤◌, ◌^◌, ℕ};
ghost use Rattle.p3_challenger_core.specs.Run.{After};

/// A challenger that draws values of the type `F`.
pub trait CanSample<F> {
    ghost sampled: { Self → After Self F };

    /// Draws a value.
    fn sample(&mut self) -> F
        ensures value { result ≡ (sampled self.old).value }
        ensures state { self.new ≡ (sampled self.old).state };
}

/// A challenger that draws numbers of a given width in bits.
pub trait CanSampleBits {
    ghost MAX_SAMPLE_BITS: { ℕ };

    /// The greatest width of one draw, below 64.
    const MAX_SAMPLE_BITS: usize;

    ghost sampled_bits: { Self → ℕ → After Self ℕ };

    /// Draws a number below `2^bits`. A draw of no bits moves the state too.
    fn sample_bits(&mut self, bits: usize) -> usize
        requires at_most_max { bits ≤ MAX_SAMPLE_BITS }
        ensures value { result ≡ (sampled_bits self.old bits).value }
        ensures state { self.new ≡ (sampled_bits self.old bits).state };

    ghost max_law: { MAX_SAMPLE_BITS < 64 };

    ghost width_law: { (c : Self) (bits : ℕ) → bits ≤ MAX_SAMPLE_BITS
        → (sampled_bits c bits).value < 2 ^ bits };
}
