//! Absorbing values.

ghost use Rattle.std.specs.Prelude.{◌≡◌};
ghost use Rattle.p3_challenger_core.specs.Run.{observed_all};

/// A challenger that absorbs values of the type `T`.
pub trait CanObserve<T: Copy> {
    ghost observed: { Self → T → Self };

    /// Absorbs a value.
    fn observe(&mut self, value: T)
        ensures { self.new ≡ observed self.old value };

    /// Absorbs values in order, each as by `observe`.
    fn observe_slice(&mut self, values: &[T])
        ensures { self.new ≡ observed_all observed self.old values.now }
    {
        for value in values {
            self.observe(*value);
        }
    }
}
