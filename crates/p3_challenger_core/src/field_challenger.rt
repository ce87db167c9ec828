//! Elements of a field and of its extensions.

ghost use Rattle.std.specs.Prelude.{◌≡◌};
ghost use Rattle.std.specs.List.{flat_map};
ghost use Rattle.p3_challenger_core.specs.Run.{drawn_element, observed_all};

use crate::observe::CanObserve;
use crate::sample::{CanSample, CanSampleBits};
use p3_field_core::{ExtensionField, Field};

/// A challenger that absorbs and draws elements of the field `F`, and so those of its extensions,
/// which are their coefficients, that of one first.
pub trait FieldChallenger<F: Field>: CanObserve<F> + CanSample<F> + CanSampleBits {
    /// Absorbs an element of an extension: its coefficients, each as by `observe`.
    fn observe_algebra_element<EF: ExtensionField<F>>(&mut self, element: EF)
        ensures { self.new ≡ observed_all Self.observed self.old (EF.coefficients element) }
    {
        for index in 0..EF::DIMENSION {
            self.observe(element.coefficient(index));
        }
    }

    /// Absorbs elements of an extension in order.
    fn observe_algebra_slice<EF: ExtensionField<F>>(&mut self, elements: &[EF])
        ensures { self.new ≡ observed_all Self.observed self.old
            (flat_map EF.coefficients elements.now) }
    {
        for element in elements {
            self.observe_algebra_element(*element);
        }
    }

    /// Draws an element of an extension: as many draws as its dimension, each a coefficient.
    fn sample_algebra_element<EF: ExtensionField<F>>(&mut self) -> EF
        ensures value { result ≡ (drawn_element Self.sampled EF.of_coefficients EF.DIMENSION
            self.old).value }
        ensures state { self.new ≡ (drawn_element Self.sampled EF.of_coefficients EF.DIMENSION
            self.old).state }
    {
        let mut element = EF::ZERO;
        for index in 0..EF::DIMENSION {
            element = element.with_coefficient(index, self.sample());
        }
        element
    }
}
