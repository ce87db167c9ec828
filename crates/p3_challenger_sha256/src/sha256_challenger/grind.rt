//! The search for witnesses.

ghost use Rattle.std.specs.Prelude.{◌≡◌, ◌<◌, ◌≤◌, ℕ, IfSome, IfNone};
ghost use Rattle.p3_challenger_core.specs.Run.{grind_attempt, Passes};
ghost use Rattle.p3_challenger_sha256.specs.Sha256.{element_observed, bits_sampled, least_witness};

use super::Sha256Challenger;
use crate::sha256_field::Sha256Field;
use p3_challenger_core::grinding_challenger::GrindingChallenger;
use p3_field::PrimeField64;

/// Witnesses are elements of the field, tried in the order of their canonical numbers.
impl<F: Sha256Field> GrindingChallenger for Sha256Challenger<F> {
    type Witness = F;

    ghost solution = { least_witness F.ORDER_U64 F.canonical F.ops };

    /// The passing witness of the least canonical number, so zero at no bits, where nothing
    /// changes.
    fn grind(&mut self, bits: usize) -> Option<F>
        requires at_most_max { bits ≤ 63 }
        ensures value { result ≡ least_witness F.ORDER_U64 F.canonical F.ops self.old bits }
        ensures passes { IfSome result (λ w. Passes (element_observed F.ORDER_U64 F.canonical)
            bits_sampled self.old bits w) }
        ensures least { IfSome result (λ w. (v : F) → F.canonical v < F.canonical w
            → ¬ Passes (element_observed F.ORDER_U64 F.canonical) bits_sampled self.old bits v) }
        ensures state { IfSome result (λ w. self.new ≡ (grind_attempt
            (element_observed F.ORDER_U64 F.canonical) bits_sampled self.old bits w).state) }
        ensures none_passes { IfNone result ((w : F) → ¬ Passes
            (element_observed F.ORDER_U64 F.canonical) bits_sampled self.old bits w) }
        ensures unchanged { IfNone result (self.new ≡ self.old) }
        ensures zero_at_no_bits { bits ≡ 0 → result ≡ Some F.ops.zero }
        ensures same_at_no_bits { bits ≡ 0 → self.new ≡ self.old }
    {
        let before = self.state;
        for number in 0..F::ORDER_U64 {
            let witness = F::from_canonical(number);
            if self.check_witness(bits, witness) {
                return Some(witness);
            }
            self.state = before;
        }
        None
    }
}
