//! A law of the challenger, as a call that does nothing and whose contract is a theorem.

ghost use Rattle.std.specs.Prelude.{◌≡◌, ◌↔◌, IsTrue};
ghost use Rattle.p3_challenger_sha256.specs.declared.sha256_challenger.Sha256Challenger.{};

use crate::sha256_challenger::Sha256Challenger;

/// Challengers are equal by `==` exactly where they are the same, and so answer alike from then on.
pub fn sha256_challenger_law()
    ensures equal { (a b : _) →
        IsTrue (⟦<Sha256Challenger as PartialEq>⟧.eq a b) ↔ (a ≡ b) }
{}
