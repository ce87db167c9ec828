//! Prime fields by their order: what is the same of all of them, whatever holds the numbers.
#![tactic(auto)]

ghost use Rattle.std.specs.Prelude.{ℕ};
ghost use Rattle.algebra.specs.Primes.{IsPrime};
ghost use Rattle.p3_prime_field.specs.Proth.{IsProth};

/// Proth's test: a number of which a power shows it is prime.
pub fn proth_law()
    ensures { (p k odd g : ℕ) → IsProth p k odd g → IsPrime p }
{}
