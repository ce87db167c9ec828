//! Completeness: what an honest prover opens is accepted. `specs/` says what an honest opening is;
//! the law here is the theorem, and `proofs/` has it over every setting and for requests.
#![tactic(auto)]

ghost use Rattle.p3_fri_completeness.specs.Laws.{HonestOpeningsAreAccepted};

/// What an honest prover opens of committed words of low degree is accepted, with the committed
/// polynomials' values for claims, and a verifier ends in the state in which the prover left the
/// challenger: over all two-adic fields, challengers and folds, and commitments that can be
/// verified.
pub fn completeness_law<F, E, C, Com, Path, InCom, InPath>()
    ensures { HonestOpeningsAreAccepted F E C Com Path InCom InPath }
{}
