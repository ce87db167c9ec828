//! A prover that keeps what it committed to, at any field.

ghost use Rattle.std.specs.Prelude.{◌≡◌, ℕ, List, IfOk, IfErr};
ghost use Rattle.fri_flat.specs.KeptAnswers.{BeginsProver, CommitsKept, AnswersAsked};

use fri_flat::{Failure, Prover, SchemeField, commit_kept, open_kept, prover};
use fri_schemes::SchemeParts;
use std::alloc::Global;

/// Provers over a field, with what their calls over bytes answer.
pub trait Kept {
    // it is of the parameters in these bytes, and has committed to nothing
    ghost Begins: { Self → List ℕ → Type 0 };

    // it became the other, which keeps the batch in these bytes too, under the commitment in others
    ghost Commits: { Self → Self → List ℕ → List ℕ → Type 0 };

    // both keep the same, and are of the same parameters
    ghost IsSame: { Self → Self → Type 0 };

    // it opens what it keeps as bytes ask, and others are the answer
    ghost Answers: { Self → List ℕ → List ℕ → Type 0 };

    /// A prover of the parameters in these bytes.
    fn begin(alloc: Global, parameters: &[u8]) -> Result<Self, Failure>
        ensures { IfOk result (λ p. Begins p parameters.now) };

    /// Commits to the batch in these bytes, and keeps it.
    fn commit_batch(&mut self, alloc: Global, batch: &[u8]) -> Result<[u8; 32], Failure>
        ensures committed { IfOk result (Commits self.old self.new batch.now) }
        ensures unchanged { IfErr result (λ _. IsSame self.old self.new) };

    /// Opens what is kept, under the context and at the points in these bytes. It stays as it was.
    fn open_asked(&mut self, alloc: Global, asked: &[u8]) -> Result<Vec<u8>, Failure>
        ensures answered { IfOk result (λ v. Answers self.old asked.now v.items) }
        ensures kept { IsSame self.old self.new };
}

impl<F: SchemeField> Kept for Prover<F> {
    ghost Begins = { λ p bytes. BeginsProver ⟦<F as SchemeParts>⟧.fields F.LEN (λ d. d.shift)
        (λ d. d.log_size) p.parameters bytes p.committed.items };

    ghost Commits = { λ old new bytes out. new.parameters ≡ old.parameters
        × CommitsKept ⟦<F as SchemeParts>⟧.fields F.LEN (λ d. d.shift) (λ d. d.log_size)
        old.parameters old.committed.items new.committed.items bytes out };

    ghost IsSame = { λ old new. new.parameters ≡ old.parameters
        × new.committed.items ≡ old.committed.items };

    ghost Answers = { λ p bytes out. AnswersAsked ⟦<F as SchemeParts>⟧.fields F.LEN
        (λ d. d.shift) (λ d. d.log_size) p.parameters p.committed.items bytes out };

    fn begin(alloc: Global, parameters: &[u8]) -> Result<Prover<F>, Failure> {
        prover::<F>(alloc, parameters)
    }

    fn commit_batch(&mut self, alloc: Global, batch: &[u8]) -> Result<[u8; 32], Failure> {
        commit_kept::<F>(alloc, self, batch)
    }

    fn open_asked(&mut self, alloc: Global, asked: &[u8]) -> Result<Vec<u8>, Failure> {
        open_kept::<F>(alloc, self, asked)
    }
}
