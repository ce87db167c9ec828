//! The calls of the plain scheme, at any field.

ghost use Rattle.std.specs.Prelude.{◌≡◌};
ghost use Rattle.fri_flat.specs.Answers.{AnswersRequest, AnswersStatement, CommitsRequest};
ghost use Rattle.fri_flat.specs.Answers.{drawn_after};
ghost use Rattle.fri_flat.specs.Flat.{element_size};
ghost use Rattle.fri_flat.specs.Layouts.{layout_of};

use crate::field::Call;
use fri_flat::{Failure, SchemeField};
use fri_schemes::SchemeParts;
use std::alloc::Global;

/// The commitments of a request.
pub(crate) struct Commit;

impl<F: SchemeField> Call<F> for Commit {
    ghost Answers = { CommitsRequest ⟦<F as SchemeParts>⟧.fields };

    ghost HasLength = { λ _. Unit {0} };

    fn answer(alloc: Global, bytes: &[u8]) -> Result<Vec<u8>, Failure> {
        fri_flat::commit::<F>(alloc, bytes)
    }
}

/// The next challenge and the statement that answer a request.
pub(crate) struct Open;

impl<F: SchemeField> Call<F> for Open {
    ghost Answers = { AnswersRequest ⟦<F as SchemeParts>⟧.fields };

    ghost HasLength = { λ _. Unit {0} };

    fn answer(alloc: Global, bytes: &[u8]) -> Result<Vec<u8>, Failure> {
        fri_flat::open::<F>(alloc, bytes)
    }
}

/// What is drawn after a statement that is accepted.
pub(crate) struct Verify;

impl<F: SchemeField> Call<F> for Verify {
    ghost Answers = { AnswersStatement ⟦<F as SchemeParts>⟧.fields };

    ghost HasLength = { λ n. n ≡ element_size (layout_of ⟦<F as SchemeParts>⟧.fields) };

    fn answer(alloc: Global, bytes: &[u8]) -> Result<Vec<u8>, Failure> {
        fri_flat::verify::<F>(alloc, bytes)
    }
}

/// What is drawn after a context.
pub(crate) struct Challenge;

impl<F: SchemeField> Call<F> for Challenge {
    ghost Answers = { λ context out. out ≡ drawn_after ⟦<F as SchemeParts>⟧.fields context };

    ghost HasLength = { λ n. n ≡ element_size (layout_of ⟦<F as SchemeParts>⟧.fields) };

    fn answer(alloc: Global, context: &[u8]) -> Result<Vec<u8>, Failure> {
        fri_flat::challenge::<F>(alloc, context)
    }
}
