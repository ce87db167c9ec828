//! What a test of folding shows of the words that it folds, by counting and without a probability:
//! of each round's challenges at most a counted few are bad, and where no bad one was drawn, words
//! that most positions pass are of low degree there. It has no program code: each function is a
//! law, whose contract is a theorem on the definitions of `specs/`.
#![tactic(auto)]

ghost use Rattle.fri_soundness.specs.Curves.{DecodingsAreCorrelated, FewAreBad};
ghost use Rattle.fri_soundness.specs.FoldTests.{FewAreBadInSteps, TestsAreSound};
ghost use Rattle.fri_soundness.specs.Honest.{HonestStepsHaveNoBad};
ghost use Rattle.fri_soundness.specs.CommittedWords.{AnswersPass, PassingIsCounted};
ghost use Rattle.fri_soundness.specs.CommittedWords.{FairTestsAreSound};
ghost use Rattle.fri_soundness.specs.Batches.{FewAreBadForBatches, BatchesAreSound};
ghost use Rattle.fri_soundness.specs.Openings.{OpeningsAreSound};

/// Over any field, for a curve through `l + 1` words over distinct points, as many points at least
/// as `(l + 2) * e + k`. If at more than `l * (e + 1)` challenges the curve is, but for `e` points,
/// a polynomial of `k` coefficients, then at all but `l * e` of these challenges there is
/// correlated agreement: the words are such polynomials themselves, wherever the curve is its
/// polynomial. So at most `l * (e + 1)` challenges are bad: ones where it is and they aren't.
pub fn curves_law<A>()
    ensures correlated { DecodingsAreCorrelated A }
    ensures few { FewAreBad A }
{}

/// Over words that are fixed, for rounds of any arity with inputs rolled in. A round that folds
/// rows of `2^a` values has at most `l * (e + 1)` bad challenges, with `l` equal to `2^a - 1`, or
/// to `2^a` where it rolls in an input; and none where its word and its input are of low degree.
/// Where no round's challenge is bad, and of each round's rows at most the budget fail, the first
/// word is at all positions that pass a polynomial of low degree, and each input is where its rows
/// pass.
pub fn tests_law<A>()
    ensures few { FewAreBadInSteps A }
    ensures honest { HonestStepsHaveNoBad A }
    ensures sound { TestsAreSound A }
{}

/// Over words that are committed to. A query that is answered by rows of the words is at a position
/// that passes. Either all but `failing` positions pass, or those that pass are fewer than all by
/// more than `failing`. And where all but `failing` do, with room for the budget that this leaves
/// to each round, and no challenge bad, the words and the inputs are of low degree wherever
/// positions pass.
pub fn answers_law<A>()
    ensures pass { AnswersPass A }
    ensures counted { PassingIsCounted A }
    ensures sound { FairTestsAreSound A }
{}

/// For columns over a coset, each with a value that is claimed of it at a point. Of the challenges
/// by whose powers the quotients of `l + 1` columns are batched, at most `l * (e + 1)` are bad.
/// Where one isn't, and the batch is of low degree at all but `e` indices, each column is there a
/// polynomial of one coefficient more, which has the claimed value at the claimed point.
pub fn batches_law<A>()
    ensures few { FewAreBadForBatches A }
    ensures sound { BatchesAreSound A }
{}

/// A batch and a test together. Where all but `failing` positions pass, with room for the budgets
/// and no challenge bad, each column of each log height is, wherever positions pass, a polynomial
/// of low degree that has the claimed value at the claimed point.
pub fn openings_law<A>()
    ensures { OpeningsAreSound A }
{}
