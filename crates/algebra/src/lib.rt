//! Definitions and lemmas of algebra: commutative fields, polynomials, interpolation, the points of
//! two-adic domains and their cosets, words, quotients, batches and folds. It has no program code:
//! contracts of the crates above cite `specs/`, their proofs cite `proofs/`, and each function here
//! is a law, whose contract is a theorem on those definitions.
#![tactic(auto)]

ghost use Rattle.algebra.specs.Laws.{InterpolantExists, InterpolantIsUnique, RootsMakeZero};
ghost use Rattle.algebra.specs.RecombinedQuotients.{MasksCancel};
ghost use Rattle.algebra.specs.Laws.{CosetWords};
ghost use Rattle.algebra.specs.CosetLaws.{QuotientsAreValues, QuotientsCompress, BatchesAreWords};
ghost use Rattle.algebra.specs.CosetLaws.{OpeningsAreWords, ValuesFromCosets, PointsAreTested};
ghost use Rattle.algebra.specs.CosetLaws.{CosetsVanish, CosetsAreApart};
ghost use Rattle.algebra.specs.FoldLaws.{Folds, ChainsMeetWords, RoundsLowerDegrees};
ghost use Rattle.algebra.specs.FoldLaws.{ChainsEndAtFinalPolynomials, WordsReduce};
ghost use Rattle.algebra.specs.FoldLaws.{PeriodicValuesRepeat};

/// Interpolation over any field: through distinct points goes one polynomial with as many
/// coefficients, and `interpolant` is it.
pub fn interpolation_law<A>()
    ensures exists { InterpolantExists A }
    ensures unique { InterpolantIsUnique A }
{}

/// Over any field, a polynomial with at least as many distinct roots as coefficients is zero.
pub fn roots_law<A>()
    ensures { RootsMakeZero A }
{}

/// Words over a coset of a two-adic domain: how a smaller and a larger word of one polynomial, its
/// coefficients and its values in natural order tell each other.
pub fn words_law<A>()
    ensures { CosetWords A }
{}

/// Quotients over any field: those of the values over a coset by a point `z` off it are the values
/// of the quotient by `X - z`; and the sum of the quotients of columns, by powers of one element,
/// is the quotient of the columns' sums.
pub fn quotients_law<A>()
    ensures values { QuotientsAreValues A }
    ensures compressed { QuotientsCompress A }
{}

/// Batches by powers of one element: that of words of one height and degree is a word of that
/// degree; and that of the quotients of matrices of one height, opened at points off their coset,
/// in the field or an extension, is a word of one degree less than the columns.
pub fn batches_law<A, E>()
    ensures words { BatchesAreWords A }
    ensures openings { OpeningsAreWords A E }
{}

/// The value of a polynomial at a point off a coset, in the field or an extension, is the
/// barycentric sum of its values over the coset, of which a larger coset's word has the first
/// entries.
pub fn barycentric_law<A, E>()
    ensures { ValuesFromCosets A E }
{}

/// The points of a coset of `2^k` points, in the field or an extension, are those whose `2^k`-th
/// power is the shift's; from each other point they differ, and so do those of the smaller cosets.
pub fn point_test_law<A, E>()
    ensures { PointsAreTested A E }
{}

/// The vanishing polynomial of a coset is zero exactly there; and two cosets of one size whose
/// shifts' quotient, to the power of the size, isn't one are disjoint.
pub fn cosets_law<A>()
    ensures vanishing { CosetsVanish A }
    ensures apart { CosetsAreApart A }
{}

/// Folds over two-adic domains: in steps, so by two as often as the log arity says; and degrees
/// fall.
pub fn folds_law<A>()
    ensures { Folds A }
{}

/// Rounds of folding while inputs are rolled in. By any fold of rows, the chain of a query goes
/// through the words of the rounds, and folds their rows. By one that lowers degrees, words of low
/// degree lead to one of low degree, and each chain ends at the value of the final polynomial.
pub fn rounds_law<A>()
    ensures chains { ChainsMeetWords A }
    ensures degrees { RoundsLowerDegrees A }
    ensures ends { ChainsEndAtFinalPolynomials A }
{}

/// Smaller domains: on a coset of `2^k` points a polynomial of any degree has the values of what it
/// is modulo `X^(2^k) - shift^(2^k)`.
pub fn reduction_law<A>()
    ensures { WordsReduce A }
{}

/// Periodic columns: their values at the points of a domain that may be larger than their rows'
/// repeat after the period's share of it.
pub fn periodic_law<A>()
    ensures { PeriodicValuesRepeat A }
{}

/// Chunks of a quotient: masks change nothing of what the chunks recombine to, at any point of an
/// extension, where the last chunk's mask makes up for those of the others.
pub fn quotient_masks_law<A, E>()
    ensures { MasksCancel A E }
{}
