//! The law of statements, as a call that does nothing and whose contract is a theorem.

ghost use Rattle.std.specs.Prelude.{List, ℕ, Option};
ghost use Rattle.fri_statement.specs.Statement.{Statement};
ghost use Rattle.fri_statement.specs.StatementLaws.{IsDeterminedStatement, IsDeterminedContext};
ghost use Rattle.fri_statement.specs.StatementLaws.{IsDeterminedHiding};

/// What is absorbed determines the statement: its context, parameters, commitments, domains, widths
/// and points, whose elements have as many coefficients as the extension's degree. What is absorbed
/// before a challenge determines the context, and what is absorbed before a statement of a scheme
/// that hides its number of random columns and its preprocessing.
pub fn statement_law()
    ensures statement { (degree : ℕ) (a b : Statement) → IsDeterminedStatement degree a b }
    ensures context { (degree : ℕ) (a b : List ℕ) → IsDeterminedContext degree a b }
    ensures hiding { (m n : ℕ) (i j : Option ℕ) → IsDeterminedHiding m n i j }
{}
