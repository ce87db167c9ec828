//! Extensions of a field by a root of `X^n - w`, of degrees 2 and 4: what is the same of all of
//! them, whatever type holds the coefficients. It has no program code; each function is a law,
//! whose contract is a theorem on the definitions in `specs/`.
#![tactic(auto)]

ghost use Rattle.std.specs.Prelude.{◌≡◌};
ghost use Rattle.algebra.specs.Field.{FieldOps, IsField};
ghost use Rattle.algebra.specs.PolynomialProduct.{polynomial_product, IsRemainder, HasNoFactors};
ghost use Rattle.p3_binomial_extension.specs.Copies.{Copies, carried};
ghost use Rattle.p3_binomial_extension.specs.Quadratic.{Quadratic, quadratic};
ghost use Rattle.p3_binomial_extension.specs.Quadratic.{quadratic_coefficients, quadratic_modulus};

/// The extension of any field by a square root of an element that is no square there is a field:
/// a product is what division by `X^2 - w` leaves of the polynomials' product, and `X^2 - w` has no
/// factors.
pub fn quadratic_law<A>()
    ensures field { (F : FieldOps A) → IsField F → (w : A) → ((s : A) → ¬ (F.mul s s ≡ w)) →
        IsField (quadratic F w) }
    ensures product { (F : FieldOps A) → IsField F → (w : A) → (a b : Quadratic A) →
        IsRemainder F (quadratic_modulus F w)
        (polynomial_product F (quadratic_coefficients a) (quadratic_coefficients b))
        (quadratic_coefficients ((quadratic F w).mul a b)) }
    ensures no_factors { (F : FieldOps A) → IsField F → (w : A) →
        ((s : A) → ¬ (F.mul s s ≡ w)) → HasNoFactors F (quadratic_modulus F w) }
{}

/// A type whose values stand for a field's is a field by that.
pub fn copies_law<A, E>()
    ensures { (S : Copies A E) (K : FieldOps A) → IsField K → IsField (carried S K) }
{}
