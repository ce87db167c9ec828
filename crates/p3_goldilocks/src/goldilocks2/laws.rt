//! What Goldilocks2 is, as a call that does nothing and whose contract is the theorem.

ghost use Rattle.std.specs.Prelude.{◌≡◌, ℕ, [], ◌∷◌};
ghost use Rattle.algebra.specs.PolynomialProduct.{coefficient, polynomial_product, IsRemainder};
ghost use Rattle.algebra.specs.PolynomialProduct.{HasNoFactors};
ghost use Rattle.p3_goldilocks.specs.Goldilocks.{goldilocks};
ghost use Rattle.p3_goldilocks.specs.Goldilocks2.{goldilocks2, coefficients2, lift2, modulus2};
ghost use Rattle.p3_goldilocks.specs.declared.goldilocks.Goldilocks.{Goldilocks};
ghost use Rattle.p3_goldilocks.specs.declared.goldilocks2.Goldilocks2.{Goldilocks2};

/// Goldilocks2 is the ring of polynomials over Goldilocks modulo `X^2 - 7`, which has no factors
/// there: sums go coefficient by coefficient, a product is what division by `X^2 - 7` leaves of
/// the polynomials' product, and an element of Goldilocks is a constant polynomial.
pub fn goldilocks2_law()
    ensures sum { (x y : Goldilocks2) (k : ℕ) →
        coefficient goldilocks (coefficients2 (goldilocks2.add x y)) k
        ≡ goldilocks.add (coefficient goldilocks (coefficients2 x) k)
        (coefficient goldilocks (coefficients2 y) k) }
    ensures product { (x y : Goldilocks2) →
        IsRemainder goldilocks modulus2
        (polynomial_product goldilocks (coefficients2 x) (coefficients2 y))
        (coefficients2 (goldilocks2.mul x y)) }
    ensures no_factors { HasNoFactors goldilocks modulus2 }
    ensures lifted { (x : Goldilocks) →
        coefficients2 (lift2 x) ≡ x ∷ goldilocks.zero ∷ [] }
{}
