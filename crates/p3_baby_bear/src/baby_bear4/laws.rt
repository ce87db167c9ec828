//! What BabyBear4 is, as a call that does nothing and whose contract is the theorem.

ghost use Rattle.std.specs.Prelude.{◌≡◌, ℕ, [], ◌∷◌};
ghost use Rattle.algebra.specs.PolynomialProduct.{coefficient, polynomial_product, IsRemainder};
ghost use Rattle.algebra.specs.PolynomialProduct.{HasNoFactors};
ghost use Rattle.p3_baby_bear.specs.BabyBear.{baby_bear};
ghost use Rattle.p3_baby_bear.specs.BabyBear4.{baby_bear4, coefficients4, lift4, modulus4};
ghost use Rattle.p3_baby_bear.specs.declared.baby_bear.BabyBear.{BabyBear};
ghost use Rattle.p3_baby_bear.specs.declared.baby_bear4.BabyBear4.{BabyBear4};

/// BabyBear4 is the ring of polynomials over BabyBear modulo `X^4 - 11`, which has no factors
/// there: sums go coefficient by coefficient, a product is what division by `X^4 - 11` leaves of
/// the polynomials' product, and an element of BabyBear is a constant polynomial.
pub fn baby_bear4_law()
    ensures sum { (x y : BabyBear4) (k : ℕ) →
        coefficient baby_bear (coefficients4 (baby_bear4.add x y)) k
        ≡ baby_bear.add (coefficient baby_bear (coefficients4 x) k)
        (coefficient baby_bear (coefficients4 y) k) }
    ensures product { (x y : BabyBear4) →
        IsRemainder baby_bear modulus4
        (polynomial_product baby_bear (coefficients4 x) (coefficients4 y))
        (coefficients4 (baby_bear4.mul x y)) }
    ensures no_factors { HasNoFactors baby_bear modulus4 }
    ensures lifted { (x : BabyBear) →
        coefficients4 (lift4 x) ≡ x ∷ baby_bear.zero ∷ baby_bear.zero ∷ baby_bear.zero ∷ [] }
{}
