//! What KoalaBear4 is, as a call that does nothing and whose contract is the theorem.

ghost use Rattle.std.specs.Prelude.{◌≡◌, ℕ, [], ◌∷◌};
ghost use Rattle.algebra.specs.PolynomialProduct.{coefficient, polynomial_product, IsRemainder};
ghost use Rattle.algebra.specs.PolynomialProduct.{HasNoFactors};
ghost use Rattle.p3_koala_bear.specs.KoalaBear.{koala_bear};
ghost use Rattle.p3_koala_bear.specs.KoalaBear4.{koala_bear4, coefficients4, lift4, modulus4};
ghost use Rattle.p3_koala_bear.specs.declared.koala_bear.KoalaBear.{KoalaBear};
ghost use Rattle.p3_koala_bear.specs.declared.koala_bear4.KoalaBear4.{KoalaBear4};

/// KoalaBear4 is the ring of polynomials over KoalaBear modulo `X^4 - 3`, which has no factors
/// there: sums go coefficient by coefficient, a product is what division by `X^4 - 3` leaves of
/// the polynomials' product, and an element of KoalaBear is a constant polynomial.
pub fn koala_bear4_law()
    ensures sum { (x y : KoalaBear4) (k : ℕ) →
        coefficient koala_bear (coefficients4 (koala_bear4.add x y)) k
        ≡ koala_bear.add (coefficient koala_bear (coefficients4 x) k)
        (coefficient koala_bear (coefficients4 y) k) }
    ensures product { (x y : KoalaBear4) →
        IsRemainder koala_bear modulus4
        (polynomial_product koala_bear (coefficients4 x) (coefficients4 y))
        (coefficients4 (koala_bear4.mul x y)) }
    ensures no_factors { HasNoFactors koala_bear modulus4 }
    ensures lifted { (x : KoalaBear) →
        coefficients4 (lift4 x) ≡ x ∷ koala_bear.zero ∷ koala_bear.zero ∷ koala_bear.zero ∷ [] }
{}
