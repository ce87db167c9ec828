//! Many inverses at the price of one.

ghost use Rattle.std.specs.Prelude.{◌≡◌, ◌≢◌, IfOk, All, map};
ghost use Rattle.algebra.specs.Products.{product, running_products};

use crate::field::Field;
use std::alloc::{AllocError, Global};

/// The inverse of each entry, in order, by one inversion of the product of them all (Montgomery's
/// trick): three multiplications an entry, and one list. The caller knows that no entry is zero.
pub fn batch_multiplicative_inverse<F: Field>(
    alloc: Global,
    values: &[F],
) -> Result<Vec<F>, AllocError>
    requires nonzero { All (λ x. x ≢ F.ops.zero) values.now }
    ensures { IfOk result (λ inverses. inverses.items ≡ map F.ops.inv values.now) }
{
    let mut inverses = Vec::with_capacity(alloc, values.len())?;
    let mut product = F::ONE;
    for value in values {
        inverses.push(product)?;
        product = product * *value;
    }
    invert_from_products(&mut inverses, values, product.inverse());
    Ok(inverses)
}

/// Turns the product of the entries before each one into the inverse of that entry, from the last
/// entry down.
fn invert_from_products<F: Field>(products: &mut [F], values: &[F], inverse_of_all: F)
    requires running { products.old ≡ running_products F.ops values.now }
    requires inverse { F.ops.mul (product F.ops values.now) inverse_of_all ≡ F.ops.one }
    ensures { products.new ≡ map F.ops.inv values.now }
{
    let mut inverse = inverse_of_all;
    for i in (0..values.len()).rev() {
        products[i] = products[i] * inverse;
        inverse = inverse * values[i];
    }
}
