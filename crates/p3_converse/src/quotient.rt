//! Undoing a quotient by a point.

ghost use Rattle.std.specs.Prelude.{◌≡◌, ◌≢◌, ◌+◌, ◌^◌, ◌<◌, length, vec_len, IfOk};
ghost use Rattle.p3_converse.specs.Quotients.{IsUnquotient};

use crate::newton::add_multiple;
use p3_field_core::Field;
use std::alloc::{AllocError, Global};

/// The polynomial of which `q` is the quotient by the claimed value `y` at `z`, over the coset of
/// `shift`: at `z` it has the value `y`, and wherever the quotient `(y - u) / (z - shift * x)` of a
/// value `u` at another point `shift * x` is the value of `q` at `x`, its value there is `u`.
///
/// The shift isn't 0. Polynomials are given as coefficients, the constant first; the answer has one
/// more than `q`. `Err` means that memory was wanting.
pub fn unquotient<EF: Field>(
    alloc: Global,
    shift: EF,
    z: EF,
    y: EF,
    q: &[EF],
) -> Result<Vec<EF>, AllocError>
    requires shift { shift ≢ EF.ops.zero }
    requires fits { length q.now + 1 < 2 ^ 64 }
    ensures length { IfOk result (λ c. vec_len c ≡ length q.now + 1) }
    ensures values { IfOk result (λ c. IsUnquotient EF.ops shift z y q.now c.items) }
{
    let inverse = shift.inverse();
    let mut power = EF::ONE;
    let mut c = Vec::with_capacity(alloc, q.len() + 1)?;
    c.push(y)?;
    for coefficient in q {
        c.push(power * *coefficient)?;
        power = power * inverse;
    }
    add_multiple(z, &mut c);
    Ok(c)
}
