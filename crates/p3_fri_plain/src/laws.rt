//! What comes of a value by way of its plain form, and of a form by way of its value: laws as
//! calls.

ghost use Rattle.std.specs.Prelude.{◌≡◌, ◌≢◌, IfOk, IfErr};
ghost use Rattle.p3_fri_plain.specs.declared.error.PlainProofError.TheVariants.{OutOfMemory};

use crate::error::PlainProofError;
use crate::plain::Plain;
use std::alloc::Global;

/// The value of the plain form of this one: the same, memory aside.
pub fn value_round_trip<T: Plain>(
    alloc: Global,
    value: &T::Value,
) -> Result<T::Value, PlainProofError>
    ensures same { IfOk result (λ again. T.seen again ≡ T.seen value.now) }
    ensures memory { IfErr result (λ error. error ≡ OutOfMemory) }
{
    let form = T::to_plain(alloc, value)?;
    T::from_plain(alloc, &form)
}

/// The plain form of the value of this one: the same, where there is such a value, memory aside.
pub fn form_round_trip<T: Plain>(alloc: Global, form: &T::Form) -> Result<T::Form, PlainProofError>
    ensures same { IfOk result (λ again. T.listed again ≡ T.listed form.now) }
    ensures fault { IfErr result (λ error. error ≢ OutOfMemory
        → T.has_fault error (T.listed form.now)) }
{
    let value = T::from_plain(alloc, form)?;
    Ok(T::to_plain(alloc, &value)?)
}
