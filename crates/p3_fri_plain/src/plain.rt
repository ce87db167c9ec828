//! Values as numbers and bytes.

ghost use Rattle.std.specs.Prelude.{◌≡◌, ◌≢◌, List, map, IfOk, IfErr};
ghost use Rattle.std.specs.List.{Any};
ghost use Rattle.p3_fri_plain.specs.declared.error.PlainProofError.{PlainProofError};
ghost use Rattle.p3_fri_plain.specs.declared.error.PlainProofError.TheVariants.{OutOfMemory};
ghost use Rattle.p3_fri_plain.specs.Faults.{IsFaultless};
ghost use Rattle.p3_fri_plain.specs.PlainLaws.{map_told_apart};

use crate::error::PlainProofError;
use std::alloc::{AllocError, Global};
use std::marker::PhantomData;

/// A kind of values that have a plain form: numbers and bytes, in lists and records of them. No two
/// values of the kind have one plain form, and a form that is no value's shows why. A proof is its
/// own kind; an element of a field isn't, since numbers are listed of it in more than one way.
pub trait Plain {
    /// A value.
    type Value: Drop;

    /// Its plain form.
    type Form: Drop;

    // what contracts see of a value: lists and records of elements and digests
    ghost Seen: { Type 0 };

    ghost seen: { Self.Value → Seen };

    // what they see of a plain form: the same lists and records, of numbers
    ghost Numbers: { Type 0 };

    ghost listed: { Self.Form → Numbers };

    // the numbers of what is seen of a value
    ghost numbers: { Seen → Numbers };

    // these numbers show the fault
    ghost has_fault: { PlainProofError → Numbers → Type 0 };

    /// The plain form of this value.
    fn to_plain(alloc: Global, value: &Self::Value) -> Result<Self::Form, AllocError>
        ensures numbers { IfOk result (λ form. listed form ≡ numbers (seen value.now)) }
        ensures faultless { IfOk result (λ form. IsFaultless has_fault (listed form)) };

    /// The value of this plain form, or a fault that it shows.
    fn from_plain(alloc: Global, form: &Self::Form) -> Result<Self::Value, PlainProofError>
        ensures ok { IfOk result (λ value. numbers (seen value) ≡ listed form.now) }
        ensures faultless { IfOk result (λ _. IsFaultless has_fault (listed form.now)) }
        ensures err { IfErr result (λ error. error ≢ OutOfMemory
            → has_fault error (listed form.now)) };

    // no two values have the same numbers
    ghost told_apart: { (a b : Seen) → numbers a ≡ numbers b → a ≡ b };
}

/// A list of values of one kind, entry by entry.
pub struct Each<T>(PhantomData<T>);

impl<T: Plain> Plain for Each<T> {
    type Value = Vec<T::Value>;

    type Form = Vec<T::Form>;

    ghost Seen = { List T.Seen };

    ghost seen = { λ values. map T.seen values.items };

    ghost Numbers = { List T.Numbers };

    ghost listed = { λ forms. map T.listed forms.items };

    ghost numbers = { λ values. map T.numbers values };

    ghost has_fault = { λ error forms. Any (T.has_fault error) forms };

    fn to_plain(alloc: Global, values: &Vec<T::Value>) -> Result<Vec<T::Form>, AllocError> {
        let mut forms = Vec::with_capacity(alloc, values.len())?;
        for value in values {
            forms.push(T::to_plain(alloc, value)?)?;
        }
        Ok(forms)
    }

    fn from_plain(alloc: Global, forms: &Vec<T::Form>) -> Result<Vec<T::Value>, PlainProofError> {
        let mut values = Vec::with_capacity(alloc, forms.len())?;
        for form in forms {
            values.push(T::from_plain(alloc, form)?)?;
        }
        Ok(values)
    }

    ghost told_apart = { map_told_apart T.numbers T.told_apart };
}
