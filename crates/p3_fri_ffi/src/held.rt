//! A prover behind a pointer that names no type, so that it may cross to C.

ghost use Rattle.std.specs.Prelude.{◌≡◌, Option, None, Some, IsSome};
ghost use Rattle.std.specs.Coded.{coded_option};
ghost use Rattle.p3_fri_ffi.specs.contracts.any_prover.AnyProver.{the_row};
ghost use Rattle.p3_fri_ffi.specs.declared.any_prover.AnyProver.{AnyProver};

use crate::any_prover::AnyProver;
use crate::parts::Parts;
use std::alloc::Global;
use std::marker::{Model, Send};

/// A prover, or none.
#[repr(C)]
#[derive(Drop)]
pub struct Held {
    at: *mut u8,
    alloc: Global,
    pub ghost prover: { Option AnyProver } by { coded_option the_row.coded },
}

impl Model for Held {
    ghost use Rattle.p3_fri_ffi.specs.Held.{held_owns};

    ghost also_owns = { λ h. held_owns h.alloc h.at h.prover };
}

unsafe impl Send for Held {}

impl Held {
    /// None.
    pub(crate) fn empty(alloc: Global) -> Held
        ensures { result.prover ≡ None }
    {
        let at = std::ptr::null_mut();
        Held { at, alloc }
    }

    pub(crate) fn of_parts(parts: Parts<AnyProver, Global>) -> Held
        ensures { result.prover ≡ Some parts.value }
    {
        let Parts { ptr, alloc } = parts;
        let at = ptr as *mut u8;
        Held { at, alloc }
    }

    pub(crate) fn into_parts(self) -> Parts<AnyProver, Global>
        requires { IsSome self.prover }
        ensures { Some result.value ≡ self.prover }
    {
        let Held { at, alloc } = self;
        let ptr = at as *mut AnyProver;
        Parts { ptr, alloc }
    }
}
