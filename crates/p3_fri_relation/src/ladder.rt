//! Powers of the batching challenge, and what they make of a row of values.

ghost use Rattle.std.specs.Prelude.{◌≡◌, ◌≤◌, IfOk, length, map, vec_len};
ghost use Rattle.algebra.specs.Field.{pow};
ghost use Rattle.algebra.specs.Polynomial.{val, tabulate};

use p3_field_core::powers::powers;
use p3_field_core::{ExtensionField, Field};
use std::alloc::{AllocError, Global};

/// Powers of the batching challenge, from one on, which all rows and queries share.
#[derive(Drop)]
pub struct Ladder<EF: Field> {
    pub alpha: EF,
    pub powers: Vec<EF>,
    ghost are_powers: { powers.items ≡ tabulate (vec_len powers) (λ i. pow EF.ops alpha i) },
}

impl<EF: Field> Ladder<EF> {
    /// The powers for rows of up to `width` values.
    pub fn new(alloc: Global, alpha: EF, width: usize) -> Result<Self, AllocError>
        ensures alpha { IfOk result (λ ladder. ladder.alpha ≡ alpha) }
        ensures width { IfOk result (λ ladder. vec_len ladder.powers ≡ width) }
    {
        Ok(Self {
            alpha,
            powers: powers(alloc, alpha, width)?,
        })
    }

    /// The power by which `width` terms move what follows them.
    pub fn step(&self, width: usize) -> EF
        requires { width ≤ vec_len self.now.powers }
        ensures { result ≡ pow EF.ops self.now.alpha width }
    {
        if width == 0 {
            EF::ONE
        } else {
            self.powers[width - 1] * self.alpha
        }
    }

    /// The sum of the values times the powers, in order.
    pub fn combine(&self, values: &[EF]) -> EF
        requires { length values.now ≤ vec_len self.now.powers }
        ensures { result ≡ val EF.ops values.now self.now.alpha }
    {
        let mut sum = EF::ZERO;
        for k in 0..values.len() {
            sum = sum + self.powers[k] * values[k];
        }
        sum
    }
}

/// The same of an opened row, whose values lie in the base field.
pub fn combine_row<F: Field, EF: ExtensionField<F>>(ladder: &Ladder<EF>, row: &[F]) -> EF
    requires { length row.now ≤ vec_len ladder.now.powers }
    ensures { result ≡ val EF.ops (map EF.lift row.now) ladder.now.alpha }
{
    let powers = ladder.powers.as_slice();
    EF::dot_row(powers, row)
}
