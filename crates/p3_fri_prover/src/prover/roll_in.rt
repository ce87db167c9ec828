//! Inputs that join a folded word of their length.

ghost use Rattle.std.specs.Prelude.{◌≡◌, ◌<◌, ◌^◌, ℕ, List, length, IfSome, IfNone, Some, None};
ghost use Rattle.std.specs.Prelude.{slice_index_or};
ghost use Rattle.algebra.specs.Nested.{lists};
ghost use Rattle.algebra.specs.Polynomial.{tabulate};
ghost use Rattle.p3_fri_prover.specs.Inputs.{of_length, rolled_word};

use p3_field_core::Field;

/// The number of values that a round of this log arity folds into one.
pub(crate) fn arity_of(log_arity: usize) -> usize
    requires { log_arity < 64 }
    ensures { result ≡ 2 ^ log_arity }
{
    1 << log_arity
}

/// The first of the inputs that has this length.
fn input_of_length<EF>(inputs: &[Vec<EF>], len: usize) -> Option<&[EF]>
    ensures found { IfSome result (λ input. of_length (lists inputs.now) len ≡ Some input.now) }
    ensures missing { IfNone result (of_length (lists inputs.now) len ≡ None) }
{
    for input in inputs {
        if input.len() == len {
            return Some(input.as_slice());
        }
    }
    None
}

/// Adds `factor` times the input to the word, entry by entry.
fn add_multiple<EF: Field>(word: &mut [EF], factor: EF, input: &[EF])
    requires same_length { length input.now ≡ length word.old }
    ensures { word.new ≡ tabulate (length word.old) (λ i. EF.ops.add
        (slice_index_or word.old i EF.ops.zero)
        (EF.ops.mul factor (slice_index_or input.now i EF.ops.zero))) }
{
    for i in 0..word.len() {
        word[i] = word[i] + factor * input[i];
    }
}

/// Rolls the input that has the word's length, if there is one, into the word that was folded at
/// `beta` in a round of this log arity: times the power of `beta` that the round's own powers leave
/// free.
pub(crate) fn roll_in<EF: Field>(word: &mut [EF], inputs: &[Vec<EF>], beta: EF, log_arity: usize)
    ensures { word.new ≡ rolled_word EF.ops (record { log_arity = log_arity; beta = beta })
        (of_length (lists inputs.now) (length word.old)) word.old }
{
    if let Some(input) = input_of_length(inputs, word.len()) {
        add_multiple(word, beta.exp_power_of_2(log_arity), input);
    }
}
