//! The command `prove`.

ghost use Rattle.std.specs.Prelude.{◌≡◌, ◌+◌, ◌<◌, ◌≤◌, true, IfOk, string_bytes};
ghost use Rattle.fri_commands.specs.Commands.{Answers};
ghost use Rattle.fri_commands.specs.Prove.{prove_answer, opened_answer, checked_opening};
ghost use Rattle.fri_commands.specs.Prove.{is_in_domain, opening_lines};

use crate::answer::{GREATEST_ELEMENT, exact_log2};
use crate::fault::{Fault, Refusal};
use crate::fold::elements;
use crate::text::{number, numbers};
use fri_example::{Opening, open_column};
use p3_field::{BabyBear, Field, PrimeField64, TwoAdicField};
use std::alloc::{AllocError, Global};

/// Whether the point lies in the coset of this log height over which columns are extended.
fn is_in_domain(log_height: usize, point: BabyBear) -> bool
    ensures { result ≡ is_in_domain log_height point }
{
    let power = point.exp_power_of_2(log_height);
    let of_shift = BabyBear::GENERATOR.exp_power_of_2(log_height);
    power.as_canonical_u64() == of_shift.as_canonical_u64()
}

/// What the scheme would refuse, found before anything is committed to. A final polynomial that
/// isn't constant is sent only of a taller word than its own.
#[tactic(auto, unfolding(crate::specs::Prove::checked_opening))]
fn check_opening(
    log_blowup: usize,
    log_final: usize,
    log_height: usize,
    point: BabyBear,
) -> Result<(), Fault>
    ensures { result ≡ checked_opening log_blowup log_final log_height point }
{
    let Some(final_height) = log_blowup.checked_add(log_final) else {
        return Err(Fault::HeightOverflow);
    };
    if log_final > 0 && log_height <= final_height {
        return Err(Fault::HeightTooSmall);
    }
    if is_in_domain(log_height, point) {
        return Err(Fault::PointInDomain);
    }
    Ok(())
}

/// The lines of an opening.
fn opening_lines(alloc: Global, opening: &Opening) -> Result<String, AllocError>
    requires states { opening.now.are_states_equal ≡ true }
    ensures { IfOk result (λ lines. string_bytes lines ≡ opening_lines opening.now.value.value) }
{
    let mut lines = String::new(alloc);
    let value = opening.value.as_canonical_u64();
    write!(lines, "{value}")?;
    if opening.are_states_equal {
        lines.push_str("\naccepted\nstates equal\n")?;
    } else {
        lines.push_str("\naccepted\nstates differ\n")?;
    }
    Ok(lines)
}

/// The lines of the column's opening at the point.
#[tactic(auto, unfolding(crate::specs::Prove::opened_answer))]
fn opened_lines(
    alloc: Global,
    log_blowup: usize,
    log_final: usize,
    point: usize,
    column: &[usize],
) -> Result<String, Refusal>
    requires some_blowup { 0 < log_blowup }
    requires blowup { log_blowup ≤ 27 }
    ensures { Answers result (opened_answer log_blowup log_final point column.now) }
{
    let Some(log_size) = exact_log2(column.len(), BabyBear::TWO_ADICITY - log_blowup) else {
        return Err(Refusal::Faulty(Fault::Length));
    };
    let point = BabyBear::from_u64(point as u64);
    match check_opening(log_blowup, log_final, log_size + log_blowup, point) {
        Ok(()) => {}
        Err(fault) => return Err(Refusal::Faulty(fault)),
    }
    let column = elements(alloc, column)?;
    let opening = open_column(alloc, log_blowup, log_final, log_size, column, point)?;
    Ok(opening_lines(alloc, &opening)?)
}

/// The value of the column's polynomial at the point, once its opening was accepted.
#[tactic(auto, unfolding(crate::specs::Prove::prove_answer))]
pub fn prove_lines(
    alloc: Global,
    log_blowup: &str,
    log_final: &str,
    point: &str,
    column: &str,
) -> Result<String, Refusal>
    ensures { Answers result
        (prove_answer log_blowup.now log_final.now point.now column.now) }
{
    let Some(log_blowup) = number(log_blowup, BabyBear::TWO_ADICITY) else {
        return Err(Refusal::Faulty(Fault::Number));
    };
    if log_blowup == 0 {
        return Err(Refusal::Faulty(Fault::Number));
    }
    let Some(log_final) = number(log_final, usize::MAX) else {
        return Err(Refusal::Faulty(Fault::Number));
    };
    let Some(point) = number(point, GREATEST_ELEMENT) else {
        return Err(Refusal::Faulty(Fault::Number));
    };
    let Some(column) = numbers(alloc, column, GREATEST_ELEMENT)? else {
        return Err(Refusal::Faulty(Fault::Number));
    };
    opened_lines(alloc, log_blowup, log_final, point, &column)
}
