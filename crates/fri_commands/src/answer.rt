//! What the program's arguments ask for.

ghost use Rattle.std.specs.Prelude.{◌≡◌, ◌≢◌, IsTrue, ◌<◌, [], ◌∷◌, map, length};
ghost use Rattle.std.specs.Prelude.{string_bytes};
ghost use Rattle.p3_fri_core.specs.Schedule.{IsStrictlyFalling};
ghost use Rattle.fri_commands.specs.Commands.{Answers, is_strictly_falling, answer};
ghost use Rattle.fri_commands.specs.Commands.{schedule_answer};
ghost use Rattle.fri_commands.specs.Commands.{fold_answer};
ghost use Rattle.fri_commands.specs.Steps.{exact_log2};

use crate::fault::{Fault, Refusal};
use crate::fold::folded_numbers;
use crate::prove::prove_lines;
use crate::text::{number, numbers, push_line};
use p3_field::{BabyBear, TwoAdicField};
use p3_fri_core::{fold_schedule, is_strictly_falling};
use std::alloc::Global;

/// The greatest height, final height and cap.
const GREATEST_HEIGHT: usize = 63;

/// The greatest canonical number of an element.
pub const GREATEST_ELEMENT: usize = 2_013_265_920;

/// Whether each height is below the one before it.
fn are_falling(heights: &[usize]) -> bool
    ensures test { result ≡ is_strictly_falling heights.now }
    ensures fact { IsTrue result → IsStrictlyFalling heights.now }
{
    is_strictly_falling(heights)
}

/// The schedule's line.
#[tactic(auto, unfolding(crate::specs::Commands::schedule_answer))]
fn schedule_line(
    alloc: Global,
    heights: &str,
    final_height: &str,
    cap: &str,
) -> Result<String, Refusal>
    ensures { Answers result (schedule_answer heights.now final_height.now cap.now) }
{
    let Some(heights) = numbers(alloc, heights, GREATEST_HEIGHT)? else {
        return Err(Refusal::Faulty(Fault::Number));
    };
    if !are_falling(&heights) {
        return Err(Refusal::Faulty(Fault::Heights));
    }
    let Some(final_height) = number(final_height, GREATEST_HEIGHT) else {
        return Err(Refusal::Faulty(Fault::Number));
    };
    let Some(cap) = number(cap, GREATEST_HEIGHT) else {
        return Err(Refusal::Faulty(Fault::Number));
    };
    if cap == 0 {
        return Err(Refusal::Faulty(Fault::Cap));
    }
    let schedule = fold_schedule(alloc, &heights, final_height, cap)?;
    let mut line = String::new(alloc);
    push_line(&mut line, &schedule)?;
    Ok(line)
}

/// The logarithm, up to `most`, of a power of two.
pub fn exact_log2(count: usize, most: usize) -> Option<usize>
    requires { most < 64 }
    ensures { result ≡ exact_log2 most count }
{
    for log in 0..=most {
        if 1 << log == count {
            return Some(log);
        }
    }
    None
}

/// The schedule's line for the cap 1, and the folded word's.
#[tactic(auto, unfolding(crate::specs::Commands::fold_answer))]
fn fold_lines(alloc: Global, final_height: &str, betas: &str, word: &str) -> Result<String, Refusal>
    ensures { Answers result (fold_answer final_height.now betas.now word.now) }
{
    let Some(final_height) = number(final_height, GREATEST_HEIGHT) else {
        return Err(Refusal::Faulty(Fault::Number));
    };
    let Some(betas) = numbers(alloc, betas, GREATEST_ELEMENT)? else {
        return Err(Refusal::Faulty(Fault::Number));
    };
    let Some(word) = numbers(alloc, word, GREATEST_ELEMENT)? else {
        return Err(Refusal::Faulty(Fault::Number));
    };
    let Some(log_height) = exact_log2(word.len(), BabyBear::TWO_ADICITY) else {
        return Err(Refusal::Faulty(Fault::Length));
    };
    let schedule = fold_schedule(alloc, &[log_height], final_height, 1)?;
    if betas.len() != schedule.len() {
        return Err(Refusal::Faulty(Fault::BetaCount));
    }
    let folded = folded_numbers(alloc, log_height, &betas, &word)?;
    let mut lines = String::new(alloc);
    push_line(&mut lines, &schedule)?;
    push_line(&mut lines, &folded)?;
    Ok(lines)
}

/// What a command of three arguments asks for.
#[tactic(auto, unfolding(crate::specs::Commands::answer))]
fn answer_of_three(
    alloc: Global,
    command: &str,
    first: &str,
    second: &str,
    third: &str,
) -> Result<String, Refusal>
    ensures { Answers result
        (answer (command.now ∷ first.now ∷ second.now ∷ third.now ∷ [])) }
{
    match command {
        "schedule" => schedule_line(alloc, first, second, third),
        "fold" => fold_lines(alloc, first, second, third),
        _ => Err(Refusal::Faulty(Fault::Command)),
    }
}

/// What a command of four arguments asks for.
#[tactic(auto, unfolding(crate::specs::Commands::answer))]
fn answer_of_four(
    alloc: Global,
    command: &str,
    first: &str,
    second: &str,
    third: &str,
    fourth: &str,
) -> Result<String, Refusal>
    ensures { Answers result
        (answer (command.now ∷ first.now ∷ second.now ∷ third.now ∷ fourth.now ∷ [])) }
{
    match command {
        "prove" => prove_lines(alloc, first, second, third, fourth),
        _ => Err(Refusal::Faulty(Fault::Command)),
    }
}

/// What arguments ask for that aren't four.
fn answer_of_others(alloc: Global, args: &[String]) -> Result<String, Refusal>
    requires others { length args.now ≢ 4 }
    ensures { Answers result (answer (map string_bytes args.now)) }
{
    let [command, first, second, third, fourth] = args else {
        return Err(Refusal::Faulty(Fault::Command));
    };
    answer_of_four(
        alloc,
        command.as_str(),
        first.as_str(),
        second.as_str(),
        third.as_str(),
        fourth.as_str(),
    )
}

/// What the arguments ask for.
pub fn answer(alloc: Global, args: &[String]) -> Result<String, Refusal>
    ensures { Answers result (answer (map string_bytes args.now)) }
{
    let [command, first, second, third] = args else {
        return answer_of_others(alloc, args);
    };
    answer_of_three(
        alloc,
        command.as_str(),
        first.as_str(),
        second.as_str(),
        third.as_str(),
    )
}
