//! Decimal numbers, and lists of them, as texts.

ghost use Rattle.std.specs.Prelude.{◌≡◌, ◌↔◌, ◌^◌, ◌≢◌, ◌<◌, ◌≤◌, ◌==◌, ◌++◌, ℕ, IsTrue, length};
ghost use Rattle.std.specs.Prelude.{slice_index, IfOk, OnOk, IfSome, Some, string_bytes, map};
ghost use Rattle.std.specs.Fmt.{decimal};
ghost use Rattle.std.specs.List.{slice_split};
ghost use Rattle.std.specs.Option.{option_map};
ghost use Rattle.fri_commands.specs.Texts.{parsed_number, parsed_each, parsed_list, line};

use std::alloc::{AllocError, Global};

/// Whether no sign comes first, and no zero before further digits. (`parse` takes both.)
fn is_plain(text: &[u8]) -> bool
    ensures { IsTrue result
        ↔ ((slice_index text.now 0 ≢ 43) × (1 < length text.now → slice_index text.now 0 ≢ 48)) }
{
    text.is_empty() || (text[0] != b'+' && (text.len() == 1 || text[0] != b'0'))
}

/// The number whose decimal text this is: without a sign and without leading zeros.
fn from_decimal(text: &str) -> Option<usize>
    ensures text { IfSome result (λ n. text.now ≡ decimal n) }
    ensures all { (n : ℕ) → n < 2 ^ 64 → text.now ≡ decimal n → result ≡ Some n }
{
    if is_plain(text.as_bytes()) {
        text.parse().ok()
    } else {
        None
    }
}

/// The number up to `most` whose decimal text this is.
pub fn number(text: &str, most: usize) -> Option<usize>
    ensures { result ≡ parsed_number most text.now }
{
    match from_decimal(text) {
        Some(value) if value <= most => Some(value),
        _ => None,
    }
}

/// The texts between the commas.
fn fields(alloc: Global, text: &str) -> Result<Vec<&str>, AllocError>
    ensures { IfOk result (λ v. map (λ x. x.now) v.items ≡ slice_split (λ b. b == 44) text.now) }
{
    text.split(',').collect(alloc)
}

/// Each text's number, or `None` where a text writes no number up to `most`.
fn each_number(alloc: Global, texts: &[&str], most: usize) -> Result<Option<Vec<usize>>, AllocError>
    ensures { IfOk result (λ found. option_map (λ v. v.items) found
        ≡ parsed_each most (map (λ x. x.now) texts.now)) }
{
    let mut values = Vec::new(alloc);
    for text in texts {
        let Some(value) = number(text, most) else {
            return Ok(None);
        };
        values.push(value)?;
    }
    Ok(Some(values))
}

/// The numbers up to `most` that the text writes, joined by commas. The text `-` writes none.
pub fn numbers(alloc: Global, text: &str, most: usize) -> Result<Option<Vec<usize>>, AllocError>
    ensures { IfOk result (λ found. option_map (λ v. v.items) found ≡ parsed_list most text.now) }
{
    if text == "-" {
        return Ok(Some(Vec::new(alloc)));
    }
    let texts = fields(alloc, text)?;
    each_number(alloc, &texts, most)
}

/// Appends the line of the numbers in decimal, joined by spaces. Where memory is wanting, a part of
/// it may have been appended.
pub fn push_line(text: &mut String, numbers: &[usize]) -> Result<(), AllocError>
    ensures { OnOk result (string_bytes text.new ≡ string_bytes text.old ++ line numbers.now) }
{
    for (i, number) in numbers.iter().enumerate() {
        if i > 0 {
            text.push_str(" ")?;
        }
        write!(text, "{number}")?;
    }
    text.push_str("\n")
}
