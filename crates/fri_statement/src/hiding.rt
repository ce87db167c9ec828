//! What is absorbed before a statement of a scheme that hides.

ghost use Rattle.std.specs.Prelude.{◌≡◌, IfOk, OnOk, OnErr};
ghost use Rattle.p3_challenger_fs.specs.Pattern.{pattern_steps};
ghost use Rattle.p3_challenger_fs.specs.Separator.{description};
ghost use Rattle.fri_statement.specs.Hiding.{hiding_steps, hiding_description, hiding_absorbed};

use crate::labels::hiding_label;
use p3_challenger_fs::{DomainSeparator, Hierarchy, Interaction, InteractionPattern, Kind, Script};
use p3_challenger_sha256::{Sha256Challenger, Sha256Field};
use std::alloc::{AllocError, Global};

/// The version of the transcript.
const VERSION: u8 = 1;

/// Its name.
const NAME: &[u8] = b"p3-fri-hiding";

/// The bracket in which the statement follows.
const STATEMENT: &str = "statement";

/// The bracket in which the statement follows, the only step.
fn statement_pattern(alloc: Global) -> Result<InteractionPattern, AllocError>
    ensures { IfOk result (λ pattern. pattern_steps pattern ≡ hiding_steps) }
{
    let mut steps = Vec::with_capacity(alloc, 2)?;
    steps.push(Interaction::marker(Hierarchy::Begin, Kind::Protocol, STATEMENT))?;
    steps.push(Interaction::marker(Hierarchy::End, Kind::Protocol, STATEMENT))?;
    Ok(InteractionPattern::new(steps))
}

/// What describes by what a scheme hides.
fn separator_of(
    alloc: Global,
    num_random_codewords: usize,
    preprocessing: Option<usize>,
) -> Result<DomainSeparator, AllocError>
    ensures { IfOk result (λ separator.
        description separator ≡ hiding_description num_random_codewords preprocessing) }
{
    let pattern = statement_pattern(alloc)?;
    let mut separator = DomainSeparator::new(alloc, VERSION, NAME, pattern);
    let label = hiding_label(alloc, num_random_codewords, preprocessing)?;
    separator.instance(alloc, &label)?;
    Ok(separator)
}

/// Absorbs by what a scheme hides, before the statement: the number of random columns, and which
/// commitment, if any, is opened without masks.
///
/// # Errors
///
/// Memory may be refused; then nothing was absorbed.
pub fn absorb_hiding<F: Sha256Field>(
    alloc: Global,
    challenger: &mut Sha256Challenger<F>,
    num_random_codewords: usize,
    preprocessing: Option<usize>,
) -> Result<(), AllocError>
    ensures absorbed { OnOk result (challenger.new ≡ hiding_absorbed F.ORDER_U64 F.canonical
        F.ops challenger.old num_random_codewords preprocessing) }
    ensures unchanged { OnErr result (challenger.new ≡ challenger.old) }
{
    let separator = separator_of(alloc, num_random_codewords, preprocessing)?;
    let seed = separator.seed(alloc)?;
    let _script = Script::start::<F, Sha256Challenger<F>>(challenger, seed);
    Ok(())
}
