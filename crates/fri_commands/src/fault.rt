//! What is wrong with arguments, and why there is nothing to print.

ghost use Rattle.std.specs.Prelude.{◌≡◌};
ghost use Rattle.fri_commands.specs.Commands.{fault_line, fault_status};
ghost use Rattle.fri_commands.specs.declared.fault.Refusal.TheVariants.{OutOfMemory};

use std::alloc::AllocError;

/// The status where an opening is refused.
const REFUSED: u8 = 1;

/// The status where the arguments have a fault.
const BAD_ARGUMENTS: u8 = 2;

/// What is wrong with the arguments, or why their opening is refused.
#[derive(Debug, Drop)]
pub enum Fault {
    /// No such command, or not its number of arguments.
    Command,
    /// A text that writes no number, or one out of range.
    Number,
    /// Heights that don't strictly fall.
    Heights,
    /// A cap of 0.
    Cap,
    /// A word whose length isn't a power of two up to `2^27`.
    Length,
    /// Not one challenge for each round.
    BetaCount,
    /// The extended column isn't taller than the final polynomial's own extension.
    HeightTooSmall,
    /// The final polynomial's log length and the log blowup have no sum in a word.
    HeightOverflow,
    /// The point lies in the coset over which the column is extended.
    PointInDomain,
}

impl Fault {
    /// The line that names the fault.
    pub fn line(&self) -> &'static str
        ensures { result.now ≡ fault_line self.now }
    {
        match self {
            Fault::Command => "fri_run: bad command\n",
            Fault::Number => "fri_run: bad number\n",
            Fault::Heights => "fri_run: bad heights\n",
            Fault::Cap => "fri_run: bad cap\n",
            Fault::Length => "fri_run: bad length\n",
            Fault::BetaCount => "fri_run: bad number of betas\n",
            Fault::HeightTooSmall => "fri_run: refused: input height too small\n",
            Fault::HeightOverflow => "fri_run: refused: final height overflow\n",
            Fault::PointInDomain => "fri_run: refused: point in evaluation domain\n",
        }
    }

    /// The exit status: 1 where good arguments are refused, 2 where they aren't good.
    pub fn status(&self) -> u8
        ensures { result ≡ fault_status self.now }
    {
        match self {
            Fault::HeightTooSmall | Fault::HeightOverflow | Fault::PointInDomain => REFUSED,
            _ => BAD_ARGUMENTS,
        }
    }
}

/// Why there is nothing to print.
#[derive(Debug, Drop)]
pub enum Refusal {
    Faulty(Fault),
    OutOfMemory,
}

impl From<AllocError> for Refusal {
    ghost from_gives = { λ _ refusal. refusal ≡ OutOfMemory };

    fn from(_: AllocError) -> Refusal {
        Refusal::OutOfMemory
    }
}
