//! The commands of the program `fri_run`: words of field elements folded as the FRI low-degree test
//! does, and committed columns opened.
#![tactic(auto)]

mod answer;
mod fault;
mod fold;
mod prove;
mod text;

ghost use Rattle.std.specs.Prelude.{◌≡◌, ◌≢◌, ◌⊎◌};
ghost use Rattle.std.specs.Io.KnownBytes.{Appends, Keeps};
ghost use Rattle.fri_commands.specs.Commands.{answer_of, exit_status, standard_output};
ghost use Rattle.fri_commands.specs.Commands.{standard_error, out_of_memory_line, Completes};

use crate::answer::answer;
use crate::fault::Refusal;
use std::alloc::Global;
use std::io::Write;

/// The status where memory is wanting.
pub const OUT_OF_MEMORY: u8 = 3;

/// What is written where memory is wanting.
const OUT_OF_MEMORY_LINE: &str = "fri_run: out of memory\n";

/// The status where a write failed.
pub const WRITE_FAILED: u8 = 4;

/// Writes the text whole, and gives `status`, or `WRITE_FAILED` where that fails.
fn report<W: Write>(to: &mut W, text: &str, status: u8) -> u8
    ensures { result ≢ WRITE_FAILED
        → (result ≡ status) × Appends (W.contents to.old) (W.contents to.new) text.now }
{
    if to.write_all(text.as_bytes()).is_err() || to.flush().is_err() {
        return WRITE_FAILED;
    }
    status
}

/// Writes to `err` that memory is wanting, and gives the exit status: 3, or 4 where that failed.
pub fn report_out_of_memory<E: Write>(err: &mut E) -> u8
    ensures { result ≢ WRITE_FAILED → (result ≡ OUT_OF_MEMORY)
        × Appends (E.contents err.old) (E.contents err.new) out_of_memory_line }
{
    report(err, OUT_OF_MEMORY_LINE, OUT_OF_MEMORY)
}

/// Writes what the arguments ask for to `out`, or the line of their first fault to `err`, and gives
/// the exit status: 0 on success, 1 where the opening is refused, 2 at a fault, 3 where memory is
/// wanting, which is a line on `err` too, and 4 where a write failed, after which nothing more is
/// written. `args` leaves out the program's name.
pub fn run<W: Write, E: Write>(alloc: Global, args: &[String], out: &mut W, err: &mut E) -> u8
    ensures status { Completes result → result ≡ exit_status (answer_of args.now) }
    ensures output { Completes result
        → Appends (W.contents out.old) (W.contents out.new) (standard_output (answer_of args.now)) }
    ensures error { Completes result
        → Appends (E.contents err.old) (E.contents err.new) (standard_error (answer_of args.now)) }

    ensures out_of_memory { result ≡ OUT_OF_MEMORY
        → Appends (E.contents err.old) (E.contents err.new) out_of_memory_line }
    ensures no_output { result ≡ OUT_OF_MEMORY → Keeps (W.contents out.old) (W.contents out.new) }

    // A failed write is followed by none: never are both streams written to.
    ensures one_stream { Keeps (W.contents out.old) (W.contents out.new)
        ⊎ Keeps (E.contents err.old) (E.contents err.new) }
{
    match answer(alloc, args) {
        Ok(text) => report(out, text.as_str(), 0),
        Err(Refusal::Faulty(fault)) => report(err, fault.line(), fault.status()),
        Err(Refusal::OutOfMemory) => report_out_of_memory(err),
    }
}
