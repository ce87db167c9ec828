//! Times the layers of the schemes, from the extension of a matrix, as a commitment takes it, to
//! the schemes themselves and a STARK's prover: in microseconds, the least of several.
#![tactic(auto)]

mod folds;
mod matrices;
mod schemes;
mod stages;
mod stark;
mod watch;

use crate::schemes::{Sizes, Timed, print};
use crate::watch::{Fault, Result, Run};
use std::process::ExitCode;
use std::{env, io};

/// What the program takes.
const USAGE: &str = "fri_bench stages LOG_HEIGHT WIDTH ADDED_BITS [REPEATS]
fri_bench fold LOG_SIZE [REPEATS]
fri_bench scheme LOG_HEIGHT WIDTH LOG_BLOWUP QUERIES LOG_CAP [REPEATS]
fri_bench hiding LOG_HEIGHT WIDTH CODEWORDS [REPEATS]
fri_bench stark LOG_HEIGHT WIDTH LOG_BLOWUP QUERIES LOG_CAP [REPEATS]
fri_bench figures [REPEATS]";

/// The sizes of the plain scheme whose times are kept: `2^16` rows of 64 columns, and then the
/// growth over rows of one column.
static FIGURES: [Sizes; 9] = [
    [16, 64, 1, 100, 1],
    [16, 64, 1, 100, 3],
    [14, 1, 1, 100, 1],
    [15, 1, 1, 100, 1],
    [16, 1, 1, 100, 1],
    [17, 1, 1, 100, 1],
    [18, 1, 1, 100, 1],
    [19, 1, 1, 100, 1],
    [20, 1, 1, 100, 1],
];

/// The sizes that the arguments name, and then how often to time: `otherwise` where they don't say,
/// and at least once.
fn read<const N: usize>(args: &[String], otherwise: usize) -> Result<Run<N>> {
    if args.len() < N || args.len() - N > 1 {
        return Err(Fault::Usage);
    }
    let (mut sizes, mut repeats) = ([0; N], otherwise);
    for (index, arg) in args.iter().enumerate() {
        let Ok(number) = arg.as_str().parse() else {
            return Err(Fault::Usage);
        };
        if index < N {
            sizes[index] = number;
        } else {
            repeats = number.max(1);
        }
    }
    Ok((sizes, repeats))
}

/// Prints the times of the hiding scheme, of the plain one over a matrix of the size of the masked
/// one, and of the drawing of as many random elements as the masks take: of each row a row beside
/// it, and the random columns of both.
fn hiding(rt: &HostRuntime, ([log_height, width, codewords], repeats): Run<3>) -> Result<()> {
    if log_height > 23 || width > 1 << 20 || codewords > 1 << 20 {
        return Err(Fault::Sizes);
    }
    let words = (width + 2 * codewords) << log_height;
    let sizes = [log_height, width, 1, 100, 1];
    let masked_sizes = [log_height + 1, width + codewords, 1, 100, 1];
    let all = [
        (Timed::Words(words), sizes),
        (Timed::Hiding(codewords), sizes),
        (Timed::Plain, masked_sizes),
    ];
    print(rt, &all, repeats)
}

/// Prints these times.
fn figures(rt: &HostRuntime, repeats: usize) -> Result<()> {
    for sizes in &FIGURES {
        print(rt, &[(Timed::Plain, *sizes)], repeats)?;
    }
    Ok(())
}

/// Runs the mode that the first argument behind the program's name names, or prints what the
/// program takes.
fn run(rt: &HostRuntime, args: &[String]) -> Result<()> {
    let [_, name, sizes @ ..] = args else {
        println!(rt; "{USAGE}")?;
        return Ok(());
    };
    match name.as_str() {
        "stages" => stages::print(rt, read(sizes, 5)?),
        "fold" => folds::print(rt, read(sizes, 9)?),
        "scheme" => {
            let (sizes, repeats) = read(sizes, 5)?;
            print(rt, &[(Timed::Plain, sizes)], repeats)
        }
        "hiding" => hiding(rt, read(sizes, 5)?),
        "stark" => {
            let (sizes, repeats) = read(sizes, 5)?;
            print(rt, &[(Timed::Stark, sizes)], repeats)
        }
        "figures" => figures(rt, read::<0>(sizes, 5)?.1),
        _ => Err(Fault::Usage),
    }
}

fn main(rt: HostRuntime) -> io::Result<ExitCode> {
    let args: Vec<String> = env::args(&rt)?.collect(rt.alloc())?;
    let Err(fault) = run(&rt, &args) else {
        return Ok(ExitCode::SUCCESS);
    };
    eprintln!(rt; "fri_bench: {fault:?}")?;
    if let Fault::Usage = fault {
        eprintln!(rt; "{USAGE}")?;
    }
    Ok(ExitCode::from(match fault {
        Fault::Usage | Fault::Sizes | Fault::Refused => 2,
        Fault::Memory => 3,
        Fault::Output => 4,
    }))
}
