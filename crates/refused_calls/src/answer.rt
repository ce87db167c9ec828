//! What a call answers, in a line, and why none was made.

use p3_challenger::{CanSample, Sha256Challenger};
use p3_field::BabyBear;
use std::alloc::AllocError;
use std::fmt::{Debug, Write};
use std::io::ErrorKind;
use std::{fmt, io};

/// What is made, or why no call was answered.
pub type Result<T> = std::result::Result<T, Fault>;

/// Why no call was answered.
#[derive(Drop)]
pub enum Fault {
    /// There is no call of that name.
    Name,
    /// What a call is made on can't be used so.
    Inputs,
    /// Memory was refused before the call or after it.
    Memory,
    /// A write failed.
    Output,
}

impl From<AllocError> for Fault {
    fn from(_error: AllocError) -> Self {
        Fault::Memory
    }
}

impl From<io::Error> for Fault {
    fn from(error: io::Error) -> Self {
        match error.kind() {
            ErrorKind::OutOfMemory => Fault::Memory,
            // An argument that isn't text names no call.
            ErrorKind::InvalidData => Fault::Name,
            _ => Fault::Output,
        }
    }
}

/// The digest of a text by FNV-1a of 64 bits.
#[derive(Drop)]
struct Digest(u64);

impl Write for Digest {
    fn write_str(&mut self, text: &str) -> fmt::Result {
        for byte in text.as_bytes() {
            self.0 = (self.0 ^ u64::from(*byte)).wrapping_mul(0x0100_0000_01b3);
        }
        Ok(())
    }
}

/// What a call belongs to, and its own name.
pub type Name = (&'static str, &'static str);

/// Prints what the call answers; to the error stream the digest of an `Ok`.
pub fn tell<T: Debug, E: Debug>(
    rt: &HostRuntime,
    name: Name,
    answer: &std::result::Result<T, E>,
) -> Result<()> {
    tell_left(rt, name, answer, ["", ""])
}

/// The same, and what the call leaves.
pub fn tell_left<T: Debug, E: Debug>(
    rt: &HostRuntime,
    (subject, call): Name,
    answer: &std::result::Result<T, E>,
    [first, second]: [&'static str; 2],
) -> Result<()> {
    match answer {
        Ok(value) => {
            let mut digest = Digest(0xcbf2_9ce4_8422_2325);
            // It takes any text.
            let _ = write!(digest, "{value:?}");
            println!(rt; "{subject} {call}: ok{first}{second}")?;
            eprintln!(rt; "{:016x}", digest.0)?;
        }
        Err(refusal) => println!(rt; "{subject} {call}: refused by {refusal:?}{first}{second}")?,
    }
    Ok(())
}

/// Prints what a call answers that commits.
pub fn tell_commitment<Com: Debug + Drop, Data: Drop, E: Debug + Drop>(
    rt: &HostRuntime,
    name: Name,
    answer: std::result::Result<(Com, Data), E>,
) -> Result<()> {
    let answer = match answer {
        Ok((commitment, _data)) => Ok(commitment),
        Err(refusal) => Err(refusal),
    };
    tell(rt, name, &answer)
}

/// The element that the challenger gives next.
pub fn drawn(challenger: &mut Sha256Challenger) -> BabyBear {
    CanSample::<BabyBear>::sample(challenger)
}

/// Whether the challenger is as new, in words.
pub fn kept(challenger: &Sha256Challenger) -> &'static str {
    if *challenger == Sha256Challenger::new() {
        ", challenger kept"
    } else {
        ", challenger moved"
    }
}
