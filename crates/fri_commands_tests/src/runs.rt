//! Runs of the commands, each with what it must write and answer.

use fri_commands::{WRITE_FAILED, report_out_of_memory, run};
use std::alloc::Global;
use std::io;
use std::io::{ErrorKind, Write};
use std::process::Abort;

/// A command line, what it writes to the output and to the error stream, and the status.
type Row = (&'static str, &'static str, &'static str, u8);

static SCHEDULES: [Row; 12] = [
    ("schedule 10 2 3", "3 3 2\n", "", 0),
    ("schedule 10 2 1", "1 1 1 1 1 1 1 1\n", "", 0),
    ("schedule 10,6 2 3", "3 1 3 1\n", "", 0),
    ("schedule 10,8 2 3", "2 3 3\n", "", 0),
    ("schedule 10,1 2 3", "3 3 2\n", "", 0),
    ("schedule - 2 3", "\n", "", 0),
    ("schedule 2 2 3", "\n", "", 0),
    ("schedule 1 2 3", "\n", "", 0),
    ("schedule 63,0 0 63", "63\n", "", 0),
    ("schedule 10,10 2 3", "", "fri_run: bad heights\n", 2),
    ("schedule 6,10 2 3", "", "fri_run: bad heights\n", 2),
    ("schedule 10 2 0", "", "fri_run: bad cap\n", 2),
];

static FOLDS: [Row; 11] = [
    ("fold 0 3,5 1,1,2013265920,2013265920", "1 1\n5\n", "", 0),
    (
        "fold 1 3 1,1,2013265920,2013265920",
        "1\n1 2013265920\n",
        "",
        0,
    ),
    ("fold 0 7 5,3", "1\n11\n", "", 0),
    ("fold 0 - 7", "\n7\n", "", 0),
    ("fold 63 - 5,3", "\n5 3\n", "", 0),
    (
        "fold 0 3 1,1,2013265920,2013265920",
        "",
        "fri_run: bad number of betas\n",
        2,
    ),
    ("fold 1 3 5,3", "", "fri_run: bad number of betas\n", 2),
    ("fold 0 3 1,2,3", "", "fri_run: bad length\n", 2),
    ("fold 0 - -", "", "fri_run: bad length\n", 2),
    ("fold 0 3 1,2013265921", "", "fri_run: bad number\n", 2),
    ("fold 0 2013265921 1,1", "", "fri_run: bad number\n", 2),
];

static OPENINGS: [Row; 16] = [
    (
        "prove 1 0 5 1,3",
        "2013265918\naccepted\nstates equal\n",
        "",
        0,
    ),
    ("prove 1 0 2 9", "9\naccepted\nstates equal\n", "", 0),
    ("prove 1 0 0 9", "9\naccepted\nstates equal\n", "", 0),
    (
        "prove 1 0 5 1,2013265920,1,2013265920",
        "25\naccepted\nstates equal\n",
        "",
        0,
    ),
    ("prove 1 1 2 1,1,1,1", "1\naccepted\nstates equal\n", "", 0),
    (
        "prove 1 0 31 1,3",
        "",
        "fri_run: refused: point in evaluation domain\n",
        1,
    ),
    (
        "prove 1 1 2 1,1",
        "",
        "fri_run: refused: input height too small\n",
        1,
    ),
    (
        "prove 1 63 5 1,3",
        "",
        "fri_run: refused: input height too small\n",
        1,
    ),
    (
        "prove 1 1 31 1,3",
        "",
        "fri_run: refused: input height too small\n",
        1,
    ),
    (
        "prove 1 18446744073709551615 5 1,3",
        "",
        "fri_run: refused: final height overflow\n",
        1,
    ),
    ("prove 28 0 5 1,3", "", "fri_run: bad number\n", 2),
    ("prove 0 0 5 1,3", "", "fri_run: bad number\n", 2),
    (
        "prove 1 18446744073709551616 5 1,3",
        "",
        "fri_run: bad number\n",
        2,
    ),
    ("prove 1 0 5 1,2,3", "", "fri_run: bad length\n", 2),
    ("prove 27 0 5 1,3", "", "fri_run: bad length\n", 2),
    ("prove 1 0 5 -", "", "fri_run: bad length\n", 2),
];

/// Commands, numbers, and which of two faults comes first.
static FAULTS: [Row; 17] = [
    ("", "", "fri_run: bad command\n", 2),
    ("schedule 10 2", "", "fri_run: bad command\n", 2),
    ("schedule 10 2 3 4", "", "fri_run: bad command\n", 2),
    ("fold 0 3", "", "fri_run: bad command\n", 2),
    ("prove 1 0 5", "", "fri_run: bad command\n", 2),
    ("prove 1 0 5 1,3 9", "", "fri_run: bad command\n", 2),
    ("schedule 64 2 3", "", "fri_run: bad number\n", 2),
    ("schedule 10 64 3", "", "fri_run: bad number\n", 2),
    ("schedule 10 2 64", "", "fri_run: bad number\n", 2),
    ("schedule  2 3", "", "fri_run: bad number\n", 2),
    ("schedule 10,06 2 3", "", "fri_run: bad number\n", 2),
    ("schedule 10,,6 2 3", "", "fri_run: bad number\n", 2),
    ("schedule 10 +2 3", "", "fri_run: bad number\n", 2),
    ("schedule 10,10 x 3", "", "fri_run: bad heights\n", 2),
    ("schedule 10,10,x 2 3", "", "fri_run: bad number\n", 2),
    ("schedule 10 x 0", "", "fri_run: bad number\n", 2),
    ("fold x - 1,2,3", "", "fri_run: bad number\n", 2),
];

/// The words of a command line; two spaces have an empty one between them.
fn words(rt: &impl Abort, alloc: Global, line: &str) -> Vec<String> {
    let mut words = Vec::new(alloc);
    for word in line.split(' ') {
        let word = word.to_string(alloc).expect(rt, "memory");
        words.push(word).expect(rt, "memory");
    }
    words
}

/// Runs each row over writers in memory.
fn check(rt: &impl Abort, alloc: Global, rows: &[Row]) {
    for (line, output, fault, status) in rows {
        let args = words(rt, alloc, line);
        let mut out: Vec<u8> = Vec::new(alloc);
        let mut err: Vec<u8> = Vec::new(alloc);
        let found = run(alloc, &args, &mut out, &mut err);
        assert!(rt; found == *status, "{line}");
        assert!(rt; out.as_slice() == output.as_bytes(), "{line}");
        assert!(rt; err.as_slice() == fault.as_bytes(), "{line}");
    }
}

#[test]
fn schedules(rt: HostRuntime) {
    check(&rt, rt.alloc(), &SCHEDULES);
}

#[test]
fn folds(rt: HostRuntime) {
    check(&rt, rt.alloc(), &FOLDS);
}

#[test]
fn openings(rt: HostRuntime) {
    check(&rt, rt.alloc(), &OPENINGS);
}

#[test]
fn faults(rt: HostRuntime) {
    check(&rt, rt.alloc(), &FAULTS);
}

#[test]
fn no_arguments(rt: HostRuntime) {
    let mut out: Vec<u8> = Vec::new(rt.alloc());
    let mut err: Vec<u8> = Vec::new(rt.alloc());
    assert!(rt; run(rt.alloc(), &[], &mut out, &mut err) == 2);
    assert!(rt; out.is_empty());
    assert!(rt; err.as_slice() == "fri_run: bad command\n".as_bytes());
}

/// A writer that takes a byte at a time, counts its calls, and fails at the one after so many.
#[derive(Drop)]
struct Counting {
    calls: usize,
    fails_after: usize,
}

impl Counting {
    fn new(fails_after: usize) -> Self {
        Counting {
            calls: 0,
            fails_after,
        }
    }

    fn call(&mut self) -> io::Result<()> {
        let fails = self.calls == self.fails_after;
        self.calls = self.calls.saturating_add(1);
        if fails {
            return Err(io::Error::from(ErrorKind::StorageFull));
        }
        Ok(())
    }
}

impl Write for Counting {
    fn write(&mut self, buf: &[u8]) -> io::Result<usize> {
        self.call()?;
        Ok(buf.len().min(1))
    }

    fn flush(&mut self) -> io::Result<()> {
        self.call()
    }
}

/// A run's status, and how often it calls the stream that it writes to, and the other one. Each
/// fails after so many calls.
fn calls_of(
    rt: &impl Abort,
    alloc: Global,
    line: &str,
    to_output: bool,
    fails_after: usize,
) -> (u8, usize, usize) {
    let args = words(rt, alloc, line);
    let (mut out, mut err) = (Counting::new(fails_after), Counting::new(fails_after));
    let status = run(alloc, &args, &mut out, &mut err);
    let (own, other) = if to_output {
        (out.calls, err.calls)
    } else {
        (err.calls, out.calls)
    };
    (status, own, other)
}

/// Each command and each kind of fault with its status and its calls: one for each byte, and one to
/// flush.
static CALLS: [(&str, u8, usize); 6] = [
    ("schedule 10,6 2 3", 0, 9),
    ("fold 0 3,5 1,1,2013265920,2013265920", 0, 7),
    ("prove 1 0 5 1,3", 0, 34),
    ("prove 1 0 31 1,3", 1, 46),
    ("schedule 10 2 0", 2, 18),
    ("prove 1 0 5", 2, 22),
];

/// A run ends with its status after its calls of one stream, and with 4 after the first of them
/// that fails.
#[test]
fn failed_writes(rt: HostRuntime) {
    for (line, status, calls) in &CALLS {
        let to_output = *status == 0;
        for fails_after in 0..*calls {
            let found = calls_of(&rt, rt.alloc(), *line, to_output, fails_after);
            assert!(rt; found == (WRITE_FAILED, fails_after + 1, 0), "{line}");
        }
        let found = calls_of(&rt, rt.alloc(), *line, to_output, *calls);
        assert!(rt; found == (*status, *calls, 0), "{line}");
    }
}

#[test]
fn want_of_memory(rt: HostRuntime) {
    let mut err: Vec<u8> = Vec::new(rt.alloc());
    assert!(rt; report_out_of_memory(&mut err) == 3);
    assert!(rt; err.as_slice() == "fri_run: out of memory\n".as_bytes());
    // The line and its line feed are 23 bytes, and are flushed.
    for fails_after in 0..24 {
        let mut failing = Counting::new(fails_after);
        let status = report_out_of_memory(&mut failing);
        assert!(rt; status == WRITE_FAILED && failing.calls == fails_after + 1);
    }
}
