//! The field of a JSON text at which reading it failed.

use std::alloc::{AllocError, Global};

/// How many bytes of a number are shown at most.
const MOST_FOUND: usize = 40;

/// A step from a record to one of its fields, or from a list to one of its entries.
#[derive(Clone, Copy)]
enum Step {
    /// To no field yet; also before all records and lists.
    Start,
    /// To the field whose name is this part of the text.
    Field { start: usize, end: usize },
    Entry(usize),
}

impl Step {
    /// The step past a comma.
    fn next(self) -> Step {
        match self {
            Step::Entry(index) => Step::Entry(index.saturating_add(1)),
            _ => Step::Start,
        }
    }

    /// The step past a quoted text, which names a field where none is named.
    fn past_quoted(self, start: usize, end: usize) -> Step {
        match self {
            Step::Start => Step::Field { start, end },
            _ => self,
        }
    }

    /// Adds the step to a path.
    fn push(self, path: &mut String, text: &str) -> Result<(), AllocError> {
        match self {
            Step::Start => {},
            Step::Field { start, end } => {
                if !path.is_empty() {
                    path.push_str(".")?;
                }
                path.push_str(text.get(start..end).unwrap_or(""))?;
            },
            Step::Entry(index) => write!(path, "[{index}]")?,
        }
        Ok(())
    }
}

/// The steps to what comes next in a text that is read byte by byte.
#[derive(Drop)]
struct Steps {
    /// The steps to the innermost record or list that is open.
    outer: Vec<Step>,
    /// The step in it.
    last: Step,
    /// Where the quoted text begins, within one.
    quoted: Option<usize>,
    is_escaped: bool,
}

impl Steps {
    /// Before any text.
    fn new(alloc: Global) -> Steps {
        Steps {
            outer: Vec::new(alloc),
            last: Step::Start,
            quoted: None,
            is_escaped: false,
        }
    }

    /// Reads a byte of a quoted text that begins at `start`.
    fn read_quoted(&mut self, start: usize, index: usize, byte: u8) {
        match byte {
            _ if self.is_escaped => self.is_escaped = false,
            b'\\' => self.is_escaped = true,
            b'"' => {
                self.last = self.last.past_quoted(start, index);
                self.quoted = None;
            },
            _ => {},
        }
    }

    /// Reads a byte that isn't quoted.
    fn read_plain(&mut self, index: usize, byte: u8) -> Result<(), AllocError> {
        match byte {
            b'"' => self.quoted = Some(index.saturating_add(1)),
            b'{' => {
                self.outer.push(self.last)?;
                self.last = Step::Start;
            },
            b'[' => {
                self.outer.push(self.last)?;
                self.last = Step::Entry(0);
            },
            b'}' | b']' => self.last = self.outer.pop().unwrap_or(Step::Start),
            b',' => self.last = self.last.next(),
            _ => {},
        }
        Ok(())
    }

    /// Reads the byte at this place of a text.
    fn read(&mut self, index: usize, byte: u8) -> Result<(), AllocError> {
        match self.quoted {
            Some(start) => self.read_quoted(start, index, byte),
            None => self.read_plain(index, byte)?,
        }
        Ok(())
    }

    /// The path of fields and entries, whose names are in the text.
    fn path(&self, alloc: Global, text: &str) -> Result<String, AllocError> {
        let mut path = String::new(alloc);
        for step in &self.outer {
            step.push(&mut path, text)?;
        }
        self.last.push(&mut path, text)?;
        Ok(path)
    }
}

/// Where the byte of a text stands that this line and column name, both counted from 1.
pub(crate) fn place_of(text: &str, line: usize, column: usize) -> usize {
    let (mut lines, mut start) = (1, 0usize);
    for (index, byte) in text.bytes().enumerate() {
        if lines == line {
            break;
        }
        if byte == b'\n' {
            lines = lines.saturating_add(1);
            start = index.saturating_add(1);
        }
    }
    start.saturating_add(column.saturating_sub(1))
}

/// The path to what stands at this place of a JSON text, as
/// `commitments[1].matrices[0].values[3]`. Where a record or a list ends it is the path to that.
/// Nothing is said of it for a text that isn't JSON up to there.
pub(crate) fn field_at(alloc: Global, text: &str, place: usize) -> Result<String, AllocError> {
    let mut steps = Steps::new(alloc);
    for (index, byte) in text.bytes().take(place).enumerate() {
        steps.read(index, byte)?;
    }
    if matches!(text.as_bytes().get(place), Some(b'}' | b']')) {
        steps.last = Step::Start;
    }
    steps.path(alloc, text)
}

/// The number or the word at this place of a text, as far as `MOST_FOUND` bytes; empty where there
/// is something else.
pub(crate) fn scalar_at(text: &str, place: usize) -> &str {
    let rest = text.get(place..).unwrap_or("");
    for (index, byte) in rest.bytes().enumerate() {
        let is_part = byte.is_ascii_alphanumeric() || matches!(byte, b'-' | b'+' | b'.');
        if !is_part || index == MOST_FOUND {
            return rest.get(..index).unwrap_or("");
        }
    }
    rest
}
