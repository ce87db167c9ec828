//! The contents of files.

use std::{fs, io};

/// The text of the file, or of standard input for `-`.
pub fn text_of(rt: &HostRuntime, file: &str) -> io::Result<String> {
    if file == "-" {
        return io::read_to_string(rt.alloc(), rt.stdin());
    }
    fs::read_to_string(rt, file)
}

/// The bytes of the file.
pub fn bytes_of(rt: &HostRuntime, file: &str) -> io::Result<Vec<u8>> {
    fs::read(rt, file)
}
