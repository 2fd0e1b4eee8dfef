//! Input files.
use std::io::ErrorKind;
use std::{fs, io};

/// The bytes of a file. A file that is missing counts as empty; any other failure is the caller's to report.
pub fn read_or_empty(rt: &HostRuntime, path: &str) -> io::Result<Vec<u8>> {
    // The kind of the error decides, so it is no conversion.
    match fs::read(rt, path) {
        Err(e) if e.kind() == ErrorKind::NotFound => Ok(Vec::new(rt.alloc())),
        answer => answer,
    }
}
