//! Standard output as a file: what a run printed and did not note is cut off by the next one.
ghost use Rattle.std.specs.Prelude.{◌≡◌, Some, IfSome};

use crate::journal::Line;
use libc::{SEEK_END, STDOUT_FILENO, lseek};
use std::fs::{OpenFile, OpenOptions};
use std::os::unix::fs::MetadataExt;
use std::rt::Files;
use std::{fs, io};

/// Standard output by a path, so that it is measured and cut as a file.
const STANDARD_OUTPUT: &str = "/dev/stdout";

/// A file, by the numbers that the system gives it.
#[derive(Clone, Copy, Debug, PartialEq, Eq)]
pub struct FileId {
    pub device: u64,
    pub inode: u64,
}

/// Returns the file that standard output is, or `None` if it is a pipe, a terminal or another device.
pub(crate) fn output_file<R: Files>(rt: &R) -> Option<FileId> {
    match fs::metadata(rt, STANDARD_OUTPUT) {
        Ok(metadata) if metadata.is_file() => Some(FileId {
            device: metadata.dev(),
            inode: metadata.ino(),
        }),
        _ => None,
    }
}

/// Returns the length of the file that standard output is.
pub(crate) fn output_length() -> Option<u64> {
    u64::try_from(lseek(STDOUT_FILENO, 0, SEEK_END)).ok()
}

/// Cuts standard output to this length, if it is longer. What is printed next follows there.
pub(crate) fn cut_output<R: Files>(rt: &R, length: u64) -> io::Result<()> {
    match output_length() {
        Some(now) if now > length => {
            let file = OpenOptions::new().write(true).open(rt, STANDARD_OUTPUT)?;
            let cut = file.set_len(length);
            drop(file);
            let _ = output_length();
            cut
        }
        _ => Ok(()),
    }
}

/// A print that may be in the output without being noted: the journal ends before its message was taken.
#[derive(Clone, Copy)]
pub(crate) struct LastPrint {
    /// The file that messages were printed to last.
    file: Option<FileId>,
    /// Where the message begins in that file, if the last line of the journal says that it is printed.
    begins: Option<u64>,
}

impl LastPrint {
    /// Nothing was printed.
    pub(crate) const NONE: LastPrint = LastPrint {
        file: None,
        begins: None,
    };

    /// Notes the next line of the journal.
    pub(crate) fn recall(&mut self, line: &Line<'_>) {
        match line {
            Line::Output(file) => {
                self.file = Some(*file);
                self.begins = None;
            }
            Line::Printing(_, length) => self.begins = Some(*length),
            _ => self.begins = None,
        }
    }

    /// Returns the length that the output had before that print, if this file is the output.
    pub(crate) fn begins_in(&self, file: FileId) -> Option<u64>
        ensures same { IfSome result (λ n. self.now.file ≡ Some file) }
        ensures begins { IfSome result (λ n. self.now.begins ≡ Some n) }
    {
        match self.file {
            Some(last) if last == file => self.begins,
            _ => None,
        }
    }
}
