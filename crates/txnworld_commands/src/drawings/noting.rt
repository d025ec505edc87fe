//! A reader that notes the comment at the head of what is read from it.

ghost use Rattle.std.specs.Prelude.{◌≡◌};

use std::io::{self, Read};
use std::str;

/// The most bytes of a comment that are noted.
const MOST_NOTED: usize = 1024;

/// A reader, and the first of its lines that is not empty, where that is a comment.
#[derive(Drop)]
pub(crate) struct Noting<R> {
    pub(crate) inner: R,
    /// What was read of that line so far.
    pub(crate) line: Vec<u8>,
    /// Whether it has ended, or is no comment.
    pub(crate) is_over: bool,
}

impl<R> Noting<R> {
    /// Notes a byte that was read.
    fn note_byte(&mut self, byte: u8)
        ensures { self.new.inner ≡ self.old.inner }
    {
        let is_first = self.line.is_empty();
        match byte {
            b'\n' if is_first => {}
            b'\n' => self.is_over = true,
            _ if is_first && byte != b'#' => self.is_over = true,
            _ => self.is_over = self.line.len() >= MOST_NOTED || self.line.push(byte).is_err(),
        }
    }

    /// Notes bytes that were read.
    fn note(&mut self, bytes: &[u8])
        ensures { self.new.inner ≡ self.old.inner }
    {
        for byte in bytes {
            if !self.is_over {
                self.note_byte(*byte);
            }
        }
    }

    /// The comment that was noted, without its sign and the blanks around it: nothing where it is no text.
    pub(crate) fn comment(&self) -> &str {
        match str::from_utf8(self.line.as_slice()) {
            Ok(line) => line.trim_start_matches('#').trim(),
            Err(_) => "",
        }
    }
}

impl<R: Read> Read for Noting<R> {
    ghost remaining = { λ it. R.remaining it.inner };

    fn read(&mut self, buf: &mut [u8]) -> io::Result<usize> {
        let count = self.inner.read(buf)?;
        if let Some(bytes) = buf.get(..count) {
            self.note(bytes);
        }
        Ok(count)
    }
}
