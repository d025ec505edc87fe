//! The lines of the bytes of a file.
ghost use Rattle.std.specs.Prelude.{◌≡◌, ℕ, List, MatchOption, MatchResult, IfOk, length, map, take};
ghost use Rattle.std.specs.Str.{IsUtf8, IsValidUpTo};
ghost use Rattle.std.specs.Str.Lines.{IsFirstLine, lines};
ghost use Rattle.txn_audit_recordings.specs.Texts.{AreWholeLines, line_after};

use std::alloc::{AllocError, Global};
use std::str;

/// How many of these bytes are whole lines: those up to the last line feed.
pub fn whole_lines(bytes: &[u8]) -> usize
    ensures { AreWholeLines bytes.now result }
{
    match bytes.iter().rposition(|byte| *byte == b'\n') {
        Some(place) => place.saturating_add(1),
        None => 0,
    }
}

/// The line, from 1, of the byte that stands behind these.
fn line_after(before: &[u8]) -> usize
    ensures { result ≡ line_after before.now }
{
    let feeds = before.iter().filter(|byte| **byte == b'\n').count();
    feeds.saturating_add(1)
}

/// The text that bytes are.
///
/// # Errors
///
/// The line, from 1, of the first byte that is no text.
pub fn text_in(bytes: &[u8]) -> Result<&str, usize>
    ensures { MatchResult result (λ text. text.now ≡ bytes.now) (λ line. (valid : ℕ) × IsValidUpTo bytes.now valid × (line ≡ line_after (take valid bytes.now))) }
{
    match str::from_utf8(bytes) {
        Ok(text) => Ok(text),
        Err(error) => Err(line_after(&bytes[..error.valid_up_to()])),
    }
}

/// The first line of these bytes. None where they are no text, or empty.
pub fn first_line(bytes: &[u8]) -> Option<&str>
    ensures { MatchOption result (IsUtf8 bytes.now → length bytes.now ≡ 0) (λ line. (rest : List ℕ) × IsUtf8 bytes.now × IsFirstLine bytes.now line.now rest) }
{
    match str::from_utf8(bytes) {
        Ok(text) => text.lines().next(),
        Err(_) => None,
    }
}

/// The lines of a text. The only error is want of memory.
pub(crate) fn lines_in<'a>(alloc: Global, text: &'a str) -> Result<Vec<&'a str>, AllocError>
    ensures { IfOk result (λ found. map (λ line. line.now) found.items ≡ lines text.now) }
{
    text.lines().collect(alloc)
}
