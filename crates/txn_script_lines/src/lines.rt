//! The lines of a script, as a reader gives them.

ghost use Rattle.std.specs.Prelude.{◌≡◌, ◌≤◌, ◌<◌, ◌==◌, IfOk, IfErr, IfSome, Some, vec_len, position};
ghost use Rattle.std.specs.Io.BufRead.{strip_last};
ghost use Rattle.txn_script_lines.specs.Lines.{is_comment, is_skipped};
ghost use Rattle.txn_script_lines.specs.Grammar.{Says};
ghost use Rattle.txn_script_lines.specs.Reading.{reader_of, number_of, OnBadLine, IsRoom, is_above, TakesPiece, ReadsLine, ReadsNext, MeetsBad};

use crate::stop::Stop;
use crate::text_form::TextForm;
use std::alloc::{AllocError, Global};
use std::io::BufRead;
use std::{io, str};

/// A line is kept up to so many bytes, its line feed aside, also where each that says anything is shorter.
const LEAST_ROOM: usize = 256;

/// The lines of a script that are not skipped.
#[derive(Drop)]
pub struct Lines<R> {
    alloc: Global,
    reader: R,
    /// The line last read, whose room is used again.
    text: Vec<u8>,
    /// Its number, from 1.
    number: u64,
}

/// What was read of a line.
#[derive(Clone, Copy, Debug, PartialEq, Eq)]
enum Taken {
    /// None was left.
    End,
    /// All of it, with its line feed.
    Line,
    /// The beginning of a comment, whose rest was passed over.
    Comment,
    /// More than a line of a script has.
    TooLong,
}

/// Where the first line feed stands.
fn feed_place(bytes: &[u8]) -> Option<usize>
    ensures { result ≡ position (λ b. b == 10) bytes.now }
{
    bytes.iter().position(|byte| *byte == b'\n')
}

/// The most bytes of a line that is kept, if its text may have so many at most.
fn most_kept(most: Option<usize>) -> Option<usize>
    ensures { IsRoom most result }
{
    match most {
        Some(most) => Some(most.max(LEAST_ROOM)),
        None => None,
    }
}

/// How many bytes more are taken of a line that has so many: one past the most at most.
fn room_of(most: Option<usize>, length: usize) -> usize
    requires { IfSome most (λ most. length ≤ most) }
    ensures { 0 < result }
{
    match most {
        Some(most) => (most - length).saturating_add(1),
        None => usize::MAX,
    }
}

/// Whether a line of so many bytes is longer than any that is kept.
fn is_too_long(most: Option<usize>, length: usize) -> bool
    ensures { result ≡ is_above most length }
{
    match most {
        Some(most) => most < length,
        None => false,
    }
}

/// Appends to a line what the reader's buffer has of it, so many bytes at most. True where the line ends there.
fn take_piece<R: BufRead>(reader: &mut R, text: &mut Vec<u8>, room: usize) -> Result<bool, Stop>
    requires { 0 < room }
    ensures piece { IfOk result (TakesPiece (R.remaining reader.old) (R.remaining reader.new)
        text.old.items text.new.items) }
    ensures bad { IfErr result (λ stop. OnBadLine stop (λ _. ⊥)) }
{
    let available = match reader.fill_buf() {
        Ok(available) => available,
        Err(error) => {
            return match error.kind() {
                io::ErrorKind::Interrupted => Ok(false),
                _ => Err(Stop::of_read(error)),
            };
        }
    };
    let shown = &available[..available.len().min(room)];
    let (count, ended) = match feed_place(shown) {
        Some(place) => (place + 1, true),
        None => (shown.len(), shown.is_empty()),
    };
    let Ok(()) = text.extend_from_slice(&shown[..count]) else {
        return Err(Stop::NoMemory);
    };
    reader.consume(count);
    Ok(ended)
}

/// A line without the line feed at its end.
fn without_feed(text: &[u8]) -> &[u8]
    ensures { result.now ≡ strip_last 10 text.now }
{
    match text {
        [line @ .., b'\n'] => line,
        _ => text,
    }
}

/// A comment, of whatever bytes, or the beginning of one.
fn is_comment(line: &[u8]) -> bool
    ensures { result ≡ is_comment line.now }
{
    matches!(line, [b'#', ..])
}

/// An empty line or a comment.
fn is_skipped(line: &[u8]) -> bool
    ensures { result ≡ is_skipped line.now }
{
    line.is_empty() || is_comment(line)
}

/// The line that bytes say, if they are text and say one. The only error is want of memory.
fn line_of<L: TextForm>(alloc: Global, bytes: &[u8]) -> Result<Option<L>, AllocError>
    ensures says { IfOk result (λ read. IfSome read (Says L.text L.fits bytes.now)) }
    ensures all { IfOk result (λ read. (line : L) → Says L.text L.fits bytes.now line → read ≡ Some line) }
{
    match str::from_utf8(bytes) {
        Ok(words) => L::read_text(alloc, words),
        Err(_) => Ok(None),
    }
}

impl<R: BufRead> Lines<R> {
    /// The lines of a reader, none of them read.
    pub fn new(alloc: Global, reader: R) -> Lines<R>
        ensures reader { reader_of result ≡ reader }
        ensures number { number_of result ≡ 0 }
    {
        Lines {
            alloc,
            reader,
            text: Vec::new(alloc),
            number: 0,
        }
    }

    /// The refusal of the line last read.
    pub fn bad(&self) -> Stop
        ensures { result ≡ Stop.BadLine (number_of self.now) }
    {
        Stop::BadLine(self.number)
    }

    /// Reads the next line into the text, as far as it is needed, where `most` bytes of one are kept at most.
    fn read_text(&mut self, most: Option<usize>) -> Result<Taken, Stop>
        ensures number { self.new.number ≡ self.old.number }
        ensures ok { IfOk result (ReadsLine most (R.remaining self.old.reader)
            (R.remaining self.new.reader) self.new.text.items) }
        ensures bad { IfErr result (λ stop. OnBadLine stop (λ _. ⊥)) }
    {
        self.text.clear();
        for _piece in 0..u64::MAX {
            let room = room_of(most, self.text.len());
            if take_piece(&mut self.reader, &mut self.text, room)? {
                return Ok(if self.text.is_empty() {
                    Taken::End
                } else {
                    Taken::Line
                });
            }
            if is_comment(&self.text) {
                return match self.reader.skip_until(b'\n') {
                    Ok(_) => Ok(Taken::Comment),
                    Err(error) => Err(Stop::of_read(error)),
                };
            }
            if is_too_long(most, self.text.len()) {
                return Ok(Taken::TooLong);
            }
        }
        Err(Stop::ReadFailed)
    }

    /// The next line that is not skipped. After the last, the line of the number is the one past the end. Where the texts of
    /// lines have a bound, nothing of a line is read past that bound, or 256 bytes, but what the reader's buffer holds. Where
    /// they have none, a line without an end is kept until memory is wanting.
    ///
    /// # Errors
    ///
    /// `BadLine` where a line says nothing, which was read; `ReadFailed` where the reader failed, or has more lines than can be
    /// counted, and `NoMemory` where a growth was refused, after which a part of a line may have been read.
    pub fn next_line<L: TextForm>(&mut self) -> Result<Option<L>, Stop>
        ensures ok { IfOk result (ReadsNext L.text L.fits (R.remaining (reader_of self.old)) (number_of self.old)
            (R.remaining (reader_of self.new)) (number_of self.new)) }
        ensures bad { IfErr result (λ stop. OnBadLine stop
            (MeetsBad L.text L.fits (R.remaining (reader_of self.old)) (number_of self.old))) }
    {
        let most = most_kept(L::most_bytes());
        while self.number < u64::MAX {
            self.number += 1;
            let line = match self.read_text(most)? {
                Taken::End => return Ok(None),
                Taken::Comment => continue,
                Taken::TooLong => return Err(self.bad()),
                Taken::Line => without_feed(&self.text),
            };
            if is_skipped(line) {
                continue;
            }
            return match line_of(self.alloc, line) {
                Ok(Some(line)) => Ok(Some(line)),
                Ok(None) => Err(self.bad()),
                Err(_) => Err(Stop::NoMemory),
            };
        }
        Err(Stop::ReadFailed)
    }
}
