//! The recordings that lines are read as.
ghost use Rattle.std.specs.Prelude.{◌≡◌, ℕ, List, IfOk, IfNone, IfSome, IsTrue, OnOk, map, string_bytes};
ghost use Rattle.std.specs.Str.Lines.{lines};
ghost use Rattle.txn_audit_recordings.specs.Rows.{row_text};
ghost use Rattle.txn_audit_recordings.specs.Written.{source_row_text};
ghost use Rattle.txn_audit_recordings.specs.declared.row.RecordedRow.{RecordedRow};
ghost use Rattle.txn_audit_recordings.specs.declared.source.Source.{Source};
ghost use Rattle.txn_audit_recordings.specs.Recordings.{is_first, IsOfObject, IsClockOf, IsNamedAt, NotesSource, Begins, AddsToLast, BeganIn, AddsLine, AddsRow, AddsLines, AddsSource, before_file};

use crate::read::{TextFault, read_row};
use crate::row::RecordedRow;
use crate::source::{Source, read_source};
use crate::texts::lines_in;
use std::alloc::{AllocError, Global};
use std::fmt;
use txn_script_lines::text_form::LineValue;

/// What is wrong with a line that is not taken.
#[derive(Clone, Copy, Debug, PartialEq, Eq)]
pub enum Wrong {
    /// It is no row.
    NoRow,
    /// It is the first row of a client, and the row before it does not name an object.
    NoSource,
    /// It is a row of a client, and no recording goes on there.
    NoRecording,
    /// It names another object than the first recording.
    OtherObject,
}

impl fmt::Display for Wrong {
    fn fmt<W: fmt::Write>(&self, f: &mut fmt::Formatter<W>) -> fmt::Result {
        let words = match self {
            Wrong::NoRow => "this is no row of a recording",
            Wrong::NoSource => "the row before does not say of which object the recording is",
            Wrong::NoRecording =>
                "no recording goes on here: one begins with its object and its client",
            Wrong::OtherObject => "this recording is of another object than the first",
        };
        f.write_str(words)
    }
}

/// Where a line stands.
#[derive(Clone, Copy)]
pub struct LinePlace {
    /// Its file, by its place among the files from 0.
    pub file: usize,
    /// Its number in that file, from 1.
    pub line: usize,
}

/// Where a recording begins.
#[derive(Clone, Copy)]
pub struct Begin {
    /// The line of its first row.
    pub at: LinePlace,
    /// The clock of its times, by its place among the clocks.
    pub clock: usize,
}

/// The recordings of files, as far as their lines were added.
pub struct Recordings<T> {
    /// The rows of each.
    pub rows: Vec<Vec<RecordedRow<T>>>,
    /// Where each begins.
    pub begins: Vec<Begin>,
    /// The clocks of the times, each as it was named first.
    pub clocks: Vec<Source>,
    /// The clock of the recording that comes next, where that was said.
    pub next: Option<usize>,
}

impl<T: Drop> Drop for Recordings<T> {
    /// Drops the rows: here, so that no crate above has to prove how each is dropped.
    fn drop(self) {
        let Recordings {
            rows: _,
            begins: _,
            clocks: _,
            next: _,
        } = self;
    }
}

/// What is wrong with a line that is not read.
fn not_read(fault: TextFault) -> Result<Wrong, AllocError> {
    match fault {
        TextFault::NoMemory => Err(AllocError),
        TextFault::BadRow => Ok(Wrong::NoRow),
    }
}

/// Whether a row is the first of its client.
fn is_first<T>(row: &RecordedRow<T>) -> bool
    ensures { result ≡ is_first row.now }
{
    matches!(row, RecordedRow::Client(_, _))
}

/// Whether the first of these clocks, if there is one, was named for this object.
fn is_of_object(clocks: &[Source], source: &Source) -> bool
    ensures { IsTrue result → IsOfObject clocks.now source.now }
{
    match clocks.first() {
        Some(first) => first.object.as_str() == source.object.as_str(),
        None => true,
    }
}

/// Whether a clock is the one that a source names.
fn is_clock_of(clock: &Source, source: &Source) -> bool
    ensures { IsTrue result → IsClockOf clock.now source.now }
{
    clock.clock.as_str() == source.clock.as_str()
}

/// Whether the clock at a place is the one that a source names.
fn is_clock_at(clocks: &[Source], place: usize, source: &Source) -> bool
    ensures { IsTrue result → IsNamedAt clocks.now place source.now }
{
    match clocks.get(place) {
        Some(clock) => is_clock_of(clock, source),
        None => false,
    }
}

/// The place of the clock that a source names, where it was named before.
fn place_of(clocks: &[Source], source: &Source) -> Option<usize>
    ensures { IfSome result (λ place. IsNamedAt clocks.now place source.now) }
{
    for place in 0..clocks.len() {
        if is_clock_at(clocks, place, source) {
            return Some(place);
        }
    }
    None
}

impl<T: LineValue> Recordings<T> {
    /// Before the first file.
    pub fn new(alloc: Global) -> Recordings<T> {
        Recordings {
            rows: Vec::new(alloc),
            begins: Vec::new(alloc),
            clocks: Vec::new(alloc),
            next: None,
        }
    }

    /// Notes a clock that was not named before. The only error is want of memory.
    fn note_new(&mut self, source: Source) -> Result<(), AllocError>
        ensures { OnOk result (NotesSource source self.old self.new) }
    {
        let place = self.clocks.as_slice().len();
        self.clocks.push(source)?;
        self.next = Some(place);
        Ok(())
    }

    /// Notes the clock of the next recording. The only error is want of memory.
    fn note(&mut self, source: Source) -> Result<(), AllocError>
        ensures { OnOk result (NotesSource source self.old self.new) }
    {
        let Some(place) = place_of(self.clocks.as_slice(), &source) else {
            return self.note_new(source);
        };
        drop(source);
        self.next = Some(place);
        Ok(())
    }

    /// Notes of what the next recording is: what is wrong with that, if anything.
    fn add_source(&mut self, source: Source) -> Result<Option<Wrong>, AllocError>
        ensures { IfOk result (λ wrong. IfNone wrong (AddsSource source self.old self.new)) }
    {
        if !is_of_object(self.clocks.as_slice(), &source) {
            drop(source);
            return Ok(Some(Wrong::OtherObject));
        }
        self.note(source)?;
        Ok(None)
    }

    /// Begins a recording with its first row, where its source was noted. Whether it was.
    fn begin(
        &mut self,
        alloc: Global,
        at: LinePlace,
        row: RecordedRow<T>,
    ) -> Result<bool, AllocError>
        ensures { IfOk result (λ began. IsTrue began → Begins at row self.old self.new) }
    {
        let Some(clock) = self.next else {
            drop(row);
            return Ok(false);
        };
        let mut rows = Vec::new(alloc);
        rows.push(row)?;
        self.rows.push(rows)?;
        self.begins.push(Begin { at, clock })?;
        self.next = None;
        Ok(true)
    }

    /// Whether a row of this file that names no client is of the last recording: that began there, and no other is to begin.
    fn goes_on(&self, file: usize) -> bool
        ensures { IsTrue result → BeganIn file self.now }
    {
        match self.begins.last() {
            Some(begin) => begin.at.file == file && self.next.is_none(),
            None => false,
        }
    }

    /// Adds a row to the last recording. Whether there is one.
    fn push_row(&mut self, row: RecordedRow<T>) -> Result<bool, AllocError>
        ensures { IfOk result (λ is_there. IsTrue is_there → AddsToLast row self.old self.new) }
    {
        let Some(mut last) = self.rows.pop() else {
            drop(row);
            return Ok(false);
        };
        last.push(row)?;
        self.rows.push(last)?;
        Ok(true)
    }

    /// Adds a row: to a new recording where it names a client, else to the last one. What is wrong with that, if anything.
    fn add_row(
        &mut self,
        alloc: Global,
        at: LinePlace,
        row: RecordedRow<T>,
    ) -> Result<Option<Wrong>, AllocError>
        ensures { IfOk result (λ wrong. IfNone wrong (AddsRow at row self.old self.new)) }
    {
        if is_first(&row) {
            return match self.begin(alloc, at, row)? {
                true => Ok(None),
                false => Ok(Some(Wrong::NoSource)),
            };
        }
        if !self.goes_on(at.file) {
            drop(row);
            return Ok(Some(Wrong::NoRecording));
        }
        match self.push_row(row)? {
            true => Ok(None),
            false => Ok(Some(Wrong::NoRecording)),
        }
    }

    /// Adds the line that names an object: what is wrong with it, if anything.
    fn add_source_line(&mut self, alloc: Global, words: &str) -> Result<Option<Wrong>, AllocError>
        ensures { IfOk result (λ wrong. IfNone wrong ((source : Source) × (words.now ≡ source_row_text (string_bytes source.object) (string_bytes source.clock) source.ahead) × AddsSource source self.old self.new)) }
    {
        match read_source(alloc, words) {
            Ok(source) => self.add_source(source),
            Err(fault) => Ok(Some(not_read(fault)?)),
        }
    }

    /// Adds the line of a row: what is wrong with it, if anything.
    fn add_row_line(
        &mut self,
        alloc: Global,
        at: LinePlace,
        words: &str,
    ) -> Result<Option<Wrong>, AllocError>
        ensures { IfOk result (λ wrong. IfNone wrong ((row : RecordedRow T) × (words.now ≡ row_text T.text row) × AddsRow at row self.old self.new)) }
    {
        match read_row(alloc, words) {
            Ok(row) => self.add_row(alloc, at, row),
            Err(fault) => Ok(Some(not_read(fault)?)),
        }
    }

    /// Adds a line of a file: what is wrong with it, if anything.
    fn add_line(
        &mut self,
        alloc: Global,
        at: LinePlace,
        words: &str,
    ) -> Result<Option<Wrong>, AllocError>
        ensures { IfOk result (λ wrong. IfNone wrong (AddsLine T.text at words.now self.old self.new)) }
    {
        if words.starts_with("of ") {
            return self.add_source_line(alloc, words);
        }
        self.add_row_line(alloc, at, words)
    }

    /// Adds lines of a file: the first that is not taken, from 1, and what is wrong with it.
    fn add_lines(
        &mut self,
        alloc: Global,
        file: usize,
        lines: &[&str],
    ) -> Result<Option<(usize, Wrong)>, AllocError>
        ensures { IfOk result (λ wrong. IfNone wrong (AddsLines T.text file 1 (map (λ line. line.now) lines.now) self.old self.new)) }
    {
        for (place, words) in lines.iter().enumerate() {
            let line = place + 1;
            if let Some(wrong) = self.add_line(alloc, LinePlace { file, line }, words)? {
                return Ok(Some((line, wrong)));
            }
        }
        Ok(None)
    }

    /// Adds the lines of the text of a file: the first that is not taken, from 1, and what is wrong with it. Where all are taken,
    /// each is the text of the source or of the row that it was added as, in their order, and none was left out.
    ///
    /// # Errors
    ///
    /// The only error is want of memory: some lines were added, and no more are to be.
    pub fn add_file(
        &mut self,
        alloc: Global,
        file: usize,
        text: &str,
    ) -> Result<Option<(usize, Wrong)>, AllocError>
        ensures { IfOk result (λ wrong. IfNone wrong (AddsLines T.text file 1 (lines text.now) (before_file self.old) self.new)) }
    {
        self.next = None;
        let found = lines_in(alloc, text)?;
        self.add_lines(alloc, file, found.as_slice())
    }
}
