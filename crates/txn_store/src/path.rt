//! Paths of plain segments.
ghost use Rattle.std.specs.Prelude.{◌≡◌, ◌↔◌, ◌-◌, ◌+◌, ◌≤◌, ◌&&◌, ◌∷◌, ◌++◌, [], refl, Some, true, false, nat_eq, length, slice_get, string_bytes, IfOk, OnOk, IsErrOf, IsTrue};
ghost use Rattle.std.specs.List.{list_all};
ghost use Rattle.std.specs.Option.{option_copied};
ghost use Rattle.std.specs.Ordering.{nat_cmp};
ghost use Rattle.std.specs.Cmp.Lexicographic.{pointwise, slice_cmp, lists_equiv, lists_total, lists_ties, nat_list_eq_equiv, nat_list_cmp_total, texts_ties};
ghost use Rattle.std.specs.Cmp.{partial_equiv_from_equiv, partial_order_from_agreeing_total};
ghost use Rattle.txn_store.specs.Paths.{is_plain_byte, is_dots, is_plain, all_plain, parts, shown, path_cmp, is_below};
ghost use Rattle.txn_store.specs.PathText.{lines_of, segments_in, IsKept};

use crate::text::{ShortText, Text};
use std::alloc::{AllocError, Global};
use std::cmp::Ordering;
use std::fmt;
use std::marker::Model;
use thiserror::Error;

/// Why there is no path.
#[derive(Clone, Copy, Debug, PartialEq, Eq, Drop, Error)]
pub enum PathFault {
    /// A segment is not plain: it is empty, `.` or `..`, or has a byte other than an ASCII letter, a digit,
    /// `-`, `_` and `.`.
    #[error("bad segment")]
    BadSegment,
    /// A growth was refused.
    #[error("no memory")]
    NoMemory,
}

fn is_plain_byte(byte: u8) -> bool
    ensures { result ≡ is_plain_byte byte }
{
    byte.is_ascii_alphanumeric() || byte == b'-' || byte == b'_' || byte == b'.'
}

fn is_dots(text: &str) -> bool
    ensures { result ≡ is_dots text.now }
{
    text == "." || text == ".."
}

fn has_plain_bytes(text: &str) -> bool
    ensures { result ≡ list_all is_plain_byte text.now }
{
    text.as_bytes().iter().all(|byte| is_plain_byte(*byte))
}

/// Whether a text is a plain segment: not empty, not `.` or `..`, and of ASCII letters, digits, `-`, `_` and
/// `.` alone.
pub fn is_plain(text: &str) -> bool
    ensures { result ≡ is_plain text.now }
{
    !text.is_empty() && !is_dots(text) && has_plain_bytes(text)
}

/// Whether each part of a text is plain, empty parts aside.
fn has_plain_parts(text: &str) -> bool
    ensures { result ≡ all_plain (parts text.now) }
{
    text.split('/')
        .all(|part| part.is_empty() || is_plain(part))
}

/// A copy of a text, with room for more bytes.
fn with_room(alloc: Global, text: &str, more: usize) -> Result<String, AllocError>
    ensures { IfOk result (λ copy. string_bytes copy ≡ text.now) }
{
    let mut copy = String::with_capacity(alloc, text.len().saturating_add(more))?;
    copy.push_str(text)?;
    Ok(copy)
}

fn push_line(text: &mut String, segment: &str) -> Result<(), AllocError>
    ensures { OnOk result (string_bytes text.new ≡ string_bytes text.old ++ segment.now ++ 10 ∷ []) }
{
    text.push_str(segment)?;
    text.push('\n')
}

/// A list of plain segments. A clause sees the segments, each as its bytes.
#[derive(Drop)]
pub struct Path {
    text: Text,
}

impl Model for Path {
    ghost use Rattle.txn_store.specs.Paths.{Segments};
    ghost use Rattle.txn_store.specs.PathText.{segments_in, IsKept};

    ghost Value = { Segments };

    ghost view = { λ p. segments_in p.text };

    ghost invariant = { λ p. IsKept p.text };
}

impl Path {
    /// The path of no segment.
    pub fn root(alloc: Global) -> Path
        ensures { result ≡ [] }
    {
        Path {
            text: Text::of_short(alloc, ShortText::new()),
        }
    }

    /// The path whose segments stand between the slashes of a text. Empty parts are dropped.
    ///
    /// # Errors
    ///
    /// [`PathFault::BadSegment`] exactly where a part is no plain segment; [`PathFault::NoMemory`] where a growth was refused.
    pub fn from_text(alloc: Global, text: &str) -> Result<Path, PathFault>
        ensures ok { IfOk result (λ path. path ≡ parts text.now) }
        ensures plain { OnOk result (IsTrue (all_plain (parts text.now))) }
        ensures bad_segment { IsErrOf result PathFault.BadSegment ↔ (all_plain (parts text.now) ≡ false) }
    {
        if !has_plain_parts(text) {
            return Err(PathFault::BadSegment);
        }
        let mut kept = String::with_capacity(alloc, text.len().saturating_add(1))?;
        for part in text.split('/') {
            if !part.is_empty() {
                push_line(&mut kept, part)?;
            }
        }
        Ok(Path::from_lines(kept))
    }

    /// This path with one more segment.
    ///
    /// # Errors
    ///
    /// [`PathFault::BadSegment`] exactly where that is no plain segment; [`PathFault::NoMemory`] where a growth was refused.
    pub fn join(&self, segment: &str) -> Result<Path, PathFault>
        ensures ok { IfOk result (λ path. path ≡ self.now ++ segment.now ∷ []) }
        ensures plain { OnOk result (IsTrue (is_plain segment.now)) }
        ensures bad_segment { IsErrOf result PathFault.BadSegment ↔ (is_plain segment.now ≡ false) }
    {
        if !is_plain(segment) {
            return Err(PathFault::BadSegment);
        }
        let more = segment.len().saturating_add(1);
        let mut text = with_room(self.text.allocator(), self.text.as_str(), more)?;
        push_line(&mut text, segment)?;
        Ok(Path::from_lines(text))
    }

    /// This path with two more segments, by one allocation: where both are plain, as `join` of the second to `join` of the
    /// first.
    ///
    /// # Errors
    ///
    /// [`PathFault::BadSegment`] exactly where one of them is no plain segment; [`PathFault::NoMemory`] where a growth was
    /// refused.
    pub fn join_two(&self, first: &str, second: &str) -> Result<Path, PathFault>
        ensures ok { IfOk result (λ path. path ≡ self.now ++ first.now ∷ second.now ∷ []) }
        ensures plain { OnOk result (IsTrue (is_plain first.now) × IsTrue (is_plain second.now)) }
        ensures bad_segment { IsErrOf result PathFault.BadSegment ↔ ((is_plain first.now && is_plain second.now) ≡ false) }
    {
        if !is_plain(first) || !is_plain(second) {
            return Err(PathFault::BadSegment);
        }
        let more = first.len().saturating_add(second.len()).saturating_add(2);
        let mut text = with_room(self.text.allocator(), self.text.as_str(), more)?;
        push_line(&mut text, first)?;
        push_line(&mut text, second)?;
        Ok(Path::from_lines(text))
    }

    /// The last segment.
    pub fn filename(&self) -> Option<&str>
        ensures { option_copied result ≡ slice_get self.now (length self.now - 1) }
    {
        let lines = self.text.as_str().strip_suffix('\n')?;
        match lines.rsplit_once('\n') {
            Some((_, last)) => Some(last),
            None => Some(lines),
        }
    }

    /// Whether this path is strictly below a prefix, by whole segments.
    pub fn is_below(&self, prefix: &Path) -> bool
        ensures { result ≡ is_below prefix.now self.now }
    {
        let text = self.text.as_bytes();
        let front = prefix.text.as_bytes();
        text.starts_with(front) && front.len() < text.len()
    }

    /// A path of the same segments.
    ///
    /// # Errors
    ///
    /// Want of memory alone, which changes nothing.
    pub fn try_clone(&self) -> Result<Path, AllocError>
        ensures { IfOk result (λ path. path ≡ self.now) }
    {
        Ok(Path {
            text: self.text.try_clone()?,
        })
    }

    /// The law that each segment of a path is plain.
    pub fn is_of_plain_segments(&self)
        ensures { IsTrue (all_plain self.now) }
    {
        let _ = &self.text;
    }

    /// Each segment, and a line feed after it.
    pub(crate) fn as_lines(&self) -> &str
        ensures lines { result.now ≡ lines_of self.now }
        ensures plain { IsTrue (all_plain self.now) }
    {
        self.text.as_str()
    }

    /// The path of a text of plain lines.
    pub(crate) fn from_lines(text: String) -> Path
        requires { IsKept (string_bytes text) }
        ensures { result ≡ segments_in (string_bytes text) }
    {
        Path {
            text: Text::of(text),
        }
    }

    /// The path of a short text of plain lines. It takes no memory.
    pub(crate) fn from_short_lines(alloc: Global, text: ShortText) -> Path
        requires { IsKept text.bytes }
        ensures { result ≡ segments_in text.bytes }
    {
        Path {
            text: Text::of_short(alloc, text),
        }
    }
}

/// The segments, joined by slashes.
impl fmt::Display for Path {
    ghost output = { λ path. Some (shown path) };

    fn fmt<W: fmt::Write>(&self, f: &mut fmt::Formatter<W>) -> fmt::Result {
        let Some(lines) = self.text.as_str().strip_suffix('\n') else {
            return Ok(());
        };
        let mut separator = "";
        for segment in lines.split('\n') {
            write!(f, "{separator}{segment}")?;
            separator = "/";
        }
        Ok(())
    }
}

impl PartialEq for Path {
    ghost eq = { pointwise (pointwise nat_eq) };

    ghost laws = { partial_equiv_from_equiv (lists_equiv nat_list_eq_equiv) };

    fn eq(&self, other: &Self) -> bool {
        self.text.as_str() == other.text.as_str()
    }
}

impl Eq for Path {
    ghost laws = { lists_equiv nat_list_eq_equiv };
}

impl PartialOrd for Path {
    ghost partial_cmp = { λ x y. Some (path_cmp x y) };

    ghost laws = { partial_order_from_agreeing_total path_cmp (lists_total nat_list_cmp_total) (λ x y. refl) (lists_ties (slice_cmp nat_cmp) texts_ties) };

    fn partial_cmp(&self, other: &Self) -> Option<Ordering> {
        Some(self.cmp(other))
    }
}

impl Ord for Path {
    ghost cmp = { path_cmp };

    ghost total = { lists_total nat_list_cmp_total };

    ghost matches_partial_cmp = { λ x y. refl };

    ghost matches_eq = { lists_ties (slice_cmp nat_cmp) texts_ties };

    fn cmp(&self, other: &Self) -> Ordering {
        self.text.as_str().cmp(other.text.as_str())
    }
}
