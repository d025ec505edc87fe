//! The text of an entry, for lines and command lines.
ghost use Rattle.std.specs.Prelude.{◌≡◌, ◌↔◌, Some, IfOk, IfSome, string_bytes};
ghost use Rattle.txn_script_lines.specs.declared.values.entry.Entry.{Entry};
ghost use Rattle.txn_script_lines.specs.values.Text.{entry_text, IsEntry};
ghost use Rattle.txn_script_lines.specs.values.TextLaws.{entry_utf8};

use crate::numerals::read_decimal;
use crate::text_form::{LineValue, TextForm};
use crate::values::entry::Entry;
use bytes::Bytes;
use percent_encoding::{AsciiSet, CONTROLS, ascii_set, percent_decode, percent_encode};
use std::alloc::{AllocError, Global};
use std::fmt;

/// The bytes that a text does not show as they are, beside those outside ASCII: the controls, the space and `%`.
pub const ESCAPED: AsciiSet = ascii_set!(CONTROLS.add(b' ').add(b'%'));

/// It is shown as `epoch:payload`: a plain decimal, and the payload with each byte outside `!` to `~`, and `%`, as `%XX` with
/// two upper-case hexadecimal digits.
impl fmt::Display for Entry {
    ghost use Rattle.std.specs.Prelude.{Some};
    ghost use Rattle.txn_script_lines.specs.values.Text.{entry_text};

    ghost output = { λ value. Some (entry_text value) };

    fn fmt<W: fmt::Write>(&self, f: &mut fmt::Formatter<W>) -> fmt::Result {
        let epoch = self.epoch;
        let payload = percent_encode(self.payload.as_slice(), ESCAPED);
        write!(f, "{epoch}:{payload}")
    }
}

/// The text of an entry.
///
/// # Errors
///
/// Want of memory alone, which changes nothing.
pub fn encode(alloc: Global, entry: &Entry) -> Result<String, AllocError>
    ensures { IfOk result (λ text. string_bytes text ≡ entry_text entry.now) }
{
    let epoch = entry.epoch;
    let mut text = format!(in alloc; "{epoch}:")?;
    percent_encode(entry.payload.as_slice(), ESCAPED).append_to(&mut text)?;
    Ok(text)
}

/// The entry of a text, where it is the one text of that entry, and of no other text.
///
/// # Errors
///
/// Want of memory alone, which changes nothing.
pub fn decode(alloc: Global, text: &str) -> Result<Option<Entry>, AllocError>
    ensures entry { IfOk result (λ read. IfSome read IsEntry) }
    ensures exact { IfOk result (λ read. (v : Entry) → IsEntry v → (read ≡ Some v) ↔ (text.now ≡ entry_text v)) }
{
    let Some(entry) = read_loosely(alloc, text)? else {
        return Ok(None);
    };
    let written = encode(alloc, &entry)?;
    if written.as_str() == text {
        Ok(Some(entry))
    } else {
        Ok(None)
    }
}

impl TextForm for Entry {
    ghost text = { entry_text };

    ghost fits = { IsEntry };

    ghost is_utf8 = { entry_utf8 };

    fn read_text(alloc: Global, words: &str) -> Result<Option<Entry>, AllocError> {
        decode(alloc, words)
    }

    /// A payload has no bound.
    fn most_bytes() -> Option<usize> {
        None
    }
}

impl LineValue for Entry {
    ghost use Rattle.std.proofs.Common.{refl};

    ghost shows = { λ v. refl };
}

/// The entry of a text that may have more escapes than it needs, or signs that are none.
fn read_loosely(alloc: Global, text: &str) -> Result<Option<Entry>, AllocError>
    ensures entry { IfOk result (λ read. IfSome read IsEntry) }
    ensures reads { IfOk result (λ read. (v : Entry) → IsEntry v → text.now ≡ entry_text v → read ≡ Some v) }
{
    let Some((epoch, escaped)) = text.split_once(':') else {
        return Ok(None);
    };
    let Some(epoch) = read_decimal(epoch) else {
        return Ok(None);
    };
    let mut bytes = Vec::new(alloc);
    percent_decode(escaped.as_bytes()).append_to(&mut bytes)?;
    let payload = Bytes::from_vec(bytes)?;
    Ok(Some(Entry { epoch, payload }))
}
