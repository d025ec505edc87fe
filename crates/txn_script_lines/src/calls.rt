//! The calls of a script, and how one is read.

ghost use Rattle.std.specs.Prelude.{◌≡◌, ℕ, IfOk, IfSome, Some, Option};
ghost use Rattle.std.specs.declared.ops.Bound.{Bound};
ghost use Rattle.txn_history.specs.declared.event.Call.{Call};
ghost use Rattle.txn_script_lines.specs.Grammar.{base_text, write_text, bound_text, list_text, update_text, call_text, BaseFits, WriteFits, BoundFits, ListFits, UpdateFits, CallFits};
ghost use Rattle.txn_script_lines.specs.Reading.{HasNoValue};

use crate::numerals::{read_decimal, read_pair};
use crate::text_form::TextForm;
use std::alloc::{AllocError, Global};
use std::ops::Bound;
use txn_history::event::{Call, PlainCall, ViewCall};

/// The most bytes of a call that are not of its value: a word, two numbers of twenty digits, and spaces.
const MOST_WORDS: usize = 50;

/// The base that a number says, or `-` for none.
fn read_base(text: &str) -> Option<Option<u64>>
    ensures fits { IfSome result BaseFits }
    ensures reads { IfSome result (λ base. text.now ≡ base_text base) }
    ensures all { (base : Option ℕ)
        → BaseFits base → text.now ≡ base_text base → result ≡ Some base }
{
    if text == "-" {
        return Some(None);
    }
    Some(Some(read_decimal(text)?))
}

/// The base and the value of the write that these words say.
fn read_write<T: TextForm>(
    alloc: Global,
    words: &str,
) -> Result<Option<(Option<u64>, T)>, AllocError>
    ensures fits { IfOk result (λ read. IfSome read (λ write. WriteFits T.fits write.0 write.1)) }
    ensures reads { IfOk result (λ read. IfSome read (λ write. words.now ≡ write_text T.text write.0 write.1)) }
    ensures all { IfOk result (λ read. (base : Option ℕ) (value : T)
        → WriteFits T.fits base value → words.now ≡ write_text T.text base value
        → read ≡ Some (base, value)) }
{
    let Some((base_word, rest)) = words.split_once(' ') else {
        return Ok(None);
    };
    let Some(base) = read_base(base_word) else {
        return Ok(None);
    };
    match T::read_text(alloc, rest)? {
        Some(value) => Ok(Some((base, value))),
        None => Ok(None),
    }
}

/// The bound that a word says: `=` and a number that is within, `!` and a number that is not, or `-` for none.
fn read_bound(text: &str) -> Option<Bound<u64>>
    ensures fits { IfSome result BoundFits }
    ensures reads { IfSome result (λ bound. text.now ≡ bound_text bound) }
    ensures all { (bound : Bound ℕ)
        → BoundFits bound → text.now ≡ bound_text bound → result ≡ Some bound }
{
    if text == "-" {
        return Some(Bound::Unbounded);
    }
    if let Some(number) = text.strip_prefix('=') {
        return Some(Bound::Included(read_decimal(number)?));
    }
    Some(Bound::Excluded(read_decimal(text.strip_prefix('!')?)?))
}

/// The bounds of the listing that these words say.
fn read_list(text: &str) -> Option<(Bound<u64>, Bound<u64>)>
    ensures fits { IfSome result (λ bounds. ListFits bounds.0 bounds.1) }
    ensures reads { IfSome result (λ bounds. text.now ≡ list_text bounds.0 bounds.1) }
    ensures all { (from to : Bound ℕ)
        → ListFits from to → text.now ≡ list_text from to → result ≡ Some (from, to) }
{
    let (from_word, to_word) = text.split_once(' ')?;
    let from = read_bound(from_word)?;
    Some((from, read_bound(to_word)?))
}

/// The view and the value of the update that these words say: a view stands where a write has a base.
fn read_update<T: TextForm>(alloc: Global, words: &str) -> Result<Option<(u64, T)>, AllocError>
    ensures fits { IfOk result (λ read. IfSome read (λ update. UpdateFits T.fits update.0 update.1)) }
    ensures reads { IfOk result (λ read. IfSome read (λ update. words.now ≡ update_text T.text update.0 update.1)) }
    ensures all { IfOk result (λ read. (view : ℕ) (value : T)
        → UpdateFits T.fits view value → words.now ≡ update_text T.text view value
        → read ≡ Some (view, value)) }
{
    match read_write(alloc, words)? {
        Some((Some(view), value)) => Ok(Some((view, value))),
        Some((None, _)) => Ok(None),
        None => Ok(None),
    }
}

/// The call without a value that these words say.
fn read_valueless<T: TextForm>(text: &str) -> Option<Call<T>>
    ensures fits { IfSome result (CallFits T.fits) }
    ensures reads { IfSome result (λ call. text.now ≡ call_text T.text call) }
    ensures all { (call : Call T) → HasNoValue call → CallFits T.fits call
        → text.now ≡ call_text T.text call → result ≡ Some call }
{
    match text {
        "read" => return Some(Call::Plain(PlainCall::Read)),
        "load" => return Some(Call::View(ViewCall::Load)),
        _ => {}
    }
    let (word, rest) = text.split_once(' ')?;
    match word {
        "list" => {
            let (from, to) = read_list(rest)?;
            return Some(Call::Plain(PlainCall::ListIds(from, to)));
        }
        "claim_at" => {
            let (view, epoch) = read_pair(rest)?;
            return Some(Call::View(ViewCall::ClaimAt(view, epoch)));
        }
        _ => {}
    }
    let number = read_decimal(rest)?;
    match word {
        "read_unchecked" => Some(Call::Plain(PlainCall::ReadUnchecked(number))),
        "read_seen" => Some(Call::Plain(PlainCall::ReadSeen(number))),
        "delete" => Some(Call::Plain(PlainCall::Delete(number))),
        "check" => Some(Call::Plain(PlainCall::Check(number))),
        "advance" => Some(Call::Plain(PlainCall::Advance(number))),
        "refresh" => Some(Call::View(ViewCall::Refresh(number))),
        "claim" => Some(Call::View(ViewCall::Claim(number))),
        "holder_refresh" => Some(Call::View(ViewCall::HolderRefresh(number))),
        _ => None,
    }
}

/// A call, where its values have a text.
impl<T: TextForm> TextForm for Call<T> {
    ghost use Rattle.txn_script_lines.specs.Grammar.{call_text, CallFits};
    ghost use Rattle.txn_script_lines.specs.TextLaws.{call_utf8};

    ghost text = { call_text T.text };

    ghost fits = { CallFits T.fits };

    ghost is_utf8 = { call_utf8 T.text T.fits T.is_utf8 };

    fn read_text(alloc: Global, words: &str) -> Result<Option<Call<T>>, AllocError> {
        let Some((word, rest)) = words.split_once(' ') else {
            return Ok(read_valueless(words));
        };
        match word {
            "write" => match read_write(alloc, rest)? {
                Some((base, value)) => Ok(Some(Call::Plain(PlainCall::Write(base, value)))),
                None => Ok(None),
            },
            "write_unchecked" => match read_write(alloc, rest)? {
                Some((base, value)) => Ok(Some(Call::Plain(PlainCall::WriteUnchecked(
                    base, value,
                )))),
                None => Ok(None),
            },
            "init" => match T::read_text(alloc, rest)? {
                Some(value) => Ok(Some(Call::View(ViewCall::Init(value)))),
                None => Ok(None),
            },
            "update" => match read_update(alloc, rest)? {
                Some((view, value)) => Ok(Some(Call::View(ViewCall::Update(view, value)))),
                None => Ok(None),
            },
            "holder_update" => match read_update(alloc, rest)? {
                Some((view, value)) => { Ok(Some(Call::View(ViewCall::HolderUpdate(view, value)))) }
                None => Ok(None),
            },
            _ => Ok(read_valueless(words)),
        }
    }

    /// That of a value, and [`MOST_WORDS`] more.
    fn most_bytes() -> Option<usize> {
        T::most_bytes()?.checked_add(MOST_WORDS)
    }
}
