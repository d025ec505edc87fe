//! The lines of a script, and how one is read.

ghost use Rattle.std.specs.Prelude.{◌≡◌, ℕ, ◌<◌, ◌^◌, IfOk, IfSome, Some};
ghost use Rattle.txn_history.specs.declared.event.Failure.{Failure};
ghost use Rattle.txn_script_lines.specs.Grammar.{begin_text, failure_text, fail_text, line_text, LineFits};
ghost use Rattle.txn_script_lines.specs.Reading.{IsNoBegin};
ghost use Rattle.txn_script_lines.specs.declared.line.Line.{Line};

use crate::numerals::read_decimal;
use crate::text_form::TextForm;
use std::alloc::{AllocError, Global};
use txn_history::event::{EventOf, Failure};

/// What a line of a script says, whose clients make calls of this type.
#[derive(Debug, Drop)]
pub enum Line<C> {
    /// The script has so many clients.
    Clients(u64),
    /// A listing goes in pages of so many files at most.
    Page(u64),
    /// One step of the world.
    Event(EventOf<C>),
    /// The operation goes on until it is answered.
    Run(u64),
}

/// The most bytes of a line that are not of its call: two words, a number of twenty digits, and spaces.
const MOST_WORDS: usize = 32;

/// The client and the call that these words say.
fn read_begin<C: TextForm>(alloc: Global, words: &str) -> Result<Option<(u64, C)>, AllocError>
    ensures fits { IfOk result (λ read. IfSome read (λ begun. (begun.0 < 2 ^ 64) × C.fits begun.1)) }
    ensures reads { IfOk result (λ read. IfSome read (λ begun. words.now ≡ begin_text C.text begun.0 begun.1)) }
    ensures all { IfOk result (λ read. (client : ℕ) (call : C)
        → client < 2 ^ 64 → C.fits call → words.now ≡ begin_text C.text client call
        → read ≡ Some (client, call)) }
{
    let Some((client_word, rest)) = words.split_once(' ') else {
        return Ok(None);
    };
    let Some(client) = read_decimal(client_word) else {
        return Ok(None);
    };
    match C::read_text(alloc, rest)? {
        Some(call) => Ok(Some((client, call))),
        None => Ok(None),
    }
}

/// The way to fail that a word says.
fn read_failure(text: &str) -> Option<Failure>
    ensures reads { IfSome result (λ failure. text.now ≡ failure_text failure) }
    ensures all { (failure : Failure) → text.now ≡ failure_text failure → result ≡ Some failure }
{
    match text {
        "before" => Some(Failure::Before),
        "after" => Some(Failure::After),
        "loose" => Some(Failure::Loose),
        _ => None,
    }
}

/// The operation and the way to fail that these words say.
fn read_fail(text: &str) -> Option<(u64, Failure)>
    ensures fits { IfSome result (λ failed. failed.0 < 2 ^ 64) }
    ensures reads { IfSome result (λ failed. text.now ≡ fail_text failed.0 failed.1) }
    ensures all { (op : ℕ) (failure : Failure)
        → op < 2 ^ 64 → text.now ≡ fail_text op failure → result ≡ Some (op, failure) }
{
    let (op_word, failure_word) = text.split_once(' ')?;
    let op = read_decimal(op_word)?;
    Some((op, read_failure(failure_word)?))
}

/// The line that these words say, where it is no begin.
fn read_other<C: TextForm>(words: &str) -> Option<Line<C>>
    ensures fits { IfSome result (LineFits C.fits) }
    ensures reads { IfSome result (λ line. words.now ≡ line_text C.text line) }
    ensures all { (line : Line C) → IsNoBegin line → LineFits C.fits line
        → words.now ≡ line_text C.text line → result ≡ Some line }
{
    let (word, rest) = words.split_once(' ')?;
    if word == "fail" {
        let (op, failure) = read_fail(rest)?;
        return Some(Line::Event(EventOf::Fail(op, failure)));
    }
    let number = read_decimal(rest)?;
    match word {
        "clients" => Some(Line::Clients(number)),
        "page" => Some(Line::Page(number)),
        "run" => Some(Line::Run(number)),
        "look" => Some(Line::Event(EventOf::Look(number))),
        "serve" => Some(Line::Event(EventOf::Serve(number))),
        "giveup" => Some(Line::Event(EventOf::GiveUp(number))),
        "land" => Some(Line::Event(EventOf::Land(number))),
        "crash" => Some(Line::Event(EventOf::Crash(number))),
        _ => None,
    }
}

/// A line, where its clients' calls have a text.
impl<C: TextForm> TextForm for Line<C> {
    ghost use Rattle.txn_script_lines.specs.Grammar.{line_text, LineFits};
    ghost use Rattle.txn_script_lines.specs.TextLaws.{line_utf8};

    ghost text = { line_text C.text };

    ghost fits = { LineFits C.fits };

    ghost is_utf8 = { line_utf8 C.text C.fits C.is_utf8 };

    fn read_text(alloc: Global, words: &str) -> Result<Option<Line<C>>, AllocError> {
        let Some((word, rest)) = words.split_once(' ') else {
            return Ok(None);
        };
        if word != "begin" {
            return Ok(read_other(words));
        }
        match read_begin(alloc, rest)? {
            Some((client, call)) => Ok(Some(Line::Event(EventOf::Begin(client, call)))),
            None => Ok(None),
        }
    }

    /// That of a call, and [`MOST_WORDS`] more.
    fn most_bytes() -> Option<usize> {
        C::most_bytes()?.checked_add(MOST_WORDS)
    }
}
