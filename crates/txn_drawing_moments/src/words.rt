//! What is said of a moment.

ghost use Rattle.std.specs.Prelude.{◌≡◌, IfOk, string_bytes};
ghost use Rattle.txn_drawing_moments.specs.Texts.{event_text, IsAnswerText};

use crate::moment::{Kind, Moment, Said};
use std::alloc::{AllocError, Global};

/// So much of a text as there is room for.
///
/// # Errors
///
/// Want of memory alone.
pub fn cut(alloc: Global, text: &str, room: usize) -> Result<String, AllocError> {
    let mut cut = String::new(alloc);
    let count = text.chars().count();
    for (place, sign) in text.chars().enumerate() {
        if place.saturating_add(1) < room || count <= room {
            cut.push(sign)?;
        }
    }
    if room < count {
        cut.push('…')?;
    }
    Ok(cut)
}

/// What an event was, where that is said.
///
/// # Errors
///
/// Want of memory alone.
pub fn event_words(alloc: Global, moment: &Moment) -> Result<String, AllocError>
    ensures { IfOk result (λ said. string_bytes said ≡ event_text moment.now.kind moment.now.op (string_bytes moment.now.words)) }
{
    let words = moment.words.as_str();
    let op = moment.op;
    match moment.kind {
        Kind::Begins => format!(in alloc; "{op} {words}"),
        Kind::Refused => format!(in alloc; "⊘ {words}"),
        Kind::Crashes => format!(in alloc; "crash"),
        Kind::Killed => format!(in alloc; "killed"),
        Kind::GivesUp => format!(in alloc; "given up"),
        _ => Ok(String::new(alloc)),
    }
}

/// An answer, a refusal by its number and its name.
///
/// # Errors
///
/// Want of memory alone.
pub fn answer_words(alloc: Global, answer: &Said) -> Result<String, AllocError>
    ensures { IfOk result (λ said. IsAnswerText answer.now.is_refusal (string_bytes answer.now.words) (string_bytes said)) }
{
    let words = answer.words.as_str();
    if answer.is_refusal {
        let why = words.strip_prefix("refused ").unwrap_or(words);
        format!(in alloc; "✗ {why}")
    } else {
        format!(in alloc; "→ {words}")
    }
}
