//! The row of a file that stands before a client's first.
ghost use Rattle.std.specs.Prelude.{◌≡◌, IfOk, string_bytes};
ghost use Rattle.txn_audit_recordings.specs.Written.{source_row_text};

use crate::read::{TextFault, cut, is_text, number};
use crate::written::source_row;
use std::alloc::Global;

/// Of which object a recording is, and of which clock its times are.
#[derive(Debug, Drop)]
pub struct Source {
    pub object: String,
    /// The clock's name. Recordings that have the same one are of one clock.
    pub clock: String,
    /// The nanoseconds that are added to the clock's times for those since 1970.
    pub ahead: u64,
}

/// The source that a text may name.
fn guess(alloc: Global, text: &str) -> Result<Source, TextFault> {
    let (_, rest) = cut(text)?;
    let (object, rest) = cut(rest)?;
    let (_, rest) = cut(rest)?;
    let (clock, rest) = cut(rest)?;
    let (_, ahead) = cut(rest)?;
    Ok(Source {
        object: String::from_str(alloc, object)?,
        clock: String::from_str(alloc, clock)?,
        ahead: number(ahead)?,
    })
}

/// The source that a text, without its line feed, is written of.
///
/// # Errors
///
/// `BadRow` where the text is not what is written of the source that it seems to name, `NoMemory` where a growth was refused.
pub fn read_source(alloc: Global, text: &str) -> Result<Source, TextFault>
    // What is read is the source that the text is written of.
    ensures { IfOk result (λ source. text.now ≡ source_row_text (string_bytes source.object) (string_bytes source.clock) source.ahead) }
{
    let source = guess(alloc, text)?;
    let written = source_row(
        alloc,
        source.object.as_str(),
        source.clock.as_str(),
        source.ahead,
    )?;
    if !is_text(written.as_str(), text) {
        return Err(TextFault::BadRow);
    }
    Ok(source)
}
