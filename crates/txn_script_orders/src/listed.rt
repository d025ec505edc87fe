//! An outcome as it is listed: its script, and what the script's run comes to.

ghost use Rattle.std.specs.Prelude.{IfOk};
ghost use Rattle.txn_script.specs.Records.{record_rules};
ghost use Rattle.txn_script.specs.Script.{Prints};

use crate::scripts::Scripted;
use std::alloc::Global;
use txn_script::script::print_script;
use txn_script_lines::stop::Stop;

/// An outcome as it is listed.
#[derive(Drop)]
pub(crate) struct Listed {
    pub(crate) script: Vec<u8>,
    /// What the script prints.
    pub(crate) printed: Vec<u8>,
    /// A line for each client: what its calls were answered.
    pub(crate) clients: Vec<u8>,
}

/// Whether a byte stands between words.
fn is_between(byte: Option<&u8>) -> bool {
    match byte {
        None => true,
        Some(byte) => matches!(*byte, b' ' | b'\n' | b';' | b':'),
    }
}

/// Whether these words begin at this place of a text.
fn begin_at(text: &[u8], place: usize, words: &[u8]) -> bool {
    let Some(rest) = text.get(place..) else {
        return false;
    };
    let Some(front) = rest.get(..words.len()) else {
        return false;
    };
    let is_first = match place.checked_sub(1) {
        None => true,
        Some(before) => is_between(text.get(before)),
    };
    is_first && front.eq_ignore_ascii_case(words) && is_between(rest.get(words.len()))
}

/// Whether a text has these words, whole ones, in small or great letters.
fn has_words(text: &[u8], words: &[u8]) -> bool {
    for place in 0..text.len() {
        if begin_at(text, place, words) {
            return true;
        }
    }
    false
}

impl Listed {
    /// Whether what is listed beside the script has these words.
    pub(crate) fn has(&self, words: &[u8]) -> bool {
        has_words(self.clients.as_slice(), words) || has_words(self.printed.as_slice(), words)
    }
}

/// The outcome of a script, which is played.
///
/// # Errors
///
/// Those of [`play_world`].
pub(crate) fn listed_of(alloc: Global, scripted: Scripted) -> Result<Listed, Stop>
    ensures { IfOk result (λ listed. Prints record_rules listed.script.items listed.printed.items) }
{
    let Scripted { script, clients } = scripted;
    let mut printed: Vec<u8> = Vec::new(alloc);
    print_script(alloc, script.as_slice(), &mut printed)?;
    Ok(Listed {
        script,
        printed,
        clients,
    })
}
