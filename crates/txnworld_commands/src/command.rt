//! The commands, and the words that ask for them.
ghost use Rattle.std.specs.Prelude.{◌≡◌, ◌↔◌, ℕ, Some, IfSome, drop, map, string_bytes};
ghost use Rattle.txnworld_commands.specs.Commands.{command_words, IsCommand, IsCount, count_text};

/// What the words of a command ask for.
#[derive(Clone, Copy, Debug, PartialEq, Eq)]
pub enum Command {
    /// `script`: to run the script on the standard input.
    Script,
    /// `manifest`: to run the script of manifests on the standard input.
    Manifest,
    /// `trace`: to draw the run of that script as text.
    Trace,
    /// `trace manifest`: to draw the run of that script of manifests as text.
    ManifestTrace,
    /// `picture`: to draw the run of that script as one picture.
    Picture,
    /// `picture manifest`: to draw the run of that script of manifests as one picture.
    ManifestPicture,
    /// `threads N`: to run so many workers, 1 to 8.
    Threads(u64),
    /// `explore`: to go through all orders of the question on the standard input.
    Explore,
}

/// The count of workers that a word is: one digit from 1 to 8.
fn count_of(word: &str) -> Option<u64>
    ensures some { IfSome result IsCount }
    ensures exact { (n : ℕ) → IsCount n → (result ≡ Some n) ↔ (word.now ≡ count_text n) }
{
    match word.as_bytes() {
        [digit @ b'1'..=b'8'] => Some(u64::from(digit - b'0')),
        _ => None,
    }
}

/// What the words of a command line ask for, the program's name first: `None` where that is nothing. It reads them alone,
/// and leaves nothing behind.
pub fn command_of(words: &[String]) -> Option<Command>
    ensures some { IfSome result IsCommand }
    ensures exact { (command : Command) → IsCommand command → (result ≡ Some command) ↔ (map string_bytes (drop 1 words.now) ≡ command_words command) }
{
    match words {
        [_program, mode] if mode.as_str() == "script" => Some(Command::Script),
        [_program, mode] if mode.as_str() == "manifest" => Some(Command::Manifest),
        [_program, mode] if mode.as_str() == "trace" => Some(Command::Trace),
        [_program, mode] if mode.as_str() == "picture" => Some(Command::Picture),
        [_program, mode, kind] if mode.as_str() == "trace" && kind.as_str() == "manifest" => {
            Some(Command::ManifestTrace)
        }
        [_program, mode, kind] if mode.as_str() == "picture" && kind.as_str() == "manifest" => {
            Some(Command::ManifestPicture)
        }
        [_program, mode, count] if mode.as_str() == "threads" => {
            Some(Command::Threads(count_of(count.as_str())?))
        }
        [_program, mode] if mode.as_str() == "explore" => Some(Command::Explore),
        _ => None,
    }
}
