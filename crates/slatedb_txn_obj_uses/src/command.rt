//! The commands, and the words that ask for them.
ghost use Rattle.std.specs.Prelude.{◌≡◌, ◌↔◌, Some, drop, map, string_bytes};
ghost use Rattle.slatedb_txn_obj_uses.specs.Commands.{command_words};

/// What the words of a command ask for.
#[derive(Clone, Copy, Debug, PartialEq, Eq)]
pub enum Command {
    /// `run`: to measure each workload.
    Run,
    /// `check`: to make a few calls of each workload, and measure nothing.
    Check,
}

/// What the words of a command line ask for, the program's name first: `None` where that is nothing. It reads them alone,
/// and leaves nothing behind.
pub fn command_of(words: &[String]) -> Option<Command>
    ensures exact { (command : Command) → (result ≡ Some command) ↔ (map string_bytes (drop 1 words.now) ≡ command_words command) }
{
    match words {
        [_program, word] if word.as_str() == "run" => Some(Command::Run),
        [_program, word] if word.as_str() == "check" => Some(Command::Check),
        _ => None,
    }
}
