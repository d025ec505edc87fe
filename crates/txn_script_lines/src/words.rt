//! The words of a command line.

ghost use Rattle.std.specs.Prelude.{◌≡◌, IfErr};

use crate::stop::Stop;
use std::io::{ErrorKind, Write};
use std::{env, io};

/// The exit status of words that ask for nothing.
const USAGE: u8 = 2;

/// The words of the command line, where they are texts.
fn collect_words(rt: &HostRuntime) -> io::Result<Vec<String>> {
    Ok(env::args(rt)?.collect(rt.alloc())?)
}

/// The words of the command line. Where one is no text there are none, which asks for nothing.
///
/// # Errors
///
/// Want of memory alone, which changes nothing.
pub fn words_of_command(rt: &HostRuntime) -> Result<Vec<String>, Stop>
    ensures { IfErr result (λ stop. stop ≡ Stop.NoMemory) }
{
    match collect_words(rt) {
        Ok(words) => Ok(words),
        Err(error) if error.kind() == ErrorKind::OutOfMemory => Err(Stop::NoMemory),
        Err(_) => Ok(Vec::new(rt.alloc())),
    }
}

/// Says on `err` which words ask for something, and gives the exit status of others: 2.
pub fn tell_usage<E: Write>(usage: &str, err: &mut E) -> u8
    ensures { result ≡ 2 }
{
    // Nothing is left to tell a failure to.
    let _ = err.writeln(usage);
    USAGE
}
