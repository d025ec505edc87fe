//! The run of a script.
use crate::player::Player;
use crate::words::Words;
use std::alloc::Global;
use std::io::{BufRead, BufReader, Read, Write};
use txn_script_lines::lines::Lines;
use txn_script_lines::stop::Stop;

/// Plays a line, and prints what it says.
fn print_line<W: Write>(
    player: &mut Player,
    words: &str,
    bad: Stop,
    out: &mut W,
) -> Result<(), Stop> {
    let Ok(played) = player.play(words) else {
        return Err(Stop::NoMemory);
    };
    let Some(played) = played else {
        return Err(bad);
    };
    if played.is_silent() {
        return Ok(());
    }
    match out.writeln(played) {
        Ok(()) => Ok(()),
        Err(_) => Err(Stop::WriteFailed),
    }
}

/// Plays each line in its turn.
fn play_all<R: BufRead, W: Write>(
    player: &mut Player,
    lines: &mut Lines<R>,
    out: &mut W,
) -> Result<(), Stop> {
    for _line in 0..u64::MAX {
        let line: Option<Words> = lines.next_line()?;
        let Some(words) = line else {
            return Ok(());
        };
        print_line(player, words.as_str(), lines.bad(), out)?;
    }
    Err(Stop::ReadFailed)
}

/// How a script ended, once what it printed is flushed.
fn flushed<W: Write>(ended: Result<(), Stop>, out: &mut W) -> Result<(), Stop> {
    match out.flush() {
        Ok(()) => ended,
        Err(_) => Err(Stop::WriteFailed),
    }
}

/// Reads a script and prints what its lines say. What the lines before a stop say stands.
fn print_script<R: Read + Drop, W: Write>(
    alloc: Global,
    reader: R,
    player: &mut Player,
    out: &mut W,
) -> Result<(), Stop> {
    match BufReader::new(alloc, reader) {
        Ok(reader) => {
            let ended = play_all(player, &mut Lines::new(alloc, reader), out);
            flushed(ended, out)
        }
        Err(_) => Err(Stop::NoMemory),
    }
}

/// The exit status of a script that ended so. A stop is named on `err`.
fn status_of<E: Write>(ended: Result<(), Stop>, err: &mut E) -> u8 {
    match ended {
        Ok(()) => 0,
        Err(stop) => stop.tell(err),
    }
}

/// Runs a script, and gives the exit status: 0, 2 for a bad line, 1 for another stop, which is named on `err`.
pub fn run_script<R: Read + Drop, W: Write, E: Write>(
    alloc: Global,
    reader: R,
    out: &mut W,
    err: &mut E,
) -> u8 {
    match Player::new(alloc) {
        Ok(mut player) => status_of(print_script(alloc, reader, &mut player, out), err),
        Err(_) => status_of(Err(Stop::NoMemory), err),
    }
}
