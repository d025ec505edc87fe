//! The words of a command line, read by `clap`.
ghost use Rattle.std.specs.Prelude.{◌≡◌};
ghost use Rattle.std.specs.Option.{option_or};
ghost use Rattle.txnobj_words.specs.Commands.{is_of_client};

use crate::table::words_of;
use clap::{ArgMatches, Error};
use std::alloc::{AllocError, Global};

/// Where a value comes from: the argument itself, the standard input for `-`, or a file for `@FILE`.
#[derive(Clone, Copy)]
pub enum Source<'a> {
    Text(&'a str),
    Input,
    File(&'a str),
}

/// What is asked for.
#[derive(Drop)]
pub enum Command<'a> {
    /// Writes the first version.
    Init(Source<'a>),
    /// Prints the newest version's bytes, or its id and epoch.
    Get {
        id: bool,
    },
    /// Writes a version on the newest, in its epoch.
    Put {
        value: Source<'a>,
        /// On this version alone.
        base: Option<u64>,
        /// As the holder of this epoch.
        epoch: Option<u64>,
    },
    /// Claims the next epoch, or this one.
    Claim {
        epoch: Option<u64>,
    },
    /// Prints the ids of the stored versions.
    List,
    /// Prints each stored version.
    History,
    /// Waits for a version above this one, so many seconds at most.
    Watch {
        after: u64,
        seconds: u64,
    },
    /// Raises the boundary.
    Advance(u64),
    /// Removes a version at or below the boundary.
    Delete(u64),
    /// Removes the versions below the newest.
    Collect,
    /// Reads calls from the standard input, a line each.
    Shell,
    /// Tests whether the folder can carry an object.
    Doctor {
        /// Another mount of the same folder, which has to show what is done through the first, and the other way round.
        beside: Option<&'a str>,
    },
    /// Removes temporary files that are older than so many seconds.
    Clean(u64),
    /// Removes the versions above the newest that is a value.
    Repair,
    /// Times so many additions of one to a number, or so many listings.
    Bench {
        times: u64,
        lists: bool,
    },
    /// Audits recordings.
    Audit {
        diaries: Vec<&'a str>,
        /// By how many milliseconds each clock may be off from that of the first recording.
        clock_error: u64,
    },
    /// Audits recordings, and draws them as text.
    Trace(Drawing<'a>),
    /// The same, as one picture.
    Picture(Drawing<'a>),
}

/// What is drawn of recordings.
#[derive(Drop)]
pub struct Drawing<'a> {
    pub diaries: Vec<&'a str>,
    /// By how many milliseconds each clock may be off from that of the first recording.
    pub clock_error: u64,
    /// From which store call of their order on, and how many of these.
    pub from: Option<u64>,
    pub calls: Option<u64>,
}

/// Which object, who asks, and how.
#[derive(Drop)]
pub struct Options<'a> {
    /// The folder below which the object's files lie. Only an audit needs none.
    pub root: Option<&'a str>,
    /// The object's name. Only an audit and a test of the folder need none.
    pub name: Option<&'a str>,
    pub suffix: &'a str,
    /// The client's number, at least 1. None: one of its own.
    pub client: Option<u64>,
    /// The file to which it adds its recording.
    pub diary: Option<&'a str>,
    /// Whether what is answered lasts when the power fails.
    pub syncs: bool,
    pub command: Command<'a>,
}

impl Command<'_> {
    /// Whether a client does what the command asks for, so that there is something to record.
    pub fn is_of_client(&self) -> bool
        ensures { result ≡ is_of_client self.now }
    {
        !matches!(
            self,
            Command::Audit { .. }
                | Command::Trace(_)
                | Command::Picture(_)
                | Command::Doctor { .. }
                | Command::Clean(_)
                | Command::Repair
                | Command::Bench { .. }
        )
    }
}

impl<'a> Options<'a> {
    /// The same, but for the folder, the name and the recording: where the words name none, these are taken.
    pub fn or(
        self,
        root: Option<&'a str>,
        name: Option<&'a str>,
        diary: Option<&'a str>,
    ) -> Options<'a>
        ensures root { result.root ≡ option_or self.entry.root root.entry }
        ensures name { result.name ≡ option_or self.entry.name name.entry }
        ensures diary { result.diary ≡ option_or self.entry.diary diary.entry }
        ensures rest { (result.suffix ≡ self.entry.suffix) × (result.client ≡ self.entry.client) × (result.syncs ≡ self.entry.syncs) × (result.command ≡ self.entry.command) }
    {
        Options {
            root: self.root.or(root),
            name: self.name.or(name),
            suffix: self.suffix,
            client: self.client,
            diary: self.diary.or(diary),
            syncs: self.syncs,
            command: self.command,
        }
    }
}

/// Where a value comes from that an argument names.
fn source_of<'a>(text: &'a str) -> Source<'a> {
    if text == "-" {
        return Source::Input;
    }
    match text.strip_prefix('@') {
        Some(file) => Source::File(file),
        None => Source::Text(text),
    }
}

/// The number of an argument.
fn number_in(found: &ArgMatches<'_>, id: &str) -> u64 {
    found.get_one::<u64>(id).unwrap_or(0)
}

fn text_in<'a>(found: &ArgMatches<'a>, id: &str) -> &'a str {
    found.get_str(id).unwrap_or("")
}

/// What a command of this name asks for.
fn command_of<'a>(name: &str, found: &ArgMatches<'a>) -> Command<'a> {
    match name {
        "init" => Command::Init(source_of(text_in(found, "VALUE"))),
        "get" => Command::Get {
            id: found.get_flag("id"),
        },
        "put" => Command::Put {
            value: source_of(text_in(found, "VALUE")),
            base: found.get_one::<u64>("base"),
            epoch: found.get_one::<u64>("epoch"),
        },
        "claim" => Command::Claim {
            epoch: found.get_one::<u64>("epoch"),
        },
        "list" => Command::List,
        "history" => Command::History,
        "watch" => Command::Watch {
            after: number_in(found, "after"),
            seconds: number_in(found, "seconds"),
        },
        "advance" => Command::Advance(number_in(found, "ID")),
        "delete" => Command::Delete(number_in(found, "ID")),
        "collect" => Command::Collect,
        "shell" => Command::Shell,
        "clean" => Command::Clean(number_in(found, "SECONDS")),
        "repair" => Command::Repair,
        "bench" => Command::Bench {
            times: number_in(found, "TIMES"),
            lists: found.get_flag("list"),
        },
        _ => Command::Doctor {
            beside: found.get_str("beside"),
        },
    }
}

/// The words of an argument that may come several times.
fn texts_in<'a>(
    alloc: Global,
    found: &ArgMatches<'a>,
    id: &str,
) -> Result<Vec<&'a str>, AllocError> {
    let mut texts = Vec::new(alloc);
    if let Some(words) = found.get_strs(id) {
        texts.extend_from_slice(words)?;
    }
    Ok(texts)
}

/// What is to be drawn.
fn drawing_in<'a>(alloc: Global, found: &ArgMatches<'a>) -> Result<Drawing<'a>, AllocError> {
    Ok(Drawing {
        diaries: texts_in(alloc, found, "DIARY")?,
        clock_error: number_in(found, "clock-error"),
        from: found.get_one::<u64>("from"),
        calls: found.get_one::<u64>("calls"),
    })
}

/// What is asked for by words that were read, which name a command.
fn command_in<'a>(alloc: Global, found: &ArgMatches<'a>) -> Result<Command<'a>, AllocError> {
    match found.subcommand() {
        Some(("audit", of)) => Ok(Command::Audit {
            diaries: texts_in(alloc, of, "DIARY")?,
            clock_error: number_in(of, "clock-error"),
        }),
        Some(("trace", of)) => Ok(Command::Trace(drawing_in(alloc, of)?)),
        Some(("picture", of)) => Ok(Command::Picture(drawing_in(alloc, of)?)),
        Some((name, of)) => Ok(command_of(name, of)),
        None => Ok(Command::Doctor { beside: None }),
    }
}

fn options_in<'a>(alloc: Global, found: &ArgMatches<'a>) -> Result<Options<'a>, AllocError> {
    let command = command_in(alloc, found)?;
    Ok(Options {
        root: found.get_str("root"),
        name: found.get_str("name"),
        suffix: text_in(found, "suffix"),
        client: found.get_one::<u64>("client"),
        diary: found.get_str("diary"),
        syncs: !found.get_flag("no-sync"),
        command,
    })
}

/// What the words ask for, the program's name first.
///
/// # Errors
///
/// The text to be printed and the status to end with, also where the words ask for help, which is no error: 0 then, else 2.
pub fn options_of<'a>(alloc: Global, words: &'a [String]) -> Result<Options<'a>, Error> {
    let found = words_of(alloc)?.try_get_matches_from(words)?;
    Ok(options_in(alloc, &found)?)
}
