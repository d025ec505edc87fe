//! All orders of a question, and what they can come to.

ghost use Rattle.std.specs.Prelude.{◌≡◌, ◌++◌, List, IfOk, IfSome, OnOk};
ghost use Rattle.std.specs.Io.KnownBytes.{Appends};
ghost use Rattle.txn_script.specs.Printed.{with_feed};
ghost use Rattle.txn_script.specs.Records.{record_rules};
ghost use Rattle.txn_script.specs.Script.{Prints};
ghost use Rattle.txn_script_orders.specs.Figures.{figures_text};
ghost use Rattle.txn_script_orders.specs.Exploring.{Lists, Explores, IsExplored};

use crate::counts::{Counts, counts_of};
use crate::figures::{Figures, Heading};
use crate::listed::{Listed, listed_of};
use crate::question::Question;
use crate::reading::read_question;
use crate::rule::Rule;
use crate::scripts::{Plainest, plainest_of, script_of};
use crate::walk::{Walk, walk_of};
use std::alloc::Global;
use std::fmt::Display;
use std::io::{Read, Write};
use txn_script_lines::stop::Stop;

/// So many outcomes are listed at most.
const MOST_LISTED: u64 = 20;

/// The status and the words of a question with more states than are kept.
const LIMIT: u8 = 1;

const LIMIT_WORDS: &[u8] = b"limit reached\n";

/// The status of a question with an outcome that breaks a rule.
const BROKEN: u8 = 3;

/// How a question was explored.
#[derive(Clone, Copy, Debug, PartialEq, Eq)]
enum End {
    /// All orders were gone through.
    Whole,
    /// There are more states than are kept: nothing is written.
    Limit,
    /// An outcome breaks a rule: the rule and the outcome's script are written.
    Broken,
}

/// Adds a line.
fn push_line<D: Display + Drop>(text: &mut Vec<u8>, line: D) -> Result<(), Stop>
    ensures { OnOk result (IfSome (D.output line) (λ bytes. text.new.items ≡ text.old.items ++ with_feed bytes)) }
{
    match text.writeln(line) {
        Ok(()) => Ok(()),
        Err(_) => Err(Stop::NoMemory),
    }
}

/// Adds bytes.
fn push_bytes(text: &mut Vec<u8>, bytes: &[u8]) -> Result<(), Stop>
    ensures { OnOk result (text.new.items ≡ text.old.items ++ bytes.now) }
{
    match text.extend_from_slice(bytes) {
        Ok(()) => Ok(()),
        Err(_) => Err(Stop::NoMemory),
    }
}

/// How many outcomes there are with their mirror images.
fn images_of(walk: &Walk) -> u64 {
    let mut images = 0u64;
    for count in walk.images.as_slice() {
        images = images.saturating_add(*count);
    }
    images
}

/// Lists an outcome.
fn list(heading: Heading, listed: &Listed, text: &mut Vec<u8>) -> Result<(), Stop>
    requires { Prints record_rules listed.now.script.items listed.now.printed.items }
    ensures { OnOk result (Lists heading.of heading.number text.old.items text.new.items) }
{
    push_bytes(text, b"\n")?;
    push_line(text, heading)?;
    push_bytes(text, listed.clients.as_slice())?;
    push_bytes(text, b"\n")?;
    push_bytes(text, listed.script.as_slice())?;
    push_bytes(text, b"\n")?;
    push_bytes(text, listed.printed.as_slice())?;
    Ok(())
}

/// Whether what is listed has the words of each filter.
fn fits(question: &Question, listed: &Listed) -> bool {
    for words in question.filters.as_slice() {
        if !listed.has(words.as_slice()) {
            return false;
        }
    }
    true
}

/// The outcome at the end of a way, which is played.
fn played(alloc: Global, question: &Question, walk: &Walk, way: Plainest) -> Result<Listed, Stop>
    ensures { IfOk result (λ listed. Prints record_rules listed.script.items listed.printed.items) }
{
    match script_of(alloc, walk, question, way.state) {
        Ok(script) => listed_of(alloc, script),
        Err(_) => Err(Stop::NoMemory),
    }
}

/// The first line of an outcome.
fn heading_of(number: u64, of: usize, walk: &Walk, counts: &Counts, way: Plainest) -> Heading
    ensures number { result.number ≡ number }
    ensures of { result.of ≡ of }
{
    Heading {
        number,
        of,
        orders: counts.of.get(way.outcome).copied().unwrap_or(0),
        images: walk.images.get(way.outcome).copied().unwrap_or(1),
    }
}

/// What is printed of a walk: its figures, and the outcomes that fit, the plainest first.
fn explored(alloc: Global, question: &Question, walk: &Walk) -> Result<Vec<u8>, Stop>
    ensures { IfOk result (λ text. Explores text.items) }
{
    let Ok(counts) = counts_of(alloc, walk) else {
        return Err(Stop::NoMemory);
    };
    let Ok(ways) = plainest_of(alloc, walk, question) else {
        return Err(Stop::NoMemory);
    };
    let outcomes = walk.images.len();
    let mut text: Vec<u8> = Vec::new(alloc);
    push_line(
        &mut text,
        Figures {
            states: walk.states.len(),
            orders: counts.orders,
            outcomes,
            images: images_of(walk),
        },
    )?;
    let mut number = 0u64;
    for way in ways.as_slice() {
        if number >= MOST_LISTED {
            break;
        }
        let listed = played(alloc, question, walk, *way)?;
        if fits(question, &listed) {
            number += 1;
            let heading = heading_of(number, outcomes, walk, &counts, *way);
            list(heading, &listed, &mut text)?;
        }
    }
    Ok(text)
}

/// What is printed of an end that breaks a rule: the rule, and a script that leads there.
fn broken(
    alloc: Global,
    question: &Question,
    walk: &Walk,
    state: usize,
    rule: Rule,
) -> Result<Vec<u8>, Stop> {
    let Ok(scripted) = script_of(alloc, walk, question, state) else {
        return Err(Stop::NoMemory);
    };
    let mut text: Vec<u8> = Vec::new(alloc);
    let Ok(()) = write!(text, "does not fit: {rule}\n\n") else {
        return Err(Stop::NoMemory);
    };
    push_bytes(&mut text, scripted.script.as_slice())?;
    Ok(text)
}

/// Writes a text, and sees to it that it is written.
fn write_text<W: Write>(text: &[u8], out: &mut W) -> Result<(), Stop>
    ensures { OnOk result (Appends (W.contents out.old) (W.contents out.new) text.now) }
{
    let Ok(()) = out.write_all(text) else {
        return Err(Stop::WriteFailed);
    };
    match out.flush() {
        Ok(()) => Ok(()),
        Err(_) => Err(Stop::WriteFailed),
    }
}

/// Explores the question on a reader: how that ended.
fn print_explored<R: Read + Drop, W: Write>(
    alloc: Global,
    reader: R,
    out: &mut W,
) -> Result<End, Stop>
    ensures { IfOk result (λ end. end ≡ End.Whole → IsExplored (W.contents out.old) (W.contents out.new)) }
{
    let question = read_question(alloc, reader)?;
    let Ok(walk) = walk_of(alloc, &question) else {
        return Err(Stop::NoMemory);
    };
    if let Some((state, rule)) = walk.broken {
        let text = broken(alloc, &question, &walk, state, rule)?;
        write_text(text.as_slice(), out)?;
        return Ok(End::Broken);
    }
    if !walk.is_whole {
        return Ok(End::Limit);
    }
    let text = explored(alloc, &question, &walk)?;
    write_text(text.as_slice(), out)?;
    Ok(End::Whole)
}

/// Explores the question on a reader, and gives the exit status: 0, 2 for a bad line, 3 where an outcome breaks a rule, 1 for more states
/// than are kept or another fault, which is named on `err`.
pub fn run_explore<R: Read + Drop, W: Write, E: Write>(
    alloc: Global,
    reader: R,
    out: &mut W,
    err: &mut E,
) -> u8
    ensures { result ≡ 0 → IsExplored (W.contents out.old) (W.contents out.new) }
{
    match print_explored(alloc, reader, out) {
        Ok(End::Whole) => 0,
        Ok(End::Broken) => BROKEN,
        Ok(End::Limit) => {
            let _ = err.write_all(LIMIT_WORDS);
            LIMIT
        }
        Err(stop) => stop.tell(err),
    }
}
