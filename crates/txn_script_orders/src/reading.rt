//! How a question is read.

use crate::question::{
    Allowed, MOST_ALLOWED, MOST_CALLS, MOST_CLIENTS, Question, Step, Target, Worth,
};
use crate::words::Words;
use bytes::Bytes;
use std::alloc::{AllocError, Global};
use std::io::{BufReader, Read};
use std::str;
use txn_script_lines::lines::Lines;
use txn_script_lines::numerals::read_decimal;
use txn_script_lines::stop::Stop;

/// The least payload that no value of a question may name: from here on they are those of places.
const FIRST_PAYLOAD: u64 = 10;

/// The id of which a word speaks.
fn read_target(word: &str) -> Option<Target> {
    match word {
        "-" => return Some(Target::Nothing),
        "own" => return Some(Target::Own(0)),
        _ => {}
    }
    if let Some(below) = word.strip_prefix("own-") {
        return Some(Target::Own(read_decimal(below)?));
    }
    Some(Target::Id(read_decimal(word)?))
}

/// The payload that a word names.
fn read_payload(word: &str) -> Option<u64> {
    let payload = read_decimal(word)?;
    if payload < FIRST_PAYLOAD {
        Some(payload)
    } else {
        None
    }
}

/// The value of which a word speaks: a payload, or an epoch too.
fn read_worth(word: &str) -> Option<Worth> {
    match word.split_once(':') {
        Some((epoch, payload)) => Some(Worth {
            epoch: Some(read_decimal(epoch)?),
            payload: Some(read_payload(payload)?),
        }),
        None => Some(Worth {
            epoch: None,
            payload: Some(read_payload(word)?),
        }),
    }
}

/// The id and the value of a write that these words say.
fn read_write(words: Option<&str>) -> Option<(Target, Worth)> {
    let unnamed = Worth {
        epoch: None,
        payload: None,
    };
    let Some(words) = words else {
        return Some((Target::Own(0), unnamed));
    };
    match words.split_once(' ') {
        Some((target, worth)) => Some((read_target(target)?, read_worth(worth)?)),
        None => Some((read_target(words)?, unnamed)),
    }
}

/// The value that these words say, or one of which all is left out.
fn read_value(words: Option<&str>) -> Option<Worth> {
    match words {
        Some(words) => read_worth(words),
        None => Some(Worth {
            epoch: None,
            payload: None,
        }),
    }
}

/// The id that these words say, or the client's own.
fn read_own(words: Option<&str>) -> Option<Target> {
    match words {
        Some(words) => read_target(words),
        None => Some(Target::Own(0)),
    }
}

/// The call of a word alone.
fn read_bare(word: &str) -> Option<Step> {
    match word {
        "read" => Some(Step::Read),
        "list" => Some(Step::List),
        "load" => Some(Step::Load),
        "refresh" => Some(Step::Refresh),
        "claim" => Some(Step::Claim),
        "holder_refresh" => Some(Step::HolderRefresh),
        _ => None,
    }
}

/// The call of a word and what follows it.
fn read_step(text: &str) -> Option<Step> {
    let (word, rest) = match text.split_once(' ') {
        Some((word, rest)) => (word, Some(rest)),
        None => (text, None),
    };
    match word {
        "write" => {
            let (target, worth) = read_write(rest)?;
            Some(Step::Write(target, worth))
        }
        "write_unchecked" => {
            let (target, worth) = read_write(rest)?;
            Some(Step::WriteUnchecked(target, worth))
        }
        "read_unchecked" => Some(Step::ReadUnchecked(read_own(rest)?)),
        "read_seen" => Some(Step::ReadSeen(read_own(rest)?)),
        "delete" => Some(Step::Delete(read_own(rest)?)),
        "check" => Some(Step::Check(read_own(rest)?)),
        "advance" => Some(Step::Advance(read_own(rest)?)),
        "init" => Some(Step::Init(read_value(rest)?)),
        "update" => Some(Step::Update(read_value(rest)?)),
        "holder_update" => Some(Step::HolderUpdate(read_value(rest)?)),
        "claim_at" => Some(Step::ClaimAt(read_decimal(rest?)?)),
        _ => read_bare(text),
    }
}

/// The calls that a text says, divided by `; `, where it says so many at most.
fn read_steps(alloc: Global, text: &str) -> Result<Option<Vec<Step>>, AllocError> {
    let mut steps = Vec::new(alloc);
    for part in text.split(';') {
        let Some(step) = read_step(part.trim()) else {
            return Ok(None);
        };
        if steps.len() >= MOST_CALLS {
            return Ok(None);
        }
        steps.push(step)?;
    }
    Ok(Some(steps))
}

/// Notes how often a fault may come. False where these words say none.
fn allow(allowed: &mut Allowed, part: &str) -> bool {
    let Some((count, kind)) = part.split_once(' ') else {
        return false;
    };
    let Some(count) = read_decimal(count) else {
        return false;
    };
    if count > MOST_ALLOWED {
        return false;
    }
    match kind {
        "fail before" => allowed.before = count,
        "fail after" => allowed.after = count,
        "fail loose" => allowed.loose = count,
        "giveup" => allowed.giveups = count,
        "land" => allowed.lands = count,
        "crash" => allowed.crashes = count,
        "crash restart" => {
            allowed.crashes = count;
            allowed.restarts = true;
        }
        _ => return false,
    }
    true
}

/// Notes how often each fault may come. False where these words say something else.
fn allow_all(allowed: &mut Allowed, text: &str) -> bool {
    for part in text.split(',') {
        if !allow(allowed, part.trim()) {
            return false;
        }
    }
    true
}

/// Opens a question for so many clients. False where there may not be so many.
fn open(alloc: Global, question: &mut Question, count: &str) -> Result<bool, AllocError> {
    let Some(count) = read_decimal(count) else {
        return Ok(false);
    };
    if count < 1 || MOST_CLIENTS < count || !question.lists.is_empty() {
        return Ok(false);
    }
    for _client in 0..count {
        question.lists.push(Vec::new(alloc))?;
    }
    Ok(true)
}

/// Gives each client these calls. False where the text says none.
fn list_each(alloc: Global, question: &mut Question, text: &str) -> Result<bool, AllocError> {
    let Some(steps) = read_steps(alloc, text)? else {
        return Ok(false);
    };
    for list in question.lists.iter_mut() {
        *list = steps.clone()?;
    }
    Ok(true)
}

/// Gives one client these calls. False where the text says none, or no client of the question.
fn list_one(alloc: Global, question: &mut Question, text: &str) -> Result<bool, AllocError> {
    let Some((client, calls)) = text.split_once(' ') else {
        return Ok(false);
    };
    let Some(client) = read_decimal(client) else {
        return Ok(false);
    };
    let Some(steps) = read_steps(alloc, calls)? else {
        return Ok(false);
    };
    if client < 1 {
        return Ok(false);
    }
    let Some(list) = question.lists.get_mut((client - 1) as usize) else {
        return Ok(false);
    };
    *list = steps;
    Ok(true)
}

/// Takes a line of a question. False where it says nothing, or may not stand there.
fn take_line(alloc: Global, question: &mut Question, line: &str) -> Result<bool, AllocError> {
    let Some((word, rest)) = line.split_once(' ') else {
        return Ok(false);
    };
    if word == "clients" {
        return open(alloc, question, rest);
    }
    if question.lists.is_empty() {
        return Ok(false);
    }
    match word {
        "each" => list_each(alloc, question, rest),
        "client" => list_one(alloc, question, rest),
        "allow" => Ok(allow_all(&mut question.allowed, rest)),
        "where" => {
            question
                .filters
                .push(Bytes::copy_from_slice(alloc, rest.as_bytes())?)?;
            Ok(true)
        }
        "before" => {
            let Some(steps) = read_steps(alloc, rest)? else {
                return Ok(false);
            };
            question.before = steps;
            Ok(true)
        }
        _ => Ok(false),
    }
}

/// Takes the words of a line. False where they are no line of a question.
fn take_words(alloc: Global, question: &mut Question, words: &Words) -> Result<bool, AllocError> {
    match str::from_utf8(words.0.as_slice()) {
        Ok(line) => take_line(alloc, question, line),
        Err(_) => Ok(false),
    }
}

/// The question that a reader's lines say.
///
/// # Errors
///
/// [`Stop::BadLine`] for a line that says nothing or may not stand there, and past the end where no line is kept.
/// [`Stop::ReadFailed`] and [`Stop::NoMemory`] where the reader failed or a growth was refused.
pub(crate) fn read_question<R: Read + Drop>(alloc: Global, reader: R) -> Result<Question, Stop> {
    let Ok(reader) = BufReader::new(alloc, reader) else {
        return Err(Stop::NoMemory);
    };
    let mut lines = Lines::new(alloc, reader);
    let mut question = Question::new(alloc);
    for _line in 0..u64::MAX {
        let Some(words) = lines.next_line::<Words>()? else {
            if question.lists.is_empty() {
                return Err(lines.bad());
            }
            return Ok(question);
        };
        match take_words(alloc, &mut question, &words) {
            Ok(true) => {}
            Ok(false) => return Err(lines.bad()),
            Err(_) => return Err(Stop::NoMemory),
        }
    }
    Err(Stop::ReadFailed)
}
