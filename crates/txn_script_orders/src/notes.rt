//! What is noted of a way: the lines of its script, and how the calls of each client ended.

use crate::moves::Move;
use crate::situation::{Situation, Taken};
use std::alloc::{AllocError, Global};
use std::fmt;
use std::io::Write;
use txn_history::event::{Event, Failure};
use txn_script_lines::called::Called;
use txn_script_lines::printed::Answered;
use txn_script_lines::record::Record;

/// The line of an event.
#[derive(Clone, Copy)]
struct EventLine<'a>(&'a Event<Record>);

impl fmt::Display for EventLine<'_> {
    fn fmt<W: fmt::Write>(&self, f: &mut fmt::Formatter<W>) -> fmt::Result {
        match self.0 {
            Event::Begin(client, call) => {
                let called = Called(call);
                write!(f, "begin {client} {called}")
            }
            Event::Look(op) => write!(f, "look {op}"),
            Event::Serve(op) => write!(f, "serve {op}"),
            Event::Fail(op, Failure::Before) => write!(f, "fail {op} before"),
            Event::Fail(op, Failure::After) => write!(f, "fail {op} after"),
            Event::Fail(op, Failure::Loose) => write!(f, "fail {op} loose"),
            Event::GiveUp(op) => write!(f, "giveup {op}"),
            Event::Land(number) => write!(f, "land {number}"),
            Event::Crash(client) => write!(f, "crash {client}"),
        }
    }
}

/// An event that was noted: its line, its operation where it is a look or a serve, and whether that was answered.
#[derive(Drop)]
struct Noted {
    line: String,
    turn: Option<u64>,
    is_answered: bool,
}

/// What is noted of a way: its events, and of each client how its calls ended.
#[derive(Drop)]
pub(crate) struct Notes {
    alloc: Global,
    events: Vec<Noted>,
    /// Of each client the words, and how many of its calls were left out.
    pub(crate) said: Vec<(Vec<u8>, u64)>,
}

impl Notes {
    /// Nothing was noted, of so many clients.
    pub(crate) fn new(alloc: Global, clients: usize) -> Result<Notes, AllocError> {
        let mut said = Vec::new(alloc);
        for _client in 0..clients {
            said.push((Vec::new(alloc), 0))?;
        }
        Ok(Notes {
            alloc,
            events: Vec::new(alloc),
            said,
        })
    }

    /// Writes the lines of the events.
    pub(crate) fn write(&self, text: &mut Vec<u8>) -> Result<(), AllocError> {
        write_notes(self.events.as_slice(), text)
    }

    /// Of a client: how one more of its calls ended.
    fn say<D: fmt::Display + Drop>(&mut self, client: usize, words: D) -> Result<(), AllocError> {
        let Some((said, _)) = self.said.get_mut(client) else {
            return Ok(());
        };
        let written = if said.is_empty() {
            write!(said, "{words}")
        } else {
            write!(said, "; {words}")
        };
        written.map_err(|_| AllocError)
    }

    /// Of a client: that calls were left out.
    fn say_skipped(&mut self, client: usize, skipped: u64) -> Result<(), AllocError> {
        let known = match self.said.get_mut(client) {
            Some((_, known)) => *known,
            None => return Ok(()),
        };
        for _call in known..skipped {
            self.say(client, "left out")?;
        }
        if let Some((_, known)) = self.said.get_mut(client) {
            *known = skipped;
        }
        Ok(())
    }

    /// Of a client: what a move told it.
    fn hear(
        &mut self,
        situation: &Situation,
        client: usize,
        step: Move,
        taken: Taken,
    ) -> Result<(), AllocError> {
        match step {
            Move::GiveUp(_) => self.say(client, "given up")?,
            Move::Crash(_) => self.say(client, "crashed")?,
            _ => {}
        }
        if taken.is_answered {
            if let Some(answer) = situation.last_answer() {
                self.say(client, Answered(answer))?;
            }
        }
        match situation.members.get(client) {
            Some(member) => self.say_skipped(client, member.skipped),
            None => Ok(()),
        }
    }

    /// Takes a move, and notes it.
    pub(crate) fn take(&mut self, situation: &mut Situation, step: Move) -> Result<(), AllocError> {
        let Some(event) = situation.event_of(step) else {
            return Ok(());
        };
        let shown = EventLine(&event);
        let line = format!(in self.alloc; "{shown}")?;
        let taken = situation.take(step)?;
        let turn = match step {
            Move::Look(_) | Move::Serve(_) => Some(taken.op),
            _ => None,
        };
        self.events.push(Noted {
            line,
            turn,
            is_answered: taken.is_answered,
        })?;
        match step.client() {
            Some(client) => self.hear(situation, client, step, taken),
            None => Ok(()),
        }
    }

    /// What is left of each client at its end.
    pub(crate) fn end(&mut self, situation: &Situation, clients: usize) -> Result<(), AllocError> {
        for client in 0..clients {
            if let Some(member) = situation.members.get(client) {
                if member.place < situation.length(client) {
                    self.say(client, "waits")?;
                }
            }
        }
        Ok(())
    }
}

/// How many notes from here on are looks and serves of this operation, up to its answer; 0 where it has none here.
fn run_length(notes: &[Noted], op: u64) -> usize {
    let mut count = 0usize;
    for note in notes {
        if note.turn != Some(op) {
            return 0;
        }
        count = count.saturating_add(1);
        if note.is_answered {
            return count;
        }
    }
    0
}

/// Writes the lines of what was noted, with a run in place of looks and serves that go on to an answer.
fn write_notes(notes: &[Noted], text: &mut Vec<u8>) -> Result<(), AllocError> {
    let mut passed = 0usize;
    for (index, note) in notes.iter().enumerate() {
        if index < passed {
            continue;
        }
        let length = match note.turn {
            Some(op) => run_length(notes.get(index..).unwrap_or(&[]), op),
            None => 0,
        };
        let line = note.line.as_str();
        let written = match note.turn {
            Some(op) if length > 1 => writeln!(text, "run {op}"),
            _ => writeln!(text, "{line}"),
        };
        let Ok(()) = written else {
            return Err(AllocError);
        };
        passed = index.saturating_add(length.max(1));
    }
    Ok(())
}
