//! The printed lines.

ghost use Rattle.std.specs.Prelude.{◌≡◌, Some};
ghost use Rattle.txn_script_lines.specs.Printed.{refusal_name, plain_answer_text, answered_text, answer_text, entry_text, boundary_text, ids_line_text, stands_text, listed_text, fault_name, fault_text, named_fault_text};

use crate::text_form::LineValue;
use std::fmt;
use txn_history::event::{Answer, EventFault, PlainAnswer};
use txn_history::view::View;

/// The name of a refusal.
fn refusal_name(number: u8) -> &'static str
    ensures { result.now ≡ refusal_name number }
{
    match number {
        1 => "IoError",
        2 => "ObjectStoreError",
        3 => "ObjectUpdateTimeout",
        4 => "LatestRecordMissing",
        5 => "ObjectVersionExists",
        6 => "Fenced",
        7 => "InvalidObjectState",
        8 => "CallbackError",
        9 => "NoMemory",
        10 => "IdExhausted",
        _ => "TurnsExhausted",
    }
}

/// Ids, each after one space, or ` none`.
#[derive(Clone, Copy)]
struct Listed<'a>(&'a [u64]);

impl fmt::Display for Listed<'_> {
    ghost output = { λ listed. Some (listed_text listed.0.now) };

    fn fmt<W: fmt::Write>(&self, f: &mut fmt::Formatter<W>) -> fmt::Result {
        if self.0.is_empty() {
            return write!(f, " none");
        }
        for id in self.0 {
            write!(f, " {id}")?;
        }
        Ok(())
    }
}

/// The answer of a call without a view, or a refusal, as it is printed.
#[derive(Clone, Copy)]
struct PlainAnswered<'a, T>(&'a PlainAnswer<T>);

impl<T: LineValue> fmt::Display for PlainAnswered<'_, T> {
    ghost output = { λ answered. Some (plain_answer_text T.text answered.0.now) };

    fn fmt<W: fmt::Write>(&self, f: &mut fmt::Formatter<W>) -> fmt::Result {
        match self.0 {
            PlainAnswer::Wrote(id) => write!(f, "wrote {id}"),
            PlainAnswer::Read(None) => write!(f, "read none"),
            PlainAnswer::Read(Some((id, value))) => write!(f, "read {id} {value}"),
            PlainAnswer::Value(None) => write!(f, "value none"),
            PlainAnswer::Value(Some(value)) => write!(f, "value {value}"),
            PlainAnswer::Ids(ids) => {
                let listed = Listed(ids.as_slice());
                write!(f, "ids{listed}")
            }
            PlainAnswer::Done => write!(f, "done"),
            PlainAnswer::Refused(number) => {
                let name = refusal_name(*number);
                write!(f, "refused {number} {name}")
            }
        }
    }
}

/// An answer as it is printed.
#[derive(Clone, Copy, Debug)]
pub struct Answered<'a, T>(pub &'a Answer<T>);

impl<T: LineValue> fmt::Display for Answered<'_, T> {
    ghost output = { λ answered. Some (answered_text T.text answered.0.now) };

    fn fmt<W: fmt::Write>(&self, f: &mut fmt::Formatter<W>) -> fmt::Result {
        match self.0 {
            Answer::Plain(answer) => {
                let answered = PlainAnswered(answer);
                write!(f, "{answered}")
            }
            Answer::View(view, id, value) => write!(f, "view {view} at {id} {value}"),
            Answer::Held(view, id, value, epoch) => {
                write!(f, "holder {view} at {id} {value} epoch {epoch}")
            }
        }
    }
}

/// The line of an answer.
#[derive(Clone, Copy, Debug)]
pub struct AnswerLine<'a, T> {
    pub op: u64,
    pub answered: Answered<'a, T>,
}

impl<T: LineValue> fmt::Display for AnswerLine<'_, T> {
    ghost output = { λ line. Some (answer_text T.text line.op line.answered.0.now) };

    fn fmt<W: fmt::Write>(&self, f: &mut fmt::Formatter<W>) -> fmt::Result {
        let op = self.op;
        let answered = &self.answered;
        write!(f, "op {op}: {answered}")
    }
}

/// The line of an entry of the history.
#[derive(Clone, Copy, Debug)]
pub struct EntryLine<'a, T> {
    pub number: usize,
    pub value: &'a T,
}

impl<T: LineValue> fmt::Display for EntryLine<'_, T> {
    ghost output = { λ line. Some (entry_text T.text line.number line.value.now) };

    fn fmt<W: fmt::Write>(&self, f: &mut fmt::Formatter<W>) -> fmt::Result {
        let number = self.number;
        let value = self.value;
        write!(f, "entry {number} {value}")
    }
}

/// The line of the boundary.
#[derive(Clone, Copy, Debug)]
pub struct BoundaryLine(pub u64);

impl fmt::Display for BoundaryLine {
    ghost output = { λ line. Some (boundary_text line.0) };

    fn fmt<W: fmt::Write>(&self, f: &mut fmt::Formatter<W>) -> fmt::Result {
        let boundary = self.0;
        write!(f, "boundary {boundary}")
    }
}

/// A line of ids.
#[derive(Debug, Drop)]
pub enum IdsLine {
    /// Of the erased ones.
    Erased(Vec<u64>),
    /// Of those that the newest value pins.
    Pinned(Vec<u64>),
}

impl fmt::Display for IdsLine {
    ghost output = { λ line. Some (ids_line_text line) };

    fn fmt<W: fmt::Write>(&self, f: &mut fmt::Formatter<W>) -> fmt::Result {
        match self {
            IdsLine::Erased(ids) => write!(f, "erased{}", Listed(ids)),
            IdsLine::Pinned(ids) => write!(f, "pinned{}", Listed(ids)),
        }
    }
}

/// The line of a view that has not ended.
#[derive(Clone, Copy, Debug)]
pub struct ViewLine<'a, T> {
    /// The view's number, counted from 1.
    pub number: u64,
    /// The view as it stands.
    pub view: &'a View<T>,
}

impl<T: LineValue> fmt::Display for ViewLine<'_, T> {
    ghost output = { λ line. Some (stands_text T.text line.number line.view.now) };

    fn fmt<W: fmt::Write>(&self, f: &mut fmt::Formatter<W>) -> fmt::Result {
        let number = self.number;
        let id = self.view.id;
        let value = &self.view.object;
        match self.view.epoch {
            None => write!(f, "view {number} at {id} {value}"),
            Some(epoch) => write!(f, "holder {number} at {id} {value} epoch {epoch}"),
        }
    }
}

/// The name of a fault.
pub fn fault_name(fault: EventFault) -> &'static str
    ensures { result.now ≡ fault_name fault }
{
    match fault {
        EventFault::UnknownNumber => "UnknownNumber",
        EventFault::NotAsked => "NotAsked",
        EventFault::UnknownBase => "UnknownBase",
        EventFault::BoundaryTooHigh => "BoundaryTooHigh",
        EventFault::EpochLowered => "EpochLowered",
        EventFault::ViewBusy => "ViewBusy",
        EventFault::NoMemory => "NoMemory",
    }
}

/// The line of a refused event, by the number and the name of its fault.
#[derive(Clone, Copy, Debug)]
pub struct FaultLine {
    pub number: u8,
    pub name: &'static str,
}

impl FaultLine {
    /// The line of the fault of this number and name.
    pub fn new(number: u8, name: &'static str) -> FaultLine
        ensures number { result.number ≡ number }
        ensures name { result.name.now ≡ name.now }
    {
        FaultLine { number, name }
    }

    /// The line of a fault of a world.
    pub fn of_world(fault: EventFault) -> FaultLine
        ensures { named_fault_text result.number result.name.now ≡ fault_text fault }
    {
        FaultLine::new(fault.number(), fault_name(fault))
    }
}

impl fmt::Display for FaultLine {
    ghost output = { λ line. Some (named_fault_text line.number line.name.now) };

    fn fmt<W: fmt::Write>(&self, f: &mut fmt::Formatter<W>) -> fmt::Result {
        let number = self.number;
        let name = self.name;
        write!(f, "fault {number} {name}")
    }
}
