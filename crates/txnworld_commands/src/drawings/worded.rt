//! The words of a call, as a drawing has them.

use std::fmt;
use txn_history::event::{Call, EventOf, Failure};
use txn_script::manifest_call::{ManifestCall, OwnCall};
use txn_script_lines::called::Called;
use txn_script_lines::record::Record;

/// A call that has words: those of scripts.
pub trait Worded: Drop {
    /// Writes its words.
    fn write_words<W: fmt::Write>(&self, f: &mut fmt::Formatter<W>) -> fmt::Result;
}

impl Worded for Call<Record> {
    fn write_words<W: fmt::Write>(&self, f: &mut fmt::Formatter<W>) -> fmt::Result {
        let called = Called(self);
        write!(f, "{called}")
    }
}

impl Worded for ManifestCall {
    fn write_words<W: fmt::Write>(&self, f: &mut fmt::Formatter<W>) -> fmt::Result {
        match self {
            ManifestCall::Any(call) => {
                let called = Called(call);
                write!(f, "{called}")
            }
            ManifestCall::Own(OwnCall::Checkpoint(view)) => write!(f, "checkpoint {view}"),
            ManifestCall::Own(OwnCall::Release(view, id)) => write!(f, "release {view} {id}"),
            ManifestCall::Own(OwnCall::SetPayload(view, payload)) => {
                write!(f, "payload {view} {payload}")
            }
            ManifestCall::Own(OwnCall::Fence(view)) => write!(f, "fence {view}"),
            ManifestCall::Own(OwnCall::Sweep(view, id)) => write!(f, "sweep {view} {id}"),
        }
    }
}

/// An event in words: of a begin those of its call.
#[derive(Clone, Copy)]
pub struct EventWords<'a, C>(pub &'a EventOf<C>);

impl<C: Worded> fmt::Display for EventWords<'_, C> {
    fn fmt<W: fmt::Write>(&self, f: &mut fmt::Formatter<W>) -> fmt::Result {
        match self.0 {
            EventOf::Begin(_, call) => call.write_words(f),
            EventOf::Look(op) => write!(f, "look {op}"),
            EventOf::Serve(op) => write!(f, "serve {op}"),
            EventOf::Fail(op, Failure::Before) => write!(f, "fail {op} before"),
            EventOf::Fail(op, Failure::After) => write!(f, "fail {op} after"),
            EventOf::Fail(op, Failure::Loose) => write!(f, "fail {op} loose"),
            EventOf::GiveUp(op) => write!(f, "giveup {op}"),
            EventOf::Land(k) => write!(f, "land {k}"),
            EventOf::Crash(client) => write!(f, "crash {client}"),
        }
    }
}
