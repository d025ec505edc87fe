//! How a call is written.

ghost use Rattle.std.specs.Prelude.{Some};
ghost use Rattle.txn_script_lines.specs.Grammar.{base_text, bound_text, call_text};

use crate::text_form::LineValue;
use std::fmt;
use std::ops::Bound;
use txn_history::event::{Call, PlainCall, ViewCall};

/// The base of a write, or `-` for none.
#[derive(Clone, Copy)]
struct OnBase(Option<u64>);

impl fmt::Display for OnBase {
    ghost output = { λ base. Some (base_text base.0) };

    fn fmt<W: fmt::Write>(&self, f: &mut fmt::Formatter<W>) -> fmt::Result {
        match self.0 {
            None => write!(f, "-"),
            Some(id) => write!(f, "{id}"),
        }
    }
}

/// A bound of a listing: `=` and a number that is within, `!` and a number that is not, or `-` for none.
#[derive(Clone, Copy)]
struct UpTo(Bound<u64>);

impl fmt::Display for UpTo {
    ghost output = { λ bound. Some (bound_text bound.0) };

    fn fmt<W: fmt::Write>(&self, f: &mut fmt::Formatter<W>) -> fmt::Result {
        match self.0 {
            Bound::Included(id) => write!(f, "={id}"),
            Bound::Excluded(id) => write!(f, "!{id}"),
            Bound::Unbounded => write!(f, "-"),
        }
    }
}

/// A call as it is written: the text of which it is read.
#[derive(Clone, Copy, Debug)]
pub struct Called<'a, T>(pub &'a Call<T>);

impl<T: LineValue> fmt::Display for Called<'_, T> {
    ghost output = { λ called. Some (call_text T.text called.0.now) };

    fn fmt<W: fmt::Write>(&self, f: &mut fmt::Formatter<W>) -> fmt::Result {
        match self.0 {
            Call::Plain(PlainCall::Write(base, value)) => {
                let base = OnBase(*base);
                write!(f, "write {base} {value}")
            }
            Call::Plain(PlainCall::WriteUnchecked(base, value)) => {
                let base = OnBase(*base);
                write!(f, "write_unchecked {base} {value}")
            }
            Call::Plain(PlainCall::Read) => write!(f, "read"),
            Call::Plain(PlainCall::ReadUnchecked(id)) => write!(f, "read_unchecked {id}"),
            Call::Plain(PlainCall::ReadSeen(id)) => write!(f, "read_seen {id}"),
            Call::Plain(PlainCall::ListIds(from, to)) => {
                let from = UpTo(*from);
                let to = UpTo(*to);
                write!(f, "list {from} {to}")
            }
            Call::Plain(PlainCall::Delete(id)) => write!(f, "delete {id}"),
            Call::Plain(PlainCall::Check(id)) => write!(f, "check {id}"),
            Call::Plain(PlainCall::Advance(to)) => write!(f, "advance {to}"),
            Call::View(ViewCall::Init(value)) => write!(f, "init {value}"),
            Call::View(ViewCall::Load) => write!(f, "load"),
            Call::View(ViewCall::Refresh(view)) => write!(f, "refresh {view}"),
            Call::View(ViewCall::Update(view, value)) => write!(f, "update {view} {value}"),
            Call::View(ViewCall::Claim(view)) => write!(f, "claim {view}"),
            Call::View(ViewCall::ClaimAt(view, epoch)) => write!(f, "claim_at {view} {epoch}"),
            Call::View(ViewCall::HolderRefresh(view)) => write!(f, "holder_refresh {view}"),
            Call::View(ViewCall::HolderUpdate(view, value)) => {
                write!(f, "holder_update {view} {value}")
            }
        }
    }
}
