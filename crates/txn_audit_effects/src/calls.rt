//! The recorded calls of the store.

use crate::clock::{Clock, clock_of};
use bytes::Bytes;
use std::alloc::{AllocError, Global};
use txn_audit_recordings::row::RecordedRow;
use txn_store::digits::read_digits;
use txn_store::page::Page;
use txn_store::path::Path;
use txn_store::request::{Reply, Request};
use txn_store::store::PutMode;
use txn_store::types::boundary::read_boundary;

/// A store call of a recording. Times are in nanoseconds: `from` and `until` of the clock of all calls, `asked` and `told` of its
/// own.
#[derive(Clone, Copy)]
pub struct Asked<'a> {
    /// Which recording has it.
    pub recording: usize,
    /// Which row of that asks.
    pub row: usize,
    /// When it was asked at the earliest.
    pub from: u64,
    /// When its reply was there at the latest: the greatest time where none was seen.
    pub until: u64,
    /// The number of its clock.
    pub clock: usize,
    /// When it was asked, by that clock alone.
    pub asked: u64,
    /// When its reply was there, by that clock alone: the greatest time where none was seen.
    pub told: u64,
    pub request: &'a Request,
    /// The reply, where one was seen.
    pub reply: Option<&'a Reply>,
    /// The call before it of the same client whose reply was seen.
    pub before: Option<usize>,
}

/// What a path names.
#[derive(Clone, Copy, Debug, PartialEq, Eq)]
pub enum Name {
    /// The version of this id.
    Version(u64),
    /// Anything else: the boundary file.
    Boundary,
}

/// What a path names: a version where its last segment begins with 20 digits and a dot.
pub fn name_of(path: &Path) -> Name {
    let Some(name) = path.filename() else {
        return Name::Boundary;
    };
    let Some((digits, _)) = name.split_once('.') else {
        return Name::Boundary;
    };
    if digits.len() != 20 {
        return Name::Boundary;
    }
    match read_digits(digits) {
        Some(id) => Name::Version(id),
        None => Name::Boundary,
    }
}

/// The version that a path names, if it does.
pub fn version_of(path: &Path) -> Option<u64> {
    match name_of(path) {
        Name::Version(id) => Some(id),
        Name::Boundary => None,
    }
}

/// When the reply to the call of a row was there, and the reply, where one was seen.
fn reply_after<T>(rows: &[RecordedRow<T>], row: usize) -> Option<(u64, &Reply)> {
    match rows.get(row.saturating_add(1)) {
        Some(RecordedRow::Reply(_, at, reply)) => Some((*at, reply)),
        _ => None,
    }
}

/// The call of a row, where it asks for one, which comes after that of this place.
fn call_at<'a, T>(
    recording: usize,
    rows: &'a [RecordedRow<T>],
    row: usize,
    clock: Clock,
    before: Option<usize>,
) -> Option<Asked<'a>> {
    match rows.get(row) {
        Some(RecordedRow::Ask(_, at, request)) => {
            let (until, told, reply) = match reply_after(rows, row) {
                Some((at, reply)) => (clock.latest(at), clock.exactly(at), Some(reply)),
                None => (u64::MAX, u64::MAX, None),
            };
            Some(Asked {
                recording,
                row,
                from: clock.earliest(*at),
                until,
                clock: clock.number,
                asked: clock.exactly(*at),
                told,
                request,
                reply,
                before,
            })
        }
        _ => None,
    }
}

/// Adds the calls of one recording.
fn add_calls<'a, T>(
    calls: &mut Vec<Asked<'a>>,
    recording: usize,
    rows: &'a [RecordedRow<T>],
    clock: Clock,
) -> Result<(), AllocError> {
    let mut before = None;
    for row in 0..rows.len() {
        if let Some(call) = call_at(recording, rows, row, clock, before) {
            if call.is_answered() {
                before = Some(calls.len());
            }
            calls.push(call)?;
        }
    }
    Ok(())
}

/// The calls of all recordings, whose times are of these clocks.
pub(crate) fn calls<'a, T>(
    alloc: Global,
    recordings: &'a [Vec<RecordedRow<T>>],
    clocks: &[Clock],
) -> Result<Vec<Asked<'a>>, AllocError> {
    let mut calls = Vec::new(alloc);
    for recording in 0..recordings.len() {
        let clock = clock_of(clocks, recording);
        add_calls(
            &mut calls,
            recording,
            recordings[recording].as_slice(),
            clock,
        )?;
    }
    Ok(calls)
}

impl<'a> Asked<'a> {
    /// Whether its reply was seen.
    pub fn is_answered(&self) -> bool {
        self.reply.is_some()
    }

    /// The version that it creates, where it asks for that.
    pub(crate) fn creates(&self) -> Option<u64> {
        match self.request {
            Request::Put {
                path,
                mode: PutMode::Create,
                ..
            } => version_of(path),
            _ => None,
        }
    }

    /// The version that it removes, where it asks for that.
    pub(crate) fn removes(&self) -> Option<u64> {
        match self.request {
            Request::Delete { path } => version_of(path),
            _ => None,
        }
    }

    /// The boundary that it writes, where it asks for that.
    pub(crate) fn raises(&self) -> Option<u64> {
        match self.request {
            Request::Put { path, bytes, .. } => match name_of(path) {
                Name::Boundary => read_boundary(bytes.as_slice()),
                Name::Version(_) => None,
            },
            _ => None,
        }
    }

    /// The version after which it lists, 0 for all, and the page that it was told, where it lists.
    pub fn lists(&self) -> Option<(u64, &'a Page)> {
        let (Request::List { after, .. }, Some(Reply::List(Ok(page)))) = (self.request, self.reply)
        else {
            return None;
        };
        let low = match after {
            Some(path) => version_of(path).unwrap_or(0),
            None => 0,
        };
        Some((low, page))
    }

    /// The bytes that it puts.
    pub(crate) fn puts(&self) -> Option<&'a Bytes> {
        match self.request {
            Request::Put { bytes, .. } => Some(bytes),
            _ => None,
        }
    }

    /// The token that it was given.
    pub(crate) fn given(&self) -> Option<u64> {
        match self.reply {
            Some(Reply::Put(Ok(token))) => Some(token.number()),
            _ => None,
        }
    }
}
