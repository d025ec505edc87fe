//! The rows of a recording.

use txn_history::event::Call;
use txn_store::request::{Reply, Request};

/// One row of a client's recording. The client counts its operations from 1, in the order in which they begin, and has one at
/// a time. Times are nanoseconds of one clock, which all clients of a machine read.
pub enum RecordedRow<T> {
    /// The recording is of the client of this number, at least 1, whose listings have pages of at most so many files, at least 1.
    Client(u64, u64),
    /// The client begins a call as its operation of this number.
    Begin(u64, Call<T>),
    /// At this time the operation is about to ask the store.
    Ask(u64, u64, Request),
    /// At this time it has the store's reply.
    Reply(u64, u64, Reply),
    /// At this time its store call has failed, and nobody knows whether it took effect.
    Failed(u64, u64),
    /// The client gives the operation up.
    GiveUp(u64),
    /// The operation is answered, with the answer as it is printed.
    Answer(u64, String),
}

impl<T: Drop> Drop for RecordedRow<T> {
    /// Drops what the row has: here, so that no crate above has to prove how each part is dropped.
    fn drop(self) {
        match self {
            RecordedRow::Client(_, _) => {}
            RecordedRow::Begin(_, _) => {}
            RecordedRow::Ask(_, _, _) => {}
            RecordedRow::Reply(_, _, _) => {}
            RecordedRow::Failed(_, _) => {}
            RecordedRow::GiveUp(_) => {}
            RecordedRow::Answer(_, _) => {}
        }
    }
}
