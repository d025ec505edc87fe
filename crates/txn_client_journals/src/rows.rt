//! What a client's diary and the store's log note.

use txn_history::event::{Answer, Call};
use txn_store::request::{Reply, Request};

/// A row of the store's log: a store call, its client and its reply. Of a landing, whose reply nobody took, it tells which of
/// the client's operations had asked.
#[derive(Drop)]
pub struct LogRow {
    pub client: u64,
    pub request: Request,
    pub reply: Reply,
    pub landed: Option<u64>,
}

/// What a client was given by the store: a row of the log, and how many rows stand before it there.
#[derive(Drop)]
pub struct Receipt {
    pub place: u64,
    pub request: Request,
    pub reply: Reply,
}

/// What is done with an operation.
#[derive(Drop)]
pub enum Act {
    /// It looks at its client's caches.
    Look,
    /// It takes the store's reply to what it asked for.
    Receive(Receipt),
    /// It ends without an answer. Where it asked for a put or a delete, this may still reach the store.
    GiveUp(Option<Request>),
    /// Its store call failed, and nobody knows whether it took effect: it ends refused. A put or a delete may still reach the
    /// store.
    Fails(Request),
    /// Its store call was refused for memory before it reached the store: it ends refused.
    Lacks,
}

/// A put or a delete that an operation of this number left, and which may still reach the store.
#[derive(Drop)]
pub struct Left {
    pub op: u64,
    pub request: Request,
}

/// What a client does. Its operations and views are numbered from 1, each by the client itself.
#[derive(Drop)]
pub enum Step<T> {
    /// It begins a call, which becomes its operation of the next number.
    Begin(Call<T>),
    /// It acts on its operation of this number.
    Act(u64, Act),
    /// It was killed, and does nothing more: what ran ends, and nothing is kept. The puts and deletes that its operations
    /// asked for may still reach the store.
    Killed(Vec<Left>),
}

/// A row of a journal: what the client did, and the answer that this told, if it told one.
#[derive(Drop)]
pub struct JournalRow<T> {
    pub step: Step<T>,
    pub answer: Option<Answer<T>>,
}
