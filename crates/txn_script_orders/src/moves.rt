//! What may happen next.

use txn_history::event::Failure;

/// One event, by the client whose it is, counted from 0.
#[derive(Clone, Copy, Debug, PartialEq, Eq)]
pub(crate) enum Move {
    Begin(usize),
    Look(usize),
    Serve(usize),
    Fail(usize, Failure),
    GiveUp(usize),
    Crash(usize),
    /// The loose request of this number, from 1, reaches the store.
    Land(u64),
}

impl Move {
    /// Whose it is, where it is a client's.
    pub(crate) fn client(&self) -> Option<usize> {
        match self {
            Move::Begin(client)
            | Move::Look(client)
            | Move::Serve(client)
            | Move::Fail(client, _)
            | Move::GiveUp(client)
            | Move::Crash(client) => Some(*client),
            Move::Land(_) => None,
        }
    }

    /// Whether it is a failure, a landing or a crash, and not an event that a client makes by itself.
    pub(crate) fn is_fault(&self) -> bool {
        !matches!(self, Move::Begin(_) | Move::Look(_) | Move::Serve(_))
    }
}
