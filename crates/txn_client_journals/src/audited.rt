//! What an audit reads.

use crate::rows::{JournalRow, LogRow};

/// A store's log, which an audit reads.
pub trait Logged {
    ghost use Rattle.std.specs.Prelude.{◌≡◌, List, reverse};
    ghost use Rattle.txn_store.specs.Store.{State};
    ghost use Rattle.txn_client_journals.specs.Logs.{IsLog};
    ghost use Rattle.txn_client_journals.specs.declared.rows.LogRow.{LogRow};

    /// The log that it has, the oldest row first.
    ghost logged: { Self → List LogRow };

    /// What was served, the oldest row first. It takes no memory.
    fn log(&self) -> &[LogRow]
        ensures rows { result.now ≡ logged self.now }
        // It leads from the empty store to one, and each reply is one that the store may give at its point.
        ensures leads { (store : State) × IsLog (reverse result.now) store };
}

/// A client's diary, which an audit reads.
pub trait Audited<T> {
    ghost use Rattle.std.specs.Prelude.{◌≡◌};
    ghost use Rattle.txn_client_journals.specs.Verdict.{AuditedDiary};

    /// The diary that it is.
    ghost diary: { Self → AuditedDiary T };

    /// The client's number.
    fn client(&self) -> u64
        ensures { result ≡ (diary self.now).client };

    /// The client's journal, the oldest row first. It takes no memory.
    fn rows(&self) -> &[JournalRow<T>]
        ensures { result.now ≡ (diary self.now).rows };
}
