//! The log of any honest store, made row by row.
ghost use Rattle.std.specs.Prelude.{◌≡◌, List};
ghost use Rattle.std.specs.Coded.{codes};
ghost use Rattle.txn_client_journals.specs.declared.rows.LogRow.{LogRow};
ghost use Rattle.txn_client_journals.specs.Replayed.{IsKept};

use crate::audited::Logged;
use crate::log_fault::LogFault;
use crate::replayed::Replayed;
use crate::rows::LogRow;
use std::alloc::Global;
use std::marker::Model;
use txn_store::types::room::push_within;

/// A log that an honest store can have: by the store's contract, with fresh tokens, and without a failure. The store may be
/// any, and anybody may say in which order it was called: the order is replayed, row by row.
///
/// A clause sees the log.
#[derive(Drop)]
pub struct HonestLog {
    kept: Replayed,
    rows: Vec<LogRow>,
}

impl Model for HonestLog {
    ghost Value = { List LogRow };

    ghost coded = { Prim.hlevel codes };

    ghost view = { λ l. l.rows.items };

    ghost invariant = { λ l. IsKept l.rows.items l.kept };
}

impl HonestLog {
    ghost use Rattle.std.specs.Prelude.{◌⊎◌, ◌++◌, ◌∷◌, [], IfErr, OnErr, OnOk};
    ghost use Rattle.txn_client_journals.specs.Honest.{IsHonest, IsReasonAfter};

    /// An empty log. It takes no memory.
    pub fn new(alloc: Global) -> HonestLog
        ensures { result ≡ [] }
    {
        HonestLog {
            kept: Replayed::new(alloc),
            rows: Vec::new(alloc),
        }
    }

    /// Takes a row exactly where an honest store with this log can have replied so next. It compares as many paths as the
    /// number of files has binary digits, a few times, and a listing's page is made once more; it goes over no rows.
    ///
    /// # Errors
    ///
    /// `OtherKind`, `Failed`, `OtherAnswer` and `TokenGiven`: no honest store with this log can have replied so next.
    /// `NoMemory`: a growth was refused. The log is as it was.
    pub fn push(&mut self, alloc: Global, row: LogRow) -> Result<(), LogFault>
        ensures ok { OnOk result (self.new ≡ self.old ++ row ∷ []) }
        ensures honest { OnOk result (IsHonest (self.old ++ row ∷ [])) }
        ensures err { OnErr result (self.new ≡ self.old) }
        ensures refused { IfErr result (λ why. (why ≡ LogFault.NoMemory) ⊎ (IsHonest (self.old ++ row ∷ []) → ⊥)) }
        ensures reason { IfErr result (IsReasonAfter self.old row) }
    {
        // The row is dropped by calls: in place, the proof would follow each state that may be dropped here.
        if let Err(_) = self.rows.reserve(1) {
            drop(row);
            return Err(LogFault::NoMemory);
        }
        match self.kept.follow(alloc, &row.request, &row.reply) {
            Ok(()) => {
                push_within(&mut self.rows, row);
                Ok(())
            }
            Err(fault) => {
                drop(row);
                Err(fault)
            }
        }
    }
}

impl Logged for HonestLog {
    ghost logged = { λ log. log };

    fn log(&self) -> &[LogRow] {
        self.rows.as_slice()
    }
}
