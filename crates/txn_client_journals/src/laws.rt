//! What holds of the journals and the log of clients that share only the store, whatever they do.
ghost use Rattle.std.specs.Prelude.{◌≡◌, ◌≤◌, ℕ, List, Result, Ok, drop, length, reverse};
ghost use Rattle.txn_store.specs.Store.{State as StoreState};
ghost use Rattle.txn_client_journals.specs.Parts.{Part};
ghost use Rattle.txn_client_journals.specs.Logs.{IsLog};
ghost use Rattle.txn_client_journals.specs.Numbers.{count, number};
ghost use Rattle.txn_client_journals.specs.Merged.{Merged, clients_of, IsMerged};
ghost use Rattle.txn_client_journals.specs.Histories.{OneHistoryOfMerged};
ghost use Rattle.txn_client_journals.specs.Runs.{IsRun};
ghost use Rattle.txn_client_journals.specs.Verdict.{AuditedDiary, HasDiaries, HaveRows, WereLeft, IsDue, clients_in};
ghost use Rattle.txn_client_journals.specs.Shares.{Merges, AreDiaries, ShareOnlyTheStore};
ghost use Rattle.txn_client_journals.specs.declared.rows.LogRow.{LogRow};
ghost use Rattle.txn_client_journals.specs.declared.fault.AuditFault.{AuditFault};

use txn_store::types::codec::ObjectCodec;
use txn_store::types::epoch::EpochField;

/// A list of journal rows, each with its client, and of landings, whose part of each client is that client's journal, whose
/// receipts and landings are a log, and whose landings are of what their clients had left, is a run of a world of so many
/// clients, which ends where the journals and the log end. It is one history. Each beginning of such a list is such a list.
pub fn merged_lists_are_runs<T: Drop, C: ObjectCodec<T>, E: EpochField<T>>(_codec: &C, _epochs: &E)
    ensures runs { (page clients : ℕ) (m : Merged T) (parts : ℕ → Part T) (store : StoreState) → 1 ≤ page → clients_of m ≤ clients → IsMerged page (C.encoded _codec.now) (C.decoded _codec.now) (E.epoch_of _epochs.now) (E.with_epoch _epochs.now) m parts store → IsRun page (C.encoded _codec.now) (C.decoded _codec.now) (E.epoch_of _epochs.now) (E.with_epoch _epochs.now) clients m parts store }
    ensures histories { (page : ℕ) (m : Merged T) (parts : ℕ → Part T) (store : StoreState) → 1 ≤ page → IsMerged page (C.encoded _codec.now) (C.decoded _codec.now) (E.epoch_of _epochs.now) (E.with_epoch _epochs.now) m parts store → OneHistoryOfMerged (C.decoded _codec.now) (E.epoch_of _epochs.now) (E.with_epoch _epochs.now) m parts }
    ensures beginnings { (page : ℕ) (m : Merged T) (parts : ℕ → Part T) (store : StoreState) → IsMerged page (C.encoded _codec.now) (C.decoded _codec.now) (E.epoch_of _epochs.now) (E.with_epoch _epochs.now) m parts store → (k : ℕ) → (was : ℕ → Part T) × (before : StoreState) × IsMerged page (C.encoded _codec.now) (C.decoded _codec.now) (E.epoch_of _epochs.now) (E.with_epoch _epochs.now) (drop k m) was before }
{}

/// The numbers of all are one for each number of a client, from 1 to how many there are.
pub fn numbers_are_one_to_one()
    ensures within { (owners : List ℕ) (client k : ℕ) → 1 ≤ k → k ≤ count client owners → (1 ≤ number owners client k) × (number owners client k ≤ length owners) }
    ensures apart { (owners : List ℕ) (client k other j : ℕ) → 1 ≤ k → k ≤ count client owners → 1 ≤ j → j ≤ count other owners → number owners client k ≡ number owners other j → (client ≡ other) × (k ≡ j) }
{}

/// Of a log and diaries one verdict is due.
pub fn one_verdict_is_due<T: Drop>(_value: &T)
    ensures { (log : List LogRow) (diaries : List (AuditedDiary T)) (verdict other : Result (Unit {0}) AuditFault) → IsDue log diaries verdict → IsDue log diaries other → verdict ≡ other }
{}

/// Where an audit of a log and diaries agrees, the clients shared only the store: each list that merges the diaries in the
/// order of the log is a run and one history, and so is each beginning of it; and for each row of the log its diary's rows
/// up to and with that receipt, or before the next receipt and then the landing, and then the rests, are such a list.
pub fn clients_share_only_the_store<T: Drop, C: ObjectCodec<T>, E: EpochField<T>>(
    _codec: &C,
    _epochs: &E,
)
    ensures { (page clients : ℕ) (log : List LogRow) (diaries : List (AuditedDiary T)) (store : StoreState) → 1 ≤ page → clients_in diaries ≤ clients → IsLog (reverse log) store → AreDiaries page (C.encoded _codec.now) (C.decoded _codec.now) (E.epoch_of _epochs.now) (E.with_epoch _epochs.now) diaries → IsDue log diaries (Ok tt) →
        ShareOnlyTheStore page (C.encoded _codec.now) (C.decoded _codec.now) (E.epoch_of _epochs.now) (E.with_epoch _epochs.now) clients log diaries store }
{}

/// Where the diaries' receipts are the log's rows, and some list merges the diaries in the order of the log, then each landing
/// is of what its client had left before its next receipt: so no audit misses a list that there is.
pub fn merged_lists_show_what_was_left<T: Drop, C: ObjectCodec<T>, E: EpochField<T>>(
    _codec: &C,
    _epochs: &E,
)
    ensures { (page : ℕ) (log : List LogRow) (diaries : List (AuditedDiary T)) (m : Merged T) → AreDiaries page (C.encoded _codec.now) (C.decoded _codec.now) (E.epoch_of _epochs.now) (E.with_epoch _epochs.now) diaries → HasDiaries log diaries → HaveRows log diaries → Merges log diaries m → WereLeft 0 log diaries }
{}
