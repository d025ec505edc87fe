//! What follows of the things that a client did.
ghost use Rattle.std.specs.Prelude.{◌≡◌, true, List, reverse, ◌≤◌, ℕ, Bool, Option, Some};
ghost use Rattle.txn_client_journals.specs.declared.rows.JournalRow.{JournalRow};
ghost use Rattle.txn_client_journals.specs.Journals.{Replays};
ghost use Rattle.txn_client_journals.specs.Parts.{Part, no_part};
ghost use Rattle.txn_diary.specs.Keepers.{KeeperState, DoesAndForgets, DoesAll};
ghost use Rattle.txn_diary.specs.Forgetting.{Remembers};
ghost use Rattle.txn_store.specs.declared.request.Reply.{Reply};
ghost use Rattle.txn_steps.specs.declared.boundary.caches.Caches.{Caches};
ghost use Rattle.txn_history.specs.Seen.{Ask};
ghost use Rattle.txn_client_journals.specs.tables.Operations.{request_of};
ghost use Rattle.txn_history.specs.declared.event.Call.{Call};
ghost use Rattle.txn_history.specs.Views.{View};
ghost use Rattle.txn_machine.specs.declared.doing.Doing.{Doing};
ghost use Rattle.txn_machine.specs.Doing.{asked, started, turned, IsReply, InRange};
ghost use Rattle.txn_diary.specs.Taking.{CanTake, FitsAsk, CanServe};

use txn_store::types::codec::ObjectCodec;
use txn_store::types::epoch::EpochField;

/// The rows of what a client did, one thing after another from its start on, whatever it forgot meanwhile, are a journal, and of
/// what that leads to the client keeps all but what it forgot.
pub fn done_is_a_journal<T: Drop, C: ObjectCodec<T>, E: EpochField<T>>(_codec: &C, _epochs: &E)
    ensures { (old new : KeeperState T C E) (rows : List (JournalRow T)) → old.part ≡ no_part → old.alive ≡ true → DoesAll (DoesAndForgets C.encoded C.decoded E.epoch_of E.with_epoch) old rows new →
        (whole : Part T) × Replays new.page (C.encoded new.codec) (C.decoded new.codec) (E.epoch_of new.epochs) (E.with_epoch new.epochs) new.client (reverse rows) whole × Remembers whole new.part }
{}

/// An operation can take what it asks for when it starts, and after each look and each reply, whatever that is. So it takes a
/// reply of the kind that it asks for, and what it asks for can be served.
pub fn operations_take_replies<T: Drop>(_value: &T)
    ensures started { (page : ℕ) (encode : T → List ℕ) (get_epoch : T → ℕ) (set_epoch : T → ℕ → T) (call : Call T) (view : Option (View T)) → 1 ≤ page → CanTake (started page encode get_epoch set_epoch call view).0 }
    ensures turned { (page : ℕ) (encode : T → List ℕ) (decode : List ℕ → Option T) (get_epoch : T → ℕ) (set_epoch : T → ℕ → T) (refused : Bool) (doing : Doing T) (caches : Caches) (reply : Option Reply) → 1 ≤ page → CanTake doing → CanTake (turned page encode decode get_epoch set_epoch refused doing caches reply).0 }
    ensures takes { (doing : Doing T) (ask : Ask) (reply : Option Reply) → CanTake doing → asked doing ≡ Some ask → FitsAsk (request_of (asked doing)) reply → IsReply doing reply }
    ensures serves { (doing : Doing T) → CanTake doing → CanServe (request_of (asked doing)) }
    ensures range { (doing : Doing T) → CanTake doing → InRange doing }
{}
