//! A client whose caller makes its store calls.
ghost use Rattle.std.specs.Prelude.{◌≡◌, ◌≤◌, IfOk};
ghost use Rattle.txn_client_seat.specs.Kept.{seen};
ghost use Rattle.txn_client_seat.specs.Seats.{seat_with};

use crate::rows_kept::{KeptRows, first_rows, let_go, say_time};
use crate::rows_text;
use crate::turns::{self, Desk, Kept};
use crate::unchecked_calls::UncheckedCalls;
use crate::waiting::{drop_at, find};
use std::alloc::{AllocError, Global};
use std::marker::Model;
use txn_client_journals::tables::layout::world_layout;
use txn_client_journals::tables::refusals::ask_refusal;
use txn_diary::keeper::Keeper;
use txn_history::event::{Answer, Call, EventFault};
use txn_history::view::View;
use txn_script_lines::values::entry::{Entry, EntryCodec, EntryEpoch};
use txn_steps::boundary::ask::Ask;
use txn_store::request::Reply;
use txn_store::version_names::VersionNames;

/// One client of entries, whose caller begins calls, makes the store calls that they ask for, and hands in the replies. An
/// operation that ended has its answer waiting here until its caller lets it go. One that is recorded has its rows waiting too,
/// as lines of a recording, until its caller takes them off.
///
/// Beside it stand its unchecked operations, of which no row tells: a read of the newest version and a delete that test no
/// boundary. They leave what the client keeps as it was, and have numbers of their own, from 2^63.
///
/// Clauses see what the client keeps, what waits, and its unchecked operations.
pub struct Seat {
    keeper: Kept,
    desk: Desk,
}

impl Drop for Seat {
    /// Drops all of it: here, so that no crate above has to prove how each part is dropped.
    fn drop(self) {
        let Seat { keeper: _, desk: _ } = self;
    }
}

impl Model for Seat {
    ghost use Rattle.std.specs.Coded.{codes};
    ghost use Rattle.txn_store.specs.Memory.{files_code};
    ghost use Rattle.txn_client_seat.specs.Kept.{seen};
    ghost use Rattle.txn_client_seat.specs.Seats.{SeatState, seat_of};

    ghost Value = { SeatState };

    ghost coded = { Prim.hlevel (codes, files_code) };

    ghost view = { λ s. seat_of s.keeper s.desk.answers.items (seen s.desk.rows) s.desk.unchecked };
}

/// A client of this number that has done nothing, with these rows, where it is recorded. The only error is want of memory.
fn seated(alloc: Global, client: u64, page: u64, rows: Option<KeptRows>) -> Result<Seat, AllocError>
    requires some { 1 ≤ client }
    requires paged { 1 ≤ page }
    ensures { IfOk result (λ seat. seat ≡ seat_with client page (seen rows)) }
{
    let layout = world_layout(alloc, EntryCodec, page)?;
    let keeper = Keeper::new(alloc, client, EntryCodec, EntryEpoch, page)?;
    let desk = Desk {
        answers: Vec::new(alloc),
        rows,
        unchecked: UncheckedCalls::new(alloc, layout),
    };
    Ok(Seat { keeper, desk })
}

impl Seat {
    ghost use Rattle.std.specs.Prelude.{◌≡◌, ◌≤◌, Some, IfOk, is_some, string_bytes};
    ghost use Rattle.std.specs.Option.{option_copied};
    ghost use Rattle.txn_history.specs.Names.{world_names};
    ghost use Rattle.txn_machine.specs.Machine.{seen_view, used_by};
    ghost use Rattle.txn_machine.specs.plain.Doing.{asks_as};
    ghost use Rattle.txn_client_seat.specs.Numbered.{waits_at};
    ghost use Rattle.txn_client_seat.specs.Waiting.{lines_in};
    ghost use Rattle.txn_client_seat.specs.Seats.{new_seat, recorded_seat, seat_asked, IsBegin, IsReadBegin, IsDeleteBegin, IsLook, IsAsking, IsTake, IsGiveUp, EndsView, ForgetsOld, lets_go, at_time, without_lines};

    /// A client of this number, at least 1, that has done nothing. A listing has pages of at most `page` files, at least 1.
    ///
    ///
    /// # Errors
    ///
    /// Want of memory alone.
    pub fn new(alloc: Global, client: u64, page: u64) -> Result<Seat, AllocError>
        requires some { 1 ≤ client }
        requires paged { 1 ≤ page }
        ensures { IfOk result (λ seat. seat ≡ new_seat client page) }
    {
        seated(alloc, client, page, None)
    }

    /// The same, recorded: its rows wait as lines, the first of them that which names it, until they are taken off. Rows that come
    /// next have the time 0 until another is said.
    ///
    /// # Errors
    ///
    /// Want of memory alone.
    pub fn recorded(alloc: Global, client: u64, page: u64) -> Result<Seat, AllocError>
        requires some { 1 ≤ client }
        requires paged { 1 ≤ page }
        ensures { IfOk result (λ seat. seat ≡ recorded_seat client page) }
    {
        let rows = first_rows(alloc, client, page)?;
        seated(alloc, client, page, Some(rows))
    }

    /// The names that the client's requests have for versions. It takes no memory.
    pub fn names(&self) -> &VersionNames
        ensures { result.now ≡ world_names }
    {
        self.desk.unchecked.names()
    }

    /// What an operation asks for: nothing where it is not there, or has ended. It takes no memory.
    pub fn asks(&self, op: u64) -> Option<Ask<'_>>
        ensures { asks_as result ≡ seat_asked self.now op }
    {
        match self.keeper.asks(op) {
            Some(ask) => Some(ask),
            None => self.desk.unchecked.asks(op),
        }
    }

    /// The answer of an operation, where it has ended with one and this was not let go. It takes no memory.
    pub fn answer(&self, op: u64) -> Option<&Answer<Entry>>
        ensures { option_copied result ≡ waits_at op self.now.answers }
    {
        find(self.desk.answers.as_slice(), op)
    }

    /// The view of this number as it stands: none where it is not there, or has ended. It takes no memory.
    pub fn view(&self, number: u64) -> Option<&View<Entry>>
        ensures { option_copied result ≡ seen_view (used_by self.now.keeper.part.views (Some number)) }
    {
        self.keeper.view(number)
    }

    /// Begins a call: the operation's number, which is the next. The base of an update is the version at which its view stands.
    ///
    /// # Errors
    ///
    /// They are tested in this order, want of memory aside, and leave the client as it was: [`EventFault::UnknownNumber`] for
    /// a view that is not there, has ended or is of the other kind; [`EventFault::ViewBusy`] for one on which an operation
    /// runs; [`EventFault::UnknownBase`] for a base that no checked call of this client answered;
    /// [`EventFault::BoundaryTooHigh`] for a boundary that is neither 0 nor below such an id; [`EventFault::EpochLowered`] for
    /// a value whose epoch is below that of its base; [`EventFault::NoMemory`] where a growth was refused.
    pub fn begin(&mut self, call: &Call<Entry>) -> Result<u64, EventFault>
        ensures { IsBegin call.now self.old result self.new }
    {
        turns::begin(&mut self.keeper, &mut self.desk, call)
    }

    /// Begins an unchecked read of the newest version: the operation's number, of those of unchecked operations. It answers the
    /// id and the value of that version, or that there is none, and its steps are those of `LatestOp`. It begins at the newest
    /// version that the client or an unchecked operation has cached, and what it reads only unchecked operations find cached.
    ///
    /// # Errors
    ///
    /// [`EventFault::NoMemory`] alone, which leaves the client as it was.
    pub fn read_latest_unchecked(&mut self) -> Result<u64, EventFault>
        ensures { IsReadBegin self.old result self.new }
    {
        match self.desk.unchecked.begin_read(self.keeper.caches()) {
            Ok(op) => Ok(op),
            Err(_) => Err(EventFault::NoMemory),
        }
    }

    /// Begins an unchecked delete of the version of this id: the operation's number, of those of unchecked operations. Its steps
    /// are those of `DeleteUncheckedOp`. What the client has cached stays.
    ///
    /// # Errors
    ///
    /// [`EventFault::NoMemory`] alone, which leaves the client as it was.
    pub fn delete_unchecked(&mut self, id: u64) -> Result<u64, EventFault>
        ensures { IsDeleteBegin id self.old result self.new }
    {
        match self.desk.unchecked.begin_delete(id) {
            Ok(op) => Ok(op),
            Err(_) => Err(EventFault::NoMemory),
        }
    }

    /// An operation looks at the client's caches, as it asks to.
    ///
    /// # Errors
    ///
    /// They leave the client as it was: [`EventFault::UnknownNumber`] for an operation that is not there or has ended,
    /// [`EventFault::NotAsked`] for one that asks for a store call, [`EventFault::NoMemory`] where a growth was refused.
    pub fn look(&mut self, op: u64) -> Result<(), EventFault>
        ensures { IsLook op self.old result self.new }
    {
        if turns::is_unchecked(&self.keeper, &self.desk, op) {
            turns::turn_unchecked(&self.keeper, &mut self.desk, op, None)
        } else {
            turns::look(&mut self.keeper, &mut self.desk, op)
        }
    }

    /// An operation is about to ask the store what it asks for: where the client is recorded, the row of that waits, with the time
    /// that was said last. Its caller takes it off before the store is called, so that a client that is killed leaves all that it
    /// asked for.
    ///
    /// # Errors
    ///
    /// They leave the client as it was: [`EventFault::UnknownNumber`] for an operation that is not there or has ended,
    /// [`EventFault::NotAsked`] for one that asks for a look, [`EventFault::NoMemory`] where a growth was refused.
    pub fn asking(&mut self, op: u64) -> Result<(), EventFault>
        ensures { IsAsking op self.old result self.new }
    {
        if turns::is_unchecked(&self.keeper, &self.desk, op) {
            match ask_refusal(true, self.asks(op)) {
                Some(fault) => Err(fault),
                None => Ok(()),
            }
        } else {
            turns::asking(&self.keeper, &mut self.desk, op)
        }
    }

    /// Says the time of the rows that come next, in nanoseconds of a clock of the caller's. It takes no memory.
    pub fn say_time(&mut self, at: u64)
        ensures { self.new ≡ at_time at self.old }
    {
        say_time(&mut self.desk.rows, at);
    }

    /// The lines of the rows that wait, the oldest first, each with its line feed: none where the client is not recorded. The only
    /// error is want of memory.
    ///
    /// # Errors
    ///
    /// Want of memory alone. The rows wait still.
    pub fn lines(&self, alloc: Global) -> Result<String, AllocError>
        ensures { IfOk result (λ text. string_bytes text ≡ lines_in self.now.rows) }
    {
        rows_text::lines(alloc, &self.desk.rows)
    }

    /// Lets the rows go that wait.
    pub fn let_lines_go(&mut self)
        ensures { self.new ≡ without_lines self.old }
    {
        let_go(&mut self.desk.rows);
    }

    /// An operation takes the store's reply to what it asked for. Where the reply says `Failed`, nobody knows whether the call
    /// took effect, and the operation is answered with the refusal 2.
    ///
    /// # Errors
    ///
    /// They leave the client as it was: [`EventFault::UnknownNumber`] for an operation that is not there or has ended,
    /// [`EventFault::NotAsked`] for one that asks for a look, or for a reply of another kind, [`EventFault::NoMemory`] where a
    /// growth was refused: then the same reply may be handed in again.
    pub fn take(&mut self, op: u64, reply: Reply) -> Result<(), EventFault>
        ensures { IsTake op reply self.old result self.new }
    {
        if turns::is_unchecked(&self.keeper, &self.desk, op) {
            turns::turn_unchecked(&self.keeper, &mut self.desk, op, Some(reply))
        } else {
            turns::take(&mut self.keeper, &mut self.desk, op, reply)
        }
    }

    /// An operation is given up, and ends without an answer. A put or a delete that it asks for may still reach the store.
    ///
    /// # Errors
    ///
    /// They leave the client as it was: [`EventFault::UnknownNumber`] for an operation that is not there or has ended,
    /// [`EventFault::NoMemory`] where a growth was refused.
    pub fn give_up(&mut self, op: u64) -> Result<(), EventFault>
        ensures { IsGiveUp op self.old result self.new }
    {
        if turns::is_unchecked(&self.keeper, &self.desk, op) {
            self.desk.unchecked.give_up(op);
            Ok(())
        } else {
            turns::give_up(&mut self.keeper, &mut self.desk, op)
        }
    }

    /// Lets the answer of an operation go. Whether one waited.
    pub fn let_go(&mut self, op: u64) -> bool
        ensures told { result ≡ is_some (waits_at op self.old.answers) }
        ensures left { self.new ≡ lets_go op self.old }
    {
        let waits = find(self.desk.answers.as_slice(), op).is_some();
        drop_at(&mut self.desk.answers, op);
        waits
    }

    /// Lets a view go: it is not there any more, and its value is freed. Nothing happens where there is no such view.
    pub fn end_view(&mut self, view: u64)
        ensures { EndsView self.old view self.new }
    {
        self.keeper.end_view(view);
    }

    /// Forgets what it no longer needs: its operations, where none of them runs, and of the ids that its checked calls answered
    /// all but the bases of its views, the greatest, and those of the last answers, so many as are asked for. It only refuses
    /// more begins then: those on a base that it forgot. Answers that wait stay.
    pub fn forget(&mut self, last: usize)
        ensures { ForgetsOld self.old self.new }
    {
        self.keeper.forget(last);
    }
}
