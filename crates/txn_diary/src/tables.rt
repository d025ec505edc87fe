//! What a client keeps, and what each thing that it does makes of that.
ghost use Rattle.std.specs.Prelude.{◌≡◌, IfOk};
ghost use Rattle.txn_history.specs.Names.{world_names, world_boundary};

use crate::calls::Calls;
use crate::notes::{Notes, epoch_written, note_of};
use crate::standing::Standing;
use std::alloc::{AllocError, Global};
use txn_client_journals::tables::calls::view_used;
use txn_client_journals::tables::layout::world_layout;
use txn_client_journals::tables::operations::{Usage, loose_copy};
use txn_client_journals::tables::views::{Answers, find, let_go, settle, take};
use txn_history::event::Call;
use txn_machine::doing::{Ending, Operation, Twice, is_claim, start};
use txn_machine::work::Work;
use txn_steps::boundary::ask::Ask;
use txn_steps::boundary::caches::Caches;
use txn_store::request::{Reply, Request};
use txn_store::types::codec::ObjectCodec;
use txn_store::types::epoch::EpochField;
use txn_store::types::layout::Layout;

/// All that a client keeps but its journal.
#[derive(Drop)]
pub(crate) struct Tables<T: Drop, C: ObjectCodec<T> + Drop, E: EpochField<T>> {
    pub alloc: Global,
    /// The client's number.
    pub client: u64,
    pub layout: Layout<C>,
    pub epochs: E,
    pub caches: Caches,
    /// Its operations.
    pub calls: Calls<T>,
    /// Its views.
    pub views: Standing<T>,
    /// What its checked calls told.
    pub notes: Notes,
    /// Notes that count for nothing: what is left of the others is written to them, and takes their place.
    other: Notes,
    ghost names: { layout.names ≡ world_names },
    ghost boundary_file: { layout.boundary ≡ world_boundary },
}

impl<T: Clone, C: ObjectCodec<T> + Drop, E: EpochField<T>> Tables<T, C, E> {
    ghost use Rattle.std.specs.Prelude.{◌≡◌, ◌++◌, ◌<◌, ◌≤◌, ◌^◌, None, Some, IfOk, OnOk, OnErr, IsSome, length, vec_len, vec_capacity};
    ghost use Rattle.std.specs.Option.{ForSome};
    ghost use Rattle.txn_store.specs.types.Clones.{IsExactClone};
    ghost use Rattle.txn_history.specs.Seen as seen;
    ghost use Rattle.txn_history.specs.Lists.{numbered};
    ghost use Rattle.txn_machine.specs.plain.Doing.{asks_as, first_of};
    ghost use Rattle.txn_history.specs.Calls.{view_used};
    ghost use Rattle.txn_machine.specs.Doing.{refused, refusal_in};
    ghost use Rattle.txn_machine.specs.Machine.{answered, used_by, views_after};
    ghost use Rattle.txn_machine.specs.declared.doing.Operation.{Operation};
    ghost use Rattle.txn_client_journals.specs.tables.Operations.{asked_by, TakesReply};
    ghost use Rattle.txn_client_journals.specs.tables.Views.{IsFromOne};
    ghost use Rattle.txn_client_journals.specs.Parts.{no_part, client_begin_fault, answer_in, note_of, written_in, turned_with};
    ghost use Rattle.txn_client_journals.specs.Journals.{BeginsCall, TakesTurn, GivesUp};
    ghost use Rattle.txn_diary.specs.Keepers.{AreSound};
    ghost use Rattle.txn_diary.specs.Forgetting.{Remembers, KeepsBases, HaveEnded, AreForgotten};
    ghost use Rattle.txn_diary.specs.Room.{HasRoom, HasRoomForCall, HasRoomForView};
    ghost use Rattle.txn_diary.specs.Shown.{shown, views_of, writes_of};

    /// The tables of a client of this number, with nothing in them. A page of a listing has so many files.
    ///
    /// # Errors
    ///
    /// Want of memory alone. There are no tables then.
    pub fn new(
        alloc: Global,
        client: u64,
        codec: C,
        epochs: E,
        page: u64,
    ) -> Result<Tables<T, C, E>, AllocError>
        ensures shown { IfOk result (λ tables. shown tables ≡ no_part) }
        ensures client { IfOk result (λ tables. tables.client ≡ client) }
        ensures codec { IfOk result (λ tables. tables.layout.codec ≡ codec) }
        ensures page { IfOk result (λ tables. tables.layout.page ≡ page) }
        ensures epochs { IfOk result (λ tables. tables.epochs ≡ epochs) }
    {
        Ok(Tables {
            alloc,
            client,
            layout: world_layout(alloc, codec, page)?,
            epochs,
            caches: Caches::new(),
            calls: Calls::new(alloc),
            views: Standing::new(alloc),
            notes: Notes::new(alloc),
            other: Notes::new(alloc),
        })
    }

    /// What an operation asks for: nothing where it is not there, or has ended.
    #[inline(always)]
    pub fn asks(&self, op: u64) -> Option<Ask<'_>>
        ensures { asks_as result ≡ asked_by (shown self.now).operations op }
    {
        self.calls.asks(op)
    }

    /// Makes room for what one step adds: an operation, a view and a note.
    ///
    /// # Errors
    ///
    /// Want of memory alone. What the tables show is as it was.
    #[inline(always)]
    pub fn reserve(&mut self) -> Result<(), AllocError>
        ensures shown { shown self.new ≡ shown self.old }
        ensures client { self.new.client ≡ self.old.client }
        ensures layout { self.new.layout ≡ self.old.layout }
        ensures epochs { self.new.epochs ≡ self.old.epochs }
        ensures room_call { OnOk result (HasRoomForCall self.new.calls) }
        ensures room_views { OnOk result (HasRoomForView self.new.views) }
        ensures room_notes { OnOk result (HasRoom self.new.notes) }
    {
        self.calls.reserve()?;
        self.views.reserve()?;
        self.notes.reserve()
    }

    /// Begins a call that is permitted, where there is room. It answers the number of its refusal, where it is refused at once.
    ///
    /// # Errors
    ///
    /// Want of memory alone, which changes nothing.
    pub fn begin(&mut self, call: &Call<T>) -> Result<Option<u8>, AllocError>
        requires exact { IsExactClone T.is_clone }
        requires permits { client_begin_fault (E.epoch_of self.old.epochs) self.old.client (shown self.old) call.now ≡ None }
        requires view { IsFromOne (view_used call.now) }
        requires room_call { HasRoomForCall self.old.calls }
        ensures client { self.new.client ≡ self.old.client }
        ensures layout { self.new.layout ≡ self.old.layout }
        ensures epochs { self.new.epochs ≡ self.old.epochs }
        ensures err { OnErr result (shown self.new ≡ shown self.old) }
        ensures ok { IfOk result (λ refusal. BeginsCall self.old.layout.page (C.encoded self.old.layout.codec) (C.decoded self.old.layout.codec) (E.epoch_of self.old.epochs) (E.with_epoch self.old.epochs) self.old.client (shown self.old) call.now (answered (length (views_of self.old.views)) (view_used call.now) (refusal_in refusal)) (shown self.new)) }
    {
        let of = Usage {
            client: self.client,
            view: view_used(call),
            claims: is_claim(call),
        };
        let view = find(&self.views, of.view);
        let (doing, refusal) = start(self.alloc, &self.layout, &self.epochs, call, view)?;
        let work = Work::new(self.alloc, doing)?;
        let op = self.calls.len() + 1;
        let operation = Operation {
            client: of.client,
            view: of.view,
            claims: of.claims,
            doing: work,
        };
        self.calls.add(operation, epoch_written(&self.epochs, call));
        take(&mut self.views, of.view, op);
        if refusal.is_some() {
            let_go(&mut self.views, of.view, of.claims);
        }
        Ok(refusal)
    }

    /// Notes what an operation's end tells, and what becomes of its view; the answer twice, where it ends.
    #[inline(always)]
    fn settle(&mut self, op: u64, of: Usage, ending: Option<Ending<T>>) -> Option<Answers<T>>
        requires view { IsFromOne of.view }
        requires room_views { HasRoomForView self.old.views }
        requires room_notes { HasRoom self.old.notes }
        ensures client { self.new.client ≡ self.old.client }
        ensures layout { self.new.layout ≡ self.old.layout }
        ensures epochs { self.new.epochs ≡ self.old.epochs }
        ensures caches { self.new.caches ≡ self.old.caches }
        ensures calls { self.new.calls ≡ self.old.calls }
        ensures views { views_of self.new.views ≡ views_after (views_of self.old.views) of.client of.view of.claims ending }
        ensures answer { first_of result ≡ answered (length (views_of self.old.views)) of.view ending }
        ensures told { (shown self.new).told ≡ note_of (E.epoch_of self.old.epochs) (written_in (numbered (writes_of self.old.calls) op)) (answered (length (views_of self.old.views)) of.view ending) ++ (shown self.old).told }
        ensures twice { ForSome result (λ pair. pair.1 ≡ pair.0) }
    {
        let answers = settle(&mut self.views, of, ending);
        if let Some((answer, _)) = &answers {
            let written = self.calls.written(op);
            self.notes.add(note_of(&self.epochs, written, answer));
        }
        answers
    }

    /// An operation takes a look, or the store's reply to what it asked for, where there is room; its answer twice, where it
    /// ends.
    #[inline(always)]
    pub fn turn(&mut self, op: u64, reply: Option<Reply>) -> Option<Answers<T>>
        requires exact { IsExactClone T.is_clone }
        requires sound { AreSound (shown self.old).operations }
        requires takes { TakesReply (shown self.old).operations op reply }
        requires runs { IsSome (asked_by (shown self.old).operations op) }
        requires room_views { HasRoomForView self.old.views }
        requires room_notes { HasRoom self.old.notes }
        ensures client { self.new.client ≡ self.old.client }
        ensures layout { self.new.layout ≡ self.old.layout }
        ensures epochs { self.new.epochs ≡ self.old.epochs }
        ensures turned { (ask : seen.Ask) → asked_by (shown self.old).operations op ≡ Some ask → TakesTurn self.old.layout.page (C.encoded self.old.layout.codec) (C.decoded self.old.layout.codec) (E.epoch_of self.old.epochs) (E.with_epoch self.old.epochs) (shown self.old) op ask reply (first_of result) (shown self.new) }
        ensures twice { ForSome result (λ pair. pair.1 ≡ pair.0) }
    {
        let of = self.calls.usage_at(op);
        let ending = self.calls.turn(
            self.alloc,
            &self.layout,
            &self.epochs,
            &mut self.caches,
            op,
            reply,
        );
        // (most turns end nothing)
        if ending.is_none() {
            return None;
        }
        self.settle(op, of, ending)
    }

    /// An operation that runs ends with the refusal of this number, where there is room; the refusal twice.
    pub fn refuse(&mut self, op: u64, number: u8) -> Option<Answers<T>>
        requires sound { AreSound (shown self.old).operations }
        requires runs { IsSome (asked_by (shown self.old).operations op) }
        requires room_views { HasRoomForView self.old.views }
        requires room_notes { HasRoom self.old.notes }
        ensures client { self.new.client ≡ self.old.client }
        ensures layout { self.new.layout ≡ self.old.layout }
        ensures epochs { self.new.epochs ≡ self.old.epochs }
        ensures answer { (o : Operation T) → numbered (shown self.old).operations op ≡ Some o → first_of result ≡ answer_in (shown self.old) o (refused number) }
        ensures shown { (o : Operation T) → numbered (shown self.old).operations op ≡ Some o → shown self.new ≡ turned_with (E.epoch_of self.old.epochs) (shown self.old) op o (refused number) (shown self.old).caches }
        ensures twice { ForSome result (λ pair. pair.1 ≡ pair.0) }
    {
        let of = self.calls.usage_at(op);
        self.calls.end(op);
        self.settle(op, of, Some(Ending::Answers(Twice::refused(number))))
    }

    /// An operation that runs is given up: a copy of the put or the delete that it leaves.
    ///
    /// # Errors
    ///
    /// Want of memory alone, which changes nothing.
    pub fn give_up(&mut self, op: u64) -> Result<Option<Request>, AllocError>
        requires sound { AreSound (shown self.old).operations }
        requires runs { IsSome (asked_by (shown self.old).operations op) }
        ensures client { self.new.client ≡ self.old.client }
        ensures layout { self.new.layout ≡ self.old.layout }
        ensures epochs { self.new.epochs ≡ self.old.epochs }
        ensures err { OnErr result (shown self.new ≡ shown self.old) }
        ensures ok { IfOk result (λ left. GivesUp (shown self.old) op left None (shown self.new)) }
    {
        let left = loose_copy(self.calls.asks(op))?;
        let of = self.calls.usage_at(op);
        self.calls.end(op);
        let_go(&mut self.views, of.view, of.claims);
        Ok(left)
    }

    /// Lets the view of this number go, where it stands.
    pub fn end_view(&mut self, number: u64)
        ensures client { self.new.client ≡ self.old.client }
        ensures layout { self.new.layout ≡ self.old.layout }
        ensures epochs { self.new.epochs ≡ self.old.epochs }
        ensures remembers { Remembers (shown self.old) (shown self.new) }
        ensures ended { used_by (shown self.new).views (Some number) ≡ None }
    {
        self.views.end(number);
    }

    /// Forgets the operations, where none of them runs, and what was told before the last of it, so much, but for what is needed.
    pub fn forget(&mut self, last: usize)
        ensures client { self.new.client ≡ self.old.client }
        ensures layout { self.new.layout ≡ self.old.layout }
        ensures epochs { self.new.epochs ≡ self.old.epochs }
        ensures remembers { Remembers (shown self.old) (shown self.new) }
        ensures ended { length (shown self.old).operations ≤ 2 ^ 62 → HaveEnded (shown self.old).operations → AreForgotten (shown self.new).operations }
        ensures views { (shown self.new).views ≡ (shown self.old).views }
        ensures bases { KeepsBases (shown self.old) (shown self.new) }
    {
        self.calls.forget();
        self.notes.forget(&mut self.other, &self.views, last);
    }
}
