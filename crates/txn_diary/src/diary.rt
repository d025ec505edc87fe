//! A client that writes down what it did.
ghost use Rattle.std.specs.Option.{ForSome};
ghost use Rattle.std.specs.Prelude.{◌≡◌, ◌<◌, IfOk, OnOk, OnErr, vec_len, vec_capacity};
ghost use Rattle.txn_diary.specs.Diaries.{as_diary};
ghost use Rattle.txn_diary.specs.Keepers.{keeper_refusal, Does};
ghost use Rattle.txn_client_journals.specs.declared.rows.Step.TheVariants as steps;
ghost use Rattle.txn_machine.specs.plain.Doing.{first_of};
ghost use Rattle.txn_machine.specs.plain.Machine.{fault_met};
ghost use Rattle.txn_store.specs.types.Clones.{IsExactClone};

use crate::keeper::Keeper;
use crate::reading::{answers_of, receipts_of};
use crate::step::{lack, note, note_act, receipt_refusal};
use std::alloc::{AllocError, Global};
use std::marker::Model;
use std::sync::{Mutex, Wait};
use txn_client_journals::audited::Audited;
use txn_client_journals::logged::LoggedStore;
use txn_client_journals::rows::{Act, JournalRow, Receipt, Step};
use txn_client_journals::tables::refusals::{ask_refusal, end_refusal};
use txn_client_journals::tables::views::Answers;
use txn_history::event::{Answer, Call, EventFault, Told};
use txn_history::view::View;
use txn_steps::boundary::ask::Ask;
use txn_store::types::codec::ObjectCodec;
use txn_store::types::epoch::EpochField;
use txn_store::types::room::push_within;

/// One client of a store, which knows of the store nothing but the replies to its calls, and the journal of what it did.
/// Its type keeps that the journal leads to what it keeps.
///
/// Clauses see its number, its codec, where its values keep their epochs, what it keeps, and its journal.
pub struct Diary<T: Clone, C: ObjectCodec<T> + Drop, E: EpochField<T>> {
    keeper: Keeper<T, C, E>,
    rows: Vec<JournalRow<T>>,
}

impl<T: Clone, C: ObjectCodec<T> + Drop, E: EpochField<T>> Drop for Diary<T, C, E> {
    /// Drops all that the diary keeps: here, so that no crate above has to prove how each part is dropped.
    fn drop(self) {
        let Diary { keeper: _, rows: _ } = self;
    }
}

impl<T: Clone, C: ObjectCodec<T> + Drop, E: EpochField<T>> Model for Diary<T, C, E> {
    ghost use Rattle.std.specs.Prelude.{◌≡◌, ◌≤◌, reverse};
    ghost use Rattle.std.specs.Coded.{codes};
    ghost use Rattle.txn_store.specs.Memory.{files_code};
    ghost use Rattle.txn_client_journals.specs.Journals.{Replays};
    ghost use Rattle.txn_diary.specs.Diaries.{DiaryState, diary_of, lives};

    ghost Value = { DiaryState T C E };

    ghost coded = { Prim.hlevel (codes, files_code) };

    ghost view = { λ d. diary_of d.keeper d.rows.items };

    ghost invariant = { λ d. (1 ≤ d.keeper.client) × (1 ≤ d.keeper.page) × (d.keeper.alive ≡ lives d.rows.items) × Replays d.keeper.page (C.encoded d.keeper.codec) (C.decoded d.keeper.codec) (E.epoch_of d.keeper.epochs) (E.with_epoch d.keeper.epochs) d.keeper.client (reverse d.rows.items) d.keeper.part };
}

impl<T: Clone, C: ObjectCodec<T> + Drop, E: EpochField<T>> Diary<T, C, E> {
    ghost use Rattle.std.specs.Prelude.{◌≡◌, ◌≤◌, [], None, Some, Option, true, false, IfOk, OnOk, OnErr, map, reverse};
    ghost use Rattle.std.specs.Option.{option_copied};
    ghost use Rattle.txn_machine.specs.Machine.{seen_view, used_by};
    ghost use Rattle.txn_client_journals.specs.Verdict.{receipts_in};
    ghost use Rattle.txn_diary.specs.Reading.{answers_from};
    ghost use Rattle.txn_store.specs.types.Clones.{IsExactClone};
    ghost use Rattle.txn_store.specs.declared.request.Request.{Request};
    ghost use Rattle.txn_history.specs.Allowed.{ask_fault};
    ghost use Rattle.txn_history.specs.declared.event.ToldOf.TheVariants as tolds;
    ghost use Rattle.txn_machine.specs.plain.Doing.{asks_as};
    ghost use Rattle.txn_machine.specs.plain.Machine.{fault_met};
    ghost use Rattle.txn_client_journals.specs.declared.rows.Act.{Act};
    ghost use Rattle.txn_client_journals.specs.declared.rows.Act.TheVariants as acts;
    ghost use Rattle.txn_client_journals.specs.declared.rows.Step.TheVariants as steps;
    ghost use Rattle.txn_client_journals.specs.Parts.{no_part};
    ghost use Rattle.txn_client_journals.specs.Journals.{Replays};
    ghost use Rattle.txn_diary.specs.Keepers.{end_fault, IsReceiptFault, IsTurn};
    ghost use Rattle.txn_diary.specs.Diaries.{asked_in, refusal_of, kill_fault, IsKilledNow, Tells, Begun, Acts};

    /// A client of this number, at least 1, that has done nothing. A listing has pages of at most `page` files, at least 1.
    ///
    /// # Errors
    ///
    /// Want of memory alone, which changes nothing.
    pub fn new(
        alloc: Global,
        client: u64,
        codec: C,
        epochs: E,
        page: u64,
    ) -> Result<Diary<T, C, E>, AllocError>
        requires some { 1 ≤ client }
        requires paged { 1 ≤ page }
        ensures { IfOk result (λ diary. diary ≡ record { client = client; page = page; codec = codec; epochs = epochs; part = no_part; rows = [] }) }
    {
        Ok(Diary {
            keeper: Keeper::new(alloc, client, codec, epochs, page)?,
            rows: Vec::new(alloc),
        })
    }

    /// The client's number.
    pub fn client(&self) -> u64
        ensures { result ≡ self.now.client }
    {
        self.keeper.client()
    }

    /// What an operation asks for: nothing where it is not there, or has ended, and where the client was killed. It takes no
    /// memory.
    pub fn asks(&self, op: u64) -> Option<Ask<'_>>
        ensures { asks_as result ≡ asked_in self.now op }
    {
        self.keeper.asks(op)
    }

    /// The view of this number as it stands: none where it is not there, or has ended. It takes no memory.
    pub fn view(&self, number: u64) -> Option<&View<T>>
        ensures { option_copied result ≡ seen_view (used_by self.now.part.views (Some number)) }
    {
        self.keeper.view(number)
    }

    /// What the client did, the oldest row first.
    pub fn rows(&self) -> &[JournalRow<T>]
        ensures rows { result.now ≡ self.now.rows }
        ensures some { 1 ≤ self.now.client }
        ensures paged { 1 ≤ self.now.page }
        // It leads to what the client keeps.
        ensures replays { Replays self.now.page (C.encoded self.now.codec) (C.decoded self.now.codec) (E.epoch_of self.now.epochs) (E.with_epoch self.now.epochs) self.now.client (reverse self.now.rows) self.now.part }
    {
        self.rows.as_slice()
    }

    /// The answers that were told, each with the number of its operation, in their order. It goes over the journal once.
    ///
    /// # Errors
    ///
    /// Want of memory alone, which changes nothing.
    pub fn answers(&self, alloc: Global) -> Result<Vec<(u64, &Answer<T>)>, AllocError>
        ensures { IfOk result (λ answers. map (λ pair. (pair.0, pair.1.now)) answers.items ≡ answers_from 0 self.now.rows) }
    {
        answers_of(alloc, self.rows.as_slice())
    }

    /// The receipts that operations took, in their order. It goes over the journal once.
    ///
    /// # Errors
    ///
    /// Want of memory alone, which changes nothing.
    pub fn receipts(&self, alloc: Global) -> Result<Vec<&Receipt>, AllocError>
        ensures { IfOk result (λ receipts. map (λ r. r.now) receipts.items ≡ receipts_in self.now.rows) }
    {
        receipts_of(alloc, self.rows.as_slice())
    }

    /// Begins a call as the operation of the next number: the number and the answer are told, where it is refused at once, else
    /// the number. The base of an update is the version at which its view stands.
    ///
    /// # Errors
    ///
    /// They are tested in this order, and leave the diary as it was: [`EventFault::UnknownNumber`] for a client that was killed,
    /// and for a view that is not there, has ended or is of the other kind; [`EventFault::ViewBusy`] for one on which an operation
    /// runs; [`EventFault::UnknownBase`] for a base that no checked call of this client answered;
    /// [`EventFault::BoundaryTooHigh`] for a boundary that is neither 0 nor below such an id; [`EventFault::EpochLowered`] for
    /// a value whose epoch is below that of its base; [`EventFault::NoMemory`] where a growth was refused.
    pub fn begin(&mut self, call: Call<T>) -> Result<Told<T>, EventFault>
        requires { IsExactClone T.is_clone }
        ensures refused { fault_met result ≡ refusal_of (E.epoch_of self.old.epochs) self.old call }
        ensures err { OnErr result (self.new ≡ self.old) }
        ensures ok { IfOk result (λ told. Begun (C.encoded self.old.codec) (C.decoded self.old.codec) (E.epoch_of self.old.epochs) (E.with_epoch self.old.epochs) self.old call told self.new) }
    {
        let op = self.keeper.begun() + 1;
        match start(&mut self.keeper, &mut self.rows, &call) {
            Ok(answers) => Ok(note(
                &mut self.rows,
                Step::Begin(call),
                op,
                Told::Began(op),
                answers,
            )),
            Err(fault) => {
                // By a call: in place, the proof would follow each call that may be dropped here.
                drop(call);
                Err(fault)
            }
        }
    }

    /// An operation looks at the client's caches, as it asks to.
    ///
    /// # Errors
    ///
    /// They leave the diary as it was: [`EventFault::UnknownNumber`] for an operation that is not there or has ended,
    /// [`EventFault::NotAsked`] for one that asks for a store call, [`EventFault::NoMemory`] where a growth was refused.
    pub fn look(&mut self, op: u64) -> Result<Told<T>, EventFault>
        requires { IsExactClone T.is_clone }
        ensures refused { fault_met result ≡ ask_fault false (asked_in self.old op) }
        ensures err { OnErr result (self.new ≡ self.old) }
        ensures ok { IfOk result (λ told. Acts (C.encoded self.old.codec) (C.decoded self.old.codec) (E.epoch_of self.old.epochs) (E.with_epoch self.old.epochs) self.old op acts.Look told self.new) }
    {
        let Ok(()) = self.rows.reserve(1) else {
            return Err(lack(ask_refusal(false, self.asks(op))));
        };
        let answers = self.keeper.look(op)?;
        Ok(note_act(&mut self.rows, op, Act::Look, answers))
    }

    /// An operation takes the store's reply to what it asked for, wherever the receipt comes from.
    ///
    /// # Errors
    ///
    /// They leave the diary as it was: [`EventFault::UnknownNumber`] for an operation that is not there or has ended,
    /// [`EventFault::NotAsked`] for one that asks for a look, for a receipt of another request, and for a reply of another kind,
    /// [`EventFault::NoMemory`] where a growth was refused. Where that happens after the store served the call, its effect
    /// stands, and [`Diary::failed`] ends the operation.
    pub fn receive(&mut self, op: u64, receipt: Receipt) -> Result<Told<T>, EventFault>
        requires { IsExactClone T.is_clone }
        ensures refused { IsReceiptFault (asked_in self.old op) receipt (fault_met result) }
        ensures err { OnErr result (self.new ≡ self.old) }
        ensures ok { IfOk result (λ told. Acts (C.encoded self.old.codec) (C.decoded self.old.codec) (E.epoch_of self.old.epochs) (E.with_epoch self.old.epochs) self.old op (acts.Receive receipt) told self.new) }
    {
        let Ok(()) = self.rows.reserve(1) else {
            return Err(lack(receipt_refusal(self.asks(op), &receipt)));
        };
        let answers = self.keeper.receive(op, &receipt)?;
        Ok(note_act(&mut self.rows, op, Act::Receive(receipt), answers))
    }

    /// The store call of an operation failed, and nobody knows whether it took effect: the operation is answered with the
    /// refusal 2. What it asked for may still reach the store, if it is a put or a delete.
    ///
    /// # Errors
    ///
    /// They leave the diary as it was: [`EventFault::UnknownNumber`] for an operation that is not there or has ended,
    /// [`EventFault::NotAsked`] for one that asks for a look, [`EventFault::NoMemory`] where a growth was refused.
    pub fn failed(&mut self, op: u64) -> Result<Told<T>, EventFault>
        ensures refused { fault_met result ≡ ask_fault true (asked_in self.old op) }
        ensures err { OnErr result (self.new ≡ self.old) }
        ensures ok { IfOk result (λ told. (request : Request) × Acts (C.encoded self.old.codec) (C.decoded self.old.codec) (E.epoch_of self.old.epochs) (E.with_epoch self.old.epochs) self.old op (acts.Fails request) told self.new) }
    {
        let Ok(()) = self.rows.reserve(1) else {
            return Err(lack(ask_refusal(true, self.asks(op))));
        };
        let did = self.keeper.failed(op)?;
        Ok(note_act(&mut self.rows, op, Act::Fails(did.0), did.1))
    }

    /// An operation is given up, and ends without an answer. A put or a delete that it asks for may still reach the store.
    ///
    /// # Errors
    ///
    /// They leave the diary as it was: [`EventFault::UnknownNumber`] for an operation that is not there or has ended,
    /// [`EventFault::NoMemory`] where a growth was refused.
    pub fn give_up(&mut self, op: u64) -> Result<Told<T>, EventFault>
        ensures refused { fault_met result ≡ end_fault (asked_in self.old op) }
        ensures err { OnErr result (self.new ≡ self.old) }
        ensures ok { IfOk result (λ told. (left : Option Request) × Tells (C.encoded self.old.codec) (C.decoded self.old.codec) (E.epoch_of self.old.epochs) (E.with_epoch self.old.epochs) self.old (steps.Act op (acts.GiveUp left)) op (tolds.GaveUp op) told self.new) }
    {
        let Ok(()) = self.rows.reserve(1) else {
            return Err(lack(end_refusal(self.asks(op))));
        };
        let left = self.keeper.give_up(op)?;
        Ok(note(
            &mut self.rows,
            Step::Act(op, Act::GiveUp(left)),
            op,
            Told::GaveUp(op),
            None,
        ))
    }

    /// The client was killed: its operations, its views and its caches are gone, and it does nothing more. The puts and deletes
    /// that its operations asked for may still reach the store. It takes time by how many operations and views there ever were.
    ///
    /// # Errors
    ///
    /// They leave the diary as it was: [`EventFault::UnknownNumber`] where it was killed before, [`EventFault::NoMemory`] where a
    /// growth was refused.
    pub fn killed(&mut self) -> Result<(), EventFault>
        ensures refused { fault_met result ≡ kill_fault self.old.rows }
        ensures err { OnErr result (self.new ≡ self.old) }
        ensures ok { OnOk result (IsKilledNow (C.encoded self.old.codec) (C.decoded self.old.codec) (E.epoch_of self.old.epochs) (E.with_epoch self.old.epochs) self.old self.new) }
    {
        let Ok(()) = self.rows.reserve(1) else {
            return Err(lack(self.keeper.kill_refusal()));
        };
        let lefts = self.keeper.killed()?;
        push_within(
            &mut self.rows,
            JournalRow {
                step: Step::Killed(lefts),
                answer: None,
            },
        );
        Ok(())
    }

    /// An operation does what it asks for: it looks at the client's caches, which takes no lock, or has one call served by the
    /// store under its lock. Room for what the journal notes is made before the store is called; a call that finds no memory
    /// does not reach the store, and the operation is answered with the refusal 9.
    ///
    /// # Errors
    ///
    /// They leave the diary as it was, and nothing has reached the store: [`EventFault::UnknownNumber`] for an operation that is
    /// not there or has ended, [`EventFault::NoMemory`] where a growth of the diary was refused.
    pub fn step<R: Wait>(
        &mut self,
        rt: &R,
        store: &Mutex<LoggedStore>,
        op: u64,
    ) -> Result<Told<T>, EventFault>
        requires { IsExactClone T.is_clone }
        ensures refused { fault_met result ≡ end_fault (asked_in self.old op) }
        ensures err { OnErr result (self.new ≡ self.old) }
        ensures ok { IfOk result (λ told. (act : Act) × IsTurn act × Acts (C.encoded self.old.codec) (C.decoded self.old.codec) (E.epoch_of self.old.epochs) (E.with_epoch self.old.epochs) self.old op act told self.new) }
    {
        let Ok(()) = self.rows.reserve(1) else {
            return Err(lack(end_refusal(self.asks(op))));
        };
        let did = self.keeper.step(rt, store, op)?;
        Ok(note_act(&mut self.rows, op, did.0, did.1))
    }
}

/// Begins a call where there is room for its row: its answer, where it is refused at once, for the row and for the caller.
fn start<T: Clone, C: ObjectCodec<T> + Drop, E: EpochField<T>>(
    keeper: &mut Keeper<T, C, E>,
    rows: &mut Vec<JournalRow<T>>,
    call: &Call<T>,
) -> Result<Option<Answers<T>>, EventFault>
    requires { IsExactClone T.is_clone }
    ensures refused { fault_met result ≡ keeper_refusal (E.epoch_of keeper.old.epochs) keeper.old call.now }
    ensures err { OnErr result (keeper.new ≡ keeper.old) }
    ensures rows { rows.new.items ≡ rows.old.items }
    ensures room { OnOk result (vec_len rows.new < vec_capacity rows.new) }
    ensures ok { IfOk result (λ answers. Does C.encoded C.decoded E.epoch_of E.with_epoch keeper.old (steps.Begin call.now) (first_of answers) keeper.new) }
    ensures twice { IfOk result (λ answers. ForSome answers (λ pair. pair.1 ≡ pair.0)) }
{
    let Ok(()) = rows.reserve(1) else {
        return Err(lack(keeper.begin_refusal(call)));
    };
    keeper.begin(call)
}

impl<T: Clone, C: ObjectCodec<T> + Drop, E: EpochField<T>> Audited<T> for Diary<T, C, E> {
    ghost diary = { λ d. as_diary d };

    fn client(&self) -> u64 {
        Diary::client(self)
    }

    fn rows(&self) -> &[JournalRow<T>] {
        Diary::rows(self)
    }
}
