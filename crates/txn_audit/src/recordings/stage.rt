//! A client that is made once more from its recording, row by row.
ghost use Rattle.std.specs.Prelude.{◌≡◌, ◌+◌, ◌∷◌, [], ℕ, List, Option, Some, IfOk, OnOk, Decides, string_bytes};
ghost use Rattle.txn_store.specs.types.Clones.{IsExactClone};
ghost use Rattle.txn_history.specs.Added.{told_of};
ghost use Rattle.txn_history.specs.Seen.{Store};
ghost use Rattle.txn_history.specs.Trace.{Told};
ghost use Rattle.txn_history.specs.declared.event.Answer.{Answer};
ghost use Rattle.txn_machine.specs.plain.Doing.{asks_as};
ghost use Rattle.txn_script_lines.specs.Printed.{answered_text};
ghost use Rattle.txn_audit.specs.recordings.Told.{RowTold, Began, Asked, Replied, Failed, GaveUp, Answered, row_tells, journal_tells, TellsSame};
ghost use Rattle.txn_audit.specs.recordings.Stages.{Stands, Goes, GoesOn, IsStageOf, IsUnanswered, IsSameClient};
ghost use Rattle.txn_audit.specs.declared.recordings.stage.Stage.TheVariants as stages;

use crate::recordings::fault::RowFault;
use std::alloc::Global;
use std::mem;
use txn_audit_recordings::row::RecordedRow;
use txn_client_journals::rows::Receipt;
use txn_client_journals::same::same_request;
use txn_diary::diary::Diary;
use txn_history::event::{Call, Told};
use txn_script_lines::printed;
use txn_script_lines::text_form::LineValue;
use txn_steps::boundary::ask::Ask;
use txn_store::request::{Reply, Request};
use txn_store::types::codec::ObjectCodec;
use txn_store::types::epoch::EpochField;

/// What the last operation of a client does between two rows of its recording.
#[derive(Drop)]
pub(crate) enum Stage<'a> {
    /// It has ended, and all of it is written, or there is none.
    Idle,
    /// It runs.
    Runs,
    /// It asked the store this.
    Asks(&'a Request),
    /// It was answered in these words, which are not written yet.
    Answers(String),
}

/// The stage that comes with what a client is told.
fn stage_of<'a, T: LineValue>(alloc: Global, told: Told<T>) -> Result<Stage<'a>, RowFault>
    ensures { (otherwise : Told T) (op : ℕ) (answer : Option (Answer T)) → IsUnanswered otherwise → told ≡ told_of otherwise op answer → IfOk result (IsStageOf (answered_text T.text) answer) }
{
    match told {
        Told::Answered(_, answer) => {
            let answered = printed::Answered(&answer);
            Ok(Stage::Answers(format!(in alloc; "{answered}")?))
        }
        told => {
            drop(told);
            Ok(Stage::Runs)
        }
    }
}

/// The stage that comes next, in place of the one before.
fn enter<'a>(stage: &mut Stage<'a>, next: Stage<'a>)
    ensures { stage.new ≡ next.entry }
{
    drop(mem::replace(stage, next));
}

/// The stage that comes with what a client is told, in place of the one before.
fn go_on<'a, T: LineValue>(
    alloc: Global,
    stage: &mut Stage<'a>,
    told: Told<T>,
) -> Result<(), RowFault>
    ensures { (otherwise : Told T) (op : ℕ) (answer : Option (Answer T)) → IsUnanswered otherwise → told ≡ told_of otherwise op answer → OnOk result (IsStageOf (answered_text T.text) answer stage.new) }
{
    enter(stage, stage_of(alloc, told)?);
    Ok(())
}

/// Whether an operation asks the store this.
fn asks_this(ask: Option<Ask<'_>>, request: &Request) -> bool
    ensures { Decides result (asks_as ask.entry ≡ Some (Store request.now)) }
{
    match ask {
        Some(Ask::Store(asked)) => same_request(asked, request),
        Some(Ask::Look) => false,
        None => false,
    }
}

/// Whether an operation is the one that began last.
fn is_last(op: u64, begun: u64) -> bool
    ensures { Decides result (op ≡ begun) }
{
    op == begun
}

/// Whether an operation is the next to begin.
fn is_next(op: u64, begun: u64) -> bool
    ensures { Decides result (op ≡ begun + 1) }
{
    begun < op && op - begun == 1
}

/// Whether an operation asks to look.
fn asks_look(ask: Option<Ask<'_>>) -> bool {
    match ask {
        Some(Ask::Look) => true,
        Some(Ask::Store(_)) => false,
        None => false,
    }
}

impl<'a> Stage<'a> {
    fn is_idle(&self) -> bool
        ensures { Decides result (self.now ≡ stages.Idle) }
    {
        matches!(self, Stage::Idle)
    }

    fn is_running(&self) -> bool
        ensures { Decides result (self.now ≡ stages.Runs) }
    {
        matches!(self, Stage::Runs)
    }

    /// What the operation asked the store, where it waits for a reply.
    fn asked(&self) -> Result<&'a Request, RowFault>
        ensures { IfOk result (λ request. self.now ≡ stages.Asks request) }
    {
        match self {
            Stage::Asks(request) => Ok(*request),
            _ => Err(RowFault::OutOfTurn),
        }
    }
}

/// A client that is made once more, up to some row of its recording.
#[derive(Drop)]
pub(crate) struct Rebuilding<'a, T: Clone, C: ObjectCodec<T> + Drop, E: EpochField<T>> {
    pub diary: Diary<T, C, E>,
    /// How many operations began. The last is the only one that may run.
    pub begun: u64,
    pub stage: Stage<'a>,
}

impl<'a, T: Clone + LineValue, C: ObjectCodec<T> + Drop, E: EpochField<T>> Rebuilding<'a, T, C, E> {
    /// The operation looks at its client's caches once.
    fn look(&mut self, alloc: Global) -> Result<(), RowFault>
        requires exact { IsExactClone T.is_clone }
        requires runs { self.old.stage ≡ stages.Runs }
        ensures told { OnOk result (GoesOn T.text self.old.diary.rows self.old.begun self.old.stage self.new.diary.rows self.new.begun self.new.stage) }
        ensures same { OnOk result (IsSameClient self.old.diary self.new.diary) }
    {
        let told = self.diary.look(self.begun)?;
        go_on(alloc, &mut self.stage, told)?;
        Ok(())
    }

    /// The operation looks at its client's caches as often as it asks to.
    #[tactic(auto, using(crate::proofs::recordings::Telling::goes_on_more, crate::proofs::recordings::Telling::same_more))]
    fn look_on(&mut self, alloc: Global) -> Result<(), RowFault>
        requires { IsExactClone T.is_clone }
        ensures told { OnOk result (GoesOn T.text self.old.diary.rows self.old.begun self.old.stage self.new.diary.rows self.new.begun self.new.stage) }
        ensures same { OnOk result (IsSameClient self.old.diary self.new.diary) }
    {
        for _ in 0..u64::MAX {
            if !self.stage.is_running() || !asks_look(self.diary.asks(self.begun)) {
                return Ok(());
            }
            self.look(alloc)?;
        }
        Ok(())
    }

    /// A call begins.
    fn begin(&mut self, alloc: Global, op: u64, call: &Call<T>) -> Result<(), RowFault>
        requires { IsExactClone T.is_clone }
        ensures told { OnOk result (Goes T.text (Began op call.now ∷ []) self.old.diary.rows self.old.begun self.old.stage self.new.diary.rows self.new.begun self.new.stage) }
        ensures same { OnOk result (IsSameClient self.old.diary self.new.diary) }
    {
        if !self.stage.is_idle() || !is_next(op, self.begun) {
            return Err(RowFault::OutOfTurn);
        }
        let call = call.try_clone()?;
        let told = self.diary.begin(call)?;
        self.begun = op;
        go_on(alloc, &mut self.stage, told)?;
        Ok(())
    }

    /// The operation asks the store.
    fn ask(&mut self, op: u64, request: &'a Request) -> Result<(), RowFault>
        ensures told { OnOk result (Goes T.text (Asked op request.now ∷ []) self.old.diary.rows self.old.begun self.old.stage self.new.diary.rows self.new.begun self.new.stage) }
        ensures same { OnOk result (IsSameClient self.old.diary self.new.diary) }
    {
        if !self.stage.is_running() || !is_last(op, self.begun) {
            return Err(RowFault::OutOfTurn);
        }
        if !asks_this(self.diary.asks(op), request) {
            return Err(RowFault::OtherRequest);
        }
        enter(&mut self.stage, Stage::Asks(request));
        Ok(())
    }

    /// The operation takes the store's reply, which has this place in the order.
    fn reply(
        &mut self,
        alloc: Global,
        op: u64,
        reply: &Reply,
        place: Option<u64>,
    ) -> Result<(), RowFault>
        requires { IsExactClone T.is_clone }
        ensures told { OnOk result (Goes T.text (Replied op reply.now ∷ []) self.old.diary.rows self.old.begun self.old.stage self.new.diary.rows self.new.begun self.new.stage) }
        ensures same { OnOk result (IsSameClient self.old.diary self.new.diary) }
    {
        let asked = self.stage.asked()?;
        if !is_last(op, self.begun) {
            return Err(RowFault::OutOfTurn);
        }
        let Some(place) = place else {
            return Err(RowFault::NoPlace);
        };
        let request = asked.try_clone()?;
        let reply = reply.try_clone()?;
        let receipt = Receipt {
            place,
            request,
            reply,
        };
        let told = self.diary.receive(op, receipt)?;
        go_on(alloc, &mut self.stage, told)?;
        Ok(())
    }

    /// The operation's store call failed.
    fn fail(&mut self, alloc: Global, op: u64) -> Result<(), RowFault>
        ensures told { OnOk result (Goes T.text (Failed op ∷ []) self.old.diary.rows self.old.begun self.old.stage self.new.diary.rows self.new.begun self.new.stage) }
        ensures same { OnOk result (IsSameClient self.old.diary self.new.diary) }
    {
        let asked = self.stage.asked()?;
        if !is_last(op, self.begun) {
            return Err(RowFault::OutOfTurn);
        }
        if !asks_this(self.diary.asks(op), asked) {
            return Err(RowFault::OtherRequest);
        }
        let told = self.diary.failed(op)?;
        go_on(alloc, &mut self.stage, told)?;
        Ok(())
    }

    /// The client gives the operation up.
    fn give_up(&mut self, op: u64) -> Result<(), RowFault>
        ensures told { OnOk result (Goes T.text (GaveUp op ∷ []) self.old.diary.rows self.old.begun self.old.stage self.new.diary.rows self.new.begun self.new.stage) }
        ensures same { OnOk result (IsSameClient self.old.diary self.new.diary) }
    {
        if !self.stage.is_running() || !is_last(op, self.begun) {
            return Err(RowFault::OutOfTurn);
        }
        let told = self.diary.give_up(op)?;
        drop(told);
        enter(&mut self.stage, Stage::Idle);
        Ok(())
    }

    /// The operation's answer is written.
    fn answer(&mut self, op: u64, words: &str) -> Result<(), RowFault>
        ensures told { OnOk result (Goes T.text (Answered op words.now ∷ []) self.old.diary.rows self.old.begun self.old.stage self.new.diary.rows self.new.begun self.new.stage) }
        ensures same { OnOk result (IsSameClient self.old.diary self.new.diary) }
    {
        if !is_last(op, self.begun) {
            return Err(RowFault::OutOfTurn);
        }
        match &self.stage {
            Stage::Answers(told) => {
                if told.as_str() != words {
                    return Err(RowFault::OtherAnswer);
                }
            }
            _ => return Err(RowFault::OutOfTurn),
        }
        enter(&mut self.stage, Stage::Idle);
        Ok(())
    }

    /// The client makes a row, but for the looks after it. Of a reply, this is its place in the order, if it has one.
    fn make(
        &mut self,
        alloc: Global,
        row: &'a RecordedRow<T>,
        place: Option<u64>,
    ) -> Result<(), RowFault>
        requires { IsExactClone T.is_clone }
        ensures told { OnOk result (Goes T.text (row_tells row.now) self.old.diary.rows self.old.begun self.old.stage self.new.diary.rows self.new.begun self.new.stage) }
        ensures same { OnOk result (IsSameClient self.old.diary self.new.diary) }
    {
        match row {
            RecordedRow::Client(_, _) => Err(RowFault::NoClient),
            RecordedRow::Begin(op, call) => self.begin(alloc, *op, call),
            RecordedRow::Ask(op, _, request) => self.ask(*op, request),
            RecordedRow::Reply(op, _, reply) => self.reply(alloc, *op, reply, place),
            RecordedRow::Failed(op, _) => self.fail(alloc, *op),
            RecordedRow::GiveUp(op) => self.give_up(*op),
            RecordedRow::Answer(op, words) => self.answer(*op, words.as_str()),
        }
    }

    /// The client makes the next row of its recording. Of a reply, this is its place in the order, if it has one.
    ///
    /// # Errors
    ///
    /// Why the row is none that this client makes there, or want of memory. The recording is not gone on with.
    #[tactic(auto, using(crate::proofs::recordings::Telling::goes_then, crate::proofs::recordings::Telling::same_more))]
    pub fn take(
        &mut self,
        alloc: Global,
        row: &'a RecordedRow<T>,
        place: Option<u64>,
    ) -> Result<(), RowFault>
        requires { IsExactClone T.is_clone }
        ensures told { OnOk result (Goes T.text (row_tells row.now) self.old.diary.rows self.old.begun self.old.stage self.new.diary.rows self.new.begun self.new.stage) }
        ensures same { OnOk result (IsSameClient self.old.diary self.new.diary) }
    {
        self.make(alloc, row, place)?;
        self.look_on(alloc)?;
        Ok(())
    }

    /// The recording ends. A client of which an operation runs, or an answer is not written, was killed.
    ///
    /// # Errors
    ///
    /// Why the client cannot end there, or want of memory.
    pub fn finish(&mut self) -> Result<(), RowFault>
        ensures told { OnOk result ((recorded : List (RowTold T)) → Stands T.text recorded self.old.diary.rows self.old.begun self.old.stage → TellsSame recorded (journal_tells (answered_text T.text) 0 self.new.diary.rows)) }
        ensures same { OnOk result (IsSameClient self.old.diary self.new.diary) }
    {
        if !self.stage.is_idle() {
            self.diary.killed()?;
        }
        Ok(())
    }
}
