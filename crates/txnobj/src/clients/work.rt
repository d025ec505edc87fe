//! How a client does one thing after another, and hands each to its recorder.
ghost use Rattle.std.specs.Prelude.{◌≡◌};
ghost use Rattle.txnobj.specs.clients.Working.{settled};

use crate::clients::recorder::Recorder;
use crate::clients::serve::Serve;
use crate::clients::stop::Stop;
use std::alloc::Global;
use txn_client_journals::tables::operations::request_of;
use txn_client_journals::tables::views::Answers;
use txn_diary::keeper::Keeper;
use txn_diary::kinds::has_failed;
use txn_history::event::{Answer, Call, EventFault};
use txn_store::request::{Reply, Request};
use txn_store::types::codec::ObjectCodec;
use txn_store::types::epoch::EpochField;

/// What a client keeps, its store and its recorder.
#[derive(Drop)]
pub(crate) struct Work<T: Clone, C: ObjectCodec<T> + Drop, E: EpochField<T>, S, R: Recorder<T>> {
    pub alloc: Global,
    pub keeper: Keeper<T, C, E>,
    pub store: S,
    pub recorder: R,
}

/// What became of a step.
pub(crate) enum Heard<T> {
    /// The operation goes on.
    Goes,
    /// It was answered.
    Answered(Answer<T>),
}

/// What became of a begin.
pub(crate) enum Begun<T> {
    /// It is refused.
    Refused(EventFault),
    /// The call goes on as the operation of this number.
    Goes(u64),
    /// It was answered at once.
    Answered(Answer<T>),
}

/// What became of a call.
pub(crate) enum Done<T> {
    /// It was answered.
    Answered(Answer<T>),
    /// It did not begin.
    Refused(EventFault),
    /// Its steps were spent, and it was given up.
    Spent,
}

/// The answer of a call, or why it has none.
#[inline(always)]
pub(crate) fn settled<T: Drop>(done: Done<T>) -> Result<Answer<T>, Stop>
    ensures { result ≡ settled done }
{
    match done {
        Done::Answered(answer) => Ok(answer),
        Done::Refused(fault) => Err(Stop::Refused(fault)),
        Done::Spent => Err(Stop::StepsSpent),
    }
}

impl<T: Clone, C: ObjectCodec<T> + Drop, E: EpochField<T>, S: Serve, R: Recorder<T>> Work<
    T,
    C,
    E,
    S,
    R,
> {
    ghost use Rattle.std.specs.Prelude.{◌≡◌, ◌++◌, ◌∷◌, [], IfOk, IfErr, OnOk, Some};
    ghost use Rattle.txn_store.specs.types.Clones.{IsExactClone};
    ghost use Rattle.txn_store.specs.declared.request.Request.{Request};
    ghost use Rattle.txn_history.specs.Seen.{Store};
    ghost use Rattle.txn_machine.specs.plain.Doing.{first_of};
    ghost use Rattle.txn_client_journals.specs.Logged.{IsOfKind};
    ghost use Rattle.txn_diary.specs.Keepers.{keeper_asked, keeper_refusal, Does};
    ghost use Rattle.txnobj.specs.clients.Happenings.{answer_happens, HappensAll, HappensUntil, Served, CallFailed};
    ghost use Rattle.txnobj.specs.clients.Calling.{begun_in, IsLookOrCall, IsGiveUp, CutsOff};
    ghost use Rattle.txnobj.specs.clients.Working.{heard_in, CutsStep, CutsAsked, CutsBegin, TakesStep, TakesAsked, IsBegun, IsCalled, IsDone};
    ghost use Rattle.txnobj.specs.declared.clients.stop.Stop.TheVariants.{NoMemory};

    /// Hands an operation's answer to the recorder, where it has one.
    #[inline(always)]
    fn hear(&mut self, op: u64, answers: Option<Answers<T>>) -> Result<Heard<T>, Stop>
        ensures keeper { self.new.keeper ≡ self.old.keeper }
        ensures heard { IfOk result (λ heard. heard ≡ heard_in (first_of answers)) }
        ensures happened { OnOk result (HappensAll R.hands S.serves self.old.recorder self.old.store (answer_happens op (first_of answers)) self.new.recorder self.new.store) }
        ensures err { IfErr result (λ stop. HappensUntil R.hands S.serves stop (answer_happens op (first_of answers)) self.old.recorder self.old.store self.new.recorder self.new.store) }
    {
        match answers {
            Some((answer, _)) => {
                self.recorder.answered(op, &answer)?;
                Ok(Heard::Answered(answer))
            }
            None => Ok(Heard::Goes),
        }
    }

    /// The operation looks at the client's caches.
    #[inline(always)]
    fn look(&mut self, op: u64) -> Result<Heard<T>, Stop>
        requires { IsExactClone T.is_clone }
        ensures ok { IfOk result (λ heard. TakesStep R.hands S.serves (Does C.encoded C.decoded E.epoch_of E.with_epoch) IsLookOrCall op self.old.keeper self.old.recorder self.old.store (begun_in self.old.keeper) heard self.new.keeper self.new.recorder self.new.store (begun_in self.new.keeper)) }
        ensures err { IfErr result (λ stop. CutsStep R.hands S.serves (Does C.encoded C.decoded E.epoch_of E.with_epoch) IsLookOrCall op (begun_in self.old.keeper) stop self.old.keeper self.old.recorder self.old.store self.new.keeper self.new.recorder self.new.store) }
    {
        let Ok(answers) = self.keeper.look(op) else {
            return Err(Stop::NoMemory);
        };
        self.hear(op, answers)
    }

    /// The store call of the operation, which the recorder was told of, failed: the operation is answered so.
    fn fail(&mut self, op: u64) -> Result<Heard<T>, Stop>
        ensures ok { (request : Request) → keeper_asked self.old.keeper op ≡ Some (Store request) → IfOk result (λ heard. TakesAsked R.hands S.serves (Does C.encoded C.decoded E.epoch_of E.with_epoch) op request (CallFailed request) self.old.keeper self.old.recorder self.old.store (begun_in self.old.keeper) heard self.new.keeper self.new.recorder self.new.store (begun_in self.new.keeper)) }
        ensures err { (request : Request) → keeper_asked self.old.keeper op ≡ Some (Store request) → IfErr result (λ stop. CutsAsked R.hands S.serves (Does C.encoded C.decoded E.epoch_of E.with_epoch) op request (CallFailed request) stop self.old.keeper self.old.recorder self.old.store self.new.keeper self.new.recorder self.new.store) }
    {
        let Ok(did) = self.keeper.failed(op) else {
            return Err(Stop::NoMemory);
        };
        self.recorder.failed(op)?;
        self.hear(op, did.1)
    }

    /// The operation takes the store's reply to what the recorder was told of.
    #[inline(always)]
    fn take(&mut self, op: u64, reply: Reply) -> Result<Heard<T>, Stop>
        requires exact { IsExactClone T.is_clone }
        requires kind { (request : Request) → keeper_asked self.old.keeper op ≡ Some (Store request) → IsOfKind request reply }
        ensures ok { (request : Request) → keeper_asked self.old.keeper op ≡ Some (Store request) → IfOk result (λ heard. TakesAsked R.hands S.serves (Does C.encoded C.decoded E.epoch_of E.with_epoch) op request (Served request reply) self.old.keeper self.old.recorder self.old.store (begun_in self.old.keeper) heard self.new.keeper self.new.recorder self.new.store (begun_in self.new.keeper)) }
        ensures err { (request : Request) → keeper_asked self.old.keeper op ≡ Some (Store request) → IfErr result (λ stop. CutsAsked R.hands S.serves (Does C.encoded C.decoded E.epoch_of E.with_epoch) op request (Served request reply) stop self.old.keeper self.old.recorder self.old.store self.new.keeper self.new.recorder self.new.store) }
    {
        self.recorder.replied(op, &reply)?;
        let Ok(answers) = self.keeper.reply(op, reply) else {
            return Err(Stop::NoMemory);
        };
        self.hear(op, answers)
    }

    /// The store is called for what the operation asks, once: the reply. Nothing happens where it asks for no store call.
    #[inline(always)]
    fn ask(&mut self, op: u64) -> Result<Option<Reply>, Stop>
        ensures keeper { self.new.keeper ≡ self.old.keeper }
        ensures ok { IfOk result (λ reply. IsCalled R.hands S.serves op (keeper_asked self.old.keeper op) reply self.old.recorder self.old.store self.new.recorder self.new.store) }
        ensures err { IfErr result (λ stop. CutsStep R.hands S.serves (Does C.encoded C.decoded E.epoch_of E.with_epoch) IsLookOrCall op (begun_in self.old.keeper) stop self.old.keeper self.old.recorder self.old.store self.new.keeper self.new.recorder self.new.store) }
    {
        let Some(request) = request_of(self.keeper.asks(op)) else {
            return Ok(None);
        };
        self.recorder.asked(op, request)?;
        Ok(Some(self.store.serve(self.alloc, request)))
    }

    /// The operation does what it asks for.
    #[inline(always)]
    fn step(&mut self, op: u64) -> Result<Heard<T>, Stop>
        requires { IsExactClone T.is_clone }
        ensures ok { IfOk result (λ heard. TakesStep R.hands S.serves (Does C.encoded C.decoded E.epoch_of E.with_epoch) IsLookOrCall op self.old.keeper self.old.recorder self.old.store (begun_in self.old.keeper) heard self.new.keeper self.new.recorder self.new.store (begun_in self.new.keeper)) }
        ensures err { IfErr result (λ stop. CutsStep R.hands S.serves (Does C.encoded C.decoded E.epoch_of E.with_epoch) IsLookOrCall op (begun_in self.old.keeper) stop self.old.keeper self.old.recorder self.old.store self.new.keeper self.new.recorder self.new.store) }
    {
        let Some(reply) = self.ask(op)? else {
            return self.look(op);
        };
        if has_failed(&reply) {
            drop(reply);
            self.fail(op)
        } else {
            self.take(op, reply)
        }
    }

    /// Gives the operation up.
    fn give_up(&mut self, op: u64) -> Result<(), Stop>
        ensures ok { OnOk result (TakesStep R.hands S.serves (Does C.encoded C.decoded E.epoch_of E.with_epoch) IsGiveUp op self.old.keeper self.old.recorder self.old.store (begun_in self.old.keeper) Heard.Goes self.new.keeper self.new.recorder self.new.store (begun_in self.new.keeper)) }
        ensures err { IfErr result (λ stop. CutsStep R.hands S.serves (Does C.encoded C.decoded E.epoch_of E.with_epoch) IsGiveUp op (begun_in self.old.keeper) stop self.old.keeper self.old.recorder self.old.store self.new.keeper self.new.recorder self.new.store) }
    {
        let Ok(_left) = self.keeper.give_up(op) else {
            return Err(Stop::NoMemory);
        };
        self.recorder.gave_up(op)?;
        Ok(())
    }

    /// Begins a call, and tells the recorder.
    fn begin(&mut self, call: &Call<T>) -> Result<Begun<T>, Stop>
        requires { IsExactClone T.is_clone }
        ensures ok { IfOk result (λ begun. IsBegun R.hands S.serves (Does C.encoded C.decoded E.epoch_of E.with_epoch) (keeper_refusal (E.epoch_of self.old.keeper.epochs) self.old.keeper call.now) call.now self.old.keeper self.old.recorder self.old.store (begun_in self.old.keeper) begun self.new.keeper self.new.recorder self.new.store (begun_in self.new.keeper)) }
        ensures err { IfErr result (λ stop. CutsBegin R.hands S.serves (Does C.encoded C.decoded E.epoch_of E.with_epoch) call.now (begun_in self.old.keeper) stop self.old.keeper self.old.recorder self.old.store self.new.keeper self.new.recorder self.new.store) }
    {
        let op = self.keeper.begun() + 1;
        let answers = match self.keeper.begin(call) {
            Ok(answers) => answers,
            Err(fault) => return Ok(Begun::Refused(fault)),
        };
        self.recorder.begun(op, call)?;
        match self.hear(op, answers)? {
            Heard::Goes => Ok(Begun::Goes(op)),
            Heard::Answered(answer) => Ok(Begun::Answered(answer)),
        }
    }

    /// Makes a call, of at most so many looks and store calls.
    ///
    /// # Errors
    ///
    /// - `Refused` for a call that the client does not permit: it did not begin, and the client is as it was.
    /// - `StepsSpent` where the looks and store calls do not suffice. Its operation is given up; a put or a delete that it
    ///   asked for may still reach the store. The client goes on.
    /// - `Unrecorded` where the recorder failed, `NoMemory` where a growth was refused in the middle of the call. What was
    ///   asked for may have taken effect. The client makes no further call.
    /// - `Ended` for a client that ended before, by one of these two. No store call is made.
    pub fn call(&mut self, call: &Call<T>, steps: u64) -> Result<Done<T>, Stop>
        requires { IsExactClone T.is_clone }
        ensures ok { IfOk result (λ done. IsDone R.hands S.serves (Does C.encoded C.decoded E.epoch_of E.with_epoch) (keeper_refusal (E.epoch_of self.old.keeper.epochs) self.old.keeper call.now) steps call.now self.old.keeper self.old.recorder self.old.store (begun_in self.old.keeper) done self.new.keeper self.new.recorder self.new.store (begun_in self.new.keeper)) }
        ensures err { IfErr result (λ stop. CutsOff R.hands S.serves (Does C.encoded C.decoded E.epoch_of E.with_epoch) (begun_in self.old.keeper) steps call.now stop self.old.keeper self.old.recorder self.old.store self.new.keeper self.new.recorder self.new.store) }
    {
        let op = match self.begin(call)? {
            Begun::Refused(fault) => return Ok(Done::Refused(fault)),
            Begun::Answered(answer) => return Ok(Done::Answered(answer)),
            Begun::Goes(op) => op,
        };
        for _taken in 0..steps {
            match self.step(op)? {
                Heard::Answered(answer) => return Ok(Done::Answered(answer)),
                Heard::Goes => {}
            }
        }
        self.give_up(op)?;
        Ok(Done::Spent)
    }
}
