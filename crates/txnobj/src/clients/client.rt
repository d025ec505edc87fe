//! A client whose calls run to their answers, each recorded as it happens.
use crate::clients::recorder::Recorder;
use crate::clients::serve::Serve;
use crate::clients::stop::Stop;
use crate::clients::work::{Work, settled};
use std::alloc::{AllocError, Global};
use std::marker::Model;
use txn_diary::keeper::Keeper;
use txn_history::event::{Answer, Call};
use txn_store::types::codec::ObjectCodec;
use txn_store::types::epoch::EpochField;

/// Of how many of the last answers a client keeps the ids, unless another number is set.
pub const LAST: usize = 128;

/// One client of a store, which hands what it does to a recorder as it happens: each call that it makes hands over what the
/// call's rows tell, as a journal would have them, looks aside, and calls the store once for each reply that they tell. It keeps
/// no journal itself.
///
/// Clauses see what it keeps, its recorder, its store, and whether it goes on.
pub struct Client<T: Clone, C: ObjectCodec<T> + Drop, E: EpochField<T>, S, R: Recorder<T>> {
    work: Work<T, C, E, S, R>,
    goes_on: bool,
    /// Of how many of the last answers it keeps the ids.
    last: usize,
}

impl<T: Clone, C: ObjectCodec<T> + Drop, E: EpochField<T>, S: Drop, R: Recorder<T> + Drop> Drop
    for Client<T, C, E, S, R> {
    /// Drops all that the client keeps: here, so that no crate above has to prove how each part is dropped.
    fn drop(self) {
        let Client {
            work: _,
            goes_on: _,
            last: _,
        } = self;
    }
}

impl<T: Clone, C: ObjectCodec<T> + Drop, E: EpochField<T>, S, R: Recorder<T>> Model
    for Client<T, C, E, S, R> {
    ghost use Rattle.std.specs.Coded.{codes};
    ghost use Rattle.txn_store.specs.Memory.{files_code};
    ghost use Rattle.txnobj.specs.clients.Calling.{ClientState};

    ghost Value = { ClientState T C E R S };

    ghost coded = { Prim.hlevel (codes, files_code) };

    ghost view = { λ c. record { keeper = c.work.keeper; recorder = c.work.recorder; store = c.work.store; goes_on = c.goes_on } };
}

impl<
    T: Clone,
    C: ObjectCodec<T> + Drop,
    E: EpochField<T>,
    S: Serve + Drop,
    R: Recorder<T> + Drop,
> Client<T, C, E, S, R> {
    ghost use Rattle.std.specs.Prelude.{◌≡◌, ◌≤◌, Some, true, IfOk, IfErr};
    ghost use Rattle.txn_store.specs.types.Clones.{IsExactClone};
    ghost use Rattle.txn_client_journals.specs.Parts.{no_part};
    ghost use Rattle.txn_diary.specs.Keepers.{keeper_refusal, DoesAndForgets};
    ghost use Rattle.txnobj.specs.clients.Calling.{MakesCall, Stops, LetsGo};

    /// A client of this number, at least 1, that has done nothing, over a store and a recorder. A listing has pages of at most
    /// `page` files, at least 1.
    ///
    /// # Errors
    ///
    /// Want of memory alone, which changes nothing.
    pub fn new(
        alloc: Global,
        client: u64,
        codec: C,
        epochs: E,
        page: u64,
        store: S,
        recorder: R,
    ) -> Result<Client<T, C, E, S, R>, AllocError>
        requires some { 1 ≤ client }
        requires paged { 1 ≤ page }
        ensures { IfOk result (λ made. made ≡ record { keeper = record { client = client; page = page; codec = codec; epochs = epochs; part = no_part; alive = true }; recorder = recorder; store = store; goes_on = true }) }
    {
        let keeper = Keeper::new(alloc, client, codec, epochs, page)?;
        let work = Work {
            alloc,
            keeper,
            store,
            recorder,
        };
        Ok(Client {
            work,
            goes_on: true,
            last: LAST,
        })
    }

    /// What it keeps.
    pub fn keeper(&self) -> &Keeper<T, C, E>
        ensures { result.now ≡ self.now.keeper }
    {
        &self.work.keeper
    }

    /// Its recorder.
    pub fn recorder(&self) -> &R
        ensures { result.now ≡ self.now.recorder }
    {
        &self.work.recorder
    }

    /// The store that it calls.
    pub fn store(&self) -> &S
        ensures { result.now ≡ self.now.store }
    {
        &self.work.store
    }

    /// Whether it makes calls: not once its recorder failed, or memory was wanting in the middle of a call.
    pub fn goes_on(&self) -> bool
        ensures { result ≡ self.now.goes_on }
    {
        let Client { goes_on, .. } = self;
        *goes_on
    }

    /// Sets of how many of the last answers it keeps the ids. A write on a base that is older than these is not permitted, where no
    /// view of the client stands at it.
    pub fn keep_last(&mut self, last: usize)
        ensures { self.new ≡ self.old }
    {
        self.last = last;
    }

    /// Lets a view go: the client has it no more, and its value is freed. Nothing happens where it has none of this number. It is no
    /// call: nothing is handed to the recorder, and the store is not called.
    pub fn end_view(&mut self, view: u64)
        ensures { LetsGo view self.old self.new }
    {
        self.work.keeper.end_view(view);
    }

    /// Makes a call, which takes at most `steps` looks and store calls: the answer. What is asked is handed to the recorder
    /// before the store is called, which is called for it once, and the reply before the operation takes it.
    ///
    /// # Errors
    ///
    /// [`Stop::Refused`] where the client does not permit the call, or memory is wanting for its begin: it is as it was.
    /// [`Stop::StepsSpent`] where the steps did not suffice: the operation is given up, and the client goes on. After
    /// [`Stop::Unrecorded`] and [`Stop::NoMemory`] it makes no further call, and each is [`Stop::Ended`].
    pub fn call(&mut self, call: Call<T>, steps: u64) -> Result<Answer<T>, Stop>
        requires { IsExactClone T.is_clone }
        ensures ok { IfOk result (λ answer. MakesCall R.hands S.serves (DoesAndForgets C.encoded C.decoded E.epoch_of E.with_epoch) steps call (Some answer) self.old self.new) }
        ensures err { IfErr result (Stops R.hands S.serves (DoesAndForgets C.encoded C.decoded E.epoch_of E.with_epoch) (keeper_refusal (E.epoch_of self.old.keeper.epochs) self.old.keeper call) steps call self.old self.new) }
    {
        if !self.goes_on {
            drop(call);
            return Err(Stop::Ended);
        }
        self.goes_on = false;
        let done = self.work.call(&call, steps);
        drop(call);
        let done = done?;
        self.goes_on = true;
        let answer = settled(done)?;
        self.work.keeper.forget(self.last);
        Ok(answer)
    }
}
