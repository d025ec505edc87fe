//! A client of one object, over a store that others share.
ghost use Rattle.std.specs.Prelude.{◌≡◌, Some, IfOk, IfErr};
ghost use Rattle.txn_store.specs.types.Clones.{IsExactClone};
ghost use Rattle.txn_diary.specs.Keepers.{DoesAndForgets, keeper_refusal};
ghost use Rattle.txnobj.specs.clients.Calling.{MakesCall, Stops};
ghost use Rattle.std.specs.Option.{option_copied};
ghost use Rattle.txnobj.specs.Stores.{KeepsServed, IsToldOf};

use crate::clients::client::Client;
use crate::clients::recorder::Recorder;
use crate::clients::stop::Stop;
use crate::protocol::TransactionalStorageProtocol;
use crate::store::{Kept, SharedStore};
use std::alloc::{AllocError, Global};
use txn_history::event::{Answer, Call};
use txn_store::types::codec::ObjectCodec;
use txn_store::types::epoch::EpochField;
use txn_store::types::layout::PAGE;

/// The most looks and store calls of one call, unless another number is set.
pub const STEPS: u64 = 100_000;
/// How often an update or a claim is tried, unless another number is set.
pub const ATTEMPTS: u64 = 10_000;

/// A client of one object, over a store that others share. It hands what it does to its recorder, each request before the
/// store is called. Its calls are those of [`TransactionalStorageProtocol`].
#[derive(Drop)]
pub struct ObjectClient<
    T: Clone,
    C: ObjectCodec<T> + Drop,
    E: EpochField<T>,
    S: SharedStore + Drop,
    R: Recorder<T> + Drop,
> {
    client: Client<T, C, E, Kept<S, S::Fault>, R>,
    steps: u64,
    attempts: u64,
}

/// A copy of a fault, where one is there and memory for the copy.
fn copied<F: Clone>(fault: Option<&F>) -> Option<F>
    ensures { IsToldOf F.is_clone F.is_infallible (option_copied fault.entry) result }
{
    match fault {
        Some(fault) => match fault.clone() {
            Ok(copy) => Some(copy),
            Err(_) => None,
        },
        None => None,
    }
}

impl<
    T: Clone,
    C: ObjectCodec<T> + Drop,
    E: EpochField<T>,
    S: SharedStore + Drop,
    R: Recorder<T> + Drop,
> ObjectClient<T, C, E, S, R> {
    ghost use Rattle.std.specs.Prelude.{◌≡◌, ◌≤◌, true, None, IfOk};
    ghost use Rattle.txn_client_journals.specs.Parts.{no_part};

    /// A client of this number, at least 1, that has done nothing, over a store and a recorder.
    ///
    /// # Errors
    ///
    /// Want of memory alone, which changes nothing.
    pub fn new(
        alloc: Global,
        number: u64,
        codec: C,
        epochs: E,
        store: S,
        recorder: R,
    ) -> Result<ObjectClient<T, C, E, S, R>, AllocError>
        requires { 1 ≤ number }
        ensures client { IfOk result (λ made. made.client ≡ record { keeper = record { client = number; page = 1000; codec = codec; epochs = epochs; part = no_part; alive = true }; recorder = recorder; store = record { store = store; fault = None }; goes_on = true }) }
        ensures most { IfOk result (λ made. (made.steps ≡ 100000) × (made.attempts ≡ 10000)) }
    {
        let kept = Kept { store, fault: None };
        let client = Client::new(alloc, number, codec, epochs, PAGE, kept, recorder)?;
        Ok(ObjectClient {
            client,
            steps: STEPS,
            attempts: ATTEMPTS,
        })
    }

    /// Sets the most looks and store calls of one call.
    pub fn set_steps(&mut self, steps: u64)
        ensures { self.new ≡ record self.old { steps = steps } }
    {
        self.steps = steps;
    }

    /// Sets how often an update or a claim is tried.
    pub fn set_attempts(&mut self, attempts: u64)
        ensures { self.new ≡ record self.old { attempts = attempts } }
    {
        self.attempts = attempts;
    }

    /// Sets of how many of the last answers the client keeps the ids (128 unless another number is set). A write on a base that is
    /// older is `NotPermitted`, where no object of the client stands at it.
    pub fn keep_last(&mut self, last: usize)
        ensures { self.new ≡ self.old }
    {
        self.client.keep_last(last);
    }

    /// Whether it makes calls: not once its recorder failed, or memory was wanting in the middle of a call.
    pub fn goes_on(&self) -> bool
        ensures { result ≡ self.now.client.goes_on }
    {
        self.client.goes_on()
    }

    /// The store that it calls.
    pub fn store(&self) -> &S
        ensures { result.now ≡ self.now.client.store.store }
    {
        &self.client.store().store
    }

    /// Its recorder.
    pub fn recorder(&self) -> &R
        ensures { result.now ≡ self.now.client.recorder }
    {
        self.client.recorder()
    }
}

impl<
    T: Clone,
    C: ObjectCodec<T> + Drop,
    E: EpochField<T>,
    S: SharedStore + Drop,
    R: Recorder<T> + Drop,
> TransactionalStorageProtocol<T> for ObjectClient<T, C, E, S, R> {
    ghost use Rattle.std.specs.Prelude.{◌≡◌, Some};
    ghost use Rattle.txn_diary.specs.Keepers.{DoesAndForgets, keeper_refusal};
    ghost use Rattle.txnobj.specs.clients.Calling.{MakesCall, Stops, LetsGo};
    ghost use Rattle.txnobj.specs.Stores.{KeepsServed, IsToldOf};

    type Fault = S::Fault;

    ghost made = { λ old call answer new. MakesCall R.hands (KeepsServed S.serves) (DoesAndForgets C.encoded C.decoded E.epoch_of E.with_epoch) old.steps call (Some answer) old.client new.client × (new ≡ record old { client = new.client }) };

    ghost stopped = { λ old call stop new. Stops R.hands (KeepsServed S.serves) (DoesAndForgets C.encoded C.decoded E.epoch_of E.with_epoch) (keeper_refusal (E.epoch_of old.client.keeper.epochs) old.client.keeper call) old.steps call old.client new.client stop × (new ≡ record old { client = new.client }) };

    ghost lets_go = { λ old view new. LetsGo view old.client new.client × (new ≡ record old { client = new.client }) };

    ghost tells = { λ client told. IsToldOf S.Fault.is_clone S.Fault.is_infallible client.client.store.fault told };

    ghost most = { λ client. client.attempts };

    fn end_view(&mut self, view: u64) {
        self.client.end_view(view);
    }

    fn call(&mut self, call: Call<T>) -> Result<Answer<T>, Stop>
        requires { IsExactClone T.is_clone }
        ensures ok { IfOk result (λ answer. MakesCall R.hands (KeepsServed S.serves) (DoesAndForgets C.encoded C.decoded E.epoch_of E.with_epoch) self.old.steps call (Some answer) self.old.client self.new.client × (self.new ≡ record self.old { client = self.new.client })) }
        ensures err { IfErr result (λ stop. Stops R.hands (KeepsServed S.serves) (DoesAndForgets C.encoded C.decoded E.epoch_of E.with_epoch) (keeper_refusal (E.epoch_of self.old.client.keeper.epochs) self.old.client.keeper call) self.old.steps call self.old.client self.new.client stop × (self.new ≡ record self.old { client = self.new.client })) }
    {
        self.client.call(call, self.steps)
    }

    fn fault(&self) -> Option<S::Fault> {
        copied(self.client.store().fault.as_ref())
    }

    fn attempts(&self) -> u64 {
        self.attempts
    }
}
