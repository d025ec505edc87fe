//! Why an event is refused.
use crate::tables::Tables;
use txn_client_journals::tables::calls::{is_holders, value_written, view_used};
use txn_client_journals::tables::refusals::{self, ask_refusal, end_refusal};
use txn_history::event::{Call, Event, EventFault, PlainCall};
use txn_history::view::View;
use txn_store::types::codec::ObjectCodec;
use txn_store::types::epoch::EpochField;

impl<T: Clone, C: ObjectCodec<T> + Drop, E: EpochField<T>> Tables<T, C, E> {
    ghost use Rattle.std.specs.Prelude.{◌≡◌, Some, is_some};
    ghost use Rattle.std.specs.Option.{option_copied};
    ghost use Rattle.txn_history.specs.Lists.{numbered};
    ghost use Rattle.txn_store.specs.types.Numbers.{number_of};
    ghost use Rattle.txn_history.specs.History.{epoch_at};
    ghost use Rattle.txn_history.specs.Facts.{is_high};
    ghost use Rattle.txn_history.specs.Allowed.{is_client, may_use, is_busy, base_seen, begin_fault, fault_of};
    ghost use Rattle.txn_history.specs.OneHistory.{is_known_base, has_low_boundary, keeps_epoch};
    ghost use Rattle.txn_history.specs.Seen.{view_of};
    ghost use Rattle.txn_machine.specs.Machine.{seen_of};
    ghost use Rattle.txn_world.specs.Answering.{IsAnswerable};
    ghost use Rattle.txn_world.specs.Shown.{shown};

    /// Whether there is a client of this number.
    fn has_client(&self, client: u64) -> bool
        ensures { result ≡ is_client (shown self.now).clients client }
    {
        client != 0 && client <= self.clients.count
    }

    /// The view of this number, where it stands.
    pub fn view(&self, number: u64) -> Option<&View<T>>
        ensures { option_copied result ≡ view_of (seen_of (shown self.now)) number }
    {
        self.views.get(number)
    }

    /// Whether the client may use the view of a call, if it has one: it is the client's own, and a holder exactly where the
    /// call is a holder's.
    fn may_use(&self, client: u64, holders: bool, view: Option<u64>) -> bool
        ensures { result ≡ may_use (seen_of (shown self.now)) client holders view }
    {
        refusals::may_use(&self.views.used, client, holders, view)
    }

    /// Whether an operation runs on the view of a call, if it has one.
    pub fn is_busy(&self, view: Option<u64>) -> bool
        requires fit { IsAnswerable (shown self.now) }
        ensures { result ≡ is_busy (seen_of (shown self.now)) (shown self.now).trace view }
    {
        match view {
            Some(number) => self.views.is_used(number),
            None => false,
        }
    }

    /// The base that a call writes on: an update's is where its view stands.
    fn base(&self, call: &Call<T>) -> Option<u64>
        ensures { result ≡ base_seen (seen_of (shown self.now)) call.now }
    {
        refusals::base(&self.views.used, call)
    }

    /// Whether a base is none, or an id that some call answered.
    fn knows_base(&self, base: Option<u64>) -> bool
        ensures { result ≡ is_known_base (shown self.now).trace base }
    {
        match base {
            Some(base) => self.trace.has_told(base),
            None => true,
        }
    }

    /// Whether the call advances to 0, or to what is below an id that some call answered.
    fn is_low(&self, call: &Call<T>) -> bool
        ensures { result ≡ has_low_boundary (shown self.now).trace call.now }
    {
        match call {
            Call::Plain(PlainCall::Advance(to)) => *to == 0 || self.trace.has_told_above(*to),
            _ => true,
        }
    }

    /// Whether a value that is written on this base has an epoch of at least that of the base's entry.
    fn is_high(&self, base: Option<u64>, value: &T) -> bool
        ensures { result ≡ is_high (E.epoch_of self.now.trace.field) (epoch_at (C.decoded self.now.trace.layout.codec) (E.epoch_of self.now.trace.field) (shown self.now).trace (number_of base)) (Some value.now) }
    {
        self.trace.epoch_at(base.unwrap_or(0)) <= self.trace.field.get_epoch(value)
    }

    /// Whether the value that a call writes has an epoch of at least that of its base's entry.
    fn keeps_epoch(&self, base: Option<u64>, call: &Call<T>) -> bool
        ensures { result ≡ keeps_epoch (C.decoded self.now.trace.layout.codec) (E.epoch_of self.now.trace.field) (shown self.now).trace base call.now }
    {
        match value_written(call) {
            Some(value) => self.is_high(base, value),
            None => true,
        }
    }

    /// Why a begin is refused, where it is: its client and its view, whether that is free, its base, its boundary and its
    /// epoch are tested, in this order.
    fn begin_refusal(&self, client: u64, call: &Call<T>) -> Option<EventFault>
        requires fit { IsAnswerable (shown self.now) }
        ensures { result ≡ begin_fault (C.decoded self.now.trace.layout.codec) (E.epoch_of self.now.trace.field) (seen_of (shown self.now)) (shown self.now).trace client call.now }
    {
        let view = view_used(call);
        if !(self.has_client(client) && self.may_use(client, is_holders(call), view)) {
            return Some(EventFault::UnknownNumber);
        }
        if self.is_busy(view) {
            return Some(EventFault::ViewBusy);
        }
        let base = self.base(call);
        if !self.knows_base(base) {
            return Some(EventFault::UnknownBase);
        }
        if !self.is_low(call) {
            return Some(EventFault::BoundaryTooHigh);
        }
        if !self.keeps_epoch(base, call) {
            return Some(EventFault::EpochLowered);
        }
        None
    }

    /// Whether there is a loose request of this number.
    fn has_loose(&self, number: u64) -> bool
        ensures { result ≡ is_some (numbered (shown self.now).loose number) }
    {
        number != 0 && number <= self.loose.len() as u64
    }

    /// Why an event is refused, want of memory aside.
    pub fn refusal(&self, event: &Event<T>) -> Option<EventFault>
        requires fit { IsAnswerable (shown self.now) }
        ensures { result ≡ fault_of (C.decoded self.now.trace.layout.codec) (E.epoch_of self.now.trace.field) (seen_of (shown self.now)) (shown self.now).trace event.now }
    {
        match event {
            Event::Begin(client, call) => self.begin_refusal(*client, call),
            Event::Look(op) => ask_refusal(false, self.asks(*op)),
            Event::Serve(op) => ask_refusal(true, self.asks(*op)),
            Event::Fail(op, _) => ask_refusal(true, self.asks(*op)),
            Event::GiveUp(op) => end_refusal(self.asks(*op)),
            Event::Land(number) if self.has_loose(*number) => None,
            Event::Crash(client) if self.has_client(*client) => None,
            Event::Land(_) | Event::Crash(_) => Some(EventFault::UnknownNumber),
        }
    }
}
