//! Why a client does not permit a begin, by its views and what it was told.
use crate::tables::Tables;
use txn_client_journals::tables::calls::{is_holders, value_written, view_used};
use txn_client_journals::tables::refusals::{base, may_use};
use txn_client_journals::tables::views::is_used;
use txn_history::event::{Call, EventFault, PlainCall};
use txn_store::types::codec::ObjectCodec;
use txn_store::types::epoch::EpochField;

impl<T: Clone, C: ObjectCodec<T> + Drop, E: EpochField<T>> Tables<T, C, E> {
    ghost use Rattle.std.specs.Prelude.{◌≡◌};
    ghost use Rattle.txn_store.specs.types.Numbers.{number_of};
    ghost use Rattle.txn_history.specs.Facts.{is_high};
    ghost use Rattle.txn_history.specs.Calls.{value_written};
    ghost use Rattle.txn_machine.specs.Machine.{used_by};
    ghost use Rattle.txn_client_journals.specs.Parts.{is_low, epoch_told, is_in_use, client_begin_fault};
    ghost use Rattle.txn_diary.specs.Shown.{shown};

    /// Whether an operation runs on the view of a call, if it has one.
    fn is_busy(&self, view: Option<u64>) -> bool
        ensures { result ≡ is_in_use (used_by (shown self.now).views view) }
    {
        match view {
            Some(number) => is_used(&self.views, number),
            None => false,
        }
    }

    /// Whether the call advances to 0, or to what is below an id that a checked call answered.
    fn is_low(&self, call: &Call<T>) -> bool
        ensures { result ≡ is_low (shown self.now).told call.now }
    {
        match call {
            Call::Plain(PlainCall::Advance(to)) => *to == 0 || self.notes.is_below(*to),
            _ => true,
        }
    }

    /// Whether the value that a call writes has an epoch of at least that of its base's version.
    fn keeps_epoch(&self, base: Option<u64>, call: &Call<T>) -> bool
        ensures { result ≡ is_high (E.epoch_of self.now.epochs) (epoch_told (shown self.now).told (number_of base)) (value_written call.now) }
    {
        match value_written(call) {
            Some(value) => {
                self.notes.epoch_of(base.unwrap_or(0)) <= self.epochs.get_epoch(value)
            }
            None => true,
        }
    }

    /// Why the client does not permit a begin, if it does not: its number and its view, whether that is free, its base, its
    /// boundary and its epoch are tested, in this order. It takes no memory.
    pub fn begin_refusal(&self, call: &Call<T>) -> Option<EventFault>
        ensures { result ≡ client_begin_fault (E.epoch_of self.now.epochs) self.now.client (shown self.now) call.now }
    {
        let view = view_used(call);
        if self.client == 0 || !may_use(&self.views, self.client, is_holders(call), view) {
            return Some(EventFault::UnknownNumber);
        }
        if self.is_busy(view) {
            return Some(EventFault::ViewBusy);
        }
        let base = base(&self.views, call);
        if !self.notes.knows_base(base) {
            return Some(EventFault::UnknownBase);
        }
        if !self.is_low(call) {
            return Some(EventFault::BoundaryTooHigh);
        }
        if !self.keeps_epoch(base, call) {
            return Some(EventFault::EpochLowered);
        }
        None
    }
}
