//! The call that a client begins next.

use crate::question::{Step, Target, Worth};
use std::ops::Bound;
use txn_history::event::{Call, PlainCall, ViewCall};
use txn_history::view::View;
use txn_script_lines::record::Record;

/// What a client knows where it begins a call.
#[derive(Clone, Copy)]
pub(crate) struct Knows<'a> {
    /// The client's number, from 1.
    pub(crate) client: u64,
    /// The place of the call in its list, from 1.
    pub(crate) place: u64,
    /// The id last told to it, with the epoch of its value.
    pub(crate) told: Option<(u64, u64)>,
    /// The number of its newest view, and the view, where it stands.
    pub(crate) view: Option<(u64, &'a View<Record>)>,
    /// The history.
    pub(crate) entries: &'a [Record],
}

impl Knows<'_> {
    /// The epoch of a version, 0 where there is none.
    fn epoch_of(&self, id: u64) -> u64 {
        match self.entries.get(id.saturating_sub(1) as usize) {
            Some(entry) if id != 0 => entry.epoch,
            _ => 0,
        }
    }

    /// An id, and the epoch of its value.
    fn id_of(&self, target: Target) -> Option<(u64, u64)> {
        match target {
            Target::Nothing => Some((0, 0)),
            Target::Id(id) => Some((id, self.epoch_of(id))),
            Target::Own(below) => {
                let (id, epoch) = self.told?;
                Some((id.checked_sub(below)?, epoch))
            }
        }
    }

    /// A value, of the epoch that is given where it names none.
    fn value_of(&self, worth: Worth, epoch: u64) -> Record {
        let place = self.client.saturating_mul(10).saturating_add(self.place);
        Record {
            epoch: worth.epoch.unwrap_or(epoch),
            payload: worth.payload.unwrap_or(place),
        }
    }

    /// The base and the value of a write.
    fn write_of(&self, target: Target, worth: Worth) -> Option<(Option<u64>, Record)> {
        let (id, epoch) = self.id_of(target)?;
        let base = if id == 0 { None } else { Some(id) };
        Some((base, self.value_of(worth, epoch)))
    }

    /// The number of the newest view, where it is no holder, with the epoch of its value.
    fn view_of(&self) -> Option<(u64, u64)> {
        let (number, view) = self.view?;
        match view.epoch {
            None => Some((number, view.object.epoch)),
            Some(_) => None,
        }
    }

    /// The number of the newest view, where it is a holder, with its own epoch.
    fn holder_of(&self) -> Option<(u64, u64)> {
        let (number, view) = self.view?;
        Some((number, view.epoch?))
    }

    /// The call without a view that a step says.
    fn plain_of(&self, step: Step) -> Option<PlainCall<Record>> {
        Some(match step {
            Step::Write(target, worth) => {
                let (base, value) = self.write_of(target, worth)?;
                PlainCall::Write(base, value)
            }
            Step::WriteUnchecked(target, worth) => {
                let (base, value) = self.write_of(target, worth)?;
                PlainCall::WriteUnchecked(base, value)
            }
            Step::Read => PlainCall::Read,
            Step::ReadUnchecked(target) => PlainCall::ReadUnchecked(self.id_of(target)?.0),
            Step::ReadSeen(target) => PlainCall::ReadSeen(self.id_of(target)?.0),
            Step::List => PlainCall::ListIds(Bound::Unbounded, Bound::Unbounded),
            Step::Delete(target) => PlainCall::Delete(self.id_of(target)?.0),
            Step::Check(target) => PlainCall::Check(self.id_of(target)?.0),
            Step::Advance(target) => PlainCall::Advance(self.id_of(target)?.0),
            _ => return None,
        })
    }

    /// The call on a view that a step says.
    fn on_view(&self, step: Step) -> Option<ViewCall<Record>> {
        Some(match step {
            Step::Init(worth) => ViewCall::Init(self.value_of(worth, 0)),
            Step::Load => ViewCall::Load,
            Step::Refresh => ViewCall::Refresh(self.view_of()?.0),
            Step::Update(worth) => {
                let (view, epoch) = self.view_of()?;
                ViewCall::Update(view, self.value_of(worth, epoch))
            }
            Step::Claim => ViewCall::Claim(self.view_of()?.0),
            Step::ClaimAt(epoch) => ViewCall::ClaimAt(self.view_of()?.0, epoch),
            Step::HolderRefresh => ViewCall::HolderRefresh(self.holder_of()?.0),
            Step::HolderUpdate(worth) => {
                let (view, epoch) = self.holder_of()?;
                ViewCall::HolderUpdate(view, self.value_of(worth, epoch))
            }
            _ => return None,
        })
    }

    /// The call that a step says, where what it speaks of is there.
    pub(crate) fn call_of(&self, step: Step) -> Option<Call<Record>> {
        match self.plain_of(step) {
            Some(call) => Some(Call::Plain(call)),
            None => Some(Call::View(self.on_view(step)?)),
        }
    }
}
