//! Calls on views that run alone, as values.
ghost use Rattle.std.specs.Prelude.{◌≤◌, IfOk};
ghost use Rattle.txn_steps_laws.specs.CallRuns.{CanEnter};
ghost use Rattle.txn_steps_laws.specs.ClaimSteps.{CanClaim};

use crate::tests::place::{Place, Play, View, driven};
use crate::tests::told::Told::{Fails, GoesOn, Held, Is, Shut, Viewed};
use crate::tests::told::{Error, Told, said};
use txn_script_lines::record::{Record, RecordCodec, RecordEpoch};
use txn_steps_driven::drive::At;
use txn_steps_laws::call::ViewCall;
use txn_steps_laws::with_epochs::WithEpochs;
use txn_steps_views::claim::ClaimOp;
use txn_steps_views::entry::EntryOp;
use txn_steps_views::view_read::{Purpose, ViewReadOp};
use txn_store::types::id::MonotonicId;

/// An update that another client makes on the version of this id, by its record's epoch and payload.
pub(crate) type Beside = Option<(u64, u64, u64)>;

/// A call on a client's view, or something done beside it. Records are given by their epoch and payload.
#[derive(Clone, Copy)]
pub(crate) enum Step {
    /// The client is given a view of this id and record.
    Has(u64, u64, u64),
    /// The boundary file is put by hand.
    Boundary(&'static [u8]),
    Init(u64, u64),
    Load,
    Refresh,
    Update(u64, u64),
    /// A claim, with what another client does between its start and its first request.
    Claim(Beside),
    /// The same, of this epoch.
    ClaimAt(u64, Beside),
    HolderRefresh,
    HolderUpdate(u64, u64),
}

/// The epoch that a view is held with after this step, or 0.
fn held_after(view: Option<View>, step: Step) -> u64 {
    match (view, step) {
        (Some(view), Step::HolderRefresh | Step::HolderUpdate(..)) => view.held,
        _ => 0,
    }
}

/// The client's view after this step, which said this. A claim that fails ends its own.
fn left(view: Option<View>, step: Step, told: Told) -> Option<View> {
    let (id, epoch, payload, held) = match told {
        Viewed(id, epoch, payload) | Shut(id, epoch, payload, _) => {
            (id, epoch, payload, held_after(view, step))
        }
        Held(id, epoch, payload, held) => (id, epoch, payload, held),
        Fails(_) if matches!(step, Step::Claim(_) | Step::ClaimAt(..)) => return None,
        _ => return view,
    };
    let id = MonotonicId::new(id);
    let value = Record { epoch, payload };
    Some(View { id, value, held })
}

/// The other client's update, where there is one. What it calls is not counted as the call's own.
fn overtake(at: &At<RecordCodec>, place: &mut Place, beside: Beside) {
    if let Some((id, epoch, payload)) = beside {
        place.turn();
        let value = Record { epoch, payload };
        let op = EntryOp::start(at.alloc, at.layout, Some(MonotonicId::new(id)), &value);
        let _ = written(at, place, op, 5);
        place.turn();
        place.begin();
    }
}

/// A step that reads the newest version for a view.
fn view_read(
    at: &At<RecordCodec>,
    place: &mut Place,
    purpose: Purpose,
    steps: u64,
) -> Result<Told, Error>
    requires { 1 ≤ at.now.layout.now.page }
{
    let op = ViewReadOp::<Record>::start(at.layout, purpose)?;
    let epochs = RecordEpoch;
    Ok(said(driven(at, place, WithEpochs { op, epochs }, steps)))
}

/// A step that writes a record, once the write is started.
fn written(
    at: &At<RecordCodec>,
    place: &mut Place,
    op: Result<EntryOp<Record>, Error>,
    steps: u64,
) -> Result<Told, Error>
    requires { IfOk op (λ op. CanEnter op) }
{
    let op = op?;
    Ok(said(driven(at, place, ViewCall { op }, steps)))
}

/// A step that claims a view, once the claim is started.
fn claimed(
    at: &At<RecordCodec>,
    place: &mut Place,
    op: Result<ClaimOp<Record>, Error>,
    beside: Beside,
    steps: u64,
) -> Result<Told, Error>
    requires page { 1 ≤ at.now.layout.now.page }
    requires asks { IfOk op (λ op. CanClaim op.claiming) }
{
    let op = op?;
    let epochs = RecordEpoch;
    overtake(at, place, beside);
    Ok(said(driven(at, place, WithEpochs { op, epochs }, steps)))
}

/// A step that uses a view.
fn on_view(
    at: &At<RecordCodec>,
    place: &mut Place,
    view: View,
    step: Step,
    steps: u64,
) -> Result<Told, Error>
    requires { 1 ≤ at.now.layout.now.page }
{
    match step {
        Step::Update(epoch, payload) => {
            let next = Record { epoch, payload };
            let op = EntryOp::start(at.alloc, at.layout, Some(view.id), &next);
            written(at, place, op, steps)
        }
        Step::Claim(beside) => {
            let op = ClaimOp::start(
                at.alloc,
                at.layout,
                &RecordEpoch,
                None,
                view.id,
                &view.value,
            );
            claimed(at, place, op, beside, steps)
        }
        Step::ClaimAt(epoch, beside) => {
            let op = ClaimOp::start(
                at.alloc,
                at.layout,
                &RecordEpoch,
                Some(epoch),
                view.id,
                &view.value,
            );
            claimed(at, place, op, beside, steps)
        }
        Step::HolderRefresh => view_read(at, place, Purpose::HolderRefresh(view.held), steps),
        Step::HolderUpdate(epoch, payload) => {
            let View { id, value, held } = view;
            let next = Record { epoch, payload };
            let op = EntryOp::start_for_holder(
                at.alloc,
                at.layout,
                &RecordEpoch,
                held,
                id,
                &value,
                &next,
            );
            written(at, place, op, steps)
        }
        _ => Ok(GoesOn),
    }
}

/// What a step says, or why it is not started. One that lacks its view goes on, as no row says.
fn stepped(at: &At<RecordCodec>, place: &mut Place, step: Step, steps: u64) -> Result<Told, Error>
    requires { 1 ≤ at.now.layout.now.page }
{
    match step {
        Step::Has(id, epoch, payload) => Ok(Viewed(id, epoch, payload)),
        Step::Boundary(bytes) => Ok(Is(place.put(&at.layout.boundary, bytes))),
        Step::Init(epoch, payload) => {
            let op = EntryOp::start(at.alloc, at.layout, None, &Record { epoch, payload });
            written(at, place, op, steps)
        }
        Step::Load => view_read(at, place, Purpose::Load, steps),
        Step::Refresh => view_read(at, place, Purpose::Refresh, steps),
        _ => match place.client.view {
            Some(view) => on_view(at, place, view, step, steps),
            None => Ok(GoesOn),
        },
    }
}

/// The client's view follows what its step says.
impl Play<RecordCodec> for Step {
    fn play(self, at: &At<RecordCodec>, place: &mut Place, steps: u64) -> Result<Told, Error> {
        let told = match stepped(at, place, self, steps) {
            Ok(told) => told,
            Err(error) => Fails(error.number()),
        };
        place.client.view = left(place.client.view, self, told);
        Ok(told)
    }
}
