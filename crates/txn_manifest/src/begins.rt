//! The begins of manifests: which event of the world each is.
ghost use Rattle.std.specs.Prelude.{◌≡◌, IfOk, Some};
ghost use Rattle.txn_manifest.specs.declared.event.ManifestEvent.TheVariants.{Checkpoint, Release, SetPayload};
ghost use Rattle.txn_manifest.specs.Events.{is_manifest_call, update_call, event_by};
ghost use Rattle.txn_manifest.specs.Manifest.{with_pins};

use crate::manifest::Manifest;
use crate::pins::Pins;
use std::alloc::{AllocError, Global};
use txn_history::event::{Call, Event, PlainCall, ViewCall};
use txn_history::view::View;

/// Whether the begin of a call is of manifests.
pub(crate) fn is_manifest_call(call: &Call<Manifest>) -> bool
    ensures { result ≡ is_manifest_call call.now }
{
    match call {
        Call::Plain(PlainCall::Write(..)) => false,
        Call::Plain(PlainCall::WriteUnchecked(..)) => false,
        Call::Plain(PlainCall::Delete(_)) => false,
        Call::Plain(PlainCall::Advance(_)) => false,
        Call::View(ViewCall::Init(value)) => value.pins.is_empty(),
        Call::View(ViewCall::Update(..)) => false,
        Call::View(ViewCall::HolderUpdate(..)) => false,
        _ => true,
    }
}

/// An update of a view by a value, or of a holder, whichever it is.
pub(crate) fn update(view: &View<Manifest>, number: u64, value: Manifest) -> Call<Manifest>
    ensures { result ≡ update_call view.now number value }
{
    if view.epoch.is_some() {
        Call::View(ViewCall::HolderUpdate(number, value))
    } else {
        Call::View(ViewCall::Update(number, value))
    }
}

/// A view's object with other pins.
pub(crate) fn with_pins(view: &View<Manifest>, pins: Pins) -> Manifest
    ensures { result ≡ with_pins view.now.object pins }
{
    Manifest {
        epoch: view.object.epoch,
        payload: view.object.payload,
        pins,
    }
}

/// The begin of a checkpoint of this view.
pub(crate) fn checkpoint(
    alloc: Global,
    view: &View<Manifest>,
    client: u64,
    number: u64,
) -> Result<Event<Manifest>, AllocError>
    ensures { IfOk result (λ event. event_by (Some view.now) (Checkpoint client number) ≡ Some event) }
{
    let pins = view.object.pins.with(alloc, view.id)?;
    let value = with_pins(view, pins);
    Ok(Event::Begin(client, update(view, number, value)))
}

/// The begin of a release of this view.
pub(crate) fn release(
    alloc: Global,
    view: &View<Manifest>,
    client: u64,
    number: u64,
    id: u64,
) -> Result<Event<Manifest>, AllocError>
    ensures { IfOk result (λ event. event_by (Some view.now) (Release client number id) ≡ Some event) }
{
    let pins = view.object.pins.without(alloc, id)?;
    let value = with_pins(view, pins);
    Ok(Event::Begin(client, update(view, number, value)))
}

/// The begin that sets the payload of this view.
pub(crate) fn set_payload(
    view: &View<Manifest>,
    client: u64,
    number: u64,
    payload: u64,
) -> Result<Event<Manifest>, AllocError>
    ensures { IfOk result (λ event. event_by (Some view.now) (SetPayload client number payload) ≡ Some event) }
{
    let value = Manifest {
        epoch: view.object.epoch,
        payload,
        pins: view.object.pins.clone()?,
    };
    Ok(Event::Begin(client, update(view, number, value)))
}
