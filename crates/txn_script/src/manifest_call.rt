//! The calls of a script of manifests, and how one is read.

ghost use Rattle.std.specs.Prelude.{◌≡◌, IfSome, Some};
ghost use Rattle.txn_script.specs.ManifestCalls.{own_text, manifest_call_text, OwnFits, ManifestCallFits, event_of, as_manifests};
ghost use Rattle.txn_script.specs.ManifestCallLaws.{manifest_call_utf8};
ghost use Rattle.txn_history.specs.declared.event.EventOf.{EventOf};
ghost use Rattle.txn_script.specs.declared.manifest_call.OwnCall.{OwnCall};

use std::alloc::{AllocError, Global};
use txn_history::event::{Call, Event, EventOf};
use txn_manifest::event::ManifestEvent;
use txn_manifest::manifest::Manifest;
use txn_script_lines::numerals::{read_decimal, read_pair};
use txn_script_lines::text_form::TextForm;

/// What a client asks for that only manifests have. The first number is that of its view.
#[derive(Clone, Copy, Debug, PartialEq, Eq)]
pub enum OwnCall {
    /// Pins the view's id: `checkpoint W`.
    Checkpoint(u64),
    /// Lets the pinned id go, the second number: `release W ID`.
    Release(u64, u64),
    /// Sets the payload, the second number: `payload W P`.
    SetPayload(u64, u64),
    /// Advances the boundary to the id before the view's: `fence W`.
    Fence(u64),
    /// Deletes the version of the id, the second number: `sweep W ID`.
    Sweep(u64, u64),
}

/// What a client asks for in a script of manifests.
#[derive(Debug, Drop)]
pub enum ManifestCall {
    /// A call as any world has it.
    Any(Call<Manifest>),
    /// A call that only manifests have.
    Own(OwnCall),
}

/// The call of manifests that words say.
fn read_own(text: &str) -> Option<OwnCall>
    ensures fits { IfSome result OwnFits }
    ensures reads { IfSome result (λ call. text.now ≡ own_text call) }
    ensures all { (call : OwnCall) → OwnFits call → text.now ≡ own_text call → result ≡ Some call }
{
    let (word, rest) = text.split_once(' ')?;
    match word {
        "checkpoint" => Some(OwnCall::Checkpoint(read_decimal(rest)?)),
        "release" => {
            let (view, id) = read_pair(rest)?;
            Some(OwnCall::Release(view, id))
        }
        "payload" => {
            let (view, payload) = read_pair(rest)?;
            Some(OwnCall::SetPayload(view, payload))
        }
        "fence" => Some(OwnCall::Fence(read_decimal(rest)?)),
        "sweep" => {
            let (view, id) = read_pair(rest)?;
            Some(OwnCall::Sweep(view, id))
        }
        _ => None,
    }
}

/// A manifest in it has as many pins as there is memory for, so its text has no bound.
impl TextForm for ManifestCall {
    ghost text = { manifest_call_text };

    ghost fits = { ManifestCallFits };

    ghost is_utf8 = { manifest_call_utf8 };

    fn read_text(alloc: Global, words: &str) -> Result<Option<ManifestCall>, AllocError> {
        if let Some(call) = read_own(words) {
            return Ok(Some(ManifestCall::Own(call)));
        }
        let read: Option<Call<Manifest>> = TextForm::read_text(alloc, words)?;
        match read {
            Some(call) => Ok(Some(ManifestCall::Any(call))),
            None => Ok(None),
        }
    }

    fn most_bytes() -> Option<usize> {
        None
    }
}

/// The event of manifests that a call of a client is.
fn begin_of(client: u64, call: ManifestCall) -> ManifestEvent
    ensures { result ≡ event_of (EventOf.Begin client call) }
{
    match call {
        ManifestCall::Any(call) => ManifestEvent::World(Event::Begin(client, call)),
        ManifestCall::Own(OwnCall::Checkpoint(view)) => ManifestEvent::Checkpoint(client, view),
        ManifestCall::Own(OwnCall::Release(view, id)) => ManifestEvent::Release(client, view, id),
        ManifestCall::Own(OwnCall::SetPayload(view, payload)) => {
            ManifestEvent::SetPayload(client, view, payload)
        }
        ManifestCall::Own(OwnCall::Fence(view)) => ManifestEvent::Fence(client, view),
        ManifestCall::Own(OwnCall::Sweep(view, id)) => ManifestEvent::Sweep(client, view, id),
    }
}

/// The event of manifests that a line's event is.
pub fn event_of(event: EventOf<ManifestCall>) -> ManifestEvent
    ensures { result ≡ event_of event }
{
    match event {
        EventOf::Begin(client, call) => begin_of(client, call),
        EventOf::Look(op) => ManifestEvent::World(Event::Look(op)),
        EventOf::Serve(op) => ManifestEvent::World(Event::Serve(op)),
        EventOf::Fail(op, failure) => ManifestEvent::World(Event::Fail(op, failure)),
        EventOf::GiveUp(op) => ManifestEvent::World(Event::GiveUp(op)),
        EventOf::Land(loose) => ManifestEvent::World(Event::Land(loose)),
        EventOf::Crash(client) => ManifestEvent::World(Event::Crash(client)),
    }
}

/// An event of the world, as a line's.
pub fn as_manifests(event: Event<Manifest>) -> EventOf<ManifestCall>
    ensures { result ≡ as_manifests event }
{
    match event {
        Event::Begin(client, call) => EventOf::Begin(client, ManifestCall::Any(call)),
        Event::Look(op) => EventOf::Look(op),
        Event::Serve(op) => EventOf::Serve(op),
        Event::Fail(op, failure) => EventOf::Fail(op, failure),
        Event::GiveUp(op) => EventOf::GiveUp(op),
        Event::Land(loose) => EventOf::Land(loose),
        Event::Crash(client) => EventOf::Crash(client),
    }
}
