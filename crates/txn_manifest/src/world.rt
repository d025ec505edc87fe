//! Clients over one store of manifests, one event at a time.
ghost use Rattle.std.specs.Prelude.{◌≡◌, ◌≤◌, ℕ, [], true, nat_eq, Some, IfOk, OnErr};
ghost use Rattle.std.specs.Option.{option_copied};
ghost use Rattle.txn_machine.specs.Machine.{opening, seen_of};
ghost use Rattle.std.specs.List.{list_any};
ghost use Rattle.txn_history.specs.Allowed.{fault_of};
ghost use Rattle.txn_history.specs.History.{newest, IsEntry};
ghost use Rattle.txn_history.specs.declared.event.EventOf.TheVariants as events;
ghost use Rattle.txn_manifest.specs.declared.manifest.Manifest.{Manifest};
ghost use Rattle.txn_manifest.specs.declared.event.ManifestEvent.TheVariants.{Checkpoint, Release, SetPayload, Fence, Sweep};
ghost use Rattle.txn_manifest.specs.declared.event.ManifestEvent.TheVariants as made;
ghost use Rattle.txn_manifest.specs.Text.{manifest_text, manifest_read};
ghost use Rattle.txn_manifest.specs.Events.{manifest_fault, manifest_fault_met, update_call};
ghost use Rattle.txn_manifest.specs.Manifest.{epoch_of};
ghost use Rattle.txn_manifest.specs.Runs.{ManifestTakes, IsMadeAs, IsOwnView};
ghost use Rattle.txn_manifest.specs.Laws.{PinsAreOlder, PinnedAreKept, IsKept};

use crate::begins::{checkpoint, is_manifest_call, release, set_payload, update, with_pins};
use crate::event::{ManifestEvent, ManifestFault};
use crate::manifest::{Manifest, ManifestCodec, ManifestEpoch};
use crate::pins::Pins;
use std::alloc::{AllocError, Global};
use std::marker::Model;
use txn_history::event::{Call, Event, EventFault, PlainCall, Told};
use txn_history::view::View;
use txn_world::world::World;

/// The world of manifests below.
type Manifests = World<Manifest, ManifestCodec, ManifestEpoch>;

/// The event of the world that one of manifests is, or why there is none.
type Made = Result<Event<Manifest>, ManifestFault>;

/// The client's view of this number, where it is there.
fn own_view(world: &Manifests, client: u64, number: u64) -> Option<&View<Manifest>>
    ensures { IsOwnView world.now.state client number (option_copied result) }
{
    match world.view(number) {
        Some(view) if view.client == client => Some(view),
        _ => None,
    }
}

/// An event of the world, unless it is the begin of a call that is not of manifests.
fn make_plain(world: &Manifests, event: Event<Manifest>) -> Made
    ensures { IsMadeAs manifest_read world.now.state (made.World event) result }
{
    if let Event::Begin(_, call) = &event {
        if !is_manifest_call(call) {
            return Err(ManifestFault::NotOfManifest);
        }
    }
    Ok(event)
}

/// Why the client's update of this view would be refused, where it would, by any object of the same epoch.
fn update_refusal(
    alloc: Global,
    world: &Manifests,
    view: &View<Manifest>,
    client: u64,
    number: u64,
) -> Option<EventFault>
    ensures { (value : Manifest) → value.epoch ≡ view.now.object.epoch → result ≡ fault_of manifest_read epoch_of (seen_of world.now.state) world.now.state.trace (events.Begin client (update_call view.now number value)) }
{
    let event = Event::Begin(
        client,
        update(view, number, with_pins(view, Pins::none(alloc))),
    );
    let fault = world.refusal(&event);
    // By a call: in place, the proof would follow each call that may be dropped here.
    drop(event);
    fault
}

fn make_checkpoint(alloc: Global, world: &Manifests, client: u64, number: u64) -> Made
    ensures { IsMadeAs manifest_read world.now.state (Checkpoint client number) result }
{
    let Some(view) = own_view(world, client, number) else {
        return Err(ManifestFault::World(EventFault::UnknownNumber));
    };
    if let Some(fault) = update_refusal(alloc, world, view, client, number) {
        return Err(ManifestFault::World(fault));
    }
    match checkpoint(alloc, view, client, number) {
        Ok(event) => Ok(event),
        Err(_) => Err(ManifestFault::World(EventFault::NoMemory)),
    }
}

fn make_release(alloc: Global, world: &Manifests, client: u64, number: u64, id: u64) -> Made
    ensures { IsMadeAs manifest_read world.now.state (Release client number id) result }
{
    let Some(view) = own_view(world, client, number) else {
        return Err(ManifestFault::World(EventFault::UnknownNumber));
    };
    let pinned = view.object.pins.contains(id);
    if !pinned && !world.is_busy(number) {
        return Err(ManifestFault::NotPinned);
    }
    if let Some(fault) = update_refusal(alloc, world, view, client, number) {
        return Err(ManifestFault::World(fault));
    }
    match release(alloc, view, client, number, id) {
        Ok(event) => Ok(event),
        Err(_) => Err(ManifestFault::World(EventFault::NoMemory)),
    }
}

fn make_payload(alloc: Global, world: &Manifests, client: u64, number: u64, payload: u64) -> Made
    ensures { IsMadeAs manifest_read world.now.state (SetPayload client number payload) result }
{
    let Some(view) = own_view(world, client, number) else {
        return Err(ManifestFault::World(EventFault::UnknownNumber));
    };
    if let Some(fault) = update_refusal(alloc, world, view, client, number) {
        return Err(ManifestFault::World(fault));
    }
    match set_payload(view, client, number, payload) {
        Ok(event) => Ok(event),
        Err(_) => Err(ManifestFault::World(EventFault::NoMemory)),
    }
}

fn make_fence(world: &Manifests, client: u64, number: u64) -> Made
    ensures { IsMadeAs manifest_read world.now.state (Fence client number) result }
{
    let Some(view) = own_view(world, client, number) else {
        return Err(ManifestFault::World(EventFault::UnknownNumber));
    };
    let to = view.id.saturating_sub(1);
    Ok(Event::Begin(client, Call::Plain(PlainCall::Advance(to))))
}

fn make_sweep(world: &Manifests, client: u64, number: u64, id: u64) -> Made
    ensures { IsMadeAs manifest_read world.now.state (Sweep client number id) result }
{
    let Some(view) = own_view(world, client, number) else {
        return Err(ManifestFault::World(EventFault::UnknownNumber));
    };
    if id >= view.id || view.object.pins.contains(id) {
        return Err(ManifestFault::Needed);
    }
    Ok(Event::Begin(client, Call::Plain(PlainCall::Delete(id))))
}

/// The event of the world that an event of manifests is.
fn make(alloc: Global, world: &Manifests, event: ManifestEvent) -> Made
    ensures { IsMadeAs manifest_read world.now.state event result }
{
    match event {
        ManifestEvent::World(event) => make_plain(world, event),
        ManifestEvent::Checkpoint(client, number) => make_checkpoint(alloc, world, client, number),
        ManifestEvent::Release(client, number, id) => make_release(
            alloc, world, client, number, id,
        ),
        ManifestEvent::SetPayload(client, number, payload) => {
            make_payload(alloc, world, client, number, payload)
        }
        ManifestEvent::Fence(client, number) => make_fence(world, client, number),
        ManifestEvent::Sweep(client, number, id) => make_sweep(world, client, number, id),
    }
}

/// A world of manifests, in which the newest manifest says which old versions are still needed. Its type keeps that only
/// events of manifests led to it.
#[derive(Drop)]
pub struct ManifestWorld {
    world: World<Manifest, ManifestCodec, ManifestEpoch>,
    alloc: Global,
}

impl Model for ManifestWorld {
    ghost use Rattle.txn_machine.specs.Machine.{WorldState};
    ghost use Rattle.txn_manifest.specs.declared.manifest.Manifest.{Manifest};
    ghost use Rattle.txn_manifest.specs.declared.manifest.ManifestCodec.{ManifestCodec};
    ghost use Rattle.txn_manifest.specs.declared.manifest.ManifestEpoch.{ManifestEpoch};

    ghost Value = { WorldState Manifest ManifestCodec ManifestEpoch };

    ghost use Rattle.std.specs.Coded.{codes};
    ghost use Rattle.txn_store.specs.Memory.{files_code};

    ghost coded = { Prim.hlevel (codes, files_code) };

    ghost use Rattle.txn_manifest.specs.Text.{manifest_text, manifest_read};
    ghost use Rattle.txn_manifest.specs.Runs.{IsManifestReached};

    ghost view = { λ kept. kept.world };

    ghost invariant = { λ kept. IsManifestReached manifest_text manifest_read kept.world.state };
}

impl ManifestWorld {
    /// A world of manifests in which nothing has happened, with clients 1 to `clients`, of which there are 1 to 64. A listing
    /// has pages of at most `page` files, at least 1.
    ///
    /// # Errors
    ///
    /// Want of memory alone. There is no world then.
    pub fn new(alloc: Global, clients: u64, page: u64) -> Result<ManifestWorld, AllocError>
        requires some { 1 ≤ clients }
        requires few { clients ≤ 64 }
        requires paged { 1 ≤ page }
        ensures { IfOk result (λ made. made.state ≡ opening clients page) }
    {
        Ok(ManifestWorld {
            world: World::new(alloc, ManifestCodec, ManifestEpoch, clients, page)?,
            alloc,
        })
    }

    /// Takes one event of manifests, and tells what it led to.
    ///
    /// # Errors
    ///
    /// An event is refused exactly where the rows and what stands beside them say so, by the first of these tests that fails,
    /// and then changes nothing: it is of manifests ([`ManifestFault::NotOfManifest`]); the view is there and is the client's
    /// (`UnknownNumber`); no operation uses a view that is updated (`ViewBusy`); the id of a release is pinned
    /// ([`ManifestFault::NotPinned`]); the id of a sweep is below that of the view and not pinned ([`ManifestFault::Needed`]);
    /// and then those of the world. `NoMemory` comes only where a growth was refused, and where no other fault is due.
    pub fn take(&mut self, event: ManifestEvent) -> Result<Told<Manifest>, ManifestFault>
        ensures refused { manifest_fault_met result ≡ manifest_fault manifest_read (seen_of self.old.state) self.old.state.trace event }
        ensures err { OnErr result (self.new ≡ self.old) }
        // The step, by that of the world.
        ensures ok { IfOk result (λ told. ManifestTakes manifest_text manifest_read self.old.state event told self.new.state) }
    {
        let made = make(self.alloc, &self.world, event)?;
        match self.world.take(made) {
            Ok(told) => Ok(told),
            Err(fault) => Err(ManifestFault::World(fault)),
        }
    }

    /// The world, lent. Whatever events of manifests came, the pins of each entry are among those of the entry before and
    /// that entry's id, and each id that the newest entry pins is stored with bytes that decode to its entry. It takes no
    /// memory.
    pub fn world(&self) -> &World<Manifest, ManifestCodec, ManifestEpoch>
        ensures world { result.now ≡ self.now }
        ensures pins_older { PinsAreOlder manifest_read self.now.state.trace }
        ensures pinned_kept { PinnedAreKept manifest_read self.now.state.trace }
    {
        &self.world
    }

    /// The ids that the newest manifest pins, each of which is stored; none where there is no manifest. It goes over the rows
    /// once.
    ///
    /// # Errors
    ///
    /// Want of memory alone. The world is as it was.
    pub fn pinned(&self, alloc: Global) -> Result<Pins, AllocError>
        ensures none { IfOk result (λ pins. newest self.now.state.trace ≡ 0 → pins ≡ []) }
        ensures newest { IfOk result (λ pins. (entry : Manifest) → IsEntry manifest_read self.now.state.trace (newest self.now.state.trace) entry → pins ≡ entry.pins) }
        // Each is stored, with bytes that decode to its entry.
        ensures kept { IfOk result (λ pins. (id : ℕ) → list_any (nat_eq id) pins ≡ true → IsKept manifest_read self.now.state.trace id) }
    {
        let mut entries = self.world.entries(alloc)?;
        match entries.pop() {
            Some(entry) => Ok(entry.pins),
            None => Ok(Pins::none(alloc)),
        }
    }
}
