//! A manifest store over a store in memory.
use crate::kept::pin_and_collect;
use slatedb_txn_obj::object_store::ObjectStoreSequencedStorageProtocol;
use slatedb_txn_obj::{
    FenceableTransactionalObject, IdentifiedObjectMetadata, MonotonicId, NoInvariant,
    SequencedStorageProtocol, SimpleTransactionalObject, TransactionalObject,
    TransactionalObjectError, Turns,
};
use slatedb_txn_obj_uses::ticking::TickingClock;
use std::alloc::{AllocError, Global};
use std::ops::Bound;
use std::test::Fail;
use txn_manifest::collector::Versions;
use txn_manifest::manifest::{Manifest, ManifestCodec, ManifestEpoch};
use txn_manifest::pins::Pins;
use txn_manifest::store::ManifestStore;
use txn_store::in_memory::InMemory;
use txn_store::path::{Path, PathFault};

type Manifests = ManifestStore<NoInvariant>;

type Error = TransactionalObjectError;

fn a_protocol(alloc: Global) -> Result<Versions, PathFault> {
    let root = Path::from_text(alloc, "/root")?;
    ObjectStoreSequencedStorageProtocol::new(alloc, &root, "test", "val", ManifestCodec)
}

/// A view of the first manifest of a store.
fn a_view(
    alloc: Global,
    protocol: &mut Versions,
    store: &mut InMemory,
) -> Result<SimpleTransactionalObject<Manifest, MonotonicId, NoInvariant>, Error> {
    let first = Manifest {
        epoch: 0,
        payload: 1,
        pins: Pins::none(alloc),
    };
    SimpleTransactionalObject::init(alloc, protocol, store, first)
}

/// A claimed store of manifests: the claim has entered the second version.
fn opened(
    alloc: Global,
    protocol: &mut Versions,
    store: &mut InMemory,
) -> Result<Manifests, Error> {
    let view = a_view(alloc, protocol, store)?;
    let mut turns = Turns::new(100);
    let mut clock = TickingClock::new();
    let epochs = ManifestEpoch;
    let holder = FenceableTransactionalObject::init(
        view, protocol, store, &mut turns, 100, &mut clock, epochs,
    )?;
    Ok(ManifestStore::new(alloc, holder))
}

/// What is asked of a manifest store.
#[derive(Clone, Copy)]
enum Asked {
    Checkpoint,
    Release(u64),
    Payload(u64),
    Collect,
}

use Asked::{Checkpoint, Collect, Payload, Release};

const ASKED: [Asked; 7] = [
    Checkpoint,
    Payload(5),
    Collect,
    Collect,
    Release(3),
    Release(2),
    Collect,
];

/// What each answers, an error by its number, and the versions that are stored then.
const ANSWERED: &str = "\
Ok(2) [1, 2, 3]
Ok(0) [1, 2, 3, 4]
Ok(2) [2, 4]
Ok(0) [2, 4]
Err(7) [2, 4]
Ok(0) [2, 4, 5]
Ok(2) [5]
5 Manifest { epoch: 1, payload: 5, pins: Pins { ids: [] } }
";

/// An answer, with the number of an error.
fn numbered(answer: Result<u64, Error>) -> Result<u64, u8> {
    match answer {
        Ok(value) => Ok(value),
        Err(error) => Err(error.number()),
    }
}

/// The same of an answer without a value, as 0.
fn done(answer: Result<(), Error>) -> Result<u64, u8> {
    match answer {
        Ok(()) => Ok(0),
        Err(error) => Err(error.number()),
    }
}

/// What a manifest store answers.
fn answer(
    manifests: &mut Manifests,
    protocol: &mut Versions,
    store: &mut InMemory,
    asked: Asked,
) -> Result<u64, u8> {
    match asked {
        Checkpoint => numbered(manifests.checkpoint(protocol, store)),
        Release(id) => done(manifests.release(protocol, store, id)),
        Payload(payload) => done(manifests.set_payload(protocol, store, payload)),
        Collect => numbered(manifests.collect(protocol, store, &mut Turns::new(20))),
    }
}

/// The ids of versions.
fn ids_of(
    alloc: Global,
    versions: &[IdentifiedObjectMetadata<MonotonicId>],
) -> Result<Vec<u64>, AllocError> {
    let mut ids = Vec::new(alloc);
    for version in versions {
        ids.push(version.id.id())?;
    }
    Ok(ids)
}

/// The ids of the stored versions.
fn stored(alloc: Global, protocol: &mut Versions, store: &mut InMemory) -> Result<Vec<u64>, Error> {
    let listed = protocol.list(store, Bound::Unbounded, Bound::Unbounded)?;
    Ok(ids_of(alloc, &listed)?)
}

/// What a manifest store answers and leaves, as a line.
fn line_of(
    alloc: Global,
    manifests: &mut Manifests,
    protocol: &mut Versions,
    store: &mut InMemory,
    asked: Asked,
) -> Result<String, Error> {
    let answer = answer(manifests, protocol, store, asked);
    let ids = stored(alloc, protocol, store)?;
    Ok(format!(in alloc; "{answer:?} {ids:?}\n")?)
}

/// The manifest that a store's holder is at, as a line.
fn held(alloc: Global, manifests: &Manifests) -> Result<String, AllocError> {
    let holder = manifests.holder();
    let id = holder.id().id();
    let object = holder.object();
    format!(in alloc; "{id} {object:?}\n")
}

/// What a manifest store answers to all that is asked, and the manifest that its holder is at then.
fn answers(
    alloc: Global,
    manifests: &mut Manifests,
    protocol: &mut Versions,
    store: &mut InMemory,
) -> Result<String, Error> {
    let mut text = String::new(alloc);
    for asked in ASKED {
        let line = line_of(alloc, manifests, protocol, store, asked)?;
        text.push_str(line.as_str())?;
    }
    text.push_str(held(alloc, manifests)?.as_str())?;
    Ok(text)
}

/// The same, of a store that is claimed first.
fn answers_of(
    alloc: Global,
    protocol: &mut Versions,
    store: &mut InMemory,
) -> Result<String, Error> {
    let mut manifests = opened(alloc, protocol, store)?;
    answers(alloc, &mut manifests, protocol, store)
}

/// The same, from nothing; or the number of an error.
fn answers_from_nothing(alloc: Global) -> Result<String, Fail> {
    let mut protocol = a_protocol(alloc)?;
    match answers_of(alloc, &mut protocol, &mut InMemory::new(alloc)) {
        Ok(text) => Ok(text),
        Err(_) => Err("no answers")?,
    }
}

#[test]
fn a_collection_spares_what_is_pinned(rt: HostRuntime) -> Result<(), Fail> {
    let text = answers_from_nothing(rt.alloc())?;
    assert_eq!(rt; text.as_str(), ANSWERED);
    Ok(())
}

/// Whether a version is stored. The read is made once more where it fails.
fn is_stored(protocol: &mut Versions, store: &mut InMemory, id: u64) -> bool {
    for _ in 0..2 {
        if let Ok(found) = protocol.try_read_unchecked(store, MonotonicId::new(id)) {
            return found.is_some();
        }
    }
    false
}

/// Whether every version that a holder pins is stored.
fn keeps_its_pins(manifests: &Manifests, protocol: &mut Versions, store: &mut InMemory) -> bool {
    for id in manifests.holder().object().pins.as_slice() {
        if !is_stored(protocol, store, *id) {
            return false;
        }
    }
    true
}

/// How a run ends, by the id that is pinned or the number of an error, and whether what is pinned is stored then.
type End = (Result<u64, u8>, bool);

/// How a run ends of a store that is claimed first.
fn end_over(alloc: Global, protocol: &mut Versions, store: &mut InMemory) -> End {
    let mut manifests = match opened(alloc, protocol, store) {
        Ok(manifests) => manifests,
        Err(error) => return (Err(error.number()), true),
    };
    let mut turns = Turns::new(20);
    let end = numbered(pin_and_collect(&mut manifests, protocol, store, &mut turns, 5));
    (end, keeps_its_pins(&manifests, protocol, store))
}

/// The same, from nothing.
fn end(alloc: Global) -> End {
    match a_protocol(alloc) {
        Ok(mut protocol) => end_over(alloc, &mut protocol, &mut InMemory::new(alloc)),
        Err(PathFault::NoMemory) => (Err(9), true),
        Err(PathFault::BadSegment) => (Err(0), true),
    }
}

// Run it with each allocation failing in turn.
#[test]
fn what_is_pinned_stays_whichever_growth_is_refused(rt: HostRuntime) -> Result<(), Fail> {
    let mut ended = end(rt.alloc());
    if ended == (Err(9), true) {
        // That growth was refused, and no other is.
        ended = end(rt.alloc());
    }
    assert_eq!(rt; ended, (Ok(2), true));
    Ok(())
}
