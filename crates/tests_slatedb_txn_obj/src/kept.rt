//! A holder that pins its version, goes on, and collects.
ghost use Rattle.std.specs.Prelude.{◌≡◌, ℕ, List, IfOk, OnOk};
ghost use Rattle.slatedb_txn_obj.specs.Views.{IsVersion};
ghost use Rattle.txn_manifest.specs.declared.manifest.Manifest.{Manifest};
ghost use Rattle.txn_history.specs.Trace.{Row};
ghost use Rattle.txn_manifest.specs.Stores.{StandsBy};
ghost use Rattle.txn_manifest.specs.Tells.{TellsStore, TellsHolder, TellsBoth};
ghost use Rattle.txn_manifest.specs.Text.{manifest_read};
ghost use Rattle.tests_slatedb_txn_obj.specs.Kept.{LeavesPinned};

use slatedb_txn_obj::{Invariant, TransactionalObjectError, Turns};
use txn_manifest::collector::Versions;
use txn_manifest::manifest::Manifest;
use txn_manifest::store::ManifestStore;
use txn_store::store::ObjectStore;

/// Pins the version that the holder is at, enters another payload, and collects; and answers the id that it pinned. Where the
/// store stood, the version that it was at is stored then with its bytes, and so are those that it had pinned before, as long
/// as they were; the newest is the second after it, and below that no other is stored.
pub fn pin_and_collect<I: Invariant<Manifest> + Drop, S: ObjectStore>(
    manifests: &mut ManifestStore<I>,
    protocol: &mut Versions,
    store: &mut S,
    turns: &mut Turns,
    payload: u64,
) -> Result<u64, TransactionalObjectError>
    ensures id { IfOk result (λ id. id ≡ manifests.old.holder.delegate.id) }
    ensures told { (number : ℕ) (rows : List (Row Manifest)) → TellsStore protocol.old (S.state store.old) rows → TellsHolder manifest_read rows number manifests.old.holder.delegate.id manifests.old.holder.local_epoch manifests.old.holder.delegate.object → TellsBoth protocol.new (S.state store.new) rows number manifests.new.holder.delegate.id manifests.new.holder.local_epoch manifests.new.holder.delegate.object }
    ensures left { OnOk result ((h : List Manifest) (b : ℕ) → StandsBy protocol.old (S.state store.old) h b → IsVersion h manifests.old.holder.delegate.id manifests.old.holder.delegate.object → LeavesPinned protocol.old.layout.names manifests.old.holder.delegate.id manifests.old.holder.delegate.object payload (S.state store.old).files (S.state store.new).files) }
{
    let kept = manifests.checkpoint(protocol, store)?;
    manifests.set_payload(protocol, store, payload)?;
    manifests.collect(protocol, store, turns)?;
    Ok(kept)
}
