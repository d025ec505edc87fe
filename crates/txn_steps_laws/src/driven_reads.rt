//! The laws of reads that run alone.
ghost use Rattle.std.specs.Prelude.{◌≡◌, ℕ, ◌^◌, ◌<◌, ◌≤◌, Option, IfSome, Result};
ghost use Rattle.txn_store.specs.declared.types.error.TransactionalObjectError.{TransactionalObjectError};
ghost use Rattle.txn_steps.specs.boundary.Windows.{Ascends, greatest_held};
ghost use Rattle.txn_steps.specs.declared.latest.LatestOp.{LatestOp};
ghost use Rattle.txn_steps.specs.declared.latest.LatestOp.TheVariants as latest;
ghost use Rattle.txn_steps.specs.declared.read.ReadOp.{ReadOp};
ghost use Rattle.txn_steps.specs.declared.seen.ReadSeenOp.{ReadSeenOp};
ghost use Rattle.txn_steps.specs.declared.seen.ReadSeenOp.TheVariants as seen;
ghost use Rattle.txn_steps.specs.Reads.{read_started};
ghost use Rattle.txn_steps.specs.Requests.{version_got};
ghost use Rattle.txn_steps_driven.specs.declared.drive_version.ReadVersion.{ReadVersion};
ghost use Rattle.txn_steps_driven.specs.DriveRuns.{Scene, Drives};
ghost use Rattle.txn_steps_driven.specs.DriveSteps.{ReadVersionSteps, SeenSteps, LatestSteps, ReadSteps};
ghost use Rattle.txn_steps_laws.specs.DrivenReads.{UncheckedReadDriven, SeenDriven, LatestDriven, ReadDriven};

use txn_store::types::codec::ObjectCodec;
use txn_store::types::layout::Layout;

/// The law of an unchecked read of one id that runs alone from its start: it answers and leaves what `read_version` does, in
/// one step. An id is a number of 64 bits.
pub fn unchecked_read_driven<T, C: ObjectCodec<T>>(_layout: &Layout<C>)
    ensures { (id steps : ℕ) (a b : Scene (ReadVersion T)) (answer : Option (Result (Option T) TransactionalObjectError)) → id < 2 ^ 64 → a.op.op ≡ record { request = version_got _layout.now.names id } → Drives (ReadVersionSteps (C.decoded _layout.now.codec)) steps a answer b → UncheckedReadDriven _layout.now.names (C.decoded _layout.now.codec) id steps a answer b }
{}

/// The law of a read of one id that runs alone from its start: it answers and leaves what `read_seen` does, and three steps
/// are enough. An id is a number of 64 bits.
pub fn seen_driven<T: Drop, C: ObjectCodec<T>>(_layout: &Layout<C>)
    ensures { (id steps : ℕ) (a b : Scene (ReadSeenOp T)) (answer : Option (Result (Option T) TransactionalObjectError)) → id < 2 ^ 64 → a.op ≡ seen.Looks id → Drives (SeenSteps _layout.now.names (C.decoded _layout.now.codec)) steps a answer b → SeenDriven _layout.now.names (C.decoded _layout.now.codec) id steps a answer b }
{}

/// The law of an unchecked read that runs alone from its start: it answers and leaves what `read_latest` does with as many
/// turns as it takes, so it never lacks one. Fifteen steps and one for each page are enough. What is held has ascending ids
/// of 64 bits, as each window's are, and a page has room for one file at least.
pub fn latest_driven<T: Drop, C: ObjectCodec<T>>(_layout: &Layout<C>)
    requires { 1 ≤ _layout.now.page }
    ensures { (steps : ℕ) (a b : Scene (LatestOp T)) (answer : Option (Result (Option (ℕ × T)) TransactionalObjectError)) → Ascends a.caches.latest → IfSome (greatest_held a.caches.latest) (λ version. version.id < 2 ^ 64) → a.op ≡ latest.Looks → Drives (LatestSteps _layout.now.names _layout.now.page (C.decoded _layout.now.codec)) steps a answer b → LatestDriven _layout.now.names (C.decoded _layout.now.codec) _layout.now.page steps a answer b }
{}

/// The law of a read of the newest version that runs alone from its start. Where files, held versions and the cached boundary
/// stood for a history and a boundary, it answers the newest version, or none where there is no entry, they stand for them
/// afterwards, also after an error, and 40 steps and two for each page are enough: a version that is refused leaves nothing
/// held, and the second pass finds the newest. An error is the store's there, or want of memory. On any files it leaves those
/// as they were, and what it answers is held then, and above the boundary.
/// What is held has ascending ids of 64 bits, as each window's are, and a page has room for one file at least.
pub fn read_driven<T: Drop, C: ObjectCodec<T>>(_layout: &Layout<C>)
    requires { 1 ≤ _layout.now.page }
    ensures { (steps : ℕ) (a b : Scene (ReadOp T)) (answer : Option (Result (Option (ℕ × T)) TransactionalObjectError)) → Ascends a.caches.latest → IfSome (greatest_held a.caches.latest) (λ version. version.id < 2 ^ 64) → a.op ≡ read_started _layout.now.boundary → Drives (ReadSteps _layout.now.names _layout.now.boundary _layout.now.page (C.decoded _layout.now.codec)) steps a answer b → ReadDriven _layout.now.names (C.decoded _layout.now.codec) _layout.now.boundary _layout.now.page steps a answer b }
{}
