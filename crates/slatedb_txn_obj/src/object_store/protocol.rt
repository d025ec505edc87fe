//! The protocol over an object store, a codec and a boundary.
ghost use Rattle.std.specs.Prelude.{◌≡◌, ◌≤◌, ◌↔◌, ◌||◌, ◌++◌, ◌∷◌, [], not, true, None, IfOk, IfErr, IsErrOf};
ghost use Rattle.txn_store.specs.Paths.{is_plain};
ghost use Rattle.txn_store.specs.VersionName.{is_suffix};
ghost use Rattle.txn_store.specs.types.BoundaryText.{boundary_path};

use crate::boundary::BoundaryObject;
use crate::object_store::boundary::ObjectStoreBoundaryObject;
use crate::sequenced::SequencedStorageProtocol;
use std::alloc::Global;
use std::marker::{Model, PhantomData};
use std::ops::Bound;
use txn_steps::boundary::window::Window;
use txn_steps_driven::latest::read_latest;
use txn_steps_driven::listing::list_versions;
use txn_steps_driven::removal::delete_version;
use txn_steps_driven::turns::Turns;
use txn_steps_driven::versions::{number_fits, read_seen, read_version};
use txn_steps_driven::writing::write_version;
use txn_store::path::{Path, PathFault};
use txn_store::store::ObjectStore;
use txn_store::types::codec::ObjectCodec;
use txn_store::types::error::TransactionalObjectError;
use txn_store::types::id::MonotonicId;
use txn_store::types::identified::IdentifiedObjectMetadata;
use txn_store::types::layout::Layout;
use txn_store::types::step_error::widened;

/// Versions of an object as files of a folder, each created by one client, over a boundary. It holds at most eight of the
/// versions that it read or wrote.
pub struct ObjectStoreSequencedStorageProtocol<T, C, B> {
    alloc: Global,
    layout: Layout<C>,
    latest: Window,
    boundary: B,
    of: PhantomData<T>,
}

impl<T, C: Drop, B: Drop> Drop for ObjectStoreSequencedStorageProtocol<T, C, B> {
    /// Drops what the protocol keeps: here, so that no crate above has to prove how each part is dropped.
    fn drop(self) {
        let ObjectStoreSequencedStorageProtocol {
            alloc: _,
            layout: _,
            latest: _,
            boundary: _,
            of: _,
        } = self;
    }
}

impl<T, C, B> Model for ObjectStoreSequencedStorageProtocol<T, C, B> {
    ghost use Rattle.std.specs.Prelude.{◌≤◌};
    ghost use Rattle.slatedb_txn_obj.specs.Whole.{Protocol};

    ghost Value = { Protocol C B };

    ghost view = { λ p. record { layout = p.layout; latest = p.latest; boundary = p.boundary } };

    ghost invariant = { λ p. 1 ≤ p.layout.page };
}

impl<T, C: Drop> ObjectStoreSequencedStorageProtocol<T, C, ObjectStoreBoundaryObject> {
    ghost use Rattle.std.specs.Prelude.{ℕ, ◌^◌, ◌<◌};
    ghost use Rattle.txn_store.specs.VersionName.{version_path};

    /// The same as `new_with_boundary`, over the boundary in the file `<root>/gc/<subdir>.boundary`, of which nothing is
    /// cached. That file is never a version's.
    ///
    /// # Errors
    ///
    /// Those of `new_with_boundary`.
    pub fn new(
        alloc: Global,
        root: &Path,
        subdir: &str,
        file_suffix: &str,
        codec: C,
    ) -> Result<ObjectStoreSequencedStorageProtocol<T, C, ObjectStoreBoundaryObject>, PathFault>
        ensures layout { IfOk result (λ p. p.layout ≡ record { names = record { dir = root.now ++ subdir.now ∷ []; suffix = file_suffix.now }; boundary = boundary_path root.now subdir.now; codec = codec; page = 1000 }) }
        ensures latest { IfOk result (λ p. p.latest ≡ []) }
        ensures boundary { IfOk result (λ p. (p.boundary.path ≡ boundary_path root.now subdir.now) × (p.boundary.cached ≡ None)) }
        ensures apart { IfOk result (λ p. (n : ℕ) → n < 2 ^ 64 → version_path p.layout.names n ≡ p.boundary.path → ⊥) }
        ensures bad_segment { IsErrOf result PathFault.BadSegment ↔ ((not (is_plain subdir.now) || not (is_suffix file_suffix.now)) ≡ true) }
    {
        ObjectStoreSequencedStorageProtocol::of_layout(
            alloc,
            Layout::new(alloc, root, subdir, file_suffix, codec)?,
        )
    }

    /// The same, where this is the layout.
    fn of_layout(
        alloc: Global,
        layout: Layout<C>,
    ) -> Result<ObjectStoreSequencedStorageProtocol<T, C, ObjectStoreBoundaryObject>, PathFault>
        requires { 1 ≤ layout.page }
        ensures layout { IfOk result (λ p. p.layout ≡ layout) }
        ensures latest { IfOk result (λ p. p.latest ≡ []) }
        ensures boundary { IfOk result (λ p. (p.boundary.path ≡ layout.boundary) × (p.boundary.cached ≡ None)) }
        ensures no_memory { IfErr result (λ fault. fault ≡ PathFault.NoMemory) }
    {
        let path = layout.boundary.try_clone()?;
        Ok(ObjectStoreSequencedStorageProtocol {
            alloc,
            layout,
            latest: Window::new(),
            boundary: ObjectStoreBoundaryObject {
                alloc,
                path,
                cached: None,
            },
            of: PhantomData,
        })
    }
}

impl<T, C: Drop, B: Drop> ObjectStoreSequencedStorageProtocol<T, C, B> {
    /// The versions are the files of the folder `subdir` below the root, under this suffix, and this is their boundary. No
    /// version is held, and a page of a listing has 1,000 files. No call of a store is made.
    ///
    /// # Errors
    ///
    /// `BadSegment` exactly where the folder's name or the suffix is not as it has to be: a plain segment, and for the suffix
    /// one without a dot. `NoMemory` where a growth was refused.
    pub fn new_with_boundary(
        alloc: Global,
        root: &Path,
        subdir: &str,
        file_suffix: &str,
        codec: C,
        boundary: B,
    ) -> Result<ObjectStoreSequencedStorageProtocol<T, C, B>, PathFault>
        ensures ok { IfOk result (λ p. p ≡ record { layout = record { names = record { dir = root.now ++ subdir.now ∷ []; suffix = file_suffix.now }; boundary = boundary_path root.now subdir.now; codec = codec; page = 1000 }; latest = []; boundary = boundary }) }
        ensures bad_segment { IsErrOf result PathFault.BadSegment ↔ ((not (is_plain subdir.now) || not (is_suffix file_suffix.now)) ≡ true) }
    {
        let layout = Layout::new(alloc, root, subdir, file_suffix, codec)?;
        Ok(ObjectStoreSequencedStorageProtocol {
            alloc,
            layout,
            latest: Window::new(),
            boundary,
            of: PhantomData,
        })
    }

    /// The same, with so many files a page.
    pub fn with_page(mut self, page: u64) -> ObjectStoreSequencedStorageProtocol<T, C, B>
        requires { 1 ≤ page }
        ensures { result ≡ record { layout = record { names = self.layout.names; boundary = self.layout.boundary; codec = self.layout.codec; page = page }; latest = self.latest; boundary = self.boundary } }
    {
        self.layout.page = page;
        self
    }

    /// Its boundary.
    pub fn boundary(&self) -> &B
        ensures { result.now ≡ self.now.boundary }
    {
        &self.boundary
    }
}

impl<T, S: ObjectStore, C, B: BoundaryObject<S>> BoundaryObject<S>
    for ObjectStoreSequencedStorageProtocol<T, C, B> {
    ghost use Rattle.slatedb_txn_obj.specs.Whole.{Checks, Advances};

    ghost bounds = { λ p s b. B.bounds p.boundary s b };

    ghost file = { λ p. B.file p.boundary };

    ghost checks_to = { λ p s id r q t. Checks (B.checks_to p.boundary s id r q.boundary t) id r p q };

    ghost check_calls = { B.check_calls };

    ghost check_calls_few = { B.check_calls_few };

    ghost advances_to = { λ p s id r q t. Advances (B.advances_to p.boundary s id r q.boundary t) id r p q };

    ghost check_file = { λ p q s t id r m. B.check_file p.boundary q.boundary s t id r m.boundary };

    ghost check_frame = { λ p q s t id r m. B.check_frame p.boundary q.boundary s t id r m.boundary };

    ghost check_given = { λ p q s t id token r m. B.check_given p.boundary q.boundary s t id token r m.boundary };

    ghost check_keeps = { λ p q s t id b r m h. B.check_keeps p.boundary q.boundary s t id b r m.boundary h };

    ghost advance_file = { λ p q s t id r m. B.advance_file p.boundary q.boundary s t id r m.boundary };

    ghost advance_frame = { λ p q s t id r m. B.advance_frame p.boundary q.boundary s t id r m.boundary };

    ghost advance_given = { λ p q s t id token r m. B.advance_given p.boundary q.boundary s t id token r m.boundary };

    ghost bounds_frame = { λ p s t b same h. B.bounds_frame p.boundary s t b same h };

    /// As its boundary does. Where that refuses the id, the held versions at or below the id are dropped.
    fn check(&mut self, store: &mut S, id: MonotonicId) -> Result<(), TransactionalObjectError> {
        let result = self.boundary.check(store, id);
        if let Err(TransactionalObjectError::ObjectVersionExists) = &result {
            self.latest.forget_through(id);
        }
        result
    }

    /// As its boundary does. Where that is done, the held versions at or below the id are dropped.
    fn advance(
        &mut self,
        store: &mut S,
        id: MonotonicId,
        turns: &mut Turns,
    ) -> Result<(), TransactionalObjectError> {
        self.boundary.advance(store, id, turns)?;
        self.latest.forget_through(id);
        Ok(())
    }
}

impl<T: Drop, S: ObjectStore, C: ObjectCodec<T>, B: BoundaryObject<S>> SequencedStorageProtocol<
    T,
    S,
> for ObjectStoreSequencedStorageProtocol<T, C, B> {
    ghost use Rattle.std.specs.Prelude.{ℕ, List, [], length, map, true, is_some, ◌≡◌, ◌+◌, ◌^◌, ◌<◌, ◌≤◌, None, Ok, Err, IfOk, IfErr, IfSome, IsErrOf, OnOk};
    ghost use Rattle.txn_steps.specs.boundary.Windows.{held};
    ghost use Rattle.txn_store.specs.declared.types.error.TransactionalObjectError.TheVariants.{ObjectVersionExists};
    ghost use Rattle.txn_steps_driven.specs.Calls.{HasCause, HasCauseOfPut, Spends, SpendsTurns};
    ghost use Rattle.txn_steps_driven.specs.LatestReads.{UpTo, Ended};
    ghost use Rattle.txn_steps_driven.specs.ListRuns.{VersionsListed, AreTold};
    ghost use Rattle.txn_steps_driven.specs.RemovalRuns.{Deleted};
    ghost use Rattle.txn_steps_driven.specs.VersionReads.{SeenRead, VersionRead};
    ghost use Rattle.txn_steps_driven.specs.WriteRuns.{Written};
    ghost use Rattle.txn_steps_driven.specs.PageCount.{pages_below};
    ghost use Rattle.slatedb_txn_obj.specs.Leaves.{SameFiles, MayCreate, MayRemove};
    ghost use Rattle.slatedb_txn_obj.specs.Whole.{Whole, StandsFor, IsGreatestHeld, IsMissing, Laid, Owned, laid, probe_calls};
    ghost use Rattle.slatedb_txn_obj.specs.Protocol.{base_number, LatestOrFenced, IsEntry, AreListed, EntryStands, Overtaken, MayAppend, Stays, IsWarmRead, Unheld, HasCauseOfLatestUnchecked, ReadsVersion};
    ghost use Rattle.slatedb_txn_obj.specs.WholeLaws.{whole-checked, whole-advanced, whole-frame, refused-fresh, pages-checked, laid-same, probe_few};
    ghost use Rattle.std.proofs.Common.{refl, sym, subst, inl, inr};
    ghost use Rattle.txn_store.specs.VersionName.{version_path};
    ghost use Rattle.txn_steps_driven.proofs.Standings.{some_page};

    ghost stands = { λ p s h b. Whole (B.bounds p.boundary s) (B.file p.boundary) p.layout.names (C.decoded p.layout.codec) p.latest (S.state s).files h b };

    ghost Place = { Laid C };

    ghost place = { λ p. laid p (B.file p.boundary) };

    ghost owns = { Owned };

    ghost version_file = { λ at n. version_path at.layout.names n };

    ghost writes_to = { λ p s base value r q t. Written p.layout.names (C.decoded p.layout.codec) base (C.encoded p.layout.codec value) value (S.state s) (S.state t) p.latest q.latest r × (q ≡ record { layout = p.layout; latest = q.latest; boundary = p.boundary }) };

    ghost deletes_to = { λ p s id r q t. Deleted p.layout.names (C.decoded p.layout.codec) id (S.state s) (S.state t) p.latest q.latest r × (q ≡ record { layout = p.layout; latest = q.latest; boundary = p.boundary }) };

    ghost is_fresh = { λ p. p.latest ≡ [] };

    ghost freshens = { λ p id. UpTo id p.latest };

    ghost at_hand = { λ p id. IsGreatestHeld p.latest id };

    ghost has_version = { λ p id. is_some (held id p.latest) ≡ true };

    ghost warm_calls = { λ n. probe_calls n };

    ghost warm_calls_few = { λ n. probe_few n };

    ghost at_hand_checked = { λ p q s t id n checks at. subst (λ latest. IsGreatestHeld latest n) (sym checks.latest_is) at };

    ghost lacks = { λ p s id. IsMissing p.layout.names (S.state s).files id };

    ghost pages = { λ p s. pages_below p.layout.names p.layout.page (S.state s).files };

    ghost stands_bounded = { λ p s h b whole. whole.bounded };

    ghost stands_below = { λ p s h b whole. whole.versions.files_stand.below };

    ghost stands_above = { λ p s h b whole some. whole.versions.files_stand.newest some };

    ghost stands_checked = { λ p q s t id r h b checks whole. whole-checked C.decoded p q (S.state s) (S.state t) h b (B.bounds p.boundary s) (B.bounds q.boundary t) (B.file p.boundary) (B.file q.boundary) (B.checks_to p.boundary s id r q.boundary t) id r
        (B.check_file p.boundary q.boundary s t id r checks.boundary) (B.check_frame p.boundary q.boundary s t id r checks.boundary) (B.check_keeps p.boundary q.boundary s t id b r checks.boundary) checks whole };

    ghost pages_some = { λ p s. some_page p.layout.names p.layout.page (S.state s).files };

    ghost pages_checked = { λ p q s t id r h b checks whole. pages-checked (B.checks_to p.boundary s id r q.boundary t) id r p q (S.state s).files (S.state t).files (B.check_frame p.boundary q.boundary s t id r checks.boundary) checks };

    ghost refused_fresh = { λ p q s t id checks up. refused-fresh (B.checks_to p.boundary s id (Err ObjectVersionExists) q.boundary t) id p q checks up };

    ghost stands_frame = { λ p s t h b same whole. whole-frame C.decoded p (S.state s) (S.state t) h b (B.bounds p.boundary s) (B.bounds p.boundary t) (B.file p.boundary) (λ at bounds. B.bounds_frame p.boundary s t b at bounds) same whole };

    ghost owns_version = { λ at n. inr (n, refl) };

    ghost owns_boundary = { λ p. inl refl };

    ghost place_checked = { λ p q s t id r checks. laid-same p q (B.file p.boundary) (B.file q.boundary) checks.same_layout (B.check_file p.boundary q.boundary s t id r checks.boundary) };

    ghost place_advanced = { λ p q s t id r advances. laid-same p q (B.file p.boundary) (B.file q.boundary) advances.same_layout (B.advance_file p.boundary q.boundary s t id r advances.boundary) };

    ghost stands_advanced = { λ p q s t h id b c r advances whole up newest now. whole-advanced C.decoded p q (S.state s) (S.state t) h b c (B.bounds p.boundary s) (B.bounds q.boundary t) (B.file p.boundary) (B.file q.boundary) (B.advances_to p.boundary s id r q.boundary t) id r
        (B.advance_file p.boundary q.boundary s t id r advances.boundary) (B.advance_frame p.boundary q.boundary s t id r advances.boundary) up newest now advances whole };

    /// Where it answers an id, the name was free, its file holds the value's bytes, and the version is put in the window, as
    /// `Window::keep` does. Every other file is left. A failure of the store leaves the file created or not, and any other error leaves all.
    fn write_unchecked(
        &mut self,
        store: &mut S,
        base: Option<MonotonicId>,
        value: &T,
    ) -> Result<MonotonicId, TransactionalObjectError>
        ensures entered { IfOk result (EntryStands (StandsFor (B.bounds self.old.boundary store.old) (B.file self.old.boundary) C.decoded self.old (S.state store.old).files) (StandsFor (B.bounds self.new.boundary store.new) (B.file self.new.boundary) C.decoded self.new (S.state store.new).files) (base_number (λ n. n) base) value.now) }
        ensures conflict { IsErrOf result TransactionalObjectError.ObjectVersionExists → Overtaken (StandsFor (B.bounds self.old.boundary store.old) (B.file self.old.boundary) C.decoded self.old (S.state store.old).files) (StandsFor (B.bounds self.new.boundary store.new) (B.file self.new.boundary) C.decoded self.new (S.state store.new).files) (base_number (λ n. n) base) }
        ensures err { IfErr result (λ _. MayAppend (StandsFor (B.bounds self.old.boundary store.old) (B.file self.old.boundary) C.decoded self.old (S.state store.old).files) (StandsFor (B.bounds self.new.boundary store.new) (B.file self.new.boundary) C.decoded self.new (S.state store.new).files) (base_number (λ n. n) base) value.now) }
        ensures cause { IfErr result (HasCauseOfPut (base_number (λ n. n) base) (S.state store.old) (S.state store.new)) }
        ensures spends { Spends 1 1 (S.state store.old) (S.state store.new) }
        ensures paged { pages_below self.new.layout.names self.new.layout.page (S.state store.new).files ≤ pages_below self.old.layout.names self.old.layout.page (S.state store.old).files + 1 }
        ensures exact { Written self.old.layout.names (C.decoded self.old.layout.codec) base (C.encoded self.old.layout.codec value.now) value.now (S.state store.old) (S.state store.new) self.old.latest self.new.latest result }
        ensures unmoved { self.new ≡ record { layout = self.old.layout; latest = self.new.latest; boundary = self.old.boundary } }
        ensures placed { laid self.new (B.file self.new.boundary) ≡ laid self.old (B.file self.old.boundary) }
        ensures creates { MayCreate (version_path self.old.layout.names (base_number (λ n. n) base + 1)) (S.state store.old) (S.state store.new) }
        ensures held { IfOk result (λ id. (h : List T) (b : ℕ) → (StandsFor (B.bounds self.old.boundary store.old) (B.file self.old.boundary) C.decoded self.old (S.state store.old).files) h b → length h ≤ base_number (λ n. n) base → IsGreatestHeld self.new.latest id) }
        ensures stood { IsErrOf result TransactionalObjectError.ObjectVersionExists → SameFiles (S.state store.old) (S.state store.new) }
        ensures full { base_number (λ n. n) base + 1 ≡ 2 ^ 64 → IsErrOf result TransactionalObjectError.IdExhausted }
        ensures exhausted { IsErrOf result TransactionalObjectError.IdExhausted → (S.state store.new ≡ S.state store.old) × Stays (StandsFor (B.bounds self.old.boundary store.old) (B.file self.old.boundary) C.decoded self.old (S.state store.old).files) (StandsFor (B.bounds self.new.boundary store.new) (B.file self.new.boundary) C.decoded self.new (S.state store.new).files) }
    {
        let result = write_version(
            self.alloc,
            &self.layout,
            &mut self.latest,
            store,
            base,
            value,
        );
        // It does nothing, and says that the ids of what is held ascend.
        let _ = self.latest.as_slice();
        widened(result)
    }

    /// It leaves each file. What it answers, and what it holds then, follow from the files and from what it held.
    fn try_read_latest_unchecked(
        &mut self,
        store: &mut S,
        turns: &mut Turns,
    ) -> Result<Option<(MonotonicId, T)>, TransactionalObjectError>
        ensures found { IfOk result (λ r. (h : List T) (b : ℕ) → (StandsFor (B.bounds self.old.boundary store.old) (B.file self.old.boundary) C.decoded self.old (S.state store.old).files) h b → LatestOrFenced h b (self.old.latest ≡ []) (λ id. UpTo id self.new.latest) r) }
        ensures kept { Stays (StandsFor (B.bounds self.old.boundary store.old) (B.file self.old.boundary) C.decoded self.old (S.state store.old).files) (StandsFor (B.bounds self.new.boundary store.new) (B.file self.new.boundary) C.decoded self.new (S.state store.new).files) }
        ensures held { IfOk result (λ r. IfSome r (λ read. IsGreatestHeld self.new.latest read.0)) }
        ensures few { (h : List T) (b : ℕ) → (StandsFor (B.bounds self.old.boundary store.old) (B.file self.old.boundary) C.decoded self.old (S.state store.old).files) h b → turns.old + 1 ≤ turns.new + pages_below self.old.layout.names self.old.layout.page (S.state store.old).files }
        ensures enough { (h : List T) (b : ℕ) → (StandsFor (B.bounds self.old.boundary store.old) (B.file self.old.boundary) C.decoded self.old (S.state store.old).files) h b → pages_below self.old.layout.names self.old.layout.page (S.state store.old).files ≤ turns.old + 1 → IsErrOf result TransactionalObjectError.TurnsExhausted → ⊥ }
        ensures warm { (h : List T) (b : ℕ) → (StandsFor (B.bounds self.old.boundary store.old) (B.file self.old.boundary) C.decoded self.old (S.state store.old).files) h b → IsGreatestHeld self.old.latest (length h) → 0 < length h → IsWarmRead (probe_calls (length h)) 0 (λ n. n) h turns.old turns.new (S.state store.old) (S.state store.new) result }
        ensures spends { SpendsTurns 2 6 0 turns.old turns.new (S.state store.old) (S.state store.new) }
        ensures paged { pages_below self.new.layout.names self.new.layout.page (S.state store.new).files ≡ pages_below self.old.layout.names self.old.layout.page (S.state store.old).files }
        ensures cause { IfErr result (HasCauseOfLatestUnchecked (Unheld (StandsFor (B.bounds self.old.boundary store.old) (B.file self.old.boundary) C.decoded self.old (S.state store.old).files)) turns.new (S.state store.old) (S.state store.new)) }
        ensures exact { Ended self.old.layout.names self.old.layout.page (C.decoded self.old.layout.codec) (S.state store.old) (S.state store.new) turns.old turns.new self.old.latest self.new.latest result }
        ensures unmoved { self.new ≡ record { layout = self.old.layout; latest = self.new.latest; boundary = self.old.boundary } }
        ensures placed { laid self.new (B.file self.new.boundary) ≡ laid self.old (B.file self.old.boundary) }
        ensures files { SameFiles (S.state store.old) (S.state store.new) }
    {
        let result = read_latest(self.alloc, &self.layout, &mut self.latest, store, turns);
        // It does nothing, and says that the ids of what is held ascend.
        let _ = self.latest.as_slice();
        widened(result)
    }

    /// The value of the version's file, or nothing where there is none. It leaves each file, and itself.
    fn try_read_unchecked(
        &mut self,
        store: &mut S,
        id: MonotonicId,
    ) -> Result<Option<T>, TransactionalObjectError>
        ensures found { IfOk result (λ r. (h : List T) (b : ℕ) → (StandsFor (B.bounds self.old.boundary store.old) (B.file self.old.boundary) C.decoded self.old (S.state store.old).files) h b → IsEntry h b id r) }
        ensures absent { IsMissing self.old.layout.names (S.state store.old).files id → IfOk result (λ r. r ≡ None) }
        ensures read { ReadsVersion (StandsFor (B.bounds self.old.boundary store.old) (B.file self.old.boundary) C.decoded self.old (S.state store.old).files) (StandsFor (B.bounds self.new.boundary store.new) (B.file self.new.boundary) C.decoded self.new (S.state store.new).files) (laid self.old (B.file self.old.boundary)) (laid self.new (B.file self.new.boundary)) (pages_below self.old.layout.names self.old.layout.page (S.state store.old).files) (pages_below self.new.layout.names self.new.layout.page (S.state store.new).files) (S.state store.old) (S.state store.new) result }
        ensures exact { VersionRead self.old.layout.names (C.decoded self.old.layout.codec) (S.state store.old) (S.state store.new) id result }
        ensures same { self.new ≡ self.old }
    {
        number_fits(id);
        widened(read_version(self.alloc, &self.layout, store, id))
    }

    /// The value of the held version, else of the version's file, which is then put in the window, as `Window::keep` does. It
    /// leaves each file.
    fn try_read_seen(
        &mut self,
        store: &mut S,
        id: MonotonicId,
    ) -> Result<Option<T>, TransactionalObjectError>
        ensures found { IfOk result (λ r. (h : List T) (b : ℕ) → (StandsFor (B.bounds self.old.boundary store.old) (B.file self.old.boundary) C.decoded self.old (S.state store.old).files) h b → IsEntry h b id r) }
        ensures read { ReadsVersion (StandsFor (B.bounds self.old.boundary store.old) (B.file self.old.boundary) C.decoded self.old (S.state store.old).files) (StandsFor (B.bounds self.new.boundary store.new) (B.file self.new.boundary) C.decoded self.new (S.state store.new).files) (laid self.old (B.file self.old.boundary)) (laid self.new (B.file self.new.boundary)) (pages_below self.old.layout.names self.old.layout.page (S.state store.old).files) (pages_below self.new.layout.names self.new.layout.page (S.state store.new).files) (S.state store.old) (S.state store.new) result }
        ensures unasked { is_some (held id self.old.latest) ≡ true → S.state store.new ≡ S.state store.old }
        ensures exact { SeenRead self.old.layout.names (C.decoded self.old.layout.codec) (S.state store.old) (S.state store.new) self.old.latest self.new.latest id result }
        ensures unmoved { self.new ≡ record { layout = self.old.layout; latest = self.new.latest; boundary = self.old.boundary } }
    {
        widened(read_seen(self.alloc, &self.layout, &mut self.latest, store, id))
    }

    /// The versions whose files stand, within the bounds, with what the store tells of each. It leaves each file, and itself.
    fn list(
        &mut self,
        store: &mut S,
        from: Bound<MonotonicId>,
        to: Bound<MonotonicId>,
    ) -> Result<Vec<IdentifiedObjectMetadata<MonotonicId>>, TransactionalObjectError>
        ensures listed { IfOk result (λ r. (h : List T) (b : ℕ) → (StandsFor (B.bounds self.old.boundary store.old) (B.file self.old.boundary) C.decoded self.old (S.state store.old).files) h b → AreListed h b from to (map (λ v. v.id) r.items)) }
        ensures told { IfOk result (λ r. AreTold (λ n. version_path self.old.layout.names n) (S.state store.old).files r.items) }
        ensures kept { Stays (StandsFor (B.bounds self.old.boundary store.old) (B.file self.old.boundary) C.decoded self.old (S.state store.old).files) (StandsFor (B.bounds self.new.boundary store.new) (B.file self.new.boundary) C.decoded self.new (S.state store.new).files) }
        ensures spends { Spends (pages_below self.old.layout.names self.old.layout.page (S.state store.old).files) 0 (S.state store.old) (S.state store.new) }
        ensures paged { pages_below self.new.layout.names self.new.layout.page (S.state store.new).files ≡ pages_below self.old.layout.names self.old.layout.page (S.state store.old).files }
        ensures cause { IfErr result (HasCause (S.state store.old) (S.state store.new)) }
        ensures exact { IfOk result (λ r. VersionsListed self.old.layout.names self.old.layout.page (C.decoded self.old.layout.codec) from to (S.state store.old) (S.state store.new) (Ok r.items)) }
        ensures exact_err { IfErr result (λ error. VersionsListed self.old.layout.names self.old.layout.page (C.decoded self.old.layout.codec) from to (S.state store.old) (S.state store.new) (Err error)) }
        ensures same { self.new ≡ self.old }
        ensures placed { laid self.new (B.file self.new.boundary) ≡ laid self.old (B.file self.old.boundary) }
        ensures files { SameFiles (S.state store.old) (S.state store.new) }
    {
        let versions = list_versions(self.alloc, &self.layout, store, from, to)?;
        Ok(versions.into_vec())
    }

    /// Where it is done no file stands under the version's name, and the version is no longer held. Every other file is left. A
    /// failure of the store leaves the file removed or not, and any other error leaves all.
    fn delete_unchecked(
        &mut self,
        store: &mut S,
        id: MonotonicId,
    ) -> Result<(), TransactionalObjectError>
        ensures removed { OnOk result (IsMissing self.new.layout.names (S.state store.new).files id) }
        ensures kept { (h : List T) (b : ℕ) → (StandsFor (B.bounds self.old.boundary store.old) (B.file self.old.boundary) C.decoded self.old (S.state store.old).files) h b → id ≤ b → StandsFor (B.bounds self.new.boundary store.new) (B.file self.new.boundary) C.decoded self.new (S.state store.new).files h b }
        ensures spends { Spends 1 0 (S.state store.old) (S.state store.new) }
        ensures cause { IfErr result (HasCause (S.state store.old) (S.state store.new)) }
        ensures exact { Deleted self.old.layout.names (C.decoded self.old.layout.codec) id (S.state store.old) (S.state store.new) self.old.latest self.new.latest result }
        ensures unmoved { self.new ≡ record { layout = self.old.layout; latest = self.new.latest; boundary = self.old.boundary } }
        ensures placed { laid self.new (B.file self.new.boundary) ≡ laid self.old (B.file self.old.boundary) }
        ensures removes { MayRemove (version_path self.old.layout.names id) (S.state store.old) (S.state store.new) }
    {
        number_fits(id);
        widened(delete_version(self.alloc, &self.layout, &mut self.latest, store, id))
    }
}
