//! The versions that a client keeps: a window of at most eight.
ghost use Rattle.std.specs.Prelude.{◌≡◌, [], ◌≤◌, length};
ghost use Rattle.std.specs.Option.{option_copied};
ghost use Rattle.txn_steps.specs.boundary.Windows.{Ascends, held, greatest_held, kept, without, above, added, place_of};

use crate::boundary::caches::Cached;
use arrayvec::ArrayVec;
use std::marker::Model;
use txn_store::types::id::MonotonicId;

/// At most eight versions in ascending ids, each in a place of the window itself, so that no change of it takes memory.
#[derive(Drop)]
pub struct Window {
    versions: ArrayVec<Cached, 8>,
}

impl Model for Window {
    ghost use Rattle.std.specs.Prelude.{List};
    ghost use Rattle.std.specs.Coded.{coded_list};
    ghost use Rattle.txn_steps.specs.declared.boundary.caches.Cached.{Cached};
    ghost use Rattle.txn_steps.specs.boundary.Windows.{Ascends};

    ghost Value = { List Cached };

    ghost view = { λ s. s.versions.items };

    ghost invariant = { λ s. Ascends s.versions.items };
}

/// Adds a version that isn't held, where its place is this: where eight are held it takes the place of the smallest, if
/// its id is above that.
fn add(versions: &mut ArrayVec<Cached, 8>, place: usize, version: Cached)
    requires place { place ≡ place_of version.id versions.old.items }
    requires within { place ≤ length versions.old.items }
    ensures { versions.new.items ≡ added version versions.old.items }
{
    if !versions.is_full() {
        versions.insert(place, version);
    } else if place > 0 {
        let _smallest = versions.remove(0);
        versions.insert(place - 1, version);
    }
}

impl Window {
    /// A window of no version.
    pub fn new() -> Window
        ensures { result ≡ [] }
    {
        Window {
            versions: ArrayVec::new(),
        }
    }

    /// The versions, in ascending ids.
    pub fn as_slice(&self) -> &[Cached]
        ensures value { result.now ≡ self.now }
        ensures ascends { Ascends self.now }
        ensures few { length self.now ≤ 8 }
    {
        self.versions.as_slice()
    }

    /// The version of this id, where it is held.
    pub fn get(&self, id: MonotonicId) -> Option<&Cached>
        ensures { option_copied result ≡ held id self.now }
    {
        for version in self.versions.as_slice() {
            if version.id == id {
                return Some(version);
            }
        }
        None
    }

    /// The version of the greatest id, where any is held.
    pub fn greatest(&self) -> Option<&Cached>
        ensures { option_copied result ≡ greatest_held self.now }
    {
        self.versions.as_slice().last()
    }

    /// Where a version of this id stands, or would: behind the ids below it.
    fn place(&self, id: MonotonicId) -> usize
        ensures value { result ≡ place_of id self.now }
        ensures within { result ≤ length self.now }
    {
        let mut place = 0;
        for version in self.versions.as_slice() {
            if id <= version.id {
                return place;
            }
            place += 1;
        }
        place
    }

    /// Holds a version. Where its id is held nothing changes; where eight are held it takes the place of the smallest, if
    /// its id is above that, and else nothing changes.
    pub fn keep(&mut self, version: Cached)
        ensures { self.new ≡ kept version self.old }
    {
        if self.get(version.id).is_some() {
            return;
        }
        let place = self.place(version.id);
        add(&mut self.versions, place, version);
    }

    /// Drops the version of this id alone.
    pub fn forget(&mut self, id: MonotonicId)
        ensures { self.new ≡ without id self.old }
    {
        self.versions.retain(|version| version.id != id);
    }

    /// Drops every version at or below this id.
    pub fn forget_through(&mut self, id: MonotonicId)
        ensures { self.new ≡ above id self.old }
    {
        self.versions.retain(|version| version.id > id);
    }
}
