//! Versions that a listing found.
ghost use Rattle.std.specs.Prelude.{◌≡◌, ◌+◌, ◌≤◌, ◌++◌, [], IfOk, OnErr, vec_len, vec_capacity};
ghost use Rattle.txn_store.specs.types.Numbers.{is_within};
ghost use Rattle.txn_steps.specs.Picked.{chosen_id, picked_one, picked};

use crate::latest::parsed;
use std::alloc::{AllocError, Global};
use std::marker::Model;
use std::ops::Bound;
use txn_store::store::ObjectMeta;
use txn_store::types::id::MonotonicId;
use txn_store::types::identified::IdentifiedObjectMetadata;
use txn_store::types::room::push_within;
use txn_store::version_names::VersionNames;

/// A listed version.
pub type Listed = IdentifiedObjectMetadata<MonotonicId>;

/// Versions that a listing found. A clause sees the list.
#[derive(Drop)]
pub struct Versions {
    versions: Vec<Listed>,
}

impl Model for Versions {
    ghost use Rattle.std.specs.Prelude.{List};
    ghost use Rattle.txn_steps.specs.Listed.{Listed};

    ghost Value = { List Listed };

    ghost view = { λ s. s.versions.items };
}

impl Versions {
    /// No version. It takes no memory.
    pub fn new(alloc: Global) -> Versions
        ensures { result ≡ [] }
    {
        Versions {
            versions: Vec::new(alloc),
        }
    }

    /// The versions, in the order in which they were found. It takes no memory.
    pub fn into_vec(self) -> Vec<Listed>
        ensures { result.items ≡ self }
    {
        self.versions
    }

    /// The versions, lent.
    pub fn as_slice(&self) -> &[Listed]
        ensures { result.now ≡ self.now }
    {
        self.versions.as_slice()
    }

    /// Adds those of listed files that are versions within the bounds. A growth that is refused leaves what was.
    pub(crate) fn add(
        &mut self,
        names: &VersionNames,
        from: Bound<u64>,
        to: Bound<u64>,
        metas: Vec<ObjectMeta>,
    ) -> Result<(), AllocError>
        ensures ok { IfOk result (λ _. self.new ≡ self.old ++ picked names.now from to metas.items) }
        ensures err { OnErr result (self.new ≡ self.old) }
    {
        self.versions.reserve(metas.len())?;
        pick(&mut self.versions, names, from, to, metas);
        Ok(())
    }
}

/// Whether a number lies within both bounds.
fn is_within(from: Bound<u64>, to: Bound<u64>, id: u64) -> bool
    ensures { result ≡ is_within from to id }
{
    let above = match from {
        Bound::Included(bound) => bound <= id,
        Bound::Excluded(bound) => bound < id,
        Bound::Unbounded => true,
    };
    let below = match to {
        Bound::Included(bound) => id <= bound,
        Bound::Excluded(bound) => id < bound,
        Bound::Unbounded => true,
    };
    above && below
}

/// The id of a listed file that is a version within the bounds.
fn chosen(names: &VersionNames, from: Bound<u64>, to: Bound<u64>, meta: &ObjectMeta) -> Option<u64>
    ensures { result ≡ chosen_id names.now from to meta.now }
{
    match parsed(names, meta) {
        Some(id) if is_within(from, to, id) => Some(id),
        _ => None,
    }
}

/// Adds one listed file, if it is a version within the bounds, where there is room.
fn pick_one(
    versions: &mut Vec<Listed>,
    names: &VersionNames,
    from: Bound<u64>,
    to: Bound<u64>,
    meta: ObjectMeta,
)
    requires { vec_len versions.old + 1 ≤ vec_capacity versions.old }
    ensures items { versions.new.items ≡ versions.old.items ++ picked_one (chosen_id names.now from to meta) meta }
    ensures room { vec_len versions.new + vec_capacity versions.old ≤ vec_len versions.old + 1 + vec_capacity versions.new }
{
    if let Some(id) = chosen(names, from, to, &meta) {
        let id = MonotonicId::new(id);
        push_within(
            versions,
            IdentifiedObjectMetadata::from_object_meta(id, meta),
        );
    }
}

/// Adds those of listed files that are versions within the bounds, where there is room.
fn pick(
    versions: &mut Vec<Listed>,
    names: &VersionNames,
    from: Bound<u64>,
    to: Bound<u64>,
    metas: Vec<ObjectMeta>,
)
    requires { vec_len versions.old + vec_len metas ≤ vec_capacity versions.old }
    ensures { versions.new.items ≡ versions.old.items ++ picked names.now from to metas.items }
{
    for meta in metas {
        pick_one(versions, names, from, to, meta);
    }
}
