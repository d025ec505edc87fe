//! Ids, candidates, and a value written and read.
ghost use Rattle.std.specs.Prelude.{◌≡◌, ◌<◌, ◌↔◌, IsTrue};

use std::alloc::{AllocError, Global};
use std::collections::HashSet;
use std::test::Fail;
use txn_store::types::dirty::DirtyObject;
use txn_store::types::id::MonotonicId;
use txn_store::types::test_utils::{NumberCodec, new_dirty_object, round_trip};

/// Ids are equal where their numbers are.
fn is_same(left: MonotonicId, right: MonotonicId) -> bool
    ensures { IsTrue result ↔ (left ≡ right) }
{
    left == right
}

/// Ids are ordered as their numbers.
fn is_below(left: MonotonicId, right: MonotonicId) -> bool
    ensures { IsTrue result ↔ (left < right) }
{
    left < right
}

/// The conversions undo each other.
fn there_and_back(number: u64, id: MonotonicId) -> (u64, MonotonicId)
    ensures number { result.0 ≡ number }
    ensures id { result.1 ≡ id }
{
    (MonotonicId::from(number).into(), u64::from(id).into())
}

/// How many different ids these are.
fn different(alloc: Global, ids: &[MonotonicId]) -> Result<usize, AllocError> {
    let mut set = HashSet::new(alloc);
    for id in ids {
        set.insert(*id)?;
    }
    Ok(set.len())
}

#[test]
fn equal_ids_count_once_in_a_set(rt: HostRuntime) -> Result<(), Fail> {
    let first = MonotonicId::initial();
    let next = first.next();
    assert!(rt; is_same(first, MonotonicId::new(1)) && is_below(first, next));
    assert_eq!(rt; there_and_back(7, first), (7, first));
    let ids = [first, MonotonicId::new(1), next];
    assert_eq!(rt; different(rt.alloc(), &ids)?, 2);
    Ok(())
}

#[test]
fn a_candidate_has_its_id_and_value(rt: HostRuntime) -> Result<(), Fail> {
    let mut dirty = new_dirty_object(7, 40);
    assert!(rt; dirty.id.is(7) && dirty.value == 40);
    let copy: DirtyObject<i32, MonotonicId> = dirty.clone()?;
    dirty.value = 41;
    assert_eq!(rt; (copy.id.id(), copy.value), (7, 40));
    let shown = format!(in rt.alloc(); "{dirty:?}")?;
    let want = "DirtyObject { id: MonotonicId { id: 7 }, value: 41 }";
    assert_eq!(rt; shown.as_str(), want);
    Ok(())
}

#[test]
fn a_codec_reads_what_it_writes(rt: HostRuntime) {
    assert!(rt; matches!(round_trip(&NumberCodec, rt.alloc(), &258), Ok(258)));
}
