//! How often an update tests its invariants.
use crate::tests::uses::a_protocol;
use anyhow::anyhow;
use slatedb_txn_obj::{
    CallbackFault, Invariant, MonotonicId, SimpleTransactionalObject, TransactionalObject,
    TransactionalObjectError, TransactionalStorageProtocol,
};
use std::alloc::{AllocError, Global};
use std::cell::Cell;
use std::test::Fail;
use txn_store::in_memory::InMemory;
use txn_store::store::ObjectStore;

/// A ceiling of numbers that counts how often it is tested.
#[derive(Clone, Copy)]
struct CountedCeiling<'a> {
    ceiling: u64,
    tests: &'a Cell<u64>,
}

impl Invariant<u64> for CountedCeiling<'_> {
    ghost use Rattle.std.specs.Prelude.{◌≤◌};

    ghost holds = { λ i dirty _. dirty ≤ i.ceiling };

    ghost fails = { λ _ _ _ _. Unit {0} };

    fn test(&self, dirty: &u64, _current: &u64) -> Result<(), CallbackFault> {
        self.tests.set(self.tests.get().saturating_add(1));
        if *dirty <= self.ceiling {
            return Ok(());
        }
        Err(CallbackFault::Refused(anyhow!("above its ceiling")))
    }
}

/// These ceilings, two at most, each with where it counts its tests.
fn counted<'a>(
    alloc: Global,
    ceilings: &[u64],
    tests: [&'a Cell<u64>; 2],
) -> Result<Vec<CountedCeiling<'a>>, AllocError> {
    let mut counted = Vec::new(alloc);
    for (ceiling, tests) in ceilings.iter().zip(tests) {
        let ceiling = *ceiling;
        counted.push(CountedCeiling { ceiling, tests })?;
    }
    Ok(counted)
}

/// An update to this number, of a view of 1 under these invariants.
fn updated_under<
    S: ObjectStore,
    P: TransactionalStorageProtocol<u64, MonotonicId, S>,
    I: Invariant<u64> + Drop,
>(
    alloc: Global,
    protocol: &mut P,
    store: &mut S,
    invariants: Vec<I>,
    number: u64,
) -> Result<(), TransactionalObjectError> {
    let view = SimpleTransactionalObject::init(alloc, protocol, store, 1)?;
    let mut view = view.with_invariants(invariants);
    let mut dirty = view.prepare_dirty()?;
    dirty.value = number;
    view.update(protocol, store, dirty)
}

/// The number of the error of an update under these ceilings, two at most, or 0, and how often the first and the second were
/// tested.
fn tested(alloc: Global, ceilings: &[u64], number: u64) -> Result<(u8, u64, u64), Fail> {
    let (first, second) = (Cell::new(0), Cell::new(0));
    let counted = counted(alloc, ceilings, [&first, &second])?;
    let mut protocol = a_protocol(alloc, "test")?;
    let mut store = InMemory::new(alloc);
    let updated = updated_under(alloc, &mut protocol, &mut store, counted, number);
    let error = match &updated {
        Ok(()) => 0,
        Err(error) => error.number(),
    };
    Ok((error, first.get(), second.get()))
}

/// Updates, by what they show: their ceilings and number, and what they tell.
const UPDATES: &[(&str, &[u64], u64, (u8, u64, u64))] = &[
    (
        "test_update_runs_invariants_and_allows_passing_write",
        &[100],
        42,
        (0, 1, 0),
    ),
    (
        "test_update_invariant_failure_aborts_write_and_short_circuits",
        &[5, 1000],
        10,
        (8, 1, 0),
    ),
];

#[test]
fn updates_test_their_invariants(rt: HostRuntime) -> Result<(), Fail> {
    for (name, ceilings, number, told) in UPDATES {
        let tested = tested(rt.alloc(), ceilings, *number)?;
        assert_eq!(rt; (*name, tested), (*name, *told));
    }
    Ok(())
}
