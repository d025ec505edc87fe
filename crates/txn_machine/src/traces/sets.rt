//! Sets of numbers.
ghost use Rattle.std.specs.Prelude.{◌≡◌, ◌||◌, ◌≤◌, ◌+◌, ℕ, IfOk, nat_eq};
ghost use Rattle.std.specs.Ordering.{nat_cmp};
ghost use Rattle.std.specs.BTreeSet.{contains as set_contains};
ghost use Rattle.std.specs.HashSet.{contains, spare};
ghost use Rattle.txn_history.specs.Lists.{AreAscending};

use std::alloc::{AllocError, Global};
use std::collections::{BTreeSet, HashSet};

/// Inserts an id where there is room.
pub fn insert_id(ids: &mut HashSet<u64>, id: u64)
    requires { 1 ≤ spare ids.old }
    ensures has { (n : ℕ) → contains nat_eq ids.new n ≡ (contains nat_eq ids.old n || nat_eq n id) }
    ensures spare { spare ids.old ≤ spare ids.new + 1 }
{
    match ids.insert(id) {
        Ok(_) => {}
        Err(_) => unreachable!(),
    }
}

/// The numbers of a set, ascending.
///
/// # Errors
///
/// Want of memory alone, which changes nothing.
pub fn numbers_of(alloc: Global, set: &BTreeSet<u64>) -> Result<Vec<u64>, AllocError>
    ensures { IfOk result (λ list. AreAscending (set_contains nat_cmp set.now) list.items) }
{
    let mut list = Vec::new(alloc);
    for number in set {
        list.push(*number)?;
    }
    Ok(list)
}

/// The numbers of a set, ascending.
///
/// # Errors
///
/// Want of memory alone, which changes nothing.
pub fn ascending(alloc: Global, ids: &HashSet<u64>) -> Result<Vec<u64>, AllocError>
    ensures { IfOk result (λ list. AreAscending (contains nat_eq ids.now) list.items) }
{
    let mut sorted = BTreeSet::new(alloc);
    for id in ids {
        sorted.insert(*id)?;
    }
    numbers_of(alloc, &sorted)
}
