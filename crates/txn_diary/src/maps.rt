//! Maps by numbers.
ghost use Rattle.std.specs.Prelude.{◌≡◌, ◌≢◌, ◌≤◌, ℕ, nat_eq, Some, None, IsSome, OnSome};
ghost use Rattle.std.specs.HashMap.{get, spare};
ghost use Rattle.txn_machine.specs.Machine.{used_in};
ghost use Rattle.txn_diary.specs.Maps.{value_at};

use std::collections::HashMap;
use txn_machine::views::used::Used;

/// Enters the value of a number, where there is room.
pub(crate) fn insert_within<V: Drop>(map: &mut HashMap<u64, V>, number: u64, value: V)
    requires { 1 ≤ spare map.old }
    ensures { (n : ℕ) → get nat_eq map.new n ≡ value_at n number (Some value) (get nat_eq map.old n) }
{
    match map.insert(number, value) {
        Ok(_) => {}
        Err(_) => unreachable!(),
    }
}

/// Takes out what stands at a number, and leaves its place, where there is one.
#[inline(always)]
pub(crate) fn taken_from<T: Drop>(
    map: &mut HashMap<u64, Option<Used<T>>>,
    number: u64,
) -> Option<Used<T>>
    ensures taken { result ≡ used_in (get nat_eq map.old number) }
    ensures left { used_in (get nat_eq map.new number) ≡ None }
    ensures place { OnSome result (IsSome (get nat_eq map.new number)) }
    ensures others { (n : ℕ) → n ≢ number → get nat_eq map.new n ≡ get nat_eq map.old n }
{
    match map.get_mut(&number) {
        Some(place) => place.take(),
        None => None,
    }
}

/// Puts a value at a number that has a place.
#[inline(always)]
pub(crate) fn put_into<T: Drop>(
    map: &mut HashMap<u64, Option<Used<T>>>,
    number: u64,
    value: Used<T>,
)
    requires { IsSome (get nat_eq map.old number) }
    ensures here { get nat_eq map.new number ≡ Some (Some value) }
    ensures others { (n : ℕ) → n ≢ number → get nat_eq map.new n ≡ get nat_eq map.old n }
{
    match map.get_mut(&number) {
        Some(place) => *place = Some(value),
        None => unreachable!(),
    }
}

/// Takes out the value of a number, where it has one.
pub(crate) fn remove<V: Drop>(map: &mut HashMap<u64, V>, number: u64)
    ensures { (n : ℕ) → get nat_eq map.new n ≡ value_at n number None (get nat_eq map.old n) }
{
    drop(map.remove(&number));
}
