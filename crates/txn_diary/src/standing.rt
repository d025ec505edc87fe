//! The views of a client that stand, which it finds by their numbers.
use crate::maps::{insert_within, put_into, remove, taken_from};
use std::alloc::{AllocError, Global};
use std::collections::HashMap;
use txn_client_journals::tables::views::ViewTable;
use txn_machine::views::used::Used;

/// The views of a client that stand, by their numbers.
#[derive(Drop)]
pub(crate) struct Standing<T: Drop> {
    /// How many views there ever were. They are numbered from 1.
    pub count: u64,
    /// Those that stand. One that has ended is none, or is not here.
    pub used: HashMap<u64, Option<Used<T>>>,
}

impl<T: Drop> Standing<T> {
    ghost use Rattle.std.specs.Prelude.{◌≡◌, [], OnOk, Some, None};
    ghost use Rattle.txn_machine.specs.Machine.{used_by};
    ghost use Rattle.txn_diary.specs.Forgetting.{AreKeptViews};
    ghost use Rattle.txn_diary.specs.Shown.{views_of};
    ghost use Rattle.txn_diary.specs.Room.{HasRoomForView};

    /// No views.
    pub fn new(alloc: Global) -> Standing<T>
        ensures { views_of result ≡ [] }
    {
        Standing {
            count: 0,
            used: HashMap::new(alloc),
        }
    }

    /// Ends the view of this number, where it stands.
    pub fn end(&mut self, number: u64)
        ensures kept { AreKeptViews (views_of self.old) (views_of self.new) }
        ensures ended { used_by (views_of self.new) (Some number) ≡ None }
    {
        if number != 0 {
            self.put(number, None);
        }
    }

    /// Makes room for one view.
    ///
    /// # Errors
    ///
    /// Want of memory alone. The views are as they were.
    pub fn reserve(&mut self) -> Result<(), AllocError>
        ensures views { views_of self.new ≡ views_of self.old }
        ensures room { OnOk result (HasRoomForView self.new) }
    {
        if self.count == u64::MAX {
            return Err(AllocError);
        }
        self.used.reserve(1)
    }
}

impl<T: Drop> ViewTable<T> for Standing<T> {
    ghost use Rattle.std.specs.Prelude.{◌≡◌, ◌≤◌, ◌++◌, ◌∷◌, [], Some, IsSome, nat_eq};
    ghost use Rattle.std.specs.HashMap.{get};
    ghost use Rattle.txn_machine.specs.Machine.{with_used};
    ghost use Rattle.txn_diary.specs.Shown.{views_of};
    ghost use Rattle.txn_diary.specs.Room.{HasRoomForView};

    ghost views = { λ s. views_of s };

    ghost has_room = { λ s. HasRoomForView s };

    ghost has_place = { λ s number. IsSome (get nat_eq s.used number) };

    fn next(&self) -> u64 {
        self.count + 1
    }

    #[inline(always)]
    fn used(&self, number: u64) -> Option<&Used<T>> {
        if number == 0 {
            return None;
        }
        if number > self.count {
            return None;
        }
        match self.used.get(&number) {
            Some(used) => used.as_ref(),
            None => None,
        }
    }

    #[inline(always)]
    fn take_out(&mut self, number: u64) -> Option<Used<T>> {
        if number > self.count {
            return None;
        }
        taken_from(&mut self.used, number)
    }

    #[inline(always)]
    fn put(&mut self, number: u64, used: Option<Used<T>>)
        requires some { 1 ≤ number }
        requires place { IsSome used → IsSome (get nat_eq self.old.used number) }
        ensures { views_of self.new ≡ with_used (views_of self.old) (Some number) used }
    {
        match used {
            Some(used) => put_into(&mut self.used, number, used),
            None => remove(&mut self.used, number),
        }
    }

    fn add(&mut self, used: Used<T>)
        requires { HasRoomForView self.old }
        ensures { views_of self.new ≡ views_of self.old ++ Some used ∷ [] }
    {
        self.count += 1;
        insert_within(&mut self.used, self.count, Some(used));
    }
}
