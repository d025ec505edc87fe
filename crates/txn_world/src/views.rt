//! The views of all clients, as they stand.
ghost use Rattle.std.specs.Prelude.{◌≡◌, ◌||◌, ◌&&◌, ◌==◌, ◌≤◌, ℕ, not, true, false, is_some, Some, IfOk, OnOk, IsSome, nat_eq, vec_len};
ghost use Rattle.std.specs.HashSet.{contains};
ghost use Rattle.std.specs.Option.{ForSome};
ghost use Rattle.txn_history.specs.Lists.{numbered};
ghost use Rattle.txn_history.specs.History.{is_id};
ghost use Rattle.txn_machine.specs.Machine.{used_by};
ghost use Rattle.txn_world.specs.Owning.{owns, owner_of, room_of, stands_for, emptied_where};

use crate::numbers::{clear, new_sets};
use std::alloc::{AllocError, Global};
use std::collections::HashSet;
use txn_client_journals::tables::operations::Usage;
use txn_client_journals::tables::views::{self, Answers, ViewTable};
use txn_history::view::View;
use txn_machine::doing::Ending;
use txn_machine::traces::sets::insert_id;
use txn_machine::views::used::Used;

/// The client of the view of this number, where it stands.
fn owner<T: Drop>(used: &Vec<Option<Used<T>>>, number: u64) -> Option<u64>
    ensures { result ≡ owner_of (used_by used.now.items (Some number)) }
{
    Some(views::get(used, number)?.client)
}

/// Whether the view of this number stands.
fn stands<T: Drop>(used: &Vec<Option<Used<T>>>, number: u64) -> bool
    ensures { result ≡ is_some (used_by used.now.items (Some number)) }
{
    views::get(used, number).is_some()
}

/// Takes a view from its client's, where it ends.
fn disown(owned: &mut Vec<HashSet<u64>>, owner: Option<u64>, number: u64, ends: bool)
    requires some { ForSome owner (λ client. 1 ≤ client) }
    requires within { ForSome owner (λ client. client ≤ vec_len owned.old) }
    ensures left { (c n : ℕ) → owns owned.new.items c n ≡ (owns owned.old.items c n && not (ends && (is_id c owner && (number == n)))) }
    ensures len { vec_len owned.new ≡ vec_len owned.old }
{
    match owner {
        Some(client) if ends => {
            owned[(client - 1) as usize].remove(&number);
        }
        _ => {}
    }
}

/// Makes room for a number among those of a client.
fn make_room(owned: &mut Vec<HashSet<u64>>, client: u64) -> Result<(), AllocError>
    requires some { 1 ≤ client }
    requires within { client ≤ vec_len owned.old }
    ensures same { (c n : ℕ) → owns owned.new.items c n ≡ owns owned.old.items c n }
    ensures len { vec_len owned.new ≡ vec_len owned.old }
    ensures room { OnOk result (1 ≤ room_of owned.new.items client) }
{
    owned[(client - 1) as usize].reserve(1)
}

/// Adds a view to its client's, where it was made, where there is room.
fn own(owned: &mut Vec<HashSet<u64>>, client: u64, number: u64, made: bool)
    requires some { 1 ≤ client }
    requires within { client ≤ vec_len owned.old }
    requires room { 1 ≤ room_of owned.old.items client }
    ensures entered { (c n : ℕ) → owns owned.new.items c n ≡ (owns owned.old.items c n || (made && ((client == c) && (number == n)))) }
    ensures len { vec_len owned.new ≡ vec_len owned.old }
{
    if made {
        insert_id(&mut owned[(client - 1) as usize], number);
    }
}

/// Ends the views of these numbers, which are there.
fn end_views<T: Drop>(used: &mut Vec<Option<Used<T>>>, numbers: &HashSet<u64>)
    requires { (n : ℕ) → contains nat_eq numbers.now n ≡ true → IsSome (numbered used.old.items n) }
    ensures { (n : ℕ) → numbered used.new.items n ≡ emptied_where (contains nat_eq numbers.now n) (numbered used.old.items n) }
{
    for number in numbers {
        used.put(*number, None);
    }
}

/// The views of all clients, numbered from 1. One that has ended is none.
#[derive(Drop)]
pub(crate) struct Views<T> {
    /// How many clients there are.
    pub count: u64,
    pub used: Vec<Option<Used<T>>>,
    /// The numbers of each client's views that have not ended.
    pub owned: Vec<HashSet<u64>>,
    ghost each: { vec_len owned ≡ count },
    ghost all_owned: { (client number : ℕ) → owns owned.items client number ≡ stands_for used.items client number },
}

impl<T: Drop> Views<T> {
    ghost use Rattle.std.specs.Prelude.{◌≡◌, ◌<◌, ◌≤◌, ◌+◌, [], None, Some, IfOk, OnOk, length, map, vec_len, vec_capacity};
    ghost use Rattle.std.specs.Option.{option_copied, ForSome};
    ghost use Rattle.txn_machine.specs.views.Steps.{view_without};
    ghost use Rattle.txn_machine.specs.plain.Doing.{first_of};
    ghost use Rattle.txn_machine.specs.Machine.{seen_view, used_by, let_go, answered, views_changed, views_after, views_taken};
    ghost use Rattle.txn_client_journals.specs.tables.Views.{is_used, IsFromOne};
    ghost use Rattle.txn_world.specs.Owning.{room_of};

    /// So many clients without a view.
    ///
    /// # Errors
    ///
    /// Want of memory alone. There are no views then.
    pub fn new(alloc: Global, count: u64) -> Result<Views<T>, AllocError>
        ensures count { IfOk result (λ views. views.count ≡ count) }
        ensures used { IfOk result (λ views. views.used.items ≡ []) }
    {
        Ok(Views {
            count,
            used: Vec::new(alloc),
            owned: new_sets(alloc, count)?,
        })
    }

    /// How many views were made.
    pub fn len(&self) -> u64
        ensures { result ≡ length self.now.used.items }
    {
        self.used.len() as u64
    }

    /// The view of this number, where it stands.
    pub fn get(&self, number: u64) -> Option<&View<T>>
        ensures { option_copied result ≡ seen_view (used_by self.now.used.items (Some number)) }
    {
        views::get(&self.used, number)
    }

    /// The view that a call uses, where it uses one and that stands.
    pub fn find(&self, view: Option<u64>) -> Option<&View<T>>
        ensures { option_copied result ≡ seen_view (used_by self.now.used.items view) }
    {
        views::find(&self.used, view)
    }

    /// Whether an operation uses the view of this number.
    pub fn is_used(&self, number: u64) -> bool
        ensures { result ≡ is_used (used_by self.now.used.items (Some number)) }
    {
        views::is_used(&self.used, number)
    }

    /// Makes room for a view of this client.
    ///
    /// # Errors
    ///
    /// Want of memory alone. The views are as they were.
    pub fn reserve(&mut self, client: u64) -> Result<(), AllocError>
        requires some { 1 ≤ client }
        requires within { client ≤ self.old.count }
        ensures count { self.new.count ≡ self.old.count }
        ensures used { self.new.used.items ≡ self.old.used.items }
        ensures room { OnOk result (vec_len self.new.used < vec_capacity self.new.used) }
        ensures room_owned { OnOk result (1 ≤ room_of self.new.owned.items client) }
    {
        self.used.reserve(1)?;
        make_room(&mut self.owned, client)
    }

    /// The operation uses the view, where its call uses one that stands.
    pub fn take(&mut self, view: Option<u64>, op: u64)
        requires { IsFromOne view }
        ensures count { self.new.count ≡ self.old.count }
        ensures used { self.new.used.items ≡ views_taken self.old.used.items view op }
    {
        views::take(&mut self.used, view, op);
    }

    /// An operation lets its view go and does not come to it: the view of a claim ends.
    pub fn let_go(&mut self, view: Option<u64>, claims: bool)
        requires { IsFromOne view }
        ensures count { self.new.count ≡ self.old.count }
        ensures used { self.new.used.items ≡ views_changed self.old.used.items view (let_go claims) }
    {
        let Some(number) = view else {
            return;
        };
        let owner = owner(&self.used, number);
        views::let_go(&mut self.used, view, claims);
        let stands = stands(&self.used, number);
        disown(&mut self.owned, owner, number, !stands);
    }

    /// An operation that uses this view has ended: what becomes of the view, and its answer twice.
    fn change(&mut self, number: u64, of: Usage, ending: Ending<T>) -> Option<Answers<T>>
        requires uses { of.view ≡ Some number }
        requires view { 1 ≤ number }
        requires room { vec_len self.old.used < vec_capacity self.old.used }
        ensures count { self.new.count ≡ self.old.count }
        ensures used { self.new.used.items ≡ views_after self.old.used.items of.client of.view of.claims (Some ending) }
        ensures answer { first_of result ≡ answered (length self.old.used.items) of.view (Some ending) }
        ensures twice { ForSome result (λ pair. pair.1 ≡ pair.0) }
    {
        let owner = owner(&self.used, number);
        let answers = views::settle(&mut self.used, of, Some(ending));
        let stands = stands(&self.used, number);
        disown(&mut self.owned, owner, number, !stands);
        answers
    }

    /// An operation that used no view has ended: the view that it makes, where it makes one, and its answer twice.
    fn make(&mut self, of: Usage, ending: Ending<T>) -> Option<Answers<T>>
        requires uses { of.view ≡ None }
        requires some { 1 ≤ of.client }
        requires within { of.client ≤ self.old.count }
        requires room { vec_len self.old.used < vec_capacity self.old.used }
        requires room_owned { 1 ≤ room_of self.old.owned.items of.client }
        ensures count { self.new.count ≡ self.old.count }
        ensures used { self.new.used.items ≡ views_after self.old.used.items of.client of.view of.claims (Some ending) }
        ensures answer { first_of result ≡ answered (length self.old.used.items) of.view (Some ending) }
        ensures twice { ForSome result (λ pair. pair.1 ≡ pair.0) }
    {
        let number = self.len() + 1;
        let answers = views::settle(&mut self.used, of, Some(ending));
        let made = stands(&self.used, number);
        own(&mut self.owned, of.client, number, made);
        answers
    }

    /// What an operation that ends leaves of the views, and its answer twice, where it ends.
    pub fn settle(&mut self, of: Usage, ending: Option<Ending<T>>) -> Option<Answers<T>>
        requires view { IsFromOne of.view }
        requires some { 1 ≤ of.client }
        requires within { of.client ≤ self.old.count }
        requires room { vec_len self.old.used < vec_capacity self.old.used }
        requires room_owned { 1 ≤ room_of self.old.owned.items of.client }
        ensures count { self.new.count ≡ self.old.count }
        ensures used { self.new.used.items ≡ views_after self.old.used.items of.client of.view of.claims ending }
        ensures answer { first_of result ≡ answered (length self.old.used.items) of.view ending }
        ensures twice { ForSome result (λ pair. pair.1 ≡ pair.0) }
    {
        let ending = ending?;
        match of.view {
            Some(number) => self.change(number, of, ending),
            None => self.make(of, ending),
        }
    }

    /// A client loses its views. It takes time by how many of them stand.
    pub fn crash(&mut self, client: u64)
        requires some { 1 ≤ client }
        requires within { client ≤ self.old.count }
        ensures count { self.new.count ≡ self.old.count }
        ensures used { self.new.used.items ≡ map (view_without client) self.old.used.items }
    {
        end_views(&mut self.used, &self.owned[(client - 1) as usize]);
        clear(&mut self.owned, client);
    }
}
