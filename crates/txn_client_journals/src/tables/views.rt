//! The views of clients, as they stand in the order of their numbers, from 1 on. One that has ended is none.
ghost use Rattle.std.specs.Prelude.{◌≡◌, ◌≤◌, ◌<◌, ◌++◌, length, None, Some, vec_len, vec_capacity};
ghost use Rattle.std.specs.Option.{option_copied, ForSome};
ghost use Rattle.txn_machine.specs.plain.Doing.{first_of};
ghost use Rattle.txn_machine.specs.Machine.{seen_view, used_by, with_used, let_go, change_of, made_by, answer_of, answered, views_changed, views_after, views_taken};
ghost use Rattle.txn_client_journals.specs.tables.Views.{as_made, is_used, IsFromOne};

use crate::tables::changes::{comes_to, left, makes, taken};
use crate::tables::operations::Usage;
use txn_history::event::Answer;
use txn_history::view::View;
use txn_machine::doing::Ending;
use txn_machine::views::used::Used;
use txn_store::types::room::push_within;

/// An answer twice: once to be noted, and once to be told.
pub type Answers<T> = (Answer<T>, Answer<T>);

/// The views of clients by their numbers, from 1 on, however they are kept: all of them, or those that stand.
pub trait ViewTable<T> {
    ghost use Rattle.std.specs.Prelude.{◌≡◌, ◌≤◌, ◌++◌, ◌∷◌, ◌+◌, [], ℕ, List, Option, None, Some, IsSome, OnSome, length};
    ghost use Rattle.std.specs.Option.{option_copied};
    ghost use Rattle.txn_machine.specs.views.Layer.{Used};
    ghost use Rattle.txn_machine.specs.Machine.{used_by, with_used};

    /// The views in the order of their numbers. One that has ended is none.
    ghost views: { Self → List (Option (Used T)) };

    /// One view more can be added.
    ghost has_room: { Self → Type 0 };

    /// There is a place for the view of this number.
    ghost has_place: { Self → ℕ → Type 0 };

    /// The number of the next view, where there is room for it.
    fn next(&self) -> u64
        requires { has_room self.now }
        ensures { result ≡ length (views self.now) + 1 };

    /// The view of this number, and what uses it, where it stands.
    fn used(&self, number: u64) -> Option<&Used<T>>
        ensures { option_copied result ≡ used_by (views self.now) (Some number) };

    /// Takes a view out of its place, where it stands.
    fn take_out(&mut self, number: u64) -> Option<Used<T>>
        requires { 1 ≤ number }
        ensures used { result ≡ used_by (views self.old) (Some number) }
        ensures rest { views self.new ≡ with_used (views self.old) (Some number) None }
        ensures place { OnSome result (has_place self.new number) };

    /// Puts this into the place of a view, or nothing.
    fn put(&mut self, number: u64, used: Option<Used<T>>)
        requires some { 1 ≤ number }
        requires place { IsSome used → has_place self.old number }
        ensures { views self.new ≡ with_used (views self.old) (Some number) used };

    /// Adds a view, where there is room.
    fn add(&mut self, used: Used<T>)
        requires { has_room self.old }
        ensures { views self.new ≡ views self.old ++ Some used ∷ [] };
}

/// All views, those that have ended too.
impl<T: Drop> ViewTable<T> for Vec<Option<Used<T>>> {
    ghost use Rattle.std.specs.Prelude.{◌≡◌, ◌<◌, ◌≤◌, ◌++◌, ◌∷◌, [], Some, IsSome, vec_len, vec_capacity};
    ghost use Rattle.txn_machine.specs.Machine.{with_used};

    ghost views = { λ views. views.items };

    ghost has_room = { λ views. vec_len views < vec_capacity views };

    ghost has_place = { λ views number. number ≤ vec_len views };

    fn next(&self) -> u64 {
        self.len() as u64 + 1
    }

    fn used(&self, number: u64) -> Option<&Used<T>> {
        if number == 0 {
            return None;
        }
        match self.get((number - 1) as usize) {
            Some(used) => used.as_ref(),
            None => None,
        }
    }

    fn take_out(&mut self, number: u64) -> Option<Used<T>> {
        if number > self.len() as u64 {
            return None;
        }
        self[(number - 1) as usize].take()
    }

    fn put(&mut self, number: u64, used: Option<Used<T>>)
        requires some { 1 ≤ number }
        requires place { IsSome used → number ≤ vec_len self.old }
        ensures { self.new.items ≡ with_used self.old.items (Some number) used }
    {
        if number <= self.len() as u64 {
            self[(number - 1) as usize] = used;
        }
    }

    fn add(&mut self, used: Used<T>)
        requires { vec_len self.old < vec_capacity self.old }
        ensures { self.new.items ≡ self.old.items ++ Some used ∷ [] }
    {
        push_within(self, Some(used));
    }
}

/// The view of this number, where it stands.
pub fn get<T, V: ViewTable<T>>(views: &V, number: u64) -> Option<&View<T>>
    ensures { option_copied result ≡ seen_view (used_by (V.views views.now) (Some number)) }
{
    Some(&views.used(number)?.view)
}

/// The view that a call uses, where it uses one and that stands.
pub fn find<T, V: ViewTable<T>>(views: &V, view: Option<u64>) -> Option<&View<T>>
    ensures { option_copied result ≡ seen_view (used_by (V.views views.now) view) }
{
    get(views, view?)
}

/// Whether an operation uses the view of this number.
pub fn is_used<T, V: ViewTable<T>>(views: &V, number: u64) -> bool
    ensures { result ≡ is_used (used_by (V.views views.now) (Some number)) }
{
    match views.used(number) {
        Some(used) => used.busy.is_some(),
        None => false,
    }
}

/// Adds a view that is made, where one is, where there is room.
fn add<T: Drop, V: ViewTable<T>>(views: &mut V, made: Option<Used<T>>)
    requires room { V.has_room views.old }
    ensures used { V.views views.new ≡ V.views views.old ++ as_made made }
{
    if let Some(used) = made {
        views.add(used);
    }
}

/// An operation uses the view, where its call uses one that stands.
pub fn take<T: Drop, V: ViewTable<T>>(views: &mut V, view: Option<u64>, op: u64)
    requires { IsFromOne view }
    ensures used { V.views views.new ≡ views_taken (V.views views.old) view op }
{
    let Some(number) = view else {
        return;
    };
    let used = taken(views.take_out(number), op);
    views.put(number, used);
}

/// An operation lets its view go and does not come to it: the view of a claim ends.
pub fn let_go<T: Drop, V: ViewTable<T>>(views: &mut V, view: Option<u64>, claims: bool)
    requires { IsFromOne view }
    ensures used { V.views views.new ≡ views_changed (V.views views.old) view (let_go claims) }
{
    let Some(number) = view else {
        return;
    };
    let used = left(views.take_out(number), claims);
    views.put(number, used);
}

/// An operation that uses this view has ended: what becomes of the view, and the answer.
#[inline(always)]
fn change<T: Drop, V: ViewTable<T>>(
    views: &mut V,
    number: u64,
    claims: bool,
    ending: Ending<T>,
) -> Answers<T>
    requires { 1 ≤ number }
    ensures used { V.views views.new ≡ views_changed (V.views views.old) (Some number) (change_of claims ending) }
    ensures answer { result.0 ≡ answer_of (length (V.views views.old)) (Some number) ending }
    ensures twice { result.1 ≡ result.0 }
{
    let used = views.take_out(number);
    let (used, answers) = comes_to(used, number, claims, ending);
    views.put(number, used);
    answers
}

/// An operation that used no view has ended: the view that it makes, where it makes one, and the answer.
fn make<T: Drop, V: ViewTable<T>>(views: &mut V, client: u64, ending: Ending<T>) -> Answers<T>
    requires room { V.has_room views.old }
    ensures used { V.views views.new ≡ (V.views views.old) ++ made_by client ending }
    ensures answer { result.0 ≡ answer_of (length (V.views views.old)) None ending }
    ensures twice { result.1 ≡ result.0 }
{
    let number = views.next();
    let (made, answers) = makes(client, number, ending);
    add(views, made);
    answers
}

/// What an operation that ends leaves of the views, and its answer twice, where it ends.
#[inline(always)]
pub fn settle<T: Drop, V: ViewTable<T>>(
    views: &mut V,
    of: Usage,
    ending: Option<Ending<T>>,
) -> Option<Answers<T>>
    requires view { IsFromOne of.view }
    requires room { V.has_room views.old }
    ensures used { V.views views.new ≡ views_after (V.views views.old) of.client of.view of.claims ending }
    ensures answer { first_of result ≡ answered (length (V.views views.old)) of.view ending }
    ensures twice { ForSome result (λ pair. pair.1 ≡ pair.0) }
{
    let ending = ending?;
    Some(match of.view {
        Some(number) => change(views, number, of.claims, ending),
        None => make(views, of.client, ending),
    })
}
