//! What a client leaves that is killed.
ghost use Rattle.std.specs.Prelude.{◌≡◌, ◌≤◌, ◌<◌, ◌+◌, ◌^◌, ◌++◌, IfOk, Some, map, vec_len, vec_capacity};
ghost use Rattle.txn_history.specs.GoesOn.{as_loose, all_left_loose};
ghost use Rattle.txn_machine.specs.views.Steps.{view_without};
ghost use Rattle.txn_machine.specs.Machine.{ended_by, seen_operations, used_by, with_used};
ghost use Rattle.txn_client_journals.specs.Journals.{as_pair};
ghost use Rattle.txn_diary.specs.Kills.{EndsAt, left_here};
ghost use Rattle.txn_diary.specs.Shown.{views_of};

use crate::standing::Standing;
use crate::tables::Tables;
use std::alloc::{AllocError, Global};
use txn_client_journals::rows::Left;
use txn_client_journals::tables::operations::loose_copy;
use txn_client_journals::tables::views::ViewTable;
use txn_machine::doing::Operation;
use txn_steps::boundary::caches::Caches;
use txn_store::request::Request;
use txn_store::types::codec::ObjectCodec;
use txn_store::types::epoch::EpochField;
use txn_store::types::room::push_within;

/// A copy of the put or the delete that this operation asks for, where one is and the operation is the client's. The only
/// error is want of memory.
fn left_here<T: Drop>(client: u64, operation: &Operation<T>) -> Result<Option<Request>, AllocError>
    ensures { IfOk result (λ left. left ≡ left_here client operation.now) }
{
    if operation.client == client {
        loose_copy(operation.doing.ask())
    } else {
        Ok(None)
    }
}

/// Adds what an operation left, where there is something, where there is room.
fn add_left(lefts: &mut Vec<Left>, op: u64, left: Option<Request>)
    requires { vec_len lefts.old < vec_capacity lefts.old }
    ensures { map as_pair lefts.new.items ≡ map as_pair lefts.old.items ++ as_loose op left }
{
    if let Some(request) = left {
        push_within(lefts, Left { op, request });
    }
}

/// The puts and deletes that the client's operations ask for, in the order of their numbers, of which this is the first. The only
/// error is want of memory.
pub(crate) fn left_by<T: Drop>(
    alloc: Global,
    client: u64,
    first: u64,
    operations: &[Operation<T>],
) -> Result<Vec<Left>, AllocError>
    requires { first ≤ 2 ^ 62 + 1 }
    ensures { IfOk result (λ lefts. map as_pair lefts.items ≡ all_left_loose client first (seen_operations operations.now)) }
{
    let mut lefts = Vec::new(alloc);
    let mut op = first;
    for operation in operations {
        let left = left_here(client, operation)?;
        lefts.reserve(1)?;
        add_left(&mut lefts, op, left);
        op += 1;
    }
    Ok(lefts)
}

/// Ends the operation at this place, where it is the client's.
fn end_at<T: Drop>(operations: &mut Vec<Operation<T>>, client: u64, place: usize)
    requires { place < vec_len operations.old }
    ensures { EndsAt client place operations.old.items operations.new.items }
{
    let operation = &mut operations[place];
    if operation.client == client {
        operation.doing.end();
    }
}

/// Ends the client's operations.
pub(crate) fn end_all<T: Drop>(operations: &mut Vec<Operation<T>>, client: u64)
    ensures { operations.new.items ≡ map (ended_by client) operations.old.items }
{
    for place in 0..operations.len() {
        end_at(operations, client, place);
    }
}

/// Ends the view of this number, where it is the client's.
fn end_view_of<T: Drop>(views: &mut Standing<T>, client: u64, number: u64)
    requires { 1 ≤ number }
    ensures { views_of views.new ≡ with_used (views_of views.old) (Some number) (view_without client (used_by (views_of views.old) (Some number))) }
{
    let Some(used) = views.used(number) else {
        return;
    };
    if used.view.client == client {
        views.put(number, None);
    }
}

/// Ends the client's views.
fn end_views_of<T: Drop>(views: &mut Standing<T>, client: u64)
    ensures { views_of views.new ≡ map (view_without client) (views_of views.old) }
{
    for before in 0..views.count {
        end_view_of(views, client, before + 1);
    }
}

impl<T: Clone, C: ObjectCodec<T> + Drop, E: EpochField<T>> Tables<T, C, E> {
    ghost use Rattle.std.specs.Prelude.{◌≡◌, ◌≤◌, None, IfOk, OnErr};
    ghost use Rattle.txn_client_journals.specs.Journals.{IsKilled};
    ghost use Rattle.txn_diary.specs.Shown.{shown};

    /// The client is killed: what its operations leave. It takes time by how many operations and views there ever were.
    ///
    /// # Errors
    ///
    /// Want of memory alone, which changes nothing.
    pub fn kill(&mut self) -> Result<Vec<Left>, AllocError>
        requires { 1 ≤ self.old.client }
        ensures client { self.new.client ≡ self.old.client }
        ensures layout { self.new.layout ≡ self.old.layout }
        ensures epochs { self.new.epochs ≡ self.old.epochs }
        ensures err { OnErr result (shown self.new ≡ shown self.old) }
        ensures ok { IfOk result (λ lefts. IsKilled self.old.client (shown self.old) lefts.items None (shown self.new)) }
    {
        let lefts = self.calls.left_by(self.alloc, self.client)?;
        self.calls.end_all(self.client);
        end_views_of(&mut self.views, self.client);
        self.caches = Caches::new();
        Ok(lefts)
    }
}
