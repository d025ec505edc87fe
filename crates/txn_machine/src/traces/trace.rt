//! The rows so far, with what is looked up in them.
ghost use Rattle.std.specs.Prelude.{◌≡◌, ◌||◌, ◌++◌, ◌∷◌, [], ◌<◌, ◌≤◌, ◌+◌, ℕ, Some, length, max, if◌then◌else◌, nat_eq, nat_lt, vec_len, vec_capacity};
ghost use Rattle.std.specs.HashSet.{contains, spare};
ghost use Rattle.std.specs.List.{list_any};
ghost use Rattle.std.specs.Option.{ForSome};
ghost use Rattle.txn_history.specs.Names.{world_names, world_boundary};
ghost use Rattle.txn_history.specs.History.{is_id, boundary, was_erased, has_id, versions_of};
ghost use Rattle.txn_history.specs.Calls as plain;
ghost use Rattle.txn_history.specs.Calls.{was_told, is_below_told, tells_id};
ghost use Rattle.txn_machine.specs.traces.Beside.{is_among, epochs_of, plain_count, told_count, ending_count, IsAfforded};

use crate::doing::{Ending, Twice};
use crate::traces::requests::{boundary_after, created_id, created_version, removed_id};
use crate::traces::sets::insert_id;
use std::alloc::{AllocError, Global};
use std::collections::HashSet;
use txn_history::event::{Answer, Call, PlainAnswer};
use txn_history::trace::Row;
use txn_store::request::Request;
use txn_store::types::codec::{CodecFault, ObjectCodec};
use txn_store::types::epoch::EpochField;
use txn_store::types::layout::Layout;
use txn_store::types::room::push_within;

/// The rows so far, where their files lie, and how their values are read. What the rows told, reached, created and
/// erased stands beside them, so that it is looked up and not searched for.
#[derive(Drop)]
pub struct Trace<T: Drop, C: ObjectCodec<T> + Drop, E: EpochField<T>> {
    pub layout: Layout<C>,
    pub field: E,
    pub rows: Vec<Row<T>>,
    /// The ids that were told.
    pub told: HashSet<u64>,
    /// The greatest of them, 0 where there is none.
    pub greatest: u64,
    /// The boundary.
    pub reached: u64,
    /// The ids whose names were removed.
    pub erased: HashSet<u64>,
    /// The ids of the versions.
    pub created: HashSet<u64>,
    /// The epoch of each version, in the order of creation: 0 where the codec does not read its bytes.
    pub epochs: Vec<u64>,
    ghost names: { layout.names ≡ world_names },
    ghost boundary_file: { layout.boundary ≡ world_boundary },
    ghost all_told: { (n : ℕ) → contains nat_eq told n ≡ was_told rows.items n },
    ghost all_below: { (n : ℕ) → nat_lt n greatest ≡ is_below_told rows.items n },
    ghost is_reached: { reached ≡ boundary rows.items },
    ghost all_erased: { (n : ℕ) → contains nat_eq erased n ≡ was_erased rows.items n },
    ghost all_created: { (n : ℕ) → contains nat_eq created n ≡ has_id (versions_of rows.items) n },
    ghost all_epochs: { epochs.items ≡ epochs_of (C.decoded layout.codec) (E.epoch_of field) (versions_of rows.items) },
}

impl<T: Drop, C: ObjectCodec<T> + Drop, E: EpochField<T>> Trace<T, C, E> {
    ghost use Rattle.std.specs.Prelude.{◌≡◌, ◌++◌, ◌∷◌, [], ◌<◌, ◌≤◌, ◌+◌, IfOk, OnOk, Some, vec_len, vec_capacity};
    ghost use Rattle.std.specs.HashSet.{spare};
    ghost use Rattle.std.specs.Option.{ForSome};
    ghost use Rattle.txn_history.specs.Names.{world_names, world_boundary};
    ghost use Rattle.txn_history.specs.History.{created, epoch_at};
    ghost use Rattle.txn_history.specs.declared.trace.RowOf.TheVariants.{Begun, Answered};
    ghost use Rattle.txn_history.specs.Added.{effect_rows};
    ghost use Rattle.txn_history.specs.Calls.{was_told, is_below_told};
    ghost use Rattle.txn_machine.specs.traces.Beside.{epoch_made, told_count, ending_count, IsAfforded};

    pub fn new(alloc: Global, layout: Layout<C>, field: E) -> Trace<T, C, E>
        requires names { layout.names ≡ world_names }
        requires boundary { layout.boundary ≡ world_boundary }
        ensures rows { result.rows.items ≡ [] }
        ensures layout { result.layout ≡ layout }
        ensures field { result.field ≡ field }
    {
        Trace {
            layout,
            field,
            rows: Vec::new(alloc),
            told: HashSet::new(alloc),
            greatest: 0,
            reached: 0,
            erased: HashSet::new(alloc),
            created: HashSet::new(alloc),
            epochs: Vec::new(alloc),
        }
    }

    /// Whether some call answered this id.
    pub fn has_told(&self, id: u64) -> bool
        ensures { result ≡ was_told self.now.rows.items id }
    {
        self.told.contains(&id)
    }

    /// Whether some call answered an id above this.
    pub fn has_told_above(&self, id: u64) -> bool
        ensures { result ≡ is_below_told self.now.rows.items id }
    {
        id < self.greatest
    }

    /// The epoch of entry `number`, 0 where there is none.
    pub fn epoch_at(&self, number: u64) -> u64
        ensures { result ≡ epoch_at (C.decoded self.now.layout.codec) (E.epoch_of self.now.field) self.now.rows.items number }
    {
        if number == 0 {
            return 0;
        }
        match self.epochs.get((number - 1) as usize) {
            Some(epoch) => *epoch,
            None => 0,
        }
    }

    /// The epoch of the version that a request creates: 0 where it creates none, or the codec does not read its bytes.
    ///
    /// # Errors
    ///
    /// Want of memory alone, which changes nothing.
    pub fn epoch_made(&self, alloc: Global, request: &Request) -> Result<u64, AllocError>
        ensures { IfOk result (λ epoch. epoch ≡ epoch_made (C.decoded self.now.layout.codec) (E.epoch_of self.now.field) (created request.now)) }
    {
        let Some((_, bytes)) = created_version(&self.layout.names, request) else {
            return Ok(0);
        };
        match self.layout.codec.decode(alloc, bytes) {
            Ok(value) => Ok(self.field.get_epoch(&value)),
            Err(CodecFault::NoMemory) => Err(AllocError),
            Err(CodecFault::Refused(_)) => Ok(0),
        }
    }

    /// Makes room for the rows of one event, of which two are the most, for an id that is told, and for a version.
    ///
    /// # Errors
    ///
    /// Want of memory alone. The rows are as they were.
    pub fn reserve(&mut self) -> Result<(), AllocError>
        ensures layout { self.new.layout ≡ self.old.layout }
        ensures field { self.new.field ≡ self.old.field }
        ensures rows { self.new.rows.items ≡ self.old.rows.items }
        ensures room { OnOk result (vec_len self.new.rows + 2 ≤ vec_capacity self.new.rows) }
        ensures spare { OnOk result (1 ≤ spare self.new.told) }
        ensures spare_erased { OnOk result (1 ≤ spare self.new.erased) }
        ensures spare_created { OnOk result (1 ≤ spare self.new.created) }
        ensures room_epochs { OnOk result (vec_len self.new.epochs < vec_capacity self.new.epochs) }
    {
        self.rows.reserve(2)?;
        self.erased.reserve(1)?;
        self.created.reserve(1)?;
        self.epochs.reserve(1)?;
        self.told.reserve(1)
    }

    /// Makes room for the ids of an answer, for one of which there is room. Where that growth is refused the answer
    /// becomes the refusal 9, which only a list of ids does.
    pub fn afford(&mut self, ending: Option<Ending<T>>) -> Option<Ending<T>>
        requires room { 1 ≤ spare self.old.told }
        ensures layout { self.new.layout ≡ self.old.layout }
        ensures field { self.new.field ≡ self.old.field }
        ensures rows { self.new.rows.items ≡ self.old.rows.items }
        ensures len { vec_len self.new.rows ≡ vec_len self.old.rows }
        ensures capacity { vec_capacity self.new.rows ≡ vec_capacity self.old.rows }
        ensures afforded { IsAfforded ending result }
        ensures spare { ForSome result (λ e. ending_count e ≤ spare self.new.told) }
    {
        afford(&mut self.told, ending)
    }

    /// Adds that an operation began.
    pub fn begin(&mut self, op: u64, call: Call<T>)
        requires { vec_len self.old.rows < vec_capacity self.old.rows }
        ensures layout { self.new.layout ≡ self.old.layout }
        ensures field { self.new.field ≡ self.old.field }
        ensures rows { self.new.rows.items ≡ self.old.rows.items ++ Begun op call ∷ [] }
        ensures len { vec_len self.new.rows ≡ vec_len self.old.rows + 1 }
        ensures capacity { vec_capacity self.old.rows ≤ vec_capacity self.new.rows }
        ensures spare { spare self.new.told ≡ spare self.old.told }
    {
        push_within(&mut self.rows, Row::Begun(op, call));
    }

    /// Adds the request of an operation, where one changed the store. The epoch is that of the version that it creates.
    pub fn effect(&mut self, op: u64, request: Option<Request>, epoch: u64)
        requires room { vec_len self.old.rows < vec_capacity self.old.rows }
        requires spare_erased { 1 ≤ spare self.old.erased }
        requires spare_created { 1 ≤ spare self.old.created }
        requires room_epochs { vec_len self.old.epochs < vec_capacity self.old.epochs }
        requires epoch { ForSome request (λ done. epoch ≡ epoch_made (C.decoded self.old.layout.codec) (E.epoch_of self.old.field) (created done)) }
        ensures layout { self.new.layout ≡ self.old.layout }
        ensures field { self.new.field ≡ self.old.field }
        ensures rows { self.new.rows.items ≡ self.old.rows.items ++ effect_rows op request }
        ensures len { vec_len self.new.rows ≤ vec_len self.old.rows + 1 }
        ensures capacity { vec_capacity self.old.rows ≤ vec_capacity self.new.rows }
        ensures spare { spare self.new.told ≡ spare self.old.told }
    {
        if let Some(request) = request {
            self.reached = boundary_after(&self.layout.boundary, self.reached, &request);
            insert_within(&mut self.erased, removed_id(&self.layout.names, &request));
            let id = created_id(&self.layout.names, &request);
            enter(&mut self.created, &mut self.epochs, id, epoch);
            push_within(&mut self.rows, Row::Effect(op, request));
        }
    }

    /// Adds an operation's answer.
    pub fn answer(&mut self, op: u64, answer: Answer<T>)
        requires room { vec_len self.old.rows < vec_capacity self.old.rows }
        requires spare { told_count answer ≤ spare self.old.told }
        ensures layout { self.new.layout ≡ self.old.layout }
        ensures field { self.new.field ≡ self.old.field }
        ensures rows { self.new.rows.items ≡ self.old.rows.items ++ Answered op answer ∷ [] }
    {
        tell(&mut self.told, &mut self.greatest, &answer);
        push_within(&mut self.rows, Row::Answered(op, answer));
    }
}

/// Makes room for the ids of an answer, or makes the answer the refusal 9.
fn afford<T: Drop>(told: &mut HashSet<u64>, ending: Option<Ending<T>>) -> Option<Ending<T>>
    requires room { 1 ≤ spare told.old }
    ensures same { (n : ℕ) → contains nat_eq told.new n ≡ contains nat_eq told.old n }
    ensures afforded { IsAfforded ending result }
    ensures spare { ForSome result (λ e. ending_count e ≤ spare told.new) }
{
    match ending? {
        Ending::Answers(answers) => Some(Ending::Answers(afford_ids(told, answers))),
        Ending::Comes(outcome) => Some(Ending::Comes(outcome)),
    }
}

/// Makes room for the ids of an answer of a call without a view, or makes the answer the refusal 9.
fn afford_ids<T: Drop>(told: &mut HashSet<u64>, answers: Twice<T>) -> Twice<T>
    requires room { 1 ≤ spare told.old }
    ensures same { (n : ℕ) → contains nat_eq told.new n ≡ contains nat_eq told.old n }
    ensures afforded { IsAfforded (Some (Ending.Answers answers)) (Some (Ending.Answers result)) }
    ensures spare { plain_count result ≤ spare told.new }
{
    let (answer, copy) = answers.into_answers();
    match answer {
        PlainAnswer::Ids(ids) => match told.reserve(ids.as_slice().len()) {
            Ok(()) => Twice::new(PlainAnswer::Ids(ids), copy),
            Err(_) => Twice::refused(9),
        },
        answer => Twice::new(answer, copy),
    }
}

/// Enters the id and the epoch of a version, where one is created and is not there yet, and there is room.
fn enter(created: &mut HashSet<u64>, epochs: &mut Vec<u64>, id: Option<u64>, epoch: u64)
    requires spare { 1 ≤ spare created.old }
    requires room { vec_len epochs.old < vec_capacity epochs.old }
    ensures created { (n : ℕ) → contains nat_eq created.new n ≡ (contains nat_eq created.old n || is_id n id) }
    ensures epochs { epochs.new.items ≡ (if is_among (contains nat_eq created.old) id then epochs.old.items else epochs.old.items ++ epoch ∷ []) }
{
    match id {
        Some(id) if !created.contains(&id) => {
            insert_id(created, id);
            push_within(epochs, epoch);
        }
        _ => {}
    }
}

/// Inserts an id, where there is one, where there is room.
fn insert_within(ids: &mut HashSet<u64>, id: Option<u64>)
    requires { 1 ≤ spare ids.old }
    ensures { (n : ℕ) → contains nat_eq ids.new n ≡ (contains nat_eq ids.old n || is_id n id) }
{
    if let Some(id) = id {
        insert_id(ids, id);
    }
}

/// Keeps the ids that an answer tells, where there is room.
fn tell<T>(told: &mut HashSet<u64>, greatest: &mut u64, answer: &Answer<T>)
    requires { told_count answer.now ≤ spare told.old }
    ensures told { (n : ℕ) → contains nat_eq told.new n ≡ (contains nat_eq told.old n || tells_id (nat_eq n) answer.now) }
    ensures greatest { (n : ℕ) → nat_lt n greatest.new ≡ (nat_lt n greatest.old || tells_id (nat_lt n) answer.now) }
{
    match answer {
        Answer::Plain(answer) => tell_plain(told, greatest, answer),
        Answer::View(_, id, _) => tell_one(told, greatest, *id),
        Answer::Held(_, id, _, _) => tell_one(told, greatest, *id),
    }
}

/// Keeps the ids that the answer of a call without a view tells, where there is room.
fn tell_plain<T>(told: &mut HashSet<u64>, greatest: &mut u64, answer: &PlainAnswer<T>)
    requires { plain_count answer.now ≤ spare told.old }
    ensures told { (n : ℕ) → contains nat_eq told.new n ≡ (contains nat_eq told.old n || plain.plain_tells_id (nat_eq n) answer.now) }
    ensures greatest { (n : ℕ) → nat_lt n greatest.new ≡ (nat_lt n greatest.old || plain.plain_tells_id (nat_lt n) answer.now) }
{
    match answer {
        PlainAnswer::Wrote(id) => tell_one(told, greatest, *id),
        PlainAnswer::Read(Some((id, _))) => tell_one(told, greatest, *id),
        PlainAnswer::Ids(ids) => tell_all(told, greatest, ids.as_slice()),
        _ => {}
    }
}

/// Keeps an id that is told, where there is room.
fn tell_one(told: &mut HashSet<u64>, greatest: &mut u64, id: u64)
    requires { 1 ≤ spare told.old }
    ensures told { (n : ℕ) → contains nat_eq told.new n ≡ (contains nat_eq told.old n || nat_eq n id) }
    ensures greatest { (n : ℕ) → nat_lt n greatest.new ≡ (nat_lt n greatest.old || nat_lt n id) }
    ensures spare { spare told.old ≤ spare told.new + 1 }
{
    insert_id(told, id);
    *greatest = (*greatest).max(id);
}

/// Keeps ids that are told, where there is room.
fn tell_all(told: &mut HashSet<u64>, greatest: &mut u64, ids: &[u64])
    requires { length ids.now ≤ spare told.old }
    ensures told { (n : ℕ) → contains nat_eq told.new n ≡ (contains nat_eq told.old n || list_any (nat_eq n) ids.now) }
    ensures greatest { (n : ℕ) → nat_lt n greatest.new ≡ (nat_lt n greatest.old || list_any (nat_lt n) ids.now) }
{
    for id in ids {
        tell_one(told, greatest, *id);
    }
}
